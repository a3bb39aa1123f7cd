//! A disk in memory, which fails at the calls that it is told.

ghost use Rattle.std.specs.Prelude.{◌≡◌, IsTrue, ◌≤◌, ◌<◌, ◌↔◌, ◌+◌, ◌&&◌, ℕ, min, true, false, [], length, slice_get, slice_range, Some, option_map, is_some, IsSome, IfSome, is_ok, IfOk, OnOk, OnErr, refl};
ghost use Rattle.std.specs.Option.{ForSome};
ghost use Rattle.crash_disk.specs.SeenIsImage.{recording-image};

use crate::disk::Disk;
use crate::entry::{DiskCall, Room};
use crate::failing::{Failing, LaterCalls, ListedCalls};
use crate::recording::Recording;
use crate::stop::Torn;
use outside_io::{Failed, Memory};
use std::alloc::Global;

/// A disk in memory. It keeps a record of all calls, and `W` says which of them fail.
#[derive(Drop)]
pub struct RecordedDisk<W: Drop> {
    recording: Recording,
    when: W,
}

/// A disk in memory that fails at the calls whose numbers it was given.
pub type MemoryDisk = RecordedDisk<ListedCalls>;

/// A disk in memory that passes so many calls and then fails every call.
pub type FusedDisk = RecordedDisk<LaterCalls>;

impl MemoryDisk {
    ghost use Rattle.std.specs.Option.{option_map_or};
    ghost use Rattle.store_spec.specs.Disk.{IsSettled};
    ghost use Rattle.crash_disk.specs.Notes.{state_of};
    ghost use Rattle.crash_disk.specs.Recorded.{recorded_sees, recorded_leaves, recorded_calls, recorded_faults, recorded_made};
    ghost use Rattle.crash_disk.specs.Stop.{left_as, moment_of};

    /// A disk with these bytes, all of them settled. All its memory is taken here. `failing` has the numbers of the
    /// calls that are to fail, counted from 1.
    pub fn new(
        alloc: Global,
        bytes: Vec<u8>,
        failing: Vec<u64>,
        room: Room,
    ) -> Result<MemoryDisk, Memory>
        requires { length bytes.items ≤ room.size }
        ensures bytes { IfOk result (λ disk. recorded_sees disk ≡ Some bytes.items) }
        ensures settled { IfOk result (IsSettled recorded_sees recorded_calls recorded_leaves) }
        ensures no_calls { IfOk result (λ disk. recorded_calls disk ≡ 0) }
        ensures no_faults { IfOk result (λ disk. recorded_faults disk ≡ 0) }
        ensures none_made { IfOk result (λ disk. recorded_made disk ≡ []) }
        ensures failing { IfOk result (λ disk. disk.when.numbers.items ≡ failing.items) }
        ensures room { IfOk result (λ disk. disk.recording.room ≡ room) }
    {
        Ok(RecordedDisk {
            recording: Recording::new(alloc, bytes, room)?,
            when: ListedCalls { numbers: failing },
        })
    }

    /// The call with this index in the record, counted from 0, whether it succeeded or failed. There is none behind
    /// the calls that were made, or behind those that the record has room for.
    pub fn call_made(&self, index: u64) -> Option<DiskCall>
        ensures call { result
            ≡ option_map (λ made. made.call) (slice_get (recorded_made self.now) index) }
        ensures made { IsSome result
            ↔ (index < min (recorded_calls self.now) self.now.recording.room.calls) }
    {
        self.recording.call_made(index)
    }

    /// What that call put: the bytes of a write that succeeded, and none where it is another call or there is none.
    pub fn written(&self, index: u64) -> &[u8]
        ensures { result.now ≡ option_map_or (λ made. made.put)
            (slice_get (recorded_made self.now) index) [] }
    {
        self.recording.put_at(index)
    }

    /// The disk as a stop leaves it, settled, with no calls made and none that are to fail: a stop after so many calls,
    /// or inside the next one. A call that failed changed nothing, so a stop at it or behind it is one like any other.
    pub fn after_stop(
        &self,
        alloc: Global,
        calls: u64,
        inside: bool,
        torn: Torn,
    ) -> Result<MemoryDisk, Memory>
        requires calls { calls ≤ recorded_calls self.now }
        requires next { IsTrue inside → calls < recorded_calls self.now }
        ensures bytes { IfOk result (λ stopped. recorded_sees stopped
            ≡ Some (left_as torn (state_of self.now.recording (moment_of calls inside)))) }
        ensures image { IfOk result (λ stopped. IfSome (recorded_sees stopped)
            (recorded_leaves self.now (moment_of calls inside))) }
        ensures settled { IfOk result (IsSettled recorded_sees recorded_calls recorded_leaves) }
        ensures no_calls { IfOk result (λ stopped. recorded_calls stopped ≡ 0) }
        ensures no_faults { IfOk result (λ stopped. recorded_faults stopped ≡ 0) }
        ensures none_made { IfOk result (λ stopped. recorded_made stopped ≡ []) }
        ensures failing { IfOk result (λ stopped. stopped.when.numbers.items ≡ []) }
        ensures room { IfOk result (λ stopped. stopped.recording.room ≡ self.now.recording.room) }
    {
        let bytes = self.recording.left(alloc, calls, inside, torn)?;
        MemoryDisk::new(alloc, bytes, Vec::new(alloc), self.recording.room)
    }
}

impl FusedDisk {
    ghost use Rattle.store_spec.specs.Disk.{IsSettled};
    ghost use Rattle.crash_disk.specs.Recorded.{recorded_sees, recorded_leaves, recorded_calls, recorded_faults};

    /// A disk with these bytes, all of them settled, that passes so many calls. All its memory is taken here.
    pub fn new(alloc: Global, bytes: Vec<u8>, passes: u64, room: Room) -> Result<FusedDisk, Memory>
        requires { length bytes.items ≤ room.size }
        ensures bytes { IfOk result (λ disk. recorded_sees disk ≡ Some bytes.items) }
        ensures settled { IfOk result (IsSettled recorded_sees recorded_calls recorded_leaves) }
        ensures no_calls { IfOk result (λ disk. recorded_calls disk ≡ 0) }
        ensures no_faults { IfOk result (λ disk. recorded_faults disk ≡ 0) }
        ensures passes { IfOk result (λ disk. disk.when.passes ≡ passes) }
        ensures room { IfOk result (λ disk. disk.recording.room ≡ room) }
    {
        Ok(RecordedDisk {
            recording: Recording::new(alloc, bytes, room)?,
            when: LaterCalls { passes },
        })
    }
}

impl<W: Failing + Drop> RecordedDisk<W> {
    ghost use Rattle.crash_disk.specs.Recorded.{recorded_sees, passes_next};

    /// The bytes that a read gives now.
    pub fn bytes(&self) -> &[u8]
        ensures { recorded_sees self.now ≡ Some result.now }
    {
        &self.recording.bytes
    }

    /// Whether the next call passes, but for the room that a write needs.
    fn may_pass(&self) -> bool
        ensures { result ≡ passes_next W.fails self.now }
    {
        self.recording.calls < self.recording.room.calls
            && !self.when.fails(self.recording.calls + 1)
    }
}

impl<W: Failing + Drop> Disk for RecordedDisk<W> {
    ghost use Rattle.store_spec.specs.Fault.{CountsFault};
    ghost use Rattle.store_spec.specs.Disk.{overwritten, SeenTorn, KeepsCrashImages, AddsNoCrashImage, KeepsThemInside, TearsAtMost, TearsExactly, IsSettled};
    ghost use Rattle.crash_disk.specs.declared.entry.DiskCall.TheVariants.{Size, Read, Write, Sync};
    ghost use Rattle.crash_disk.specs.Recorded.{recorded_sees, recorded_leaves, recorded_calls, recorded_faults, passes_next, Records};
    ghost use Rattle.crash_disk.specs.Calls.{plain_call, write_call};
    ghost use Rattle.crash_disk.specs.Notes.{has_room};

    ghost seen = { recorded_sees };

    ghost may_leave = { recorded_leaves };

    ghost calls = { recorded_calls };

    ghost faults = { recorded_faults };

    ghost leads_to = { λ _ _. Unit {0} };

    ghost fails_to = { λ _ _. Unit {0} };

    ghost counted_calls = { λ disk. disk.recording.counted_calls };

    ghost counted_faults = { λ disk. disk.recording.counted_faults };

    ghost seen_is_crash_image = { λ disk bytes is. recording-image disk.recording bytes is };

    ghost crash_images_told = { λ disk moment bytes left. refl };

    ghost leads_to_itself = { λ _. tt };

    ghost leads_on = { λ _ _ _ _ _. tt };

    ghost fails_on = { λ _ _ _ _ _ _. tt };

    fn size(&mut self) -> Result<u64, Failed>
        ensures passes { is_ok result ≡ passes_next W.fails self.old }
        ensures recorded { Records (plain_call Size (is_ok result)) self.old self.new }
        ensures size { IfOk result
            (λ size. IfSome (recorded_sees self.old) (λ bytes. size ≡ length bytes)) }
        ensures same_bytes { recorded_sees self.new ≡ recorded_sees self.old }
        ensures crash_images { KeepsCrashImages recorded_calls recorded_leaves self.old self.new }
        ensures fault { CountsFault result (recorded_faults self.old) (recorded_faults self.new) }
    {
        let passes = self.may_pass();
        self.recording.size(passes)
    }

    fn read(&mut self, at: u64, buf: &mut [u8]) -> Result<(), Failed>
        requires { ForSome (recorded_sees self.old) (λ bytes. at + length buf.old ≤ length bytes) }
        ensures passes { is_ok result ≡ passes_next W.fails self.old }
        ensures recorded { Records
            (plain_call (Read at (length buf.old)) (is_ok result)) self.old self.new }
        ensures read { OnOk result (IfSome (recorded_sees self.old)
            (λ bytes. buf.new ≡ slice_range bytes at (at + length buf.old))) }
        ensures same_bytes { recorded_sees self.new ≡ recorded_sees self.old }
        ensures crash_images { KeepsCrashImages recorded_calls recorded_leaves self.old self.new }
        ensures fault { CountsFault result (recorded_faults self.old) (recorded_faults self.new) }
    {
        let passes = self.may_pass();
        self.recording.read(at, buf, passes)
    }

    fn write_at(&mut self, at: u64, bytes: &[u8]) -> Result<(), Failed>
        requires { ForSome (recorded_sees self.old) (λ old. at ≤ length old) }
        ensures passes { is_ok result
            ≡ (passes_next W.fails self.old && has_room self.old.recording at (length bytes.now)) }
        ensures recorded { OnOk result (Records (write_call at bytes.now) self.old self.new) }
        ensures recorded_failed { OnErr result
            (Records (plain_call (Write at (length bytes.now)) false) self.old self.new) }
        ensures unchanged { OnErr result (recorded_sees self.new ≡ recorded_sees self.old) }
        ensures unchanged_crash_images { OnErr result
            (KeepsCrashImages recorded_calls recorded_leaves self.old self.new) }
        ensures written { OnOk result
            (recorded_sees self.new
            ≡ option_map (overwritten at bytes.now) (recorded_sees self.old)) }
        ensures torn { OnErr result
            (SeenTorn at (length bytes.now) (recorded_sees self.old) (recorded_sees self.new)) }
        ensures crash_images { TearsAtMost recorded_calls recorded_leaves at
            (length bytes.now) self.old self.new }
        ensures any_bytes { OnOk result
            (TearsExactly recorded_calls recorded_leaves at (length bytes.now) self.old self.new) }
        ensures fault { CountsFault result (recorded_faults self.old) (recorded_faults self.new) }
    {
        let passes = self.may_pass();
        self.recording.write_at(at, bytes, passes)
    }

    fn sync(&mut self) -> Result<(), Failed>
        ensures passes { is_ok result ≡ passes_next W.fails self.old }
        ensures recorded { Records (plain_call Sync (is_ok result)) self.old self.new }
        ensures unchanged { recorded_sees self.new ≡ recorded_sees self.old }
        ensures same_bytes { OnOk result (recorded_sees self.new ≡ recorded_sees self.old) }
        ensures told { is_some (recorded_sees self.new) ≡ is_some (recorded_sees self.old) }
        ensures crash_images { AddsNoCrashImage recorded_calls recorded_leaves self.old self.new }
        ensures inside { KeepsThemInside recorded_calls recorded_leaves self.old self.new }
        ensures settled { OnOk result
            (IsSettled recorded_sees recorded_calls recorded_leaves self.new) }
        ensures unsettled { OnErr result
            (KeepsCrashImages recorded_calls recorded_leaves self.old self.new) }
        ensures fault { CountsFault result (recorded_faults self.old) (recorded_faults self.new) }
    {
        let passes = self.may_pass();
        self.recording.sync(passes)
    }

    fn calls(&self) -> u64 {
        self.recording.calls
    }
}
