//! What the disks in memory share: the bytes, and a record of all calls.

ghost use Rattle.std.specs.Prelude.{◌≡◌, ℕ, ◌+◌, ◌≤◌, ◌<◌, min, length, IsTrue, vec_capacity, vec_len, [], ◌∷◌, ◌++◌};
ghost use Rattle.store_spec.specs.Disk.{overwritten};
ghost use Rattle.store_spec.specs.Fault.{last_count};
ghost use Rattle.crash_disk.specs.Calls.{events_in, AreStored, ChangesNothing, with_one_more};
ghost use Rattle.crash_disk.specs.History.{settled_state, seen_after, begin_within};

use crate::entry::{DiskCall, Entry, Room};
use outside_io::{Failed, Memory};
use std::alloc::Global;

/// The bytes of a disk in memory, as it had them at first and as it has them now, and the record of its calls.
#[derive(Drop)]
pub(crate) struct Recording {
    pub(crate) first: Vec<u8>,
    pub(crate) bytes: Vec<u8>,
    pub(crate) entries: Vec<Entry>,
    pub(crate) written: Vec<u8>,
    pub(crate) calls: u64,
    pub(crate) faults: u64,
    pub(crate) room: Room,
    ghost counted_calls: { calls ≤ last_count },
    ghost counted_faults: { faults ≤ last_count },
    ghost recorded: { length entries.items ≡ min calls room.calls },
    ghost stored: { AreStored written.items entries.items },
    ghost replayed: { bytes.items
        ≡ seen_after first.items (events_in written.items entries.items) },
    ghost begins: { IsTrue
        (begin_within (settled_state first.items) (events_in written.items entries.items)) },
    ghost size: { length bytes.items ≤ room.size },
    ghost put: { length written.items ≤ room.written },
    ghost room_for_bytes: { room.size ≤ vec_capacity bytes },
    ghost room_for_entries: { room.calls ≤ vec_capacity entries },
    ghost room_for_written: { room.written ≤ vec_capacity written },
}

/// Adds an entry to a record of at most so many, unless it is full.
fn add(entries: &mut Vec<Entry>, room: u64, entry: Entry)
    requires { room ≤ vec_capacity entries.old }
    ensures items { entries.new.items ≡ with_one_more room entries.old.items entry }
    ensures capacity { vec_capacity entries.old ≤ vec_capacity entries.new }
{
    if (entries.len() as u64) < room {
        entries.push(entry).unwrap();
    }
}

/// Puts bytes over those of a file from `at` on, and past its end.
pub(crate) fn overwrite(file: &mut Vec<u8>, at: usize, bytes: &[u8])
    requires at { at ≤ length file.old.items }
    requires room { at + length bytes.now ≤ vec_capacity file.old }
    ensures items { file.new.items ≡ overwritten at bytes.now file.old.items }
    ensures capacity { vec_capacity file.old ≤ vec_capacity file.new }
{
    let within = bytes.len().min(file.len() - at);
    file[at..at + within].copy_from_slice(&bytes[..within]);
    file.extend_from_slice(&bytes[within..]).unwrap();
}

impl Recording {
    ghost use Rattle.std.specs.Prelude.{true, false, IsSome, option_map, slice_get, is_ok, IfOk, OnOk, OnErr, nat_lt, nat_le, ◌&&◌, slice_range, ◌↔◌};
    ghost use Rattle.crash_disk.specs.declared.entry.DiskCall.TheVariants.{Size, Read, Write, Sync};
    ghost use Rattle.std.specs.Option.{option_map_or};
    ghost use Rattle.crash_disk.specs.Notes.{Notes, has_room, made_calls};
    ghost use Rattle.crash_disk.specs.Calls.{plain_call, write_call};

    /// A recording of these bytes, and of no calls. All its memory is taken here.
    pub(crate) fn new(alloc: Global, first: Vec<u8>, room: Room) -> Result<Recording, Memory>
        requires { length first.items ≤ room.size }
        ensures bytes { IfOk result (λ recording. recording.bytes.items ≡ first.items) }
        ensures first { IfOk result (λ recording. recording.first.items ≡ first.items) }
        ensures made { IfOk result (λ recording. made_calls recording ≡ []) }
        ensures calls { IfOk result (λ recording. recording.calls ≡ 0) }
        ensures faults { IfOk result (λ recording. recording.faults ≡ 0) }
        ensures room { IfOk result (λ recording. recording.room ≡ room) }
    {
        let mut bytes = Vec::with_capacity(alloc, room.size as usize)?;
        bytes.extend_from_slice(&first)?;
        let entries = Vec::with_capacity(alloc, room.calls as usize)?;
        let written = Vec::with_capacity(alloc, room.written as usize)?;
        Ok(Recording {
            first,
            bytes,
            entries,
            written,
            calls: 0,
            faults: 0,
            room,
        })
    }

    /// The call with this index in the record.
    pub(crate) fn call_made(&self, index: u64) -> Option<DiskCall>
        ensures call { result
            ≡ option_map (λ made. made.call) (slice_get (made_calls self.now) index) }
        ensures made { IsSome result ↔ (index < min self.now.calls self.now.room.calls) }
    {
        self.entries.get(index as usize).map(|entry| entry.call)
    }

    /// What that call put.
    pub(crate) fn put_at(&self, index: u64) -> &[u8]
        ensures { result.now ≡ option_map_or (λ made. made.put)
            (slice_get (made_calls self.now) index) [] }
    {
        match self.entries.get(index as usize) {
            Some(entry) => &self.written[entry.start..entry.start + entry.count],
            None => &[],
        }
    }

    /// Notes a call that puts no bytes.
    fn note(&mut self, call: DiskCall, passed: bool)
        requires { IsTrue passed → ChangesNothing call }
        ensures noted { Notes (plain_call call passed) self.old self.new }
        ensures bytes { self.new.bytes.items ≡ self.old.bytes.items }
    {
        let entry = Entry {
            call,
            passed,
            start: self.written.len(),
            count: 0,
        };
        add(&mut self.entries, self.room.calls, entry);
        self.calls = self.calls.saturating_add(1);
        self.faults = self.faults.saturating_add(if passed { 0 } else { 1 });
    }

    /// Whether one write more has room.
    fn may_write(&self, at: u64, count: usize) -> bool
        requires { at ≤ length self.now.bytes.items }
        ensures { result ≡ has_room self.now at count }
    {
        count as u64 <= self.room.size - at
            && count as u64 <= self.room.written - self.written.len() as u64
    }

    /// How many bytes there are, where the call passes.
    pub(crate) fn size(&mut self, passes: bool) -> Result<u64, Failed>
        requires { IsTrue passes → self.old.calls < self.old.room.calls }
        ensures passes { is_ok result ≡ passes }
        ensures noted { Notes (plain_call Size passes) self.old self.new }
        ensures bytes { self.new.bytes.items ≡ self.old.bytes.items }
        ensures size { IfOk result (λ size. size ≡ length self.old.bytes.items) }
    {
        self.note(DiskCall::Size, passes);
        if passes {
            Ok(self.bytes.len() as u64)
        } else {
            Err(Failed)
        }
    }

    /// Reads the bytes from `at` on, where the call passes.
    pub(crate) fn read(&mut self, at: u64, buf: &mut [u8], passes: bool) -> Result<(), Failed>
        requires within { at + length buf.old ≤ length self.old.bytes.items }
        requires room { IsTrue passes → self.old.calls < self.old.room.calls }
        ensures passes { is_ok result ≡ passes }
        ensures noted { Notes (plain_call (Read at (length buf.old)) passes) self.old self.new }
        ensures bytes { self.new.bytes.items ≡ self.old.bytes.items }
        ensures read { OnOk result
            (buf.new ≡ slice_range self.old.bytes.items at (at + length buf.old)) }
    {
        let call = DiskCall::Read {
            at,
            count: buf.len(),
        };
        self.note(call, passes);
        if !passes {
            return Err(Failed);
        }
        let start = at as usize;
        buf.copy_from_slice(&self.bytes[start..start + buf.len()]);
        Ok(())
    }

    /// Settles what is there, where the call passes.
    pub(crate) fn sync(&mut self, passes: bool) -> Result<(), Failed>
        requires { IsTrue passes → self.old.calls < self.old.room.calls }
        ensures passes { is_ok result ≡ passes }
        ensures noted { Notes (plain_call Sync passes) self.old self.new }
        ensures bytes { self.new.bytes.items ≡ self.old.bytes.items }
    {
        self.note(DiskCall::Sync, passes);
        if passes { Ok(()) } else { Err(Failed) }
    }

    /// Writes over what is there, and past the end, where the call passes and there is room.
    pub(crate) fn write_at(&mut self, at: u64, bytes: &[u8], passes: bool) -> Result<(), Failed>
        requires at { at ≤ length self.old.bytes.items }
        requires room { IsTrue passes → self.old.calls < self.old.room.calls }
        ensures passes { is_ok result ≡ (passes && has_room self.old at (length bytes.now)) }
        ensures noted { OnOk result (Notes (write_call at bytes.now) self.old self.new) }
        ensures noted_failed { OnErr result
            (Notes (plain_call (Write at (length bytes.now)) false) self.old self.new) }
        ensures written { OnOk result
            (self.new.bytes.items ≡ overwritten at bytes.now self.old.bytes.items) }
        ensures unwritten { OnErr result (self.new.bytes.items ≡ self.old.bytes.items) }
    {
        if !(passes && self.may_write(at, bytes.len())) {
            let call = DiskCall::Write {
                at,
                count: bytes.len(),
            };
            self.note(call, false);
            return Err(Failed);
        }
        self.put(at, bytes);
        Ok(())
    }

    /// Writes, and notes it.
    fn put(&mut self, at: u64, bytes: &[u8])
        requires at { at ≤ length self.old.bytes.items }
        requires may_call { self.old.calls < self.old.room.calls }
        requires size { at + length bytes.now ≤ self.old.room.size }
        requires put { length self.old.written.items + length bytes.now ≤ self.old.room.written }
        ensures noted { Notes (write_call at bytes.now) self.old self.new }
        ensures written { self.new.bytes.items ≡ overwritten at bytes.now self.old.bytes.items }
    {
        let count = bytes.len();
        let entry = Entry {
            call: DiskCall::Write { at, count },
            passed: true,
            start: self.written.len(),
            count,
        };
        self.written.extend_from_slice(bytes).unwrap();
        overwrite(&mut self.bytes, at as usize, bytes);
        add(&mut self.entries, self.room.calls, entry);
        self.calls += 1;
    }
}
