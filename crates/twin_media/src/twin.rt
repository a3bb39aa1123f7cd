//! A disk over two disks, which stops at its first call that fails.

ghost use Rattle.std.specs.Prelude.{◌≡◌, ◌↔◌, ◌⊎◌, ℕ, ◌+◌, ◌≤◌, ◌<◌, Option, None, Some, is_some, IsTrue, OnOk, OnErr};
ghost use Rattle.std.specs.Option.{ForSome};
ghost use Rattle.std.proofs.Props.{props};
ghost use Rattle.store_spec.specs.Fault.{last_count, next_count, Rose};
ghost use Rattle.outside_io.specs.Count.{count_value};
ghost use Rattle.twin_media.specs.Counts.{AreCounted, IsInStep, IsTwinRefused};

use crash_disk::Disk;
use outside_io::{Count, Failed};

/// Which of two disks: the first.
const FIRST: u32 = 0;

/// Which of two disks: the second.
const SECOND: u32 = 1;

/// Where a disk's count of calls stands here, no further call is made on it, so that no count comes to its last value,
/// which would stand for many moments: not that of a disk, nor the twin's with the call that fails for it.
pub const LAST_MADE: u64 = u64::MAX - 2;

/// A disk over two disks. Each call is made on both, and where none failed both give the same bytes. After its first
/// call that failed it calls neither.
#[derive(Drop)]
pub struct Twin<'a, A: Disk, B: Disk> {
    first: &'a mut A,
    second: &'a mut B,
    /// The first disk's count of calls when the twin began, and the second's.
    first_begun: u64,
    second_begun: u64,
    /// How many calls the first disk had made before the one that failed, or has made where none failed.
    passed: u64,
    /// The disk that failed first. While a call is under way, the disk that is called.
    failed: Option<u32>,
    calls: u64,
    faults: Count,
    ghost told: { is_some (A.seen first.now) ≡ is_some (B.seen second.now) },
    ghost alike: { failed ≡ None → A.seen first.now ≡ B.seen second.now } by { Prim.hlevel props },
    ghost counted: { AreCounted failed (A.calls first.now) (B.calls second.now) first_begun second_begun passed calls },
    ghost within: { calls ≤ last_count },
    ghost sound: { failed ≡ None → count_value faults ≡ 0 },
    ghost named: { ForSome failed (λ disk. disk ≤ 1) },
}

impl<'a, A: Disk, B: Disk> Twin<'a, A, B> {
    ghost use Rattle.store_spec.specs.Disk.{IsSettled};

    /// A twin over two settled disks that give the same bytes, or that both tell none.
    pub fn new(first: &'a mut A, second: &'a mut B) -> Twin<'a, A, B>
        requires alike { A.seen first.old ≡ B.seen second.old }
        requires first_settled { IsSettled A.seen A.calls A.may_leave first.old }
        requires second_settled { IsSettled B.seen B.calls B.may_leave second.old }
        ensures first { result.first ≡ first.entry }
        ensures second { result.second ≡ second.entry }
        ensures first_begun { result.first_begun ≡ A.calls first.old }
        ensures second_begun { result.second_begun ≡ B.calls second.old }
        ensures passed { result.passed ≡ A.calls first.old }
        ensures failed { result.failed ≡ None }
        ensures calls { result.calls ≡ A.calls first.old }
        ensures faults { count_value result.faults ≡ 0 }
        ensures settled { IsSettled ⟦<Twin<'a, A, B> as Disk>⟧.seen
            ⟦<Twin<'a, A, B> as Disk>⟧.calls ⟦<Twin<'a, A, B> as Disk>⟧.may_leave result }
    {
        let calls = first.calls();
        let second_begun = second.calls();
        Twin {
            first,
            second,
            first_begun: calls,
            second_begun,
            passed: calls,
            failed: None,
            calls,
            faults: Count::zero(),
        }
    }

    /// The disk that failed first, 0 for the first and 1 for the second. A disk whose count of calls stands at its last
    /// value, or up to two before it, counts as one that failed.
    pub fn failed(&self) -> Option<u32>
        ensures failed { result ≡ self.now.failed }
        ensures none { result ≡ None → count_value self.now.faults ≡ 0 }
        ensures named { ForSome result (λ disk. disk ≤ 1) }
    {
        self.failed
    }

    /// Whether the count of calls of one of the disks is at its end, so that no further call is made on either.
    pub fn is_counted_out(&self) -> bool
        ensures { IsTrue result ↔ ((last_count ≤ A.calls self.now.first.now + 2)
            ⊎ (last_count ≤ B.calls self.now.second.now + 2)) }
    {
        self.first.calls() >= LAST_MADE || self.second.calls() >= LAST_MADE
    }

    /// The second disk's count of calls.
    pub fn second_calls(&self) -> u64
        ensures { result ≡ B.calls self.now.second.now }
    {
        self.second.calls()
    }
}

impl<'a, A: Disk, B: Disk> Twin<'a, A, B> {
    /// Counts a call, and says that it is under way on this disk. After a call that failed, or where a disk can count
    /// no more calls, it fails in place of the call.
    fn begin(&mut self, disk: u32) -> Result<(), Failed>
        requires { disk ≤ 1 }
        ensures first { self.new.first ≡ self.old.first }
        ensures second { self.new.second ≡ self.old.second }
        ensures first_begun { self.new.first_begun ≡ self.old.first_begun }
        ensures second_begun { self.new.second_begun ≡ self.old.second_begun }
        ensures passed { self.new.passed ≡ self.old.passed }
        ensures calls { self.new.calls ≡ next_count self.old.calls }
        ensures none { OnOk result (self.old.failed ≡ None) }
        ensures first_counts { OnOk result (A.calls self.old.first.now < last_count) }
        ensures second_counts { OnOk result (B.calls self.old.second.now < last_count) }
        ensures first_goes_on { OnOk result (A.calls self.old.first.now + 2 < last_count) }
        ensures under_way { OnOk result (self.new.failed ≡ Some disk) }
        ensures no_fault { OnOk result (self.new.faults ≡ self.old.faults) }
        ensures refused { OnErr result (IsTwinRefused self.old.failed self.new.failed
            (A.calls self.old.first.now) (B.calls self.old.second.now)) }
        ensures fault { OnErr result
            (count_value self.new.faults ≡ next_count (count_value self.old.faults)) }
    {
        self.calls = self.calls.saturating_add(1);
        if self.failed.is_none() {
            if self.first.calls() >= LAST_MADE {
                self.failed = Some(FIRST);
            } else if self.second.calls() >= LAST_MADE {
                self.failed = Some(SECOND);
            } else {
                self.failed = Some(disk);
                return Ok(());
            }
        }
        self.faults.add_one();
        Err(Failed)
    }

    /// The call under way did not fail.
    fn end(&mut self)
        requires passed { self.old.passed < last_count }
        requires counted { IsInStep (A.calls self.old.first.now) (B.calls self.old.second.now)
            self.old.first_begun self.old.second_begun self.old.passed self.old.calls }
        requires alike { A.seen self.old.first.now ≡ B.seen self.old.second.now }
        requires sound { count_value self.old.faults ≡ 0 }
        ensures first { self.new.first ≡ self.old.first }
        ensures second { self.new.second ≡ self.old.second }
        ensures first_begun { self.new.first_begun ≡ self.old.first_begun }
        ensures second_begun { self.new.second_begun ≡ self.old.second_begun }
        ensures passed { self.new.passed ≡ self.old.passed + 1 }
        ensures calls { self.new.calls ≡ self.old.calls }
        ensures faults { self.new.faults ≡ self.old.faults }
        ensures failed { self.new.failed ≡ None }
    {
        self.failed = None;
        self.passed += 1;
    }
}

impl<'a, A: Disk, B: Disk> Disk for Twin<'a, A, B> {
    ghost use Rattle.store_spec.specs.Disk.{disk_model};
    ghost use Rattle.twin_media.specs.State.{twin_leaves};
    ghost use Rattle.twin_media.specs.Leads.{TwinFails, TwinLeads};
    ghost use Rattle.twin_media.specs.TwinLaws.{twin-itself, twin-on, twin-fails, twin-image, twin-told};
    ghost use Rattle.twin_media.specs.Views.{state_of};

    ghost seen = { λ twin. A.seen twin.first.now };

    ghost may_leave = { λ twin. twin_leaves A.calls A.may_leave B.calls B.may_leave (state_of twin) };

    ghost calls = { λ twin. twin.calls };

    ghost faults = { λ twin. count_value twin.faults };

    ghost leads_to = { λ old new. TwinLeads
        (disk_model A.seen A.calls A.may_leave A.faults) A.leads_to
        (disk_model B.seen B.calls B.may_leave B.faults) B.leads_to
        (state_of old) (state_of new) };

    ghost fails_to = { λ old new. TwinFails (state_of old) (state_of new) };

    ghost counted_calls = { λ twin. twin.within };

    ghost counted_faults = { λ twin. twin.faults.within };

    ghost seen_is_crash_image = { λ twin bytes is.
        twin-image A.calls A.may_leave B.calls B.may_leave (state_of twin) bytes
        twin.counted.first_counted (A.seen_is_crash_image twin.first.now bytes is) };

    ghost crash_images_told = { λ twin moment image left.
        twin-told A.calls A.may_leave B.calls B.may_leave (state_of twin) A.seen B.seen twin.told
        (A.crash_images_told twin.first.now) (B.crash_images_told twin.second.now)
        moment image left };

    ghost leads_to_itself = { λ twin. twin-itself
        (disk_model A.seen A.calls A.may_leave A.faults) A.leads_to
        (disk_model B.seen B.calls B.may_leave B.faults) B.leads_to
        A.leads_to_itself B.leads_to_itself (state_of twin) };

    ghost leads_on = { λ old mid new one two. twin-on
        (disk_model A.seen A.calls A.may_leave A.faults) A.leads_to
        (disk_model B.seen B.calls B.may_leave B.faults) B.leads_to
        A.leads_on B.leads_on (state_of old) (state_of mid) (state_of new) one two };

    ghost fails_on = { λ old mid new lead same fails. twin-fails
        (disk_model A.seen A.calls A.may_leave A.faults) A.leads_to
        (disk_model B.seen B.calls B.may_leave B.faults) B.leads_to
        (state_of old) (state_of mid) (state_of new) lead same fails };

    fn size(&mut self) -> Result<u64, Failed> {
        self.begin(FIRST)?;
        let outcome = self.first.size();
        let size = self.faults.counted(outcome)?;
        self.failed = Some(SECOND);
        let outcome = self.second.size();
        self.faults.counted(outcome)?;
        self.end();
        Ok(size)
    }

    fn read(&mut self, at: u64, buf: &mut [u8]) -> Result<(), Failed> {
        self.begin(SECOND)?;
        let outcome = self.second.read(at, buf);
        self.faults.counted(outcome)?;
        self.failed = Some(FIRST);
        let outcome = self.first.read(at, buf);
        self.faults.counted(outcome)?;
        self.end();
        Ok(())
    }

    fn write_at(&mut self, at: u64, bytes: &[u8]) -> Result<(), Failed> {
        self.begin(FIRST)?;
        let outcome = self.first.write_at(at, bytes);
        self.faults.counted(outcome)?;
        self.failed = Some(SECOND);
        let outcome = self.second.write_at(at, bytes);
        self.faults.counted(outcome)?;
        self.end();
        Ok(())
    }

    fn sync(&mut self) -> Result<(), Failed> {
        self.begin(FIRST)?;
        let outcome = self.first.sync();
        self.faults.counted(outcome)?;
        self.failed = Some(SECOND);
        let outcome = self.second.sync();
        self.faults.counted(outcome)?;
        self.end();
        Ok(())
    }

    fn calls(&self) -> u64 {
        self.calls
    }
}
