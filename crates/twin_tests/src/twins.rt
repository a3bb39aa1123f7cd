//! A twin whose calls fail in turn, on either disk, one whose disks are not alike, and one whose disks can count no more
//! calls.

ghost use Rattle.std.specs.Prelude.{◌≡◌, ◌≤◌, ◌∷◌, [], length, None, Some, IfOk};
ghost use Rattle.std.specs.Option.{ForSome};
ghost use Rattle.store_spec.specs.Disk.{IsSettled};
ghost use Rattle.store_spec.specs.Fault.{last_count, next_count};
ghost use Rattle.crash_disk.specs.Recorded.{recorded_sees, recorded_leaves, recorded_calls};

use crash_disk::{Disk, MemoryDisk, Room};
use outside_io::{Failed, Memory};
use std::alloc::Global;
use std::process::Abort;
use std::test::Fail;
use twin_media::Twin;

const ROOM: Room = Room {
    size: 3,
    calls: 9,
    written: 2,
};

// A disk of three bytes, of which this call is to fail; none does at 0.
fn three_bytes(alloc: Global, failing: u64) -> Result<MemoryDisk, Memory>
    ensures bytes { IfOk result (λ disk. recorded_sees disk ≡ Some (1 ∷ 2 ∷ 3 ∷ [])) }
    ensures settled { IfOk result (IsSettled recorded_sees recorded_calls recorded_leaves) }
{
    let bytes = [1, 2, 3].to_vec(alloc)?;
    let disk = MemoryDisk::new(alloc, bytes, [failing].to_vec(alloc)?, ROOM)?;
    Ok(disk)
}

// Makes each of the four calls, and answers which of them succeeded.
fn four_calls<D: Disk>(disk: &mut D) -> [bool; 4]
    requires { ForSome (D.seen disk.old) (λ bytes. 3 ≤ length bytes) }
{
    let size = disk.size().is_ok();
    let read = disk.read(1, &mut [0; 2]).is_ok();
    let written = disk.write_at(1, &[8, 9]).is_ok();
    [size, read, written, disk.sync().is_ok()]
}

// A call over any disk hands on what it leads to.
fn sync_any<D: Disk>(disk: &mut D) -> Result<(), Failed>
    ensures leads { D.leads_to disk.old disk.new }
{
    disk.sync()
}

// Whoever lends two disks to a twin gets each of them back as its own calls left it.
fn sync_both<A: Disk, B: Disk>(first: &mut A, second: &mut B) -> Result<(), Failed>
    requires alike { A.seen first.old ≡ B.seen second.old }
    requires first_settled { IsSettled A.seen A.calls A.may_leave first.old }
    requires second_settled { IsSettled B.seen B.calls B.may_leave second.old }
    ensures first_leads { A.leads_to first.old first.new }
    ensures second_leads { B.leads_to second.old second.new }
{
    let mut twin = Twin::new(first, second);
    sync_any(&mut twin)
}

/// Which of the four calls succeeded, the disk that failed, and the twin's and the second disk's count of calls before
/// and after.
pub type Outcome = ([bool; 4], Option<u32>, (u64, u64), (u64, u64));

// Makes the four calls on a twin of two disks.
pub(crate) fn four_calls_on_both<A: Disk, B: Disk>(first: &mut A, second: &mut B) -> Outcome
    requires alike { A.seen first.old ≡ B.seen second.old }
    requires three { ForSome (A.seen first.old) (λ bytes. 3 ≤ length bytes) }
    requires first_settled { IsSettled A.seen A.calls A.may_leave first.old }
    requires second_settled { IsSettled B.seen B.calls B.may_leave second.old }
{
    let mut twin = Twin::new(first, second);
    let begun = (twin.calls(), twin.second_calls());
    let passed = four_calls(&mut twin);
    (
        passed,
        twin.failed(),
        begun,
        (twin.calls(), twin.second_calls()),
    )
}

/// Which call of the first disk is to fail, or of the second; how many of the twin's calls succeed, and which disk failed
/// then; how many calls each disk has made, and the bytes of each.
type Failure = ((u64, u64), u64, Option<u32>, (u64, u64), ([u8; 3], [u8; 3]));

const OLD: [u8; 3] = [1, 2, 3];

const NEW: [u8; 3] = [1, 8, 9];

const FAILURES: [Failure; 9] = [
    ((1, 0), 0, Some(0), (1, 0), (OLD, OLD)),
    ((2, 0), 1, Some(0), (2, 2), (OLD, OLD)),
    ((3, 0), 2, Some(0), (3, 2), (OLD, OLD)),
    ((4, 0), 3, Some(0), (4, 3), (NEW, NEW)),
    ((0, 1), 0, Some(1), (1, 1), (OLD, OLD)),
    // A read is made on the second disk first.
    ((0, 2), 1, Some(1), (1, 2), (OLD, OLD)),
    ((0, 3), 2, Some(1), (3, 3), (NEW, OLD)),
    ((0, 4), 3, Some(1), (4, 4), (NEW, NEW)),
    ((0, 0), 4, None, (4, 4), (NEW, NEW)),
];

// Of four calls, so many succeed, and no later one.
fn first_ones(passing: u64) -> [bool; 4] {
    [0 < passing, 1 < passing, 2 < passing, 3 < passing]
}

// A disk has made so many calls, and has these bytes.
fn assert_left(rt: &impl Abort, disk: &MemoryDisk, made: u64, bytes: &[u8; 3]) {
    assert!(rt; disk.calls() == made);
    assert!(rt; disk.bytes() == bytes.as_slice());
}

// Each call up to the one that fails succeeds.
fn assert_fails(rt: &impl Abort, alloc: Global, failure: Failure) -> Result<(), Fail> {
    let (failing, passing, failed, made, bytes) = failure;
    let mut first = three_bytes(alloc, failing.0)?;
    let mut second = three_bytes(alloc, failing.1)?;
    let outcome = four_calls_on_both(&mut first, &mut second);
    let wanted = (first_ones(passing), failed, (0, 0), (4, made.1));
    assert!(rt; outcome == wanted);
    assert_left(rt, &first, made.0, &bytes.0);
    assert_left(rt, &second, made.1, &bytes.1);
    Ok(())
}

#[test]
fn each_call_of_each_disk_fails_in_turn(rt: HostRuntime) -> Result<(), Fail> {
    for failure in FAILURES {
        assert_fails(&rt, rt.alloc(), failure)?;
    }
    Ok(())
}

// A disk that tells nothing of its bytes. Each of them is its number, and so is its size. Beside its count of calls it
// keeps how many were made.
#[derive(Drop)]
struct Filled {
    byte: u8,
    calls: u64,
    made: u64,
    ghost within: { calls ≤ last_count },
}

impl Filled {
    fn new(byte: u8, calls: u64) -> Filled {
        Filled {
            byte,
            calls,
            made: 0,
        }
    }

    fn count(&mut self)
        ensures { self.new.calls ≡ next_count self.old.calls }
    {
        self.calls = self.calls.saturating_add(1);
        self.made = self.made.saturating_add(1);
    }
}

impl Disk for Filled {
    ghost use Rattle.std.proofs.Common.{arith};

    ghost seen = { λ _. None };

    ghost may_leave = { λ _ _ _. ⊥ };

    ghost calls = { λ disk. disk.calls };

    ghost faults = { λ _. 0 };

    ghost leads_to = { λ _ _. Unit {0} };

    ghost fails_to = { λ _ _. Unit {0} };

    ghost counted_calls = { λ disk. disk.within };

    ghost counted_faults = { λ _. Prim.omega arith };

    ghost seen_is_crash_image = { λ disk bytes is. Prim.cc };

    ghost crash_images_told = { λ disk moment image left. absurd left };

    ghost leads_to_itself = { λ _. tt };

    ghost leads_on = { λ _ _ _ _ _. tt };

    ghost fails_on = { λ _ _ _ _ _ _. tt };

    fn size(&mut self) -> Result<u64, Failed> {
        self.count();
        Ok(self.byte as u64)
    }

    fn read(&mut self, _at: u64, buf: &mut [u8]) -> Result<(), Failed> {
        self.count();
        buf.fill(self.byte);
        Ok(())
    }

    fn write_at(&mut self, _at: u64, _bytes: &[u8]) -> Result<(), Failed> {
        self.count();
        Ok(())
    }

    fn sync(&mut self) -> Result<(), Failed> {
        self.count();
        Ok(())
    }

    fn calls(&self) -> u64 {
        self.calls
    }
}

#[test]
fn answers_are_those_of_the_first(rt: HostRuntime) {
    let mut first = Filled::new(1, 0);
    let mut second = Filled::new(2, 0);
    let mut twin = Twin::new(&mut first, &mut second);
    let mut buf = [0; 3];
    assert_eq!(rt; twin.read(0, &mut buf), Ok(()));
    assert_eq!(rt; buf, [1; 3]);
    assert_eq!(rt; twin.size(), Ok(1));
}

/// Each disk's count of calls at first, how many calls succeed, and the disk that fails then.
type Counts = ((u64, u64), u64, u32);

// A count of calls at which no more are made.
const LAST: u64 = u64::MAX - 2;

const COUNTS: [Counts; 9] = [
    ((u64::MAX, 0), 0, 0),
    ((LAST, 0), 0, 0),
    ((0, LAST), 0, 1),
    ((LAST, LAST), 0, 0),
    ((LAST - 1, 5), 1, 0),
    ((5, LAST - 1), 1, 1),
    ((LAST - 2, LAST - 1), 1, 1),
    ((LAST - 2, LAST - 2), 2, 0),
    ((LAST - 3, LAST - 3), 3, 0),
];

// Where a count has come so far, neither disk is called any more.
fn assert_counted(rt: &impl Abort, counts: Counts) {
    let (begun, passing, disk) = counts;
    let mut first = Filled::new(1, begun.0);
    let mut second = Filled::new(2, begun.1);
    let outcome = four_calls_on_both(&mut first, &mut second);
    let calls = (begun.0.saturating_add(4), begun.1.saturating_add(passing));
    assert!(rt; outcome == (first_ones(passing), Some(disk), begun, calls));
    assert!(rt; first.made == passing && second.made == passing);
}

#[test]
fn counts_come_to_their_last_value(rt: HostRuntime) {
    for counts in COUNTS {
        assert_counted(&rt, counts);
    }
}
