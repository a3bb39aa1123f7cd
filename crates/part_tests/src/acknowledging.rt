//! A store in two parts is acknowledged on two disks, of which each call fails in turn, and reported on.

ghost use Rattle.std.specs.Prelude.{◌≡◌, IfOk, List, length};
ghost use Rattle.std.specs.List.{AllZip};
ghost use Rattle.any_store.specs.Checkpointed.{AreMedia};
ghost use Rattle.parted_store.specs.Slots.{parted_disks};
ghost use Rattle.store_spec.specs.Ballot.{Ballot};
ghost use Rattle.store_spec.specs.Disk.{disk_model};
ghost use Rattle.store_spec.specs.Election.{example};

use crate::media::{EMPTY, HIGH, LOW, Set, held, medium_of, opened, opening_calls, two_disks};
use any_store::{Disks, Store};
use crash_disk::{Disk, MemoryDisk};
use image_builder::Scratch;
use outside_io::MemorySink;
use parted_store::{Parts, PartsOf, Two};
use std::alloc::Global;
use std::process::Abort;
use std::test::Fail;
use std::thread::Threads;

/// Acknowledges a store on disks, and answers the part that failed. Whoever lends them gets each back as its own calls
/// left it.
fn renew<A: Disk, B: Disk>(
    store: &PartsOf<Two>,
    first: &mut A,
    more: &mut [B],
    scratch: &mut Scratch,
) -> Option<usize>
    requires two { length more.old ≡ 1 }
    requires media { (set : List Ballot) × AreMedia
        (parted_disks (disk_model A.seen A.calls A.may_leave A.faults)
        (disk_model B.seen B.calls B.may_leave B.faults) 1 (length more.old))
        store.now.store.election set (first.old, more.old) }
    ensures leads { A.leads_to first.old first.new }
    ensures others_lead { AllZip B.leads_to more.old more.new }
{
    let mut disks = Parts::<Two, A, B>::new(first, more);
    match disks.acknowledge(store, scratch) {
        Ok(()) => None,
        Err(_) => disks.failed(),
    }
}

/// The store that has the ballots 1 and 9 in part 0, and ballot 2^64 - 1 in part 1.
fn three_ballots(
    rt: &impl Abort,
    alloc: Global,
    scratch: &mut Scratch,
) -> Result<PartsOf<Two>, Fail>
    ensures { IfOk result (λ store. store.store.election ≡ example) }
{
    let (mut first, mut more) = two_disks(rt, alloc, LOW, HIGH, (0, 0))?;
    opened(alloc, &mut first, &mut more, scratch)
}

/// Opens the empty store whose media two disks have, and acknowledges another one on them.
fn open_and_renew<A: Disk, B: Disk>(
    alloc: Global,
    store: &PartsOf<Two>,
    first: &mut A,
    more: &mut [B],
    scratch: &mut Scratch,
) -> Result<Option<usize>, Fail>
    requires two { length more.old ≡ 1 }
    requires election { store.now.store.election ≡ example }
{
    opened(alloc, first, more, scratch)?;
    Ok(renew(store, first, more, scratch))
}

/// What a disk has after a checkpoint on it, or where none was made.
fn assert_medium(rt: &impl Abort, disk: &MemoryDisk, set: Set) {
    assert!(rt; disk.bytes() == medium_of(set).as_slice());
}

/// What stands on two disks where the checkpoint of this part failed, or of none. That of a part before it was made, and
/// that of one behind it was not begun. It holds the old share itself, or the new one.
fn assert_left(
    rt: &impl Abort,
    alloc: Global,
    failed: Option<usize>,
    first: &mut MemoryDisk,
    more: &mut [MemoryDisk],
) -> Result<(), Fail>
    requires { length more.old ≡ 1 }
{
    match failed {
        None => {
            assert_medium(rt, first, Set::Low);
            assert_medium(rt, &more[0], Set::High);
        }
        Some(0) => {
            assert_medium(rt, &more[0], Set::Empty);
            let count = held(alloc, first, more)?;
            assert!(rt; count == 0 || count == 2);
        }
        Some(_) => {
            assert_medium(rt, first, Set::Low);
            let count = held(alloc, first, more)?;
            assert!(rt; count == 2 || count == 3);
        }
    }
    Ok(())
}

/// Acknowledges three ballots on two empty media, and answers the part that failed.
fn renewed_on(
    rt: &impl Abort,
    alloc: Global,
    first: &mut MemoryDisk,
    more: &mut [MemoryDisk],
) -> Result<Option<usize>, Fail>
    requires { length more.old ≡ 1 }
    ensures { length more.new ≡ length more.old }
{
    let mut scratch = Scratch::new(alloc)?;
    let store = three_ballots(rt, alloc, &mut scratch)?;
    open_and_renew(alloc, &store, first, more, &mut scratch)
}

/// The same on media of which these calls are to fail; none does at 0. It answers the part that failed, and how many
/// calls each disk had seen.
fn renewed_with(
    rt: &impl Abort,
    alloc: Global,
    failing: (u64, u64),
) -> Result<(Option<usize>, (u64, u64)), Fail> {
    let (mut first, mut more) = two_disks(rt, alloc, EMPTY, EMPTY, failing)?;
    let failed = renewed_on(rt, alloc, &mut first, &mut more)?;
    let calls = (first.calls(), more[0].calls());
    assert_left(rt, alloc, failed, &mut first, &mut more)?;
    Ok((failed, calls))
}

#[test]
fn each_call_of_a_checkpoint_fails_in_turn(rt: HostRuntime) -> Result<(), Fail> {
    let alloc = rt.alloc();
    let opened = opening_calls(&rt, alloc)?;
    let (none, calls) = renewed_with(&rt, alloc, (0, 0))?;
    assert!(rt; none.is_none());
    for call in opened.0..calls.0 {
        let (failed, made) = renewed_with(&rt, alloc, (call.saturating_add(1), 0))?;
        assert!(rt; failed == Some(0) && made.1 == opened.1);
    }
    for call in opened.1..calls.1 {
        let (failed, made) = renewed_with(&rt, alloc, (0, call.saturating_add(1)))?;
        assert!(rt; failed == Some(1) && made.0 == calls.0);
    }
    Ok(())
}

const EXPORT: &str = "export 3\n1 1 -/-\n9 1 -/-\n18446744073709551615 1 -/-\n";

const TALLY: &str = "tally 3\n\
    contest 1 under 3 over 0\n\
    choice 1 1 0\n\
    choice 1 2 0\n\
    choice 1 3 0\n\
    choice 1 4 0\n\
    contest 2 under 6 over 0\n\
    choice 2 1 0\n\
    choice 2 2 0\n\
    choice 2 3 0\n";

fn assert_exports(rt: &impl Abort, alloc: Global, store: &PartsOf<Two>) -> Result<(), Fail> {
    let mut lines = MemorySink::new(alloc, 65536, Vec::new(alloc))?;
    store.export(alloc, &mut lines)?;
    assert!(rt; lines.bytes() == EXPORT.as_bytes());
    Ok(())
}

fn assert_tallies<R: Threads + Sync + Abort>(
    rt: &R,
    alloc: Global,
    store: &PartsOf<Two>,
) -> Result<(), Fail> {
    let mut counts = MemorySink::new(alloc, 65536, Vec::new(alloc))?;
    store.tally(rt, alloc, &mut counts)?;
    assert!(rt; counts.bytes() == TALLY.as_bytes());
    Ok(())
}

#[test]
fn reports_on_two_parts(rt: HostRuntime) -> Result<(), Fail> {
    let alloc = rt.alloc();
    let mut scratch = Scratch::new(alloc)?;
    let store = three_ballots(&rt, alloc, &mut scratch)?;
    assert!(rt; store.len() == 3);
    assert_exports(&rt, alloc, &store)?;
    assert_tallies(&rt, alloc, &store)
}
