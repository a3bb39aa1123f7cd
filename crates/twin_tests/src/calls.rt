//! Two disks of which a call fails while they are paired, or which are stopped before a call or inside it.

use crate::media::{
    BOTH_CLOSED, CHANGED, EMPTY, Edit, Found, Kind, NO_BYTES, ONE_BYTE_LESS, ONLY_A, ONLY_A_OF_TWO,
    ONLY_B, Set, THREE, TORN, disk_of, found_in, kind_of, stopped,
};
use crate::pairs::{assert_pair_of, paired, wanted};
use ballot_record::Election;
use crash_disk::{Disk, MemoryDisk, Torn};
use image_builder::Scratch;
use std::alloc::Global;
use std::process::Abort;
use std::test::Fail;
use twin_media::{PairFault, Paired, pair};

/// Two disks that become a pair, and how they are found.
type Row = (Edit, Edit, Paired);

const ROWS: [Row; 9] = [
    (THREE, THREE, Paired::Equal),
    (ONLY_B, ONLY_A, Paired::Equal),
    (THREE, EMPTY, Paired::Differed),
    (ONLY_A_OF_TWO, ONLY_B, Paired::Differed),
    (ONLY_A, CHANGED, Paired::Differed),
    (NO_BYTES, THREE, Paired::FirstRestored),
    (BOTH_CLOSED, ONLY_B, Paired::FirstRestored),
    (ONLY_A, ONE_BYTE_LESS, Paired::SecondRestored),
    (CHANGED, BOTH_CLOSED, Paired::SecondRestored),
];

/// Two disks that become a pair, the set that both come to hold, and how they are found.
#[derive(Drop)]
struct Outcome {
    one: Kind,
    two: Kind,
    set: Set,
    paired: Paired,
}

fn outcome_of(rt: &impl Abort, alloc: Global, row: &Row) -> Result<Outcome, Fail> {
    let one = kind_of(rt, alloc, &row.0)?;
    let two = kind_of(rt, alloc, &row.1)?;
    let wanted = wanted((one.found, two.found));
    let (set, paired) = wanted.ok().expect(rt, "a pair");
    assert!(rt; paired == row.2);
    Ok(Outcome {
        one,
        two,
        set,
        paired,
    })
}

/// Two disks that were paired, and why that failed.
#[derive(Drop)]
struct Both {
    first: MemoryDisk,
    second: MemoryDisk,
    fault: Option<PairFault>,
}

/// Pairs two disks of which these calls are to fail; none does at 0.
fn pair_failing(
    rt: &impl Abort,
    alloc: Global,
    outcome: &Outcome,
    failing: (u64, u64),
    scratch: &mut Scratch,
) -> Result<Both, Fail> {
    let mut first = disk_of(rt, alloc, &outcome.one.bytes, failing.0)?;
    let mut second = disk_of(rt, alloc, &outcome.two.bytes, failing.1)?;
    let answer = pair(
        alloc,
        &mut first,
        &mut second,
        &Election::example(),
        scratch,
    );
    let fault = match answer {
        Ok(_) => None,
        Err(fault) => Some(fault),
    };
    Ok(Both {
        first,
        second,
        fault,
    })
}

/// How many calls at least it takes to look at a disk of this kind.
fn looks(kind: &Kind) -> u64 {
    match kind.found {
        Found::Lost if kind.bytes.len() < 610 => 2,
        Found::Lost => 3,
        _ => 4,
    }
}

/// This call of one disk failed. No call of that disk followed, and nothing was written before both were looked at. After
/// the first call of all no other was made.
fn assert_failed(rt: &impl Abort, outcome: &Outcome, both: &Both, failing: (u64, u64)) {
    let calls = (both.first.calls(), both.second.calls());
    if failing.0 > 0 {
        assert!(rt; both.fault == Some(PairFault::FirstFault) && calls.0 == failing.0);
    } else {
        assert!(rt; both.fault == Some(PairFault::SecondFault) && calls.1 == failing.1);
    }
    assert!(rt; failing.0 != 1 || calls.1 == 0);
    if failing.0 <= looks(&outcome.one) && failing.1 <= looks(&outcome.two) {
        assert!(rt; both.first.bytes() == outcome.one.bytes.as_slice());
        assert!(rt; both.second.bytes() == outcome.two.bytes.as_slice());
    }
}

/// Disks that failed or were stopped are to be found as this: each holds what it did or the set of the pair, and a pairing
/// gives that set.
fn assert_kept(rt: &impl Abort, outcome: &Outcome, found: (Found, Found)) {
    let again = wanted(found);
    let (set, paired) = (outcome.set, outcome.paired);
    assert!(rt; again == Ok((set, paired)) || again == Ok((set, Paired::Equal)));
    let new = Found::Holds(set);
    assert!(rt; found.0 == outcome.one.found || found.0 == new);
    assert!(rt; found.1 == outcome.two.found || found.1 == new);
}

/// Pairs two disks of which this call of one fails, and then once more, where none fails. It answers how many calls each
/// had made before.
fn assert_fails(
    rt: &impl Abort,
    alloc: Global,
    outcome: &Outcome,
    failing: (u64, u64),
    scratch: &mut Scratch,
) -> Result<(u64, u64), Fail> {
    let mut both = pair_failing(rt, alloc, outcome, failing, scratch)?;
    assert_failed(rt, outcome, &both, failing);
    let (one, two) = (both.first.calls(), both.second.calls());
    let found = (
        found_in(rt, both.first.bytes()),
        found_in(rt, both.second.bytes()),
    );
    assert_kept(rt, outcome, found);
    let again = paired(rt, alloc, &mut both.first, &mut both.second, scratch);
    assert_eq!(rt; again, wanted(found));
    Ok((
        one.saturating_sub(failing.0.min(1)),
        two.saturating_sub(failing.1.min(1)),
    ))
}

/// Stops two disks after so many calls of each, or inside the next one of one, and pairs what is left of both, and of
/// either beside a disk of no bytes.
fn assert_stopped(
    rt: &impl Abort,
    alloc: Global,
    outcome: &Outcome,
    whole: &Both,
    calls: (u64, u64),
    inside: (bool, bool),
    torn: Torn,
    scratch: &mut Scratch,
) -> Result<(), Fail> {
    let one = stopped(rt, alloc, &whole.first, calls.0, inside.0, torn)?;
    let two = stopped(rt, alloc, &whole.second, calls.1, inside.1, torn)?;
    assert_kept(rt, outcome, (one.found, two.found));
    let lost = Kind {
        bytes: Vec::new(alloc),
        found: Found::Lost,
    };
    assert_pair_of(rt, alloc, &one, &two, scratch)?;
    assert_pair_of(rt, alloc, &one, &lost, scratch)?;
    assert_pair_of(rt, alloc, &lost, &two, scratch)
}

/// This call of one disk fails, and both are stopped before it and inside it.
fn assert_call(
    rt: &impl Abort,
    alloc: Global,
    outcome: &Outcome,
    whole: &Both,
    call: (u64, u64),
    scratch: &mut Scratch,
) -> Result<(), Fail> {
    let before = assert_fails(rt, alloc, outcome, call, scratch)?;
    for inside in [(false, false), (call.0 > 0, call.1 > 0)] {
        for torn in TORN {
            assert_stopped(rt, alloc, outcome, whole, before, inside, torn, scratch)?;
        }
    }
    Ok(())
}

/// The same of each call of both disks.
fn assert_calls(rt: &impl Abort, alloc: Global, row: &Row) -> Result<(), Fail> {
    let mut scratch = Scratch::new(alloc)?;
    let outcome = outcome_of(rt, alloc, row)?;
    let whole = pair_failing(rt, alloc, &outcome, (0, 0), &mut scratch)?;
    assert!(rt; whole.fault == None);
    for call in 0..whole.first.calls() {
        assert_call(rt, alloc, &outcome, &whole, (call + 1, 0), &mut scratch)?;
    }
    for call in 0..whole.second.calls() {
        assert_call(rt, alloc, &outcome, &whole, (0, call + 1), &mut scratch)?;
    }
    Ok(())
}

#[test]
fn each_call_fails_or_is_stopped(rt: HostRuntime) -> Result<(), Fail> {
    for row in &ROWS {
        assert_calls(&rt, rt.alloc(), row)?;
    }
    Ok(())
}
