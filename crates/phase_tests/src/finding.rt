//! The example election's store: numbers that share a home, and numbers that are not held, one by one and in lists that
//! are looked up at once.

use crate::stores::{FOUR, assert_seen, ballot, holding, number_lists, same};
use ballot_record::Election;
use body_store::Closed;
use fake_turns::{Meeting, SeenWords};
use outside_io::{Memory, NoTurns, Turns};
use phase_find::{find, is_held, run_find};
use std::alloc::Global;
use std::process::Abort;
use std::test::Fail;
use std::thread::Threads;

fn assert_held(rt: &impl Abort, store: &Closed, numbers: &[u64]) {
    for number in numbers {
        let blank = Some(ballot(*number, 0));
        assert_eq!(rt; find(store, *number), blank, "{number}");
        assert!(rt; is_held(store, *number), "{number}");
    }
}

fn assert_not_held(rt: &impl Abort, store: &Closed, numbers: &[u64]) {
    for number in numbers {
        assert_eq!(rt; find(store, *number), None, "{number}");
        assert!(rt; !is_held(store, *number), "{number}");
    }
}

#[test]
fn held_and_not_held(rt: HostRuntime) -> Result<(), Fail> {
    let four = holding(&rt, rt.alloc(), &FOUR)?;
    assert_held(&rt, &four, &[1, 9, 14, 22]);
    assert_not_held(&rt, &four, &[0, 2, 5, 10, 17, u64::MAX]);
    let empty = Closed::empty(rt.alloc(), &Election::example())?;
    assert_not_held(&rt, &empty, &[0, 1, 9]);
    Ok(())
}

/// Lists that are looked up at once in the store of four ballots have these answers.
fn finds<R: Threads + Abort + Sync, T: Turns>(
    rt: &R,
    alloc: Global,
    lists: &[&[u64]],
    turns: &T,
    wanted: &[&[bool]],
) -> Result<(), Memory> {
    let four = holding(rt, alloc, &FOUR)?;
    let work = number_lists(alloc, lists)?;
    let found = run_find(rt, alloc, &four, &work, turns)?;
    same(rt, &found, wanted);
    Ok(())
}

#[test]
fn lists_of_any_length(rt: HostRuntime) -> Result<(), Fail> {
    let lists: [&[u64]; 4] = [&[1, 2, 9, 1], &[], &[0, 22], &[5, 17, 14, u64::MAX]];
    let wanted: [&[bool]; 4] = [
        &[true, false, true, true],
        &[],
        &[false, true],
        &[false, false, true, false],
    ];
    finds(&rt, rt.alloc(), &lists, &NoTurns, &wanted)?;
    finds(&rt, rt.alloc(), &[], &NoTurns, &[])?;
    Ok(())
}

#[test]
fn the_word_at_home_is_seen(rt: HostRuntime) -> Result<(), Fail> {
    let seen = SeenWords::new();
    let wanted: [&[bool]; 1] = [&[true, false, true, true]];
    finds(&rt, rt.alloc(), &[&[1, 2, 14, 22]], &seen, &wanted)?;
    assert_seen(&rt, &seen, &[22, 0, 14, 22]);
    Ok(())
}

#[test]
fn two_workers_at_once(rt: HostRuntime) -> Result<(), Fail> {
    let meeting = Meeting::new();
    finds(
        &rt,
        rt.alloc(),
        &[&[9], &[2]],
        &meeting,
        &[&[true], &[false]],
    )?;
    assert_eq!(rt; meeting.met(), 2);
    Ok(())
}
