//! Withdrawing phases of the example election.

use crate::phases::{alone, leads, run};
use crate::stores::{Brief, FOUR, assert_seen, holding, holds, number_lists, same};
use body_store::Closed;
use fake_turns::{Meeting, SeenWords};
use outside_io::{Memory, NoTurns, Turns};
use phase_delete::Withdrawing;
use std::alloc::Global;
use std::process::Abort;
use std::test::Fail;
use std::thread::Threads;
use step_core::WithdrawReply;
use step_core::WithdrawReply::{Absent, Gone, Withdrawn};

/// The lists that are withdrawn from four ballots, and the replies. Two ballots are left.
type Case = (
    &'static [&'static [u64]],
    &'static [&'static [WithdrawReply]],
);

static CASES: [Case; 3] = [
    (&[&[22, 5, 9, 9]], &[&[Withdrawn, Absent, Withdrawn, Gone]]),
    (
        &[&[22, 5], &[9, 9]],
        &[&[Withdrawn, Absent], &[Withdrawn, Gone]],
    ),
    (
        &[&[22, 5], &[], &[9, 9, 0]],
        &[&[Withdrawn, Absent], &[], &[Withdrawn, Gone, Absent]],
    ),
];

/// This is a function, so that the cases stand in the proof of one.
fn cases() -> &'static [Case] {
    &CASES
}

/// The store after a withdrawing phase of these lists, with these replies.
fn withdraws<R: Threads + Abort + Sync, T: Turns>(
    rt: &R,
    alloc: Global,
    before: Closed,
    lists: &[&[u64]],
    turns: &T,
    wanted: &[&[WithdrawReply]],
) -> Result<Closed, Memory> {
    let work = number_lists(alloc, lists)?;
    leads::<Withdrawing, R, T>(rt, alloc, before, &work, turns, wanted)
}

fn withdraws_as<R: Threads + Abort + Sync>(
    rt: &R,
    alloc: Global,
    case: &Case,
) -> Result<(), Memory> {
    for _ in 0..50 {
        let four = holding(rt, alloc, &FOUR)?;
        let after = withdraws(rt, alloc, four, case.0, &NoTurns, case.1)?;
        holds(rt, &after, &[(4, 1), (5, 14)]);
    }
    Ok(())
}

#[test]
fn lists_of_numbers(rt: HostRuntime) -> Result<(), Fail> {
    for case in cases() {
        withdraws_as(&rt, rt.alloc(), case)?;
    }
    Ok(())
}

/// One withdrawer of a store of two ballots withdraws one number.
fn withdraws_22<R: Threads + Abort + Sync>(rt: &R, alloc: Global) -> Result<(), Memory> {
    let two = holding(rt, alloc, &[(9, 0), (22, 0)])?;
    let list = Vec::from_slice(alloc, &[22])?;
    let tab = alone::<Withdrawing>(rt, alloc, two, &list, Withdrawn, (22, 9))?;
    assert_eq!(rt; tab.items().as_slice(), [22].as_slice());
    Ok(())
}

/// One withdrawer, which is asked by itself.
#[test]
fn one_number(rt: HostRuntime) -> Result<(), Fail> {
    withdraws_22(&rt, rt.alloc())?;
    Ok(())
}

fn two_withdrawn<R: Threads + Abort + Sync, T: Turns>(
    rt: &R,
    alloc: Global,
    turns: &T,
) -> Result<(), Memory> {
    let four = holding(rt, alloc, &FOUR)?;
    let wanted: [&[WithdrawReply]; 2] = [&[Withdrawn], &[Withdrawn]];
    let rest = withdraws(rt, alloc, four, &[&[22], &[14]], turns, &wanted)?;
    holds(rt, &rest, &[(4, 9), (5, 1)]);
    Ok(())
}

#[test]
fn two_at_once(rt: HostRuntime) -> Result<(), Fail> {
    let meeting = Meeting::new();
    two_withdrawn(&rt, rt.alloc(), &meeting)?;
    assert_eq!(rt; meeting.met(), 2);
    Ok(())
}

fn one_left<R: Threads + Abort + Sync, T: Turns>(
    rt: &R,
    alloc: Global,
    turns: &T,
) -> Result<(), Memory> {
    let held: [Brief; 5] = [(1, 0), (9, 0), (14, 0), (17, 0), (22, 0)];
    let five = holding(rt, alloc, &held)?;
    let one = withdraws(
        rt,
        alloc,
        five,
        &[&[22, 9, 17, 1]],
        turns,
        &[&[Withdrawn; 4]],
    )?;
    holds(rt, &one, &[(5, 14)]);
    Ok(())
}

#[test]
fn words_seen(rt: HostRuntime) -> Result<(), Fail> {
    let seen = SeenWords::new();
    one_left(&rt, rt.alloc(), &seen)?;
    assert_seen(&rt, &seen, &[22, 17, 17, 1]);
    Ok(())
}

/// What two lists are told of one number, by whether the first withdrew it.
fn once(is_first: bool) -> (WithdrawReply, WithdrawReply) {
    if is_first {
        (Withdrawn, Gone)
    } else {
        (Gone, Withdrawn)
    }
}

/// Two lists of which each number is withdrawn once: 9 and 14 by one or the other.
fn assert_once(rt: &impl Abort, replies: &[Vec<WithdrawReply>]) {
    let first: &[WithdrawReply] = replies.first().map_or(&[], |list| list.as_slice());
    let (nine, other_nine) = once(first.get(1) == Some(&Withdrawn));
    let (fourteen, other_fourteen) = once(first.get(2) == Some(&Withdrawn));
    same(
        rt,
        replies,
        &[
            &[Absent, nine, fourteen],
            &[other_nine, other_fourteen, Withdrawn],
        ],
    );
}

fn withdraws_once<R: Threads + Abort + Sync>(rt: &R, alloc: Global) -> Result<(), Memory> {
    let four = holding(rt, alloc, &FOUR)?;
    let work = number_lists(alloc, &[&[0, 9, 14], &[9, 14, 1]])?;
    let (one, replies) = run::<Withdrawing, R, NoTurns>(rt, alloc, four, &work, &NoTurns)?;
    holds(rt, &one, &[(4, 22)]);
    assert_once(rt, &replies);
    Ok(())
}

#[test]
fn one_number_from_two_threads(rt: HostRuntime) -> Result<(), Fail> {
    for _ in 0..50 {
        withdraws_once(&rt, rt.alloc())?;
    }
    Ok(())
}
