//! One phase after another, each played as a whole.

use crate::stores::{Brief, ballot_lists, holds, number_lists, same};
use Final::{Accepted, Conflict, Duplicate, Full};
use ballot_record::Election;
use body_store::Closed;
use outside_io::{Memory, NoTurns};
use phase_play::{Final, play_casting, play_finding, play_withdrawing};
use std::alloc::Global;
use std::process::Abort;
use std::test::Fail;
use std::thread::Threads;
use step_core::WithdrawReply::{Absent, Gone, Withdrawn};

/// The store after these lists are cast, of which there is one at least, with these final replies.
fn cast<R: Threads + Sync + Abort>(
    rt: &R,
    alloc: Global,
    before: Closed,
    lists: &[&[Brief]],
    wanted: &[&[Final]],
) -> Result<Closed, Memory> {
    assert!(rt; !lists.is_empty());
    assert!(rt; lists.len() <= 64);
    let election = *before.election();
    let work = ballot_lists(rt, alloc, &election, lists)?;
    let (after, finals) = play_casting(rt, alloc, before, work, &NoTurns)?;
    same(rt, &finals, wanted);
    Ok(after)
}

/// The ballots 9, 1 and 14, cast by two tabulators.
fn three_cast<R: Threads + Sync + Abort>(rt: &R, alloc: Global) -> Result<Closed, Memory> {
    let empty = Closed::empty(alloc, &Election::example())?;
    let lists: [&[Brief]; 2] = [&[(9, 1), (1, 0)], &[(14, 2)]];
    let three = cast(
        rt,
        alloc,
        empty,
        &lists,
        &[&[Accepted, Accepted], &[Accepted]],
    )?;
    holds(rt, &three, &[(4, 9), (5, 14), (6, 1)]);
    Ok(three)
}

/// The ballot 22 is cast behind these three.
fn a_fourth_cast<R: Threads + Sync + Abort>(
    rt: &R,
    alloc: Global,
    three: Closed,
) -> Result<Closed, Memory> {
    let lists: [&[Brief]; 1] = [&[(22, 0), (9, 1), (14, 1), (22, 1)]];
    let wanted: [&[Final]; 1] = [&[Accepted, Duplicate, Conflict, Conflict]];
    let four = cast(rt, alloc, three, &lists, &wanted)?;
    holds(rt, &four, &[(4, 22), (5, 14), (6, 9), (7, 1)]);
    Ok(four)
}

fn assert_found<R: Threads + Sync + Abort>(
    rt: &R,
    alloc: Global,
    four: &Closed,
) -> Result<(), Memory> {
    let wanted = number_lists(alloc, &[&[9, 5], &[0, 22, 22]])?;
    let found = play_finding(rt, alloc, four, &wanted, &NoTurns)?;
    same(rt, &found, &[&[true, false], &[false, true, true]]);
    Ok(())
}

fn two_withdrawn<R: Threads + Sync + Abort>(
    rt: &R,
    alloc: Global,
    four: Closed,
) -> Result<(), Memory> {
    let gone = number_lists(alloc, &[&[22, 5], &[9, 9]])?;
    let (two, replies) = play_withdrawing(rt, alloc, four, gone, &NoTurns)?;
    holds(rt, &two, &[(4, 1), (5, 14)]);
    same(rt, &replies, &[&[Withdrawn, Absent], &[Withdrawn, Gone]]);
    Ok(())
}

#[test]
fn one_phase_after_another(rt: HostRuntime) -> Result<(), Fail> {
    let alloc = rt.alloc();
    let three = three_cast(&rt, alloc)?;
    let four = a_fourth_cast(&rt, alloc, three)?;
    assert_found(&rt, alloc, &four)?;
    two_withdrawn(&rt, alloc, four)?;
    Ok(())
}

#[test]
fn a_ninth_ballot(rt: HostRuntime) -> Result<(), Fail> {
    let alloc = rt.alloc();
    let empty = Closed::empty(alloc, &Election::example())?;
    let mut nine: [Brief; 9] = [(1, 0); 9];
    for (place, brief) in nine.iter_mut().enumerate() {
        brief.0 = place as u64 + 1;
    }
    let mut wanted = [Accepted; 9];
    wanted[8] = Full;
    let full = cast(&rt, alloc, empty, &[&nine], &[&wanted])?;
    assert_eq!(rt; full.len(), 8);
    Ok(())
}
