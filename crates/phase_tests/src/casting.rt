//! Casting phases of the example election.

use crate::phases::{alone, leads, run};
use crate::stores::{Brief, assert_seen, ballot, ballot_lists, ballots, holding, holds, same};
use Final::{Accepted, Conflict, Duplicate, Full};
use ballot_record::Election;
use body_store::Closed;
use fake_turns::{Meeting, SeenWords};
use outside_io::{Memory, NoTurns, Turns};
use phase_insert::{CastReply, Casting, Final};
use std::alloc::Global;
use std::process::Abort;
use std::test::Fail;
use std::thread::Threads;

/// The ballots held before, the lists that are cast, the cells that are not empty then, and the final replies.
struct Case {
    held: &'static [Brief],
    lists: &'static [&'static [Brief]],
    cells: &'static [(usize, u64)],
    finals: &'static [&'static [Final]],
}

static CASES: [Case; 5] = [
    Case {
        held: &[],
        lists: &[&[(9, 1), (1, 0)], &[(14, 2)]],
        cells: &[(4, 9), (5, 14), (6, 1)],
        finals: &[&[Accepted, Accepted], &[Accepted]],
    },
    Case {
        held: &[(9, 1), (1, 0), (14, 2)],
        lists: &[&[(22, 0), (9, 2), (14, 2), (22, 0), (22, 1), (17, 0)]],
        cells: &[(4, 22), (5, 17), (6, 14), (7, 9), (8, 1)],
        finals: &[&[Accepted, Conflict, Duplicate, Duplicate, Conflict, Accepted]],
    },
    Case {
        held: &[],
        lists: &[&[(9, 1), (1, 0)], &[], &[(14, 2), (22, 0), (14, 2)]],
        cells: &[(4, 22), (5, 14), (6, 9), (7, 1)],
        finals: &[&[Accepted, Accepted], &[], &[Accepted, Accepted, Duplicate]],
    },
    Case {
        held: &[(1, 0), (2, 0), (6, 0), (9, 0), (14, 0), (17, 0), (22, 0)],
        lists: &[&[(u64::MAX, 0), (5, 0), (9, 0)]],
        cells: &EIGHT,
        finals: &[&[Accepted, Full, Duplicate]],
    },
    Case {
        held: &[
            (1, 0),
            (2, 0),
            (6, 0),
            (9, 0),
            (14, 0),
            (17, 0),
            (22, 0),
            (u64::MAX, 0),
        ],
        lists: &[&[(5, 0), (9, 0)]],
        cells: &EIGHT,
        finals: &[&[Full, Duplicate]],
    },
];

/// This is a function, so that the cases stand in the proof of one.
fn cases() -> &'static [Case] {
    &CASES
}

/// Where as many numbers stand as the example election may hold.
const EIGHT: [(usize, u64); 8] = [
    (1, 2),
    (3, u64::MAX),
    (4, 22),
    (5, 17),
    (6, 14),
    (7, 9),
    (8, 6),
    (9, 1),
];

/// The store after a casting phase of these lists, with these final replies.
fn casts<R: Threads + Abort + Sync, T: Turns>(
    rt: &R,
    alloc: Global,
    before: Closed,
    lists: &[&[Brief]],
    turns: &T,
    wanted: &[&[Final]],
) -> Result<Closed, Memory> {
    let election = *before.election();
    let work = ballot_lists(rt, alloc, &election, lists)?;
    leads::<Casting, R, T>(rt, alloc, before, &work, turns, wanted)
}

fn casts_as<R: Threads + Abort + Sync>(rt: &R, alloc: Global, case: &Case) -> Result<(), Memory> {
    for _ in 0..20 {
        let before = holding(rt, alloc, case.held)?;
        let after = casts(rt, alloc, before, case.lists, &NoTurns, case.finals)?;
        holds(rt, &after, case.cells);
    }
    Ok(())
}

#[test]
fn lists_of_ballots(rt: HostRuntime) -> Result<(), Fail> {
    for case in cases() {
        casts_as(&rt, rt.alloc(), case)?;
    }
    Ok(())
}

/// One tabulator of an empty store casts one ballot.
fn casts_nine(rt: &impl Abort, alloc: Global) -> Result<(), Memory> {
    let election = Election::example();
    let nine = ballots(rt, alloc, &election, &[(9, 1)])?;
    let empty = Closed::empty(alloc, &election)?;
    let tab = alone::<Casting>(rt, alloc, empty, &nine, CastReply::Accepted, (9, 9))?;
    assert_eq!(rt; tab.items().len(), 1);
    assert_eq!(rt; tab.items().record(0, &election), ballot(9, 1));
    Ok(())
}

/// One tabulator, which is asked by itself.
#[test]
fn one_ballot(rt: HostRuntime) -> Result<(), Fail> {
    casts_nine(&rt, rt.alloc())?;
    Ok(())
}

fn two_cast<R: Threads + Abort + Sync, T: Turns>(
    rt: &R,
    alloc: Global,
    turns: &T,
) -> Result<(), Memory> {
    let empty = Closed::empty(alloc, &Election::example())?;
    let lists: [&[Brief]; 2] = [&[(9, 1)], &[(14, 2)]];
    let two = casts(rt, alloc, empty, &lists, turns, &[&[Accepted], &[Accepted]])?;
    holds(rt, &two, &[(4, 9), (5, 14)]);
    Ok(())
}

#[test]
fn two_at_once(rt: HostRuntime) -> Result<(), Fail> {
    let meeting = Meeting::new();
    two_cast(&rt, rt.alloc(), &meeting)?;
    assert_eq!(rt; meeting.met(), 2);
    Ok(())
}

fn three_more_cast<R: Threads + Abort + Sync, T: Turns>(
    rt: &R,
    alloc: Global,
    turns: &T,
) -> Result<(), Memory> {
    let three = holding(rt, alloc, &[(9, 1), (14, 2), (1, 0)])?;
    let lists: [&[Brief]; 1] = [&[(22, 0), (17, 0), (5, 0)]];
    let six = casts(rt, alloc, three, &lists, turns, &[&[Accepted; 3]])?;
    assert_eq!(rt; six.len(), 6);
    Ok(())
}

#[test]
fn words_seen(rt: HostRuntime) -> Result<(), Fail> {
    let seen = SeenWords::new();
    three_more_cast(&rt, rt.alloc(), &seen)?;
    assert_seen(&rt, &seen, &[9, 22, 0]);
    Ok(())
}

/// Two tabulators cast ballot 6, the second with these marks. The ballot of one is accepted and held, and the other has
/// this reply.
fn one_wins<R: Threads + Abort + Sync>(
    rt: &R,
    alloc: Global,
    set: u64,
    refused: Final,
) -> Result<(), Memory> {
    let election = Election::example();
    let empty = Closed::empty(alloc, &election)?;
    let work = ballot_lists(rt, alloc, &election, &[&[(6, 1)], &[(6, set)]])?;
    let (one, finals) = run::<Casting, R, NoTurns>(rt, alloc, empty, &work, &NoTurns)?;
    assert_won(rt, &one, &finals, set, refused);
    Ok(())
}

fn each_wins<R: Threads + Abort + Sync>(rt: &R, alloc: Global) -> Result<(), Memory> {
    one_wins(rt, alloc, 2, Conflict)?;
    one_wins(rt, alloc, 1, Duplicate)
}

fn assert_won(rt: &impl Abort, one: &Closed, finals: &[Vec<Final>], set: u64, refused: Final) {
    let first = finals.first().and_then(|list| list.first());
    let (replies, kept) = if first == Some(&Accepted) {
        ([Accepted, refused], 1)
    } else {
        ([refused, Accepted], set)
    };
    same(rt, finals, &[&replies[..1], &replies[1..]]);
    assert_eq!(rt; one.len(), 1);
    assert_eq!(rt; one.record_of(6), Some(ballot(6, kept)));
}

#[test]
fn one_number_from_two_threads(rt: HostRuntime) -> Result<(), Fail> {
    for _ in 0..50 {
        each_wins(&rt, rt.alloc())?;
    }
    Ok(())
}
