//! A crowd of ballots on four homes, which eight tabulators cast at once, and of which eight withdrawers then remove most.

ghost use Rattle.std.specs.Prelude.{◌≡◌, ◌≤◌, All, IfOk};

use crate::phases::run;
use crate::stores::{crowded, put};
use ballot_record::{BallotList, Election};
use body_store::Closed;
use outside_io::{Memory, NoTurns};
use phase_delete::Withdrawing;
use phase_insert::{Casting, Final};
use std::alloc::Global;
use std::fmt::Debug;
use std::process::Abort;
use std::test::Fail;
use std::thread::Threads;
use step_core::WithdrawReply;

/// The ballots from one to 300 whose number leaves this rest.
fn every(
    rt: &impl Abort,
    alloc: Global,
    election: &Election,
    first: u64,
    lists: usize,
    rest: usize,
) -> Result<BallotList, Memory>
    requires { 1 ≤ lists }
    ensures { IfOk result (λ list. list.election ≡ election.now) }
{
    let mut ballots = BallotList::new(alloc, election);
    for number in first..301 {
        if number as usize % lists == rest {
            put(rt, &mut ballots, election, number, 1)?;
        }
    }
    Ok(ballots)
}

/// The ballots from one to 300, in so many lists.
fn crowd(
    rt: &impl Abort,
    alloc: Global,
    election: &Election,
    first: u64,
    lists: usize,
) -> Result<Vec<BallotList>, Memory>
    requires { 1 ≤ lists }
    ensures { IfOk result (λ v. All (λ list. list.election ≡ election.now) v.items) }
{
    let mut work = Vec::with_capacity(alloc, lists)?;
    for list in 0..lists {
        work.push(every(rt, alloc, election, first, lists, list)?)?;
    }
    Ok(work)
}

fn all_are<T: PartialEq + Debug>(rt: &impl Abort, lists: &[Vec<T>], wanted: &T) {
    for list in lists {
        for told in list {
            assert_eq!(rt; told, wanted);
        }
    }
}

/// The store of the ballots from one to 300, each of which is accepted from so many lists.
fn crowd_cast<R: Threads + Abort + Sync>(
    rt: &R,
    alloc: Global,
    election: &Election,
    first: u64,
    lists: usize,
) -> Result<Closed, Memory>
    requires some { 1 ≤ lists }
    requires few { lists ≤ 64 }
{
    let work = crowd(rt, alloc, election, first, lists)?;
    assert_eq!(rt; work.len(), lists);
    let empty = Closed::empty(alloc, election)?;
    let (store, finals) = run::<Casting, R, NoTurns>(rt, alloc, empty, &work, &NoTurns)?;
    all_are(rt, &finals, &Final::Accepted);
    Ok(store)
}

/// The numbers from 1 to 280, dealt to eight lists.
fn dealt(alloc: Global) -> Result<Vec<Vec<u64>>, Memory> {
    let mut work = Vec::with_capacity(alloc, 8)?;
    for list in 0..8 {
        let mut numbers = Vec::with_capacity(alloc, 35)?;
        for number in 1..=280 {
            if number % 8 == list {
                numbers.push(number)?;
            }
        }
        work.push(numbers)?;
    }
    Ok(work)
}

/// The store that is left of a crowd, of which these numbers are withdrawn.
fn crowd_left<R: Threads + Abort + Sync>(
    rt: &R,
    alloc: Global,
    store: Closed,
) -> Result<Closed, Memory> {
    let work = dealt(alloc)?;
    assert_eq!(rt; work.len(), 8);
    let (rest, replies) = run::<Withdrawing, R, NoTurns>(rt, alloc, store, &work, &NoTurns)?;
    all_are(rt, &replies, &WithdrawReply::Withdrawn);
    Ok(rest)
}

/// Eight lists at once leave the same cells as one, and then those of the ballots that are left.
fn assert_cells<R: Threads + Abort + Sync>(
    rt: &R,
    alloc: Global,
    election: &Election,
    all: &Closed,
    left: &Closed,
) -> Result<(), Memory> {
    let store = crowd_cast(rt, alloc, election, 1, 8)?;
    assert_eq!(rt; store.cells(), all.cells());
    let rest = crowd_left(rt, alloc, store)?;
    assert_eq!(rt; rest.cells(), left.cells());
    Ok(())
}

#[test]
fn a_crowd_of_threads(rt: HostRuntime) -> Result<(), Fail> {
    let alloc = rt.alloc();
    let election = crowded(&rt);
    let all = crowd_cast(&rt, alloc, &election, 1, 1)?;
    assert_eq!(rt; all.len(), 300);
    let left = crowd_cast(&rt, alloc, &election, 281, 1)?;
    for _ in 0..200 {
        assert_cells(&rt, alloc, &election, &all, &left)?;
    }
    Ok(())
}
