//! What tests of phases have in common: ballots, lists and stores, and what is asserted of these.

ghost use Rattle.std.specs.Prelude.{◌≡◌, All, IfOk, length};

use crate::phases::run;
use ballot_record::{BallotList, Contest, Election, MAX_MARK_SETS, Record};
use body_store::Closed;
use fake_turns::{SeenWords, Turn};
use outside_io::{Memory, NoTurns};
use phase_insert::Casting;
use std::alloc::Global;
use std::fmt::Debug;
use std::process::Abort;
use std::thread::Threads;

/// A number, and the marks in the first contest.
pub type Brief = (u64, u64);

/// Four ballots of which three share a home.
pub const FOUR: [Brief; 4] = [(1, 0), (9, 0), (14, 0), (22, 0)];

/// A ballot with these marks in the first contest.
pub fn ballot(number: u64, set: u64) -> Record {
    let mut marks = [0; MAX_MARK_SETS];
    marks[0] = set;
    Record {
        number,
        style: 1,
        marks,
    }
}

/// Such a ballot joins a list.
pub fn put(
    rt: &impl Abort,
    ballots: &mut BallotList,
    election: &Election,
    number: u64,
    set: u64,
) -> Result<(), Memory>
    requires { ballots.old.election ≡ election.now }
    ensures { ballots.new.election ≡ election.now }
{
    let cast = ballot(number, set);
    assert!(rt; cast.valid(election));
    ballots.push(&cast, election)?;
    Ok(())
}

pub fn ballots(
    rt: &impl Abort,
    alloc: Global,
    election: &Election,
    list: &[Brief],
) -> Result<BallotList, Memory>
    ensures { IfOk result (λ list. list.election ≡ election.now) }
{
    let mut ballots = BallotList::new(alloc, election);
    for (number, set) in list {
        put(rt, &mut ballots, election, *number, *set)?;
    }
    Ok(ballots)
}

pub fn ballot_lists(
    rt: &impl Abort,
    alloc: Global,
    election: &Election,
    lists: &[&[Brief]],
) -> Result<Vec<BallotList>, Memory>
    ensures as_many { IfOk result (λ v. length v.items ≡ length lists.now) }
    ensures elections { IfOk result (λ v. All (λ list. list.election ≡ election.now) v.items) }
{
    let mut work = Vec::with_capacity(alloc, lists.len())?;
    for list in lists {
        work.push(ballots(rt, alloc, election, list)?)?;
    }
    Ok(work)
}

pub fn number_lists(alloc: Global, lists: &[&[u64]]) -> Result<Vec<Vec<u64>>, Memory>
    ensures { IfOk result (λ v. length v.items ≡ length lists.now) }
{
    let mut work = Vec::with_capacity(alloc, lists.len())?;
    for list in lists {
        work.push(Vec::from_slice(alloc, list)?)?;
    }
    Ok(work)
}

/// The store of the example election in which these ballots were cast.
pub fn holding<R: Threads + Abort + Sync>(
    rt: &R,
    alloc: Global,
    list: &[Brief],
) -> Result<Closed, Memory> {
    let election = Election::example();
    let empty = Closed::empty(alloc, &election)?;
    let held = ballot_lists(rt, alloc, &election, &[list])?;
    let (store, _) = run::<Casting, R, NoTurns>(rt, alloc, empty, &held, &NoTurns)?;
    Ok(store)
}

/// An election of 300 ballots with four homes.
pub fn crowded(rt: &impl Abort) -> Election {
    let contests = [Contest {
        choices: 1,
        allowed: 1,
    }];
    Election::from_parts(1, &contests, &[1], 300, 2, 0).expect(rt, "an election")
}

// ---- what is asserted

pub fn same<T: PartialEq + Debug>(rt: &impl Abort, lists: &[Vec<T>], wanted: &[&[T]]) {
    assert_eq!(rt; lists.len(), wanted.len());
    for (list, other) in lists.iter().zip(wanted) {
        assert_eq!(rt; list.as_slice(), *other);
    }
}

/// These numbers stand in their cells, and none stands in another.
pub fn holds(rt: &impl Abort, store: &Closed, wanted: &[(usize, u64)]) {
    for (place, cell) in store.cells().iter().enumerate() {
        let number = wanted.iter().find(|at| at.0 == place).map_or(0, |at| at.1);
        assert_eq!(rt; *cell, number, "cell {place}");
    }
}

/// The one worker had these words before it, one at each of its items.
pub fn assert_seen(rt: &impl Abort, seen: &SeenWords, words: &[u64]) {
    assert_eq!(rt; seen.count(), words.len() as u64);
    for (place, word) in words.iter().enumerate() {
        let turn = Turn {
            tab: 0,
            index: place as u64,
            seen: *word,
        };
        assert_eq!(rt; seen.turn_at(place), Some(turn));
    }
}
