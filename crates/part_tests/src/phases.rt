//! The example election in two parts.

ghost use Rattle.std.specs.Prelude.{◌≡◌, ◌≤◌, ◌∷◌, [], All, IfOk, length};

use Final::{Accepted, Full};
use ballot_record::{BallotList, Election, MAX_MARK_SETS, Record};
use body_store::Closed;
use fake_turns::Meeting;
use outside_io::{Memory, NoTurns, Turns};
use part_play::{ByParts, Final, play_casting, play_finding, play_withdrawing};
use std::alloc::Global;
use std::process::Abort;
use std::test::Fail;
use std::thread::Threads;
use step_core::WithdrawReply;
use step_core::WithdrawReply::{Absent, Gone, Withdrawn};

/// A list of the ballots `1 -/-` with these numbers.
fn cast(alloc: Global, election: &Election, numbers: &[u64]) -> Result<BallotList, Memory>
    ensures { IfOk result (λ list. list.election ≡ election.now) }
{
    let mut list = BallotList::new(alloc, election);
    for number in numbers {
        let ballot = Record {
            number: *number,
            style: 1,
            marks: [0; MAX_MARK_SETS],
        };
        if ballot.valid(election) {
            list.push(&ballot, election)?;
        }
    }
    Ok(list)
}

fn pair<X: Drop>(alloc: Global, first: X, second: X) -> Result<Vec<X>, Memory>
    ensures { IfOk result (λ both. both.items ≡ first ∷ second ∷ []) }
{
    let mut both = Vec::with_capacity(alloc, 2)?;
    both.push(first)?;
    both.push(second)?;
    Ok(both)
}

/// Lists are cast into the two parts of an empty store.
pub fn casts<R: Threads + Sync, T: Turns>(
    rt: &R,
    alloc: Global,
    election: &Election,
    work: Vec<BallotList>,
    turns: &T,
) -> Result<(Vec<Closed>, Vec<Vec<Final>>), Memory>
    requires some { 1 ≤ length work.items }
    requires few { length work.items ≤ 64 }
    requires lists { All (λ list. list.election ≡ election.now) work.items }
    ensures { IfOk result (λ played. length played.0.items ≡ 2) }
{
    let first = Closed::empty(alloc, election)?;
    let second = Closed::empty(alloc, election)?;
    let stores = pair(alloc, first, second)?;
    let spread = ByParts::new(1);
    let (after, replies) = play_casting(rt, alloc, stores, &spread, work, turns)?;
    Ok((after, replies))
}

fn withdraws<R: Threads + Sync>(
    rt: &R,
    alloc: Global,
    stores: Vec<Closed>,
    work: Vec<Vec<u64>>,
) -> Result<(Vec<Closed>, Vec<Vec<WithdrawReply>>), Memory>
    requires some { 1 ≤ length work.items }
    requires few { length work.items ≤ 64 }
    requires two { length stores.items ≡ 2 }
    ensures { IfOk result (λ played. length played.0.items ≡ 2) }
{
    let spread = ByParts::new(1);
    let (after, replies) = play_withdrawing(rt, alloc, stores, &spread, work, &NoTurns)?;
    Ok((after, replies))
}

fn finds<R: Threads + Sync>(
    rt: &R,
    alloc: Global,
    stores: Vec<Closed>,
    work: &[Vec<u64>],
) -> Result<Vec<Vec<bool>>, Memory>
    requires { length stores.items ≡ 2 }
{
    let spread = ByParts::new(1);
    let held = stores.as_slice();
    let found = play_finding(rt, alloc, held, &spread, work, &NoTurns)?;
    Ok(found)
}

/// The replies are these.
fn same<T: PartialEq>(rt: &impl Abort, lists: &[Vec<T>], wanted: &[&[T]]) {
    assert!(rt; lists.len() == wanted.len());
    for (list, other) in lists.iter().zip(wanted) {
        assert!(rt; list.as_slice() == *other);
    }
}

/// So many ballots are in the parts.
fn hold(rt: &impl Abort, stores: &[Closed], wanted: &[usize]) {
    assert!(rt; stores.len() == wanted.len());
    for (store, count) in stores.iter().zip(wanted) {
        assert!(rt; store.len() == *count);
    }
}

/// Nine ballots of which eight fill the first part, and one more for each part.
fn nine_and_one<R: Threads + Sync + Abort>(rt: &R, alloc: Global) -> Result<Vec<Closed>, Memory>
    ensures { IfOk result (λ stores. length stores.items ≡ 2) }
{
    let election = Election::example();
    let numbers = [1, 2, 5, 6, 9, 14, 17, 22, u64::MAX, 3];
    let work = vec![in alloc; cast(alloc, &election, &numbers)?]?;
    let (stores, replies) = casts(rt, alloc, &election, work, &NoTurns)?;
    let mut wanted = [Accepted; 10];
    wanted[9] = Full;
    same(rt, &replies, &[&wanted]);
    hold(rt, &stores, &[8, 1]);
    Ok(stores)
}

fn three_withdrawn<R: Threads + Sync + Abort>(
    rt: &R,
    alloc: Global,
    nine: Vec<Closed>,
) -> Result<Vec<Closed>, Memory>
    requires { length nine.items ≡ 2 }
    ensures { IfOk result (λ stores. length stores.items ≡ 2) }
{
    let work = vec![in alloc;
        Vec::from_slice(alloc, &[9, 7, u64::MAX, 9])?,
        Vec::from_slice(alloc, &[1, 1])?,
    ]?;
    let (six, replies) = withdraws(rt, alloc, nine, work)?;
    same(
        rt,
        &replies,
        &[&[Withdrawn, Absent, Withdrawn, Gone], &[Withdrawn, Gone]],
    );
    hold(rt, &six, &[6, 0]);
    Ok(six)
}

#[test]
fn one_phase_after_another(rt: HostRuntime) -> Result<(), Fail> {
    let alloc = rt.alloc();
    let nine = nine_and_one(&rt, alloc)?;
    let six = three_withdrawn(&rt, alloc, nine)?;
    let work = [
        Vec::from_slice(alloc, &[1, 2, u64::MAX])?,
        Vec::from_slice(alloc, &[9, 22, 3])?,
    ];
    let found = finds(&rt, alloc, six, &work)?;
    same(&rt, &found, &[&[false, true, false], &[false, true, false]]);
    Ok(())
}

/// How many ballots found no room.
fn refused(lists: &[Vec<Final>]) -> usize {
    let mut count = 0_usize;
    for list in lists {
        for reply in list {
            if *reply == Full {
                count = count.wrapping_add(1);
            }
        }
    }
    count
}

fn race<R: Threads + Sync + Abort>(rt: &R, alloc: Global, meeting: &Meeting) -> Result<(), Memory> {
    let election = Election::example();
    let work = vec![in alloc;
        cast(alloc, &election, &[1, 2, 5, 6, u64::MAX])?,
        cast(alloc, &election, &[9, 14, 17, 22, 23, u64::MAX - 1])?,
    ]?;
    let (stores, replies) = casts(rt, alloc, &election, work, meeting)?;
    assert!(rt; refused(&replies) == 1);
    hold(rt, &stores, &[8, 2]);
    Ok(())
}

#[test]
fn two_lists_and_the_last_room_of_a_part(rt: HostRuntime) -> Result<(), Fail> {
    let alloc = rt.alloc();
    let meeting = Meeting::new();
    for _ in 0..50 {
        race(&rt, alloc, &meeting)?;
    }
    assert!(rt; meeting.met() == 100);
    Ok(())
}
