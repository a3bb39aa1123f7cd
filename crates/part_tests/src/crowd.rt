//! Two tabulators cast 300 ballots on four homes into each of two parts.

ghost use Rattle.std.specs.Prelude.{◌≡◌, IfOk};

use crate::phases::casts;
use Final::{Accepted, Duplicate};
use ballot_record::{BallotList, Contest, Election, MAX_MARK_SETS, Record};
use body_store::Closed;
use fake_turns::Meeting;
use outside_io::Memory;
use part_play::Final;
use std::alloc::Global;
use std::process::Abort;
use std::test::Fail;
use std::thread::Threads;

/// What the numbers of the second part have beside those of the first.
const SECOND: u64 = 1 << 63;

/// An election of 300 ballots with four homes.
fn crowded(rt: &impl Abort) -> Election {
    let contests = [Contest {
        choices: 1,
        allowed: 1,
    }];
    Election::from_parts(1, &contests, &[1], 300, 2, 0).expect(rt, "an election")
}

/// A ballot with this number joins a list.
fn put(
    rt: &impl Abort,
    ballots: &mut BallotList,
    election: &Election,
    number: u64,
) -> Result<(), Memory>
    requires { ballots.old.election ≡ election.now }
    ensures { ballots.new.election ≡ election.now }
{
    let ballot = Record {
        number,
        style: 1,
        marks: [0; MAX_MARK_SETS],
    };
    assert!(rt; ballot.valid(election));
    ballots.push(&ballot, election)?;
    Ok(())
}

/// Of the numbers up to 300 in either part each list has those that leave this rest, and each third number of the first
/// part twice, so that the order of the replies shows.
fn crowd(
    rt: &impl Abort,
    alloc: Global,
    election: &Election,
    rest: u64,
) -> Result<BallotList, Memory>
    ensures { IfOk result (λ list. list.election ≡ election.now) }
{
    let mut ballots = BallotList::new(alloc, election);
    for number in 1..=300 {
        if number % 2 == rest {
            put(rt, &mut ballots, election, number)?;
            if number % 3 == 0 {
                put(rt, &mut ballots, election, number)?;
            }
            put(rt, &mut ballots, election, number | SECOND)?;
        }
    }
    Ok(ballots)
}

/// Each part has the 300 ballots that belong there.
fn assert_full(rt: &impl Abort, stores: &[Closed]) {
    assert!(rt; stores.len() == 2);
    for (place, store) in stores.iter().enumerate() {
        let own = if place == 0 { 0 } else { SECOND };
        assert!(rt; store.len() == 300);
        for number in 1..=300 {
            assert!(rt; store.record_of(number | own).is_some());
        }
    }
}

/// In the order of a list each ballot is accepted once, and where it comes again at once it is a duplicate.
fn assert_told(rt: &impl Abort, list: &BallotList, told: &[Final]) {
    assert!(rt; told.len() == list.len());
    let mut last = 0;
    for (place, reply) in told.iter().enumerate() {
        assert!(rt; place < list.len());
        let number = list.number(place);
        let wanted = if number == last { Duplicate } else { Accepted };
        assert!(rt; *reply == wanted);
        last = number;
    }
}

/// The replies to both lists.
fn assert_all_told(
    rt: &impl Abort,
    alloc: Global,
    election: &Election,
    replies: &[Vec<Final>],
) -> Result<(), Memory> {
    assert!(rt; replies.len() == 2);
    for (rest, told) in replies.iter().enumerate() {
        assert_told(rt, &crowd(rt, alloc, election, rest as u64)?, told);
    }
    Ok(())
}

/// Two tabulators wait for each other, and then cast their lists into both parts.
fn race<R: Threads + Sync + Abort>(
    rt: &R,
    alloc: Global,
    election: &Election,
    meeting: &Meeting,
) -> Result<(), Memory> {
    let work = vec![in alloc;
        crowd(rt, alloc, election, 0)?,
        crowd(rt, alloc, election, 1)?,
    ]?;
    let (stores, replies) = casts(rt, alloc, election, work, meeting)?;
    assert_full(rt, &stores);
    assert_all_told(rt, alloc, election, &replies)
}

#[test]
fn two_tabulators_in_two_crowds(rt: HostRuntime) -> Result<(), Fail> {
    let alloc = rt.alloc();
    let election = crowded(&rt);
    let meeting = Meeting::new();
    for _ in 0..200 {
        race(&rt, alloc, &election, &meeting)?;
    }
    assert!(rt; meeting.met() == 400);
    Ok(())
}
