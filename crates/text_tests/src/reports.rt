//! Reports on the example election's store.

ghost use Rattle.std.specs.Prelude.{◌≡◌, ◌≤◌, IfOk, length};
ghost use Rattle.ballot_record.specs.Record as seen;
ghost use Rattle.store_spec.specs.Ballot.{IsListing, IsValid};

use ballot_record::{BallotList, Contest, Election, MAX_MARK_SETS, Record};
use body_store::Closed;
use outside_io::Memory;
use std::alloc::Global;
use std::process::Abort;
use std::test::Fail;
use tally_export::{PutFault, tally, tally_threads};

/// A ballot with these marks.
pub fn ballot(rt: &impl Abort, election: &Election, number: u64, first: u64, second: u64) -> Record
    ensures valid { IsValid election.now (seen.ballot result) }
    ensures number { result.number ≡ number }
{
    let mut marks = [0; MAX_MARK_SETS];
    marks[0] = first;
    marks[1] = second;
    let ballot = Record {
        number,
        style: 1,
        marks,
    };
    assert!(rt; ballot.valid(election));
    ballot
}

/// The ballots 1, 2, 3, 5 and 9.
pub fn five_ballots(
    alloc: Global,
    rt: &impl Abort,
    election: &Election,
) -> Result<BallotList, Memory>
    ensures election { IfOk result (λ list. list.election ≡ election.now) }
    ensures listing { IfOk result (λ list. IsListing election.now list.ballots) }
    ensures count { IfOk result (λ list. length list.ballots ≡ 5) }
{
    let mut list = BallotList::new(alloc, election);
    list.push(&ballot(rt, election, 1, 1, 3), election)?;
    list.push(&ballot(rt, election, 2, 2, 0), election)?;
    list.push(&ballot(rt, election, 3, 3, 7), election)?;
    list.push(&ballot(rt, election, 5, 8, 4), election)?;
    list.push(&ballot(rt, election, 9, 0, 5), election)?;
    Ok(list)
}

#[test]
fn a_tally_by_parts(rt: HostRuntime) {
    let election = Election::example();
    let ballots = five_ballots(rt.alloc(), &rt, &election).expect(&rt, "memory");
    let five = Closed::from_records(rt.alloc(), &election, &ballots).expect(&rt, "memory");
    let empty = Closed::empty(rt.alloc(), &election).expect(&rt, "memory");
    let whole = tally(&five);
    assert_eq!(rt; &whole.choices[0][..5], [1, 1, 0, 1, 0].as_slice());
    assert_eq!(rt; &whole.choices[1][..4], [2, 1, 2, 0].as_slice());
    assert_eq!(rt; &whole.under[..3], [1, 3, 0].as_slice());
    assert_eq!(rt; &whole.over[..3], [1, 1, 0].as_slice());
    for parts in [1, 2, 3, 4, 7, 64] {
        assert!(rt; parts >= 1);
        assert_eq!(rt; tally_threads(&rt, &five, parts), whole, "{parts}");
    }
    assert_eq!(rt; tally_threads(&rt, &empty, 4), tally(&empty));
}

/// A ballot for the last of 64 choices, and one for all of them.
fn two_ballots(alloc: Global, rt: &impl Abort, election: &Election) -> Result<BallotList, Memory>
    ensures election { IfOk result (λ list. list.election ≡ election.now) }
    ensures listing { IfOk result (λ list. IsListing election.now list.ballots) }
    ensures count { IfOk result (λ list. length list.ballots ≡ 2) }
{
    let mut list = BallotList::new(alloc, election);
    list.push(&ballot(rt, election, 1, 1 << 63, 0), election)?;
    list.push(&ballot(rt, election, 2, u64::MAX, 0), election)?;
    Ok(list)
}

/// A version 2 election with one contest of 64 choices, of which one may be marked.
fn wide_election(rt: &impl Abort) -> Election
    ensures { 2 ≤ result.limit }
{
    let contest = Contest {
        choices: 64,
        allowed: 1,
    };
    let election = Election::from_parts(2, &[contest], &[0b1], 8, 3, 0);
    election.expect(rt, "a valid election")
}

#[test]
fn a_tally_of_64_choices(rt: HostRuntime) {
    let election = wide_election(&rt);
    let ballots = two_ballots(rt.alloc(), &rt, &election).expect(&rt, "memory");
    let two = Closed::from_records(rt.alloc(), &election, &ballots).expect(&rt, "memory");
    let whole = tally(&two);
    for (place, votes) in whole.choices[0].iter().enumerate() {
        assert_eq!(rt; *votes, u64::from(place == 63), "{place}");
    }
    assert_eq!(rt; &whole.under[..2], [0, 0].as_slice());
    assert_eq!(rt; &whole.over[..2], [1, 0].as_slice());
    assert_eq!(rt; tally_threads(&rt, &two, 2), whole);
}

#[test]
fn faults_as_text(rt: HostRuntime) -> Result<(), Fail> {
    assert_eq!(rt;
        PutFault::WriteFault.to_string(rt.alloc())?.as_str(),
        "the output failed"
    );
    assert_eq!(rt;
        PutFault::Memory.to_string(rt.alloc())?.as_str(),
        "out of memory"
    );
    Ok(())
}
