//! Reports on a set that stands in two stores, put together.

ghost use Rattle.std.specs.Prelude.{◌≡◌, IfOk, length};
ghost use Rattle.store_spec.specs.Ballot.{IsListing};
ghost use Rattle.store_spec.specs.Election.{example};

use crate::reports::{ballot, five_ballots};
use ballot_record::{BallotList, Election};
use body_store::Closed;
use outside_io::{Memory, MemorySink};
use std::alloc::Global;
use std::process::Abort;
use std::test::Fail;
use tally_export::{
    PutFault, Tally, add_tally, export, tally, write_count, write_records, write_tally_of,
};

/// The first two of the five ballots.
fn first_ballots(alloc: Global, rt: &impl Abort, election: &Election) -> Result<BallotList, Memory>
    ensures election { IfOk result (λ list. list.election ≡ election.now) }
    ensures listing { IfOk result (λ list. IsListing election.now list.ballots) }
    ensures count { IfOk result (λ list. length list.ballots ≡ 2) }
{
    let mut list = BallotList::new(alloc, election);
    list.push(&ballot(rt, election, 1, 1, 3), election)?;
    list.push(&ballot(rt, election, 2, 2, 0), election)?;
    Ok(list)
}

/// The other three.
fn last_ballots(alloc: Global, rt: &impl Abort, election: &Election) -> Result<BallotList, Memory>
    ensures election { IfOk result (λ list. list.election ≡ election.now) }
    ensures listing { IfOk result (λ list. IsListing election.now list.ballots) }
    ensures count { IfOk result (λ list. length list.ballots ≡ 3) }
{
    let mut list = BallotList::new(alloc, election);
    list.push(&ballot(rt, election, 3, 3, 7), election)?;
    list.push(&ballot(rt, election, 5, 8, 4), election)?;
    list.push(&ballot(rt, election, 9, 0, 5), election)?;
    Ok(list)
}

/// The stores of the first ballots, of the last, of all five and of none.
#[derive(Drop)]
struct Stores {
    first: Closed,
    last: Closed,
    five: Closed,
    none: Closed,
}

fn make_stores(alloc: Global, rt: &impl Abort) -> Result<Stores, Memory>
    ensures first { IfOk result (λ stores. stores.first.election ≡ example) }
    ensures last { IfOk result (λ stores. stores.last.election ≡ example) }
    ensures five { IfOk result (λ stores. stores.five.election ≡ example) }
    ensures none { IfOk result (λ stores. stores.none.election ≡ example) }
{
    let election = Election::example();
    let first = first_ballots(alloc, rt, &election)?;
    let last = last_ballots(alloc, rt, &election)?;
    let five = five_ballots(alloc, rt, &election)?;
    Ok(Stores {
        first: Closed::from_records(alloc, &election, &first)?,
        last: Closed::from_records(alloc, &election, &last)?,
        five: Closed::from_records(alloc, &election, &five)?,
        none: Closed::empty(alloc, &election)?,
    })
}

/// The tallies of two stores of one election, added.
fn tally_of_both(one: &Closed, other: &Closed) -> Tally
    requires { one.now.election ≡ other.now.election }
{
    let few = one.len() + other.len() < 1 << 58;
    prove!(few);
    add_tally(&tally(one), &tally(other))
}

#[test]
fn tallies_added(rt: HostRuntime) {
    let stores = make_stores(rt.alloc(), &rt).expect(&rt, "memory");
    let whole = tally(&stores.five);
    assert_eq!(rt; tally_of_both(&stores.first, &stores.last), whole);
    assert_eq!(rt; tally_of_both(&stores.last, &stores.first), whole);
    assert_eq!(rt; tally_of_both(&stores.five, &stores.none), whole);
    assert_eq!(rt; tally_of_both(&stores.none, &stores.five), whole);
    assert!(rt; tally_of_both(&stores.five, &stores.last) != whole);
}

const TALLY: &str = "tally 5\n\
    contest 1 under 1 over 1\n\
    choice 1 1 1\n\
    choice 1 2 1\n\
    choice 1 3 0\n\
    choice 1 4 1\n\
    contest 2 under 3 over 1\n\
    choice 2 1 2\n\
    choice 2 2 1\n\
    choice 2 3 2\n";

/// What a sink answers, with so much room and these calls failing, to the tally of two stores, and what it has taken.
fn put_tally(
    alloc: Global,
    both: &Tally,
    failing: &[u64],
    room: usize,
) -> Result<(Result<(), PutFault>, MemorySink), Memory> {
    let mut sink = MemorySink::new(alloc, room, Vec::from_slice(alloc, failing)?)?;
    let answer = write_tally_of(alloc, both, 5, &Election::example(), &mut sink);
    Ok((answer, sink))
}

#[test]
fn an_added_tally_as_text(rt: HostRuntime) -> Result<(), Fail> {
    let stores = make_stores(rt.alloc(), &rt)?;
    let both = tally_of_both(&stores.first, &stores.last);
    let fault = Err(PutFault::WriteFault);
    let rows: [(&[u64], usize, Result<(), PutFault>, &str); 4] = [
        (&[], 65536, Ok(()), TALLY),
        (&[], TALLY.len(), Ok(()), TALLY),
        (&[], TALLY.len() - 1, fault, ""),
        (&[1], 65536, fault, ""),
    ];
    for (failing, room, wanted, text) in rows {
        let (answer, sink) = put_tally(rt.alloc(), &both, failing, room)?;
        assert_eq!(rt; answer, wanted);
        assert_eq!(rt; sink.bytes(), text.as_bytes());
    }
    Ok(())
}

const COUNT: &str = "export 5\n";

const COUNT_AND_FIRST: &str = "export 5\n1 1 1/1,2\n2 1 2/-\n";

const EXPORT: &str = "export 5\n1 1 1/1,2\n2 1 2/-\n3 1 1,2/1,2,3\n5 1 4/3\n9 1 -/1,3\n";

/// Writes an export of two stores.
fn put_both(
    alloc: Global,
    one: &Closed,
    other: &Closed,
    sink: &mut MemorySink,
) -> Result<(), PutFault> {
    write_count(alloc, one.len() + other.len(), sink)?;
    write_records(alloc, one, sink)?;
    write_records(alloc, other, sink)
}

#[test]
fn an_export_in_parts(rt: HostRuntime) -> Result<(), Fail> {
    let stores = make_stores(rt.alloc(), &rt)?;
    let fault = Err(PutFault::WriteFault);
    let rows: [(&[u64], usize, Result<(), PutFault>, &str); 6] = [
        (&[], 65536, Ok(()), EXPORT),
        (&[], EXPORT.len(), Ok(()), EXPORT),
        (&[], EXPORT.len() - 1, fault, COUNT_AND_FIRST),
        (&[1], 65536, fault, ""),
        (&[2], 65536, fault, COUNT),
        (&[3], 65536, fault, COUNT_AND_FIRST),
    ];
    for (failing, room, wanted, text) in rows {
        let failing = Vec::from_slice(rt.alloc(), failing)?;
        let mut sink = MemorySink::new(rt.alloc(), room, failing)?;
        let answer = put_both(rt.alloc(), &stores.first, &stores.last, &mut sink);
        assert_eq!(rt; answer, wanted);
        assert_eq!(rt; sink.bytes(), text.as_bytes());
    }
    Ok(())
}

#[test]
fn an_export_at_once(rt: HostRuntime) -> Result<(), Fail> {
    let stores = make_stores(rt.alloc(), &rt)?;
    let mut sink = MemorySink::new(rt.alloc(), 65536, Vec::new(rt.alloc()))?;
    assert_eq!(rt; export(rt.alloc(), &stores.five, &mut sink), Ok(()));
    assert_eq!(rt; sink.bytes(), EXPORT.as_bytes());
    Ok(())
}
