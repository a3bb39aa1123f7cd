//! The example election's store, as ballots come and go.

ghost use Rattle.std.specs.Prelude.{◌≡◌, ◌≢◌, ◌++◌, ◌<◌, ◌≤◌, ℕ, All, AllPairs, IfOk, List, length, map, replicate};
ghost use Rattle.body_store.specs.Contents.{ballots_without};
ghost use Rattle.store_spec.specs.Ballot.{IsListing, IsWithinLimit, MARK_SETS};
ghost use Rattle.store_spec.specs.Election.{cell_count, example};

use ballot_record::{BallotList, Election, MAX_MARK_SETS, Record};
use body_store::Closed;
use layout_def::changes_between;
use outside_io::Memory;
use std::alloc::Global;
use std::process::Abort;
use std::slice::from_ref;
use std::test::Fail;

fn blank(number: u64) -> Record
    ensures { result ≡ record { number = number; style = 1; marks = replicate MARK_SETS 0 } }
{
    Record {
        number,
        style: 1,
        marks: [0; MAX_MARK_SETS],
    }
}

/// Ballots with no marks and these numbers.
fn blanks(alloc: Global, numbers: &[u64]) -> Result<BallotList, Memory>
    requires some { All (λ number. number ≢ 0) numbers.now }
    requires distinct { AllPairs (λ a b. a ≢ b) numbers.now }
    requires few { length numbers.now ≤ 8 }
    ensures election { IfOk result (λ list. list.election ≡ example) }
    ensures listing { IfOk result (λ list. IsListing example list.ballots) }
    ensures within_limit { IfOk result (λ list. IsWithinLimit example list.ballots) }
    ensures blank { IfOk result
        (λ list. list.ballots
        ≡ map (λ n. record { number = n; style = 1; marks = replicate MARK_SETS 0 }) numbers.now) }
{
    let election = Election::example();
    let mut list = BallotList::new(alloc, &election);
    for number in numbers {
        list.push(&blank(*number), &election)?;
    }
    Ok(list)
}

/// The store of ballots with no marks and these numbers, which rise.
fn store_of(alloc: Global, numbers: &[u64]) -> Result<Closed, Memory>
    requires some { All (λ number. number ≢ 0) numbers.now }
    requires distinct { AllPairs (λ a b. a ≢ b) numbers.now }
    requires rising { AllPairs (λ a b. a < b) numbers.now }
    requires few { length numbers.now ≤ 8 }
    ensures election { IfOk result (λ store. store.election ≡ example) }
    ensures blank { IfOk result
        (λ store. store.ballots
        ≡ map (λ n. record { number = n; style = 1; marks = replicate MARK_SETS 0 }) numbers.now) }
{
    let list = blanks(alloc, numbers)?;
    let store = Closed::from_records(alloc, &Election::example(), &list)?;
    Ok(store)
}

/// Adds ballots with no marks to a store, which then has those of another.
fn add(alloc: Global, store: &mut Closed, numbers: &[u64], all: &Closed) -> Result<(), Memory>
    requires some { All (λ number. number ≢ 0) numbers.now }
    requires distinct { AllPairs (λ a b. a ≢ b) numbers.now }
    requires few { length numbers.now ≤ 8 }
    requires election { store.old.election ≡ example }
    requires same { all.now.election ≡ example }
    requires all { all.now.ballots ≡ store.old.ballots
        ++ map (λ n. record { number = n; style = 1; marks = replicate MARK_SETS 0 }) numbers.now }
{
    let new = blanks(alloc, numbers)?;
    let changes = changes_between(alloc, store.cells(), all.cells(), numbers.len())?;
    store.merge(alloc, from_ref(&new), changes)
}

/// Takes ballots out of a store, which then has those of another.
fn remove(alloc: Global, store: &mut Closed, rest: &Closed) -> Result<(), Memory>
    requires election { store.old.election ≡ example }
    requires same { rest.now.election ≡ example }
    requires rest { (numbers : List ℕ)
        × (rest.now.ballots ≡ ballots_without store.old.ballots numbers) }
{
    let changes = changes_between(alloc, store.cells(), rest.cells(), store.len())?;
    store.without(alloc, changes)
}

/// The cells of the example from cell 4 on, before which and behind which all are empty.
fn cells_of(numbers: [u64; 4]) -> [u64; 16] {
    let mut cells = [0; 16];
    cells[4..8].copy_from_slice(&numbers);
    cells
}

/// The number of the record in a cell, or 0.
fn number_in(store: &Closed, cell: usize) -> u64
    requires { cell < cell_count store.now.election }
{
    match store.record_in(cell) {
        Some(record) => record.number,
        None => 0,
    }
}

/// The numbers in the cells of a store, and of the records there.
fn assert_cells(rt: &impl Abort, store: &Closed, wanted: [u64; 4]) {
    assert_eq!(rt; store.cells(), cells_of(wanted).as_slice());
    for (cell, number) in store.cells().iter().enumerate() {
        assert_eq!(rt; number_in(store, cell), *number, "cell {cell}");
    }
}

/// The numbers of all records of a store in order.
fn assert_listed(
    rt: &impl Abort,
    alloc: Global,
    store: &Closed,
    wanted: &[u64],
) -> Result<(), Fail> {
    let listed = store.in_order(alloc)?;
    assert_eq!(rt; (store.len(), listed.len()), (wanted.len(), wanted.len()));
    for (place, number) in wanted.iter().enumerate() {
        assert_eq!(rt; listed[place].number, *number, "place {place}");
        assert_eq!(rt; store.record_of(*number), Some(blank(*number)), "{number}");
    }
    Ok(())
}

#[test]
fn three_ballots(rt: HostRuntime) -> Result<(), Fail> {
    let alloc = rt.alloc();
    let election = Election::example();
    let empty = Closed::empty(alloc, &election)?;
    assert_cells(&rt, &empty, [0; 4]);
    assert_listed(&rt, alloc, &empty, &[])?;
    let three = blanks(alloc, &[14, 1, 9])?;
    let store = Closed::from_records(alloc, &election, &three)?;
    assert_cells(&rt, &store, [9, 14, 1, 0]);
    assert_eq!(rt; store.record_of(10), None);
    assert_eq!(rt; store.record_of(0), None);
    assert_listed(&rt, alloc, &store, &[1, 9, 14])
}

#[test]
fn one_more(rt: HostRuntime) -> Result<(), Fail> {
    let alloc = rt.alloc();
    let mut store = store_of(alloc, &[1, 9, 14])?;
    let four = store_of(alloc, &[1, 9, 14, 22])?;
    add(alloc, &mut store, &[22], &four)?;
    assert_cells(&rt, &store, [22, 14, 9, 1]);
    assert_listed(&rt, alloc, &store, &[1, 9, 14, 22])
}

#[test]
fn one_less(rt: HostRuntime) -> Result<(), Fail> {
    let alloc = rt.alloc();
    let mut store = store_of(alloc, &[1, 9, 14])?;
    let two = store_of(alloc, &[1, 14])?;
    remove(alloc, &mut store, &two)?;
    assert_cells(&rt, &store, [1, 14, 0, 0]);
    assert_listed(&rt, alloc, &store, &[1, 14])
}
