//! A list of ballots of one election, which keeps each as the bytes of its cell.

ghost use Rattle.ballot_record.specs.BallotList.{empty_list, with_more};
ghost use Rattle.ballot_record.specs.Record.{ballot};
ghost use Rattle.std.specs.Prelude.{◌≡◌, ◌+◌, ◌*◌, ◌^◌, ◌<◌, ◌≤◌, ◌++◌, All, IfOk, IsOk, OnErr, OnOk, Some, drop, flat_map, length, slice_get, slice_index, slice_range, take, vec_capacity, vec_len};
ghost use Rattle.store_spec.specs.Ballot.{Ballot, IsValid, numbers_of};
ghost use Rattle.store_spec.specs.Election.{IsElection, cell_size};
ghost use Rattle.store_spec.specs.Image.{IsCellOf, ballot_bytes};

use crate::format::number_of;
use crate::{Election, MAX_CELL_BYTES, Record};
use outside_io::Memory;
use std::alloc::Global;
use std::marker::Model;
use std::snapshot::Snapshot;

/// The bytes of the cell at a place, where each has so many.
fn part(cells: &[u8], size: usize, place: usize) -> &[u8]
    requires { place * size + size ≤ length cells.now }
    ensures { result.now ≡ take size (drop (place * size) cells.now) }
{
    let at = place * size;
    &cells[at..at + size]
}

/// Puts the bytes of a ballot's cell behind others.
#[tactic(auto, using(crate::proofs::CellFormat::largest_cell_width, std::proofs::lemmas::Grind::common_steps))]
fn push_cell(cells: &mut Vec<u8>, cast: &Record, election: &Election) -> Result<(), Memory>
    requires { IsValid election.now (ballot cast.now) }
    ensures pushed { OnOk result
        (cells.new.items ≡ cells.old.items ++ ballot_bytes election.now (ballot cast.now)) }
    ensures unchanged { OnErr result (cells.new.items ≡ cells.old.items) }
    ensures capacity { vec_capacity cells.old ≤ vec_capacity cells.new }
    ensures room { vec_len cells.old + cell_size election.now ≤ vec_capacity cells.old
        → IsOk result }
{
    let mut room = [0; MAX_CELL_BYTES];
    let cell = &mut room[..election.cell_bytes()];
    cast.put_cell(election, cell);
    cells.extend_from_slice(cell)?;
    Ok(())
}

/// Ballots of one election, in their order: the bytes of their cells, one behind another. A `Record` is what one of them
/// is while it is handled.
#[derive(Drop)]
pub struct BallotList {
    of: Snapshot<Election>,
    /// How many bytes each has.
    size: usize,
    bytes: Vec<u8>,
    count: usize,
    /// For how many of them memory was taken beforehand.
    places: usize,
}

impl Model for BallotList {
    ghost use Rattle.ballot_record.specs.BallotList.{ListedBallots};

    ghost Value = { ListedBallots };

    ghost use Rattle.ballot_record.specs.BallotListKept.{IsBallotList, list_seen};

    ghost view = { list_seen };

    ghost invariant = { IsBallotList };
}

impl BallotList {
    /// No ballots.
    pub fn new(alloc: Global, election: &Election) -> BallotList
        ensures { result ≡ empty_list election.now 0 }
    {
        BallotList {
            of: Snapshot::of(election),
            size: election.cell_bytes(),
            bytes: Vec::new(alloc),
            count: 0,
            places: 0,
        }
    }

    /// No ballots, and memory for so many.
    pub fn with_room(alloc: Global, election: &Election, room: usize) -> Result<BallotList, Memory>
        requires { room < 2 ^ 33 }
        ensures { IfOk result (λ list. list ≡ empty_list election.now room) }
    {
        let size = election.cell_bytes();
        Ok(BallotList {
            of: Snapshot::of(election),
            size,
            bytes: Vec::with_capacity(alloc, room * size)?,
            count: 0,
            places: room,
        })
    }

    /// How many ballots there are.
    pub fn len(&self) -> usize
        ensures count { result ≡ length self.now.ballots }
        ensures election { IsElection self.now.election }
        ensures valid { All (IsValid self.now.election) self.now.ballots }
    {
        self.count
    }

    /// The bytes of all cells, one behind another.
    pub fn bytes(&self) -> &[u8]
        ensures bytes { result.now ≡ flat_map (ballot_bytes self.now.election) self.now.ballots }
        ensures valid { All (IsValid self.now.election) self.now.ballots }
    {
        &self.bytes
    }

    /// The bytes of the cell of the ballot at a place.
    pub fn cell(&self, place: usize) -> &[u8]
        requires { place < length self.now.ballots }
        ensures cell { (b : Ballot) × (slice_get self.now.ballots place ≡ Some b)
            × IsCellOf self.now.election result.now b }
        ensures long { length result.now ≡ cell_size self.now.election }
        ensures election { IsElection self.now.election }
    {
        part(&self.bytes, self.size, place)
    }

    /// The number of the ballot at a place.
    pub fn number(&self, place: usize) -> u64
        requires { place < length self.now.ballots }
        ensures { result ≡ slice_index (numbers_of self.now.ballots) place }
    {
        number_of(self.cell(place))
    }

    /// The numbers of all ballots.
    pub fn numbers(&self, alloc: Global) -> Result<Vec<u64>, Memory>
        ensures { IfOk result (λ numbers. numbers.items ≡ numbers_of self.now.ballots) }
    {
        let mut numbers = Vec::with_capacity(alloc, self.len())?;
        'places: for place in 0..self.len() {
            numbers.push(self.number(place))?;
        }
        Ok(numbers)
    }

    /// The ballot at a place.
    pub fn record(&self, place: usize, election: &Election) -> Record
        requires within { place < length self.now.ballots }
        requires election { election.now ≡ self.now.election }
        ensures { slice_get self.now.ballots place ≡ Some (ballot result) }
    {
        Record::of_cell(self.cell(place), election)
    }

    /// Puts a ballot behind the others. Where there is room it takes no memory.
    pub fn push(&mut self, cast: &Record, election: &Election) -> Result<(), Memory>
        requires election { election.now ≡ self.old.election }
        requires valid { IsValid election.now (ballot cast.now) }
        ensures pushed { OnOk result (self.new ≡ with_more self.old (ballot cast.now)) }
        ensures unchanged { OnErr result (self.new ≡ self.old) }
        ensures room { 0 < self.old.room → IsOk result }
    {
        let long = self.bytes.len();
        prove!(self.count <= long / 8);
        push_cell(&mut self.bytes, cast, election)?;
        self.count += 1;
        Ok(())
    }

    /// Puts a ballot behind the others, of which these are the bytes of its cell. Where there is room it takes no memory.
    pub fn push_cell(&mut self, cell: &[u8]) -> Result<(), Memory>
        requires { (b : Ballot) × IsCellOf self.old.election cell.now b }
        ensures pushed { OnOk result ((b : Ballot) → IsCellOf self.old.election cell.now b
            → self.new ≡ with_more self.old b) }
        ensures unchanged { OnErr result (self.new ≡ self.old) }
        ensures room { 0 < self.old.room → IsOk result }
    {
        let long = self.bytes.len();
        prove!(self.count <= long / 8);
        self.bytes.extend_from_slice(cell)?;
        self.count += 1;
        Ok(())
    }

    /// Puts the ballot at a place of another list behind the others. Where there is room it takes no memory.
    pub fn push_from(&mut self, other: &BallotList, place: usize) -> Result<(), Memory>
        requires election { other.now.election ≡ self.old.election }
        requires within { place < length other.now.ballots }
        ensures pushed { OnOk result ((b : Ballot) × (slice_get other.now.ballots place ≡ Some b)
            × (self.new ≡ with_more self.old b)) }
        ensures unchanged { OnErr result (self.new ≡ self.old) }
        ensures room { 0 < self.old.room → IsOk result }
    {
        self.push_cell(other.cell(place))
    }

    /// The bytes of the cells of the ballots from one place up to another.
    fn cells_between(&self, from: usize, end: usize) -> &[u8]
        requires within { (from ≤ end) × (end ≤ length self.now.ballots) }
        ensures cells { result.now ≡ flat_map (ballot_bytes self.now.election) (slice_range self.now.ballots from end) }
    {
        &self.bytes[from * self.size..end * self.size]
    }

    /// Puts the ballots of another list from one place up to another behind the others.
    pub fn push_range(&mut self, other: &BallotList, from: usize, end: usize) -> Result<(), Memory>
        requires election { other.now.election ≡ self.old.election }
        requires within { (from ≤ end) × (end ≤ length other.now.ballots) }
        ensures put { OnOk result
            (self.new.ballots ≡ self.old.ballots ++ slice_range other.now.ballots from end) }
        ensures election { self.new.election ≡ self.old.election }
        ensures unchanged { OnErr result (self.new ≡ self.old) }
    {
        let long = self.bytes.len();
        prove!(self.count <= long / 8);
        let others = other.bytes.len();
        prove!(other.count <= others / 8);
        self.bytes
            .extend_from_slice(other.cells_between(from, end))?;
        self.count += end - from;
        Ok(())
    }
}
