//! The closed store: the image of the ballots that are held, and the cells in which their numbers stand.
#![tactic(auto)]

mod cells;
mod closing;
pub mod laws;
mod lookup;
mod moves;
mod nothing;
mod relay;
mod zeros;

ghost use Rattle.body_store.specs.ByNumber.{by_number};
ghost use Rattle.body_store.specs.Contents.{Contents, IsStored, all_listed, ballots_of, ballots_without};
ghost use Rattle.body_store.specs.Held.{Shows, held_in};
ghost use Rattle.body_store.specs.Places.{AreAt};
ghost use Rattle.layout_def.specs.Changes.{AreChanges};
ghost use Rattle.std.specs.Prelude.{◌≡◌, ◌++◌, ◌+◌, ◌-◌, ◌<◌, ◌≤◌, ℕ, List, [], All, IfOk, IsPermutation, MatchOption, None, OnErr, OnOk, Some, drop, length, map, option_map, replicate, slice_index, take};
ghost use Rattle.ballot_record.specs.Record.{ballot};
ghost use Rattle.store_spec.specs.Ballot.{Ballot, IsListing, IsWithinLimit, ballot_of, numbers_of};
ghost use Rattle.store_spec.specs.Election.{IsElection, bank_size, cell_count, cell_size};
ghost use Rattle.store_spec.specs.Home.{home_in};
ghost use Rattle.store_spec.specs.Image.{IsCellOf, cells_of, image_of};
ghost use Rattle.store_spec.specs.Layout.{IsLayout};

use crate::cells::Cells;
use ballot_record::{BallotList, Election, Record};
use layout_def::{CellChange, changes_between};
pub use lookup::{Place, layout};
use outside_io::Memory;
use std::alloc::Global;
use std::marker::Model;
use std::slice::from_ref;
pub use zeros::lengthen;

/// A store between two phases: its election, the bytes of its image, the number in each of its cells, and how many have
/// one. An election has some thousand bytes, and a store is moved at each line of a session, so the election stands
/// beside it.
#[derive(Drop)]
pub struct Closed {
    election: Box<Election>,
    image: Vec<u8>,
    cells: Cells,
    held: usize,
}

impl Model for Closed {
    ghost use Rattle.body_store.specs.Contents.{Contents};

    ghost Value = { Contents };

    ghost use Rattle.body_store.specs.Kept.{contents_of, IsKept};

    ghost view = { contents_of };

    ghost invariant = { IsKept };
}

impl Closed {
    /// A store that holds nothing.
    pub fn empty(alloc: Global, election: &Election) -> Result<Closed, Memory>
        ensures { IfOk result (λ store. store ≡ record { election = election.now; ballots = [] }) }
    {
        let image = nothing::image(alloc, election)?;
        let cells = zeros::empty_cells(alloc, election.cells(), election.limit() as usize)?;
        Closed::from_image(alloc, election, image, cells)
    }

    /// A store that holds these ballots, which may come in any order.
    pub fn from_records(
        alloc: Global,
        election: &Election,
        ballots: &BallotList,
    ) -> Result<Closed, Memory>
        requires election { ballots.now.election ≡ election.now }
        requires listing { IsListing election.now ballots.now.ballots }
        requires within_limit { IsWithinLimit election.now ballots.now.ballots }
        ensures election { IfOk result (λ store. store.election ≡ election.now) }
        ensures same { IfOk result (λ store. IsPermutation ballots.now.ballots store.ballots) }
        ensures stored { IfOk result IsStored }
    {
        let cells = lookup::layout(alloc, election, ballots)?;
        let mut image = nothing::image(alloc, election)?;
        let none = zeros::empty_cells(alloc, election.cells(), 0)?;
        let changes = changes_between(alloc, &cells, &none, ballots.len())?;
        closing::fill(
            alloc,
            election,
            from_ref(ballots),
            &cells,
            &changes,
            &mut image,
        )?;
        Closed::from_image(alloc, election, image, cells)
    }

    /// The store with this image. `cells` are the numbers in its cells.
    pub fn from_image(
        alloc: Global,
        election: &Election,
        image: Vec<u8>,
        cells: Vec<u64>,
    ) -> Result<Closed, Memory>
        ghost ballots: { List Ballot }
        requires { Shows election.now ballots image.items cells.items }
        ensures contents { IfOk result
            (λ store. store ≡ record { election = election.now; ballots = by_number ballots }) }
        ensures same { IfOk result (λ store. IsPermutation ballots store.ballots) }
        ensures stored { IfOk result IsStored }
    {
        let own = Box::new(alloc, *election)?;
        let held = lookup::count(&cells);
        Ok(Closed {
            election: own,
            image,
            cells: Cells::new(cells),
            held,
        })
    }

    /// Its election.
    pub fn election(&self) -> &Election
        ensures election { result.now ≡ self.now.election }
        ensures stored { IsStored self.now }
    {
        &self.election
    }

    /// How many ballots it holds.
    pub fn len(&self) -> usize
        ensures count { result ≡ length self.now.ballots }
        ensures stored { IsStored self.now }
    {
        self.held
    }

    /// The bytes of its image.
    pub fn image(&self) -> &[u8]
        ensures image { result.now ≡ image_of self.now.election self.now.ballots }
        ensures whole { length result.now ≡ bank_size self.now.election }
        ensures stored { IsStored self.now }
    {
        &self.image
    }

    /// Its cells, each with the number of a ballot, or 0 where it is empty.
    pub fn cells(&self) -> &[u64]
        ensures cells { result.now ≡ cells_of self.now.election self.now.ballots }
        ensures layout { IsLayout (home_in self.now.election)
            (cell_count self.now.election) (numbers_of self.now.ballots) result.now }
        ensures stored { IsStored self.now }
    {
        self.cells.numbers()
    }

    /// Its cells, and behind them words that are 0: as many as `make_words` put there and later phases left.
    pub fn words(&self) -> &Vec<u64>
        ensures words { result.now.items ≡ cells_of self.now.election self.now.ballots
            ++ replicate (length result.now.items - cell_count self.now.election) 0 }
        ensures stored { IsStored self.now }
    {
        self.cells.words()
    }

    /// Puts words that are 0 behind its cells, as many as it has room for ballots: a casting phase begins with both.
    pub fn make_words(&mut self) -> Result<(), Memory>
        ensures { self.new ≡ self.old }
    {
        let room = (self.election.limit() as usize).saturating_sub(self.held);
        self.cells.put_behind(room)
    }

    /// The numbers of its ballots in ascending order, each with its cell.
    pub fn in_order(&self, alloc: Global) -> Result<Vec<Place>, Memory>
        ensures numbers { IfOk result
            (λ places. map (λ place. place.number) places.items ≡ numbers_of self.now.ballots) }
        ensures cells { IfOk result
            (λ places. AreAt (cells_of self.now.election self.now.ballots) places.items) }
        ensures stored { IsStored self.now }
    {
        lookup::in_order(alloc, self.cells.numbers())
    }

    /// The ballot with this number. `None` where it holds none.
    pub fn record_of(&self, number: u64) -> Option<Record>
        ensures { option_map ballot result ≡ ballot_of self.now.ballots number }
    {
        lookup::with_number(&self.election, &self.image, self.cells.numbers(), number)
    }

    /// The ballot whose number stands in a cell. `None` where the cell is empty.
    pub fn record_in(&self, cell: usize) -> Option<Record>
        requires { cell < cell_count self.now.election }
        ensures { option_map ballot result
            ≡ ballot_of self.now.ballots
            (slice_index (cells_of self.now.election self.now.ballots) cell) }
    {
        lookup::in_cell(&self.election, &self.image, self.cells.numbers(), cell)
    }

    /// The bytes of a cell: those of the ballot whose number stands there.
    pub fn cell(&self, cell: usize) -> &[u8]
        requires { cell < cell_count self.now.election }
        ensures held { (b : Ballot) → ballot_of self.now.ballots
            (slice_index (cells_of self.now.election self.now.ballots) cell) ≡ Some b
            → IsCellOf self.now.election result.now b }
        ensures long { length result.now ≡ cell_size self.now.election }
        ensures stored { IsStored self.now }
    {
        lookup::bytes_in(&self.image, self.election.cell_bytes(), cell)
    }

    /// The bytes of the cell of the ballot with this number. `None` where it holds none.
    pub fn cell_of(&self, number: u64) -> Option<&[u8]>
        ensures { MatchOption result (ballot_of self.now.ballots number ≡ None)
            (λ bytes. (b : Ballot) × (ballot_of self.now.ballots number ≡ Some b)
            × IsCellOf self.now.election bytes.now b) }
    {
        let cell = lookup::cell_with(&self.election, self.cells.numbers(), number)?;
        Some(self.cell(cell))
    }

    /// Adds the ballots of lists, whose numbers are new to the store. `changes` make its cells those of all. After `Memory`
    /// it is as it was.
    pub fn merge(
        &mut self,
        alloc: Global,
        lists: &[BallotList],
        changes: Vec<CellChange>,
    ) -> Result<(), Memory>
        requires election { All (λ list. list.election ≡ self.old.election) lists.now }
        requires listing { IsListing self.old.election (self.old.ballots ++ all_listed lists.now) }
        requires within_limit { IsWithinLimit self.old.election
            (self.old.ballots ++ all_listed lists.now) }
        requires changes { AreChanges (cells_of self.old.election self.old.ballots)
            (cells_of self.old.election (self.old.ballots ++ all_listed lists.now)) changes.items }
        ensures election { self.new.election ≡ self.old.election }
        ensures union { OnOk result
            (IsPermutation (self.old.ballots ++ all_listed lists.now) self.new.ballots) }
        ensures unchanged { OnErr result (self.new ≡ self.old) }
        ensures stored { IsStored self.new }
    {
        let before = self.held;
        let held = before + relay::count(lists);
        closing::close(
            alloc,
            &self.election,
            lists,
            &mut self.cells,
            changes,
            &mut self.image,
        )?;
        self.held = held;
        self.cells
            .leave_behind((self.election.limit() as usize).saturating_sub(held));
        Ok(())
    }

    /// Takes out the ballots of some numbers: those that stand no more in its cells after these changes. After `Memory` it is
    /// as it was.
    pub fn without(&mut self, alloc: Global, changes: Vec<CellChange>) -> Result<(), Memory>
        requires { (numbers : List ℕ)
            × AreChanges (cells_of self.old.election self.old.ballots)
            (cells_of self.old.election (ballots_without self.old.ballots numbers)) changes.items }
        ensures election { self.new.election ≡ self.old.election }
        ensures rest { (numbers : List ℕ)
            → AreChanges (cells_of self.old.election self.old.ballots)
            (cells_of self.old.election (ballots_without self.old.ballots numbers)) changes.items
            → OnOk result (self.new ≡ record {
              election = self.old.election;
              ballots = ballots_without self.old.ballots numbers;
            }) }
        ensures stored { IsStored self.new }
        ensures unchanged { OnErr result (self.new ≡ self.old) }
    {
        closing::close(
            alloc,
            &self.election,
            &[],
            &mut self.cells,
            changes,
            &mut self.image,
        )?;
        self.held = lookup::count(self.cells.numbers());
        Ok(())
    }
}
