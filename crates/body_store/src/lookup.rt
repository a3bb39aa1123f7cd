//! What the bytes of a store tell of its ballots: the one in a cell or with a number, those of some cells, and all in
//! order.

ghost use Rattle.ballot_record.specs.Record.{ballot};
ghost use Rattle.body_store.specs.Contents.{ballots_of};
ghost use Rattle.body_store.specs.Held.{Shows, held_in};
ghost use Rattle.body_store.specs.Moves.{cell_in};
ghost use Rattle.body_store.specs.Places.{AreAt};
ghost use Rattle.layout_def.specs.Changes.{StandFrom};
ghost use Rattle.std.specs.Int.{bit_at, from_bool};
ghost use Rattle.std.specs.Prelude.{◌≡◌, ◌≢◌, ℕ, ◌+◌, ◌-◌, ◌*◌, ◌^◌, ◌<◌, ◌≤◌, ◌++◌, List, All, Contains, IfOk, MatchOption, OnOk, drop, length, map, nat_eq, not, option_map, slice_index, take};
ghost use Rattle.store_spec.specs.Ballot.{Ballot, IsListing, IsWithinLimit, ballot_of, numbers_of};
ghost use Rattle.store_spec.specs.Election.{IsElection, cell_count, header_size, most_cells};
ghost use Rattle.store_spec.specs.Home.{home_in};
ghost use Rattle.store_spec.specs.Image.{cells_of};
ghost use Rattle.store_spec.specs.Layout.{IsOrdered, ascending, numbers_in};

use ballot_record::{BallotList, Election, HEADER_BYTES, Record};
use layout_def::{BLOCK, build, other_cells, place_of};
use outside_io::Memory;
use std::alloc::Global;

/// A block of cells that have no number.
const EMPTY: [u64; BLOCK] = [0; BLOCK];

/// A number, and the cell in which it stands.
#[derive(Clone, Copy)]
pub struct Place {
    pub number: u64,
    pub cell: u32,
}

/// The cells of a store that holds these ballots.
pub fn layout(alloc: Global, election: &Election, ballots: &BallotList) -> Result<Vec<u64>, Memory>
    requires listing { IsListing election.now ballots.now.ballots }
    requires within_limit { IsWithinLimit election.now ballots.now.ballots }
    ensures cells { IfOk result
        (λ cells. cells.items ≡ cells_of election.now ballots.now.ballots) }
    ensures election { IsElection election.now }
{
    let order = election.order();
    let numbers = ballots.numbers(alloc)?;
    Ok(build(alloc, &order, election.cells(), &numbers)?)
}

/// How many of these cells have a number.
pub fn count(cells: &[u64]) -> usize
    ensures { result ≡ length (numbers_in cells.now) }
{
    let mut filled = 0;
    for cell in cells {
        if *cell != 0 {
            filled += 1;
        }
    }
    filled
}

/// The record whose number stands in a cell. `None` where the cell is empty.
pub fn in_cell(election: &Election, image: &[u8], cells: &[u64], cell: usize) -> Option<Record>
    ghost ballots: { List Ballot }
    requires shown { Shows election.now ballots image.now cells.now }
    requires within { cell < cell_count election.now }
    ensures { option_map ballot result ≡ ballot_of ballots (slice_index cells.now cell) }
{
    if cells[cell] == 0 {
        return None;
    }
    let bytes = bytes_in(image, election.cell_bytes(), cell);
    Some(Record::of_cell(bytes, election))
}

/// The bytes of a cell of an image.
#[tactic(auto, using(ballot_record::proofs::CellFormat::header_width))]
pub fn bytes_in(image: &[u8], size: usize, cell: usize) -> &[u8]
    requires { header_size + cell * size + size ≤ length image.now }
    ensures { result.now ≡ cell_in size cell image.now }
{
    let at = HEADER_BYTES + cell * size;
    &image[at..at + size]
}

/// The record with this number, which is looked for in the cells.
pub fn with_number(election: &Election, image: &[u8], cells: &[u64], number: u64) -> Option<Record>
    ghost ballots: { List Ballot }
    requires { Shows election.now ballots image.now cells.now }
    ensures { option_map ballot result ≡ ballot_of ballots number }
{
    let cell = cell_with(election, cells, number)?;
    in_cell(election, image, cells, cell)
}

/// The cell in which a number stands. `None` where it stands in none.
pub fn cell_with(election: &Election, cells: &[u64], number: u64) -> Option<usize>
    requires { IsOrdered (home_in election.now) cells.now }
    ensures { MatchOption result (number ≢ 0 → ¬ Contains cells.now number)
        (λ cell. (number ≢ 0) × (slice_index cells.now cell ≡ number)) }
{
    if number == 0 {
        return None;
    }
    place_of(&election.order(), cells, number)
}

/// The numbers in these cells in ascending order, each with its cell.
pub fn in_order(alloc: Global, cells: &[u64]) -> Result<Vec<Place>, Memory>
    requires few { length cells.now ≤ most_cells }
    ensures numbers { IfOk result
        (λ places. map (λ place. place.number) places.items ≡ ascending (numbers_in cells.now)) }
    ensures cells { IfOk result (λ places. AreAt cells.now places.items) }
{
    let mut places = Vec::with_capacity(alloc, count(cells))?;
    let mut at = 0;
    while at < cells.len() {
        let end = cells.len().min(at + BLOCK);
        push_filled(&mut places, at, &cells[at..end])?;
        at = end;
    }
    places.sort_unstable_by_key(|place| place.number);
    Ok(places)
}

/// Appends the numbers of a block of cells, which stand from one on.
fn push_filled(places: &mut Vec<Place>, first: usize, block: &[u64]) -> Result<(), Memory>
    requires block { length block.now ≤ 64 }
    requires few { first + length block.now ≤ most_cells }
    ensures numbers { OnOk result (map (λ place. place.number) places.new.items
        ≡ map (λ place. place.number) places.old.items ++ numbers_in block.now) }
    ensures cells { OnOk result ((cells : List ℕ) → StandFrom first block.now cells
        → AreAt cells places.old.items → AreAt cells places.new.items) }
{
    let mut filled = filled_cells(block);
    while filled != 0 {
        let place = filled.trailing_zeros() as usize;
        places.push(Place {
            number: block[place],
            cell: (first + place) as u32,
        })?;
        filled ^= 1 << place;
    }
    Ok(())
}

/// Which cells of a block have a number, a bit each.
fn filled_cells(block: &[u64]) -> u64
    requires { length block.now ≤ 64 }
    ensures { (k : ℕ) → bit_at result k ≡ from_bool (not (nat_eq (slice_index block.now k) 0)) }
{
    other_cells(block, &EMPTY[..block.len()])
}
