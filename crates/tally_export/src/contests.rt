//! The counting of a store's ballots.

ghost use Rattle.std.specs.Prelude.{◌≡◌, ◌≢◌, ℕ, ◌^◌, ◌<◌, ◌≤◌, ◌∷◌, [], length, slice_index};
ghost use Rattle.store_spec.specs.Ballot.{Ballot};
ghost use Rattle.store_spec.specs.Election.{IsElection, cell_count, cell_size};
ghost use Rattle.store_spec.specs.Image.{IsCellOf};
ghost use Rattle.tally_export.specs.Counted.{AddsBallots, IsTallyOf, IsUpTo};
ghost use Rattle.tally_export.specs.Ranges.{ballots_in};

use crate::counts::Tally;
use ballot_record::{Election, set_of, style_of};
use body_store::Closed;

/// Adds the ballot in a cell, read where it stands.
fn add_ballot(all: &mut Tally, cell: &[u8], election: &Election)
    requires valid { IsElection election.now }
    requires long { length cell.now ≡ cell_size election.now }
    requires held { (b : Ballot) × IsCellOf election.now cell.now b }
    requires room { IsUpTo (2 ^ 62) all.old }
    ensures { (b : Ballot) → IsCellOf election.now cell.now b
        → AddsBallots election.now (b ∷ []) all.old all.new }
{
    let contests = election.contests_on(style_of(cell, election));
    'contests: for place in 0..election.contests() {
        if contests >> place & 1 == 1 {
            let allowed = u32::from(election.contest(place + 1).allowed);
            all.count_set(place, set_of(cell, election, place), allowed);
        }
    }
}

/// The first cell from one on that has a number, or `end`.
fn past_empty(cells: &[u64], from: usize, end: usize) -> usize
    requires { (from ≤ end) × (end ≤ length cells.now) }
    ensures onward { (from ≤ result) × (result ≤ end) }
    ensures empty { (k : ℕ) → from ≤ k → k < result → slice_index cells.now k ≡ 0 }
    ensures some { result < end → slice_index cells.now result ≢ 0 }
{
    let mut cell = from;
    'cells: while cell < end && cells[cell] == 0 {
        cell += 1;
    }
    cell
}

/// The tally of the ballots from one cell of a store on, up to another.
#[inline(never)]
pub fn tally_cells(closed: &Closed, from: usize, end: usize) -> Tally
    requires { (from ≤ end) × (end ≤ cell_count closed.now.election) }
    ensures { IsTallyOf closed.now.election (ballots_in closed.now from end) result }
{
    let election = closed.election();
    let cells = closed.cells();
    let mut all = Tally::of_none();
    let mut cell = past_empty(cells, from, end);
    'cells: while cell < end {
        add_ballot(&mut all, closed.cell(cell), election);
        cell = past_empty(cells, cell + 1, end);
    }
    all
}

/// The tally of a store's ballots.
pub fn tally(closed: &Closed) -> Tally
    ensures { IsTallyOf closed.now.election closed.now.ballots result }
{
    tally_cells(closed, 0, closed.cells().len())
}
