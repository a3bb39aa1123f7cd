//! In which cells the ballots of an image belong, and the bytes of those that are to be written.

ghost use Rattle.layout_def.specs.Changes.{AreChanges};
ghost use Rattle.body_store.specs.Moves.{AwaitsCell, HasNew, IsMoved, IsNear, IsNextPlace, IsNoted, IsRight, IsRightMove, IsSought, StayNoted, WaitsIn};
ghost use Rattle.std.specs.List.Sorted.{IsNonDecreasingBy};
ghost use Rattle.std.specs.Prelude.{◌≡◌, ◌≢◌, ℕ, ◌+◌, ◌*◌, ◌^◌, ◌<◌, ◌≤◌, [], List, All, Contains, IfOk, MatchOption, OnOk, length, replicate, slice_index};
ghost use Rattle.store_spec.specs.Election.{most_cells};
ghost use Rattle.store_spec.specs.Home.{home_of};
ghost use Rattle.store_spec.specs.Layout.{IsOrdered};

use layout_def::CellChange;
use outside_io::Memory;
use probe_order::{Order, Salted};
use std::alloc::Global;

/// How many cells from its home on a number is looked for. Nearly all stand so near, and the time stays linear where
/// many have one home.
const NEAR: usize = 32;

/// The bytes that wait at a place belong in this cell. Places are counted in cells: those of new ballots, in their order,
/// and behind them those that were copied.
#[derive(Clone, Copy)]
pub struct Move {
    pub from: u32,
    pub cell: u32,
}

/// A number, and the place at which the bytes of its cell wait.
#[derive(Clone, Copy)]
pub struct Waiting {
    pub number: u64,
    pub from: u32,
}

/// Where a number stands.
#[derive(Clone, Copy)]
enum Near {
    /// In this cell, near its home.
    At(usize),
    /// In none.
    Nowhere,
    /// Not near its home.
    Far,
}

/// The ballots that are to be written in an image, and where. The bytes that wait are those of new ballots, and behind them
/// its own.
#[derive(Drop)]
pub struct Plan {
    /// The bytes of the cells of ballots that move, one behind another.
    pub bytes: Vec<u8>,
    pub moves: Vec<Move>,
    /// The numbers that are far from their homes, whose cells are not known yet.
    pub far: Vec<Waiting>,
}

impl Plan {
    /// Nothing is to be written. There is room for so many moves.
    pub fn new(alloc: Global, room: usize) -> Result<Plan, Memory>
        ensures right { IfOk result (λ plan. (f : ℕ → List ℕ) (cells front : List ℕ) → IsRight f cells front plan) }
        ensures none { IfOk result (λ plan. plan.bytes.items ≡ []) }
    {
        Ok(Plan {
            bytes: Vec::new(alloc),
            moves: Vec::with_capacity(alloc, room)?,
            far: Vec::new(alloc),
        })
    }

    /// Notes in which cell the bytes of a number's cell belong, which wait at a place. A number that stands in none is left
    /// out.
    pub fn note(
        &mut self,
        order: &Salted,
        cells: &[u64],
        number: u64,
        from: usize,
    ) -> Result<(), Memory>
        requires some { number ≢ 0 }
        requires ordered { IsOrdered (home_of order.now.bits order.now.salt) cells.now }
        requires few_cells { length cells.now ≤ most_cells }
        requires short { from < 2 ^ 32 }
        ensures right { OnOk result ((f : ℕ → List ℕ) (front : List ℕ)
            → WaitsIn f front self.old.bytes.items from number
            → IsRight f cells.now front self.old → IsRight f cells.now front self.new) }
        ensures sought { OnOk result (IsSought cells.now self.new number) }
        ensures still { OnOk result (StayNoted cells.now self.old self.new) }
        ensures bytes { self.new.bytes.items ≡ self.old.bytes.items }
    {
        let near = find_near(order, cells, number);
        self.note_near(order, cells, near, number, from)
    }

    /// The same of a number that stands there.
    fn note_near(
        &mut self,
        order: &Salted,
        cells: &[u64],
        near: Near,
        number: u64,
        from: usize,
    ) -> Result<(), Memory>
        requires near { IsNear cells.now number near }
        requires some { number ≢ 0 }
        requires ordered { IsOrdered (home_of order.now.bits order.now.salt) cells.now }
        requires few_cells { length cells.now ≤ most_cells }
        requires short { from < 2 ^ 32 }
        ensures right { OnOk result ((f : ℕ → List ℕ) (front : List ℕ)
            → WaitsIn f front self.old.bytes.items from number
            → IsRight f cells.now front self.old → IsRight f cells.now front self.new) }
        ensures sought { OnOk result (IsSought cells.now self.new number) }
        ensures still { OnOk result (StayNoted cells.now self.old self.new) }
        ensures bytes { self.new.bytes.items ≡ self.old.bytes.items }
    {
        let from = from as u32;
        match near {
            Near::At(cell) => {
                self.moves.push(Move {
                    from,
                    cell: cell as u32,
                })?;
            }
            Near::Nowhere => {}
            Near::Far => self.far.push(Waiting { number, from })?,
        }
        Ok(())
    }

    /// Copies the bytes of a number's cell to wait at a place, and notes in which cell they belong. Those of a number that
    /// stands in none are left out. It gives the place for the next.
    pub fn add(
        &mut self,
        order: &Salted,
        cells: &[u64],
        place: usize,
        number: u64,
        bytes: &[u8],
    ) -> Result<usize, Memory>
        requires some { number ≢ 0 }
        requires ordered { IsOrdered (home_of order.now.bits order.now.salt) cells.now }
        requires few_cells { length cells.now ≤ most_cells }
        requires short { place < 2 ^ 32 }
        ensures right { OnOk result ((f : ℕ → List ℕ) (new : List ℕ)
            → length new + length self.old.bytes.items ≡ place * length bytes.now → bytes.now ≡ f number
            → IsRight f cells.now new self.old → IsRight f cells.now new self.new) }
        ensures sought { OnOk result (IsSought cells.now self.new number) }
        ensures still { OnOk result (StayNoted cells.now self.old self.new) }
        ensures next { IfOk result
            (λ next. IsNextPlace place self.old.bytes.items bytes.now next self.new.bytes.items) }
    {
        let near = find_near(order, cells, number);
        if let Near::Nowhere = near {
            return Ok(place);
        }
        self.bytes.extend_from_slice(bytes)?;
        self.note_near(order, cells, near, number, place)?;
        Ok(place + 1)
    }

    /// Finds the cells of the numbers that are far from their homes, among those that changed.
    pub fn find_far(&mut self, cells: &[u64], changes: &[CellChange]) -> Result<(), Memory>
        ghost before: { List ℕ }
        requires changes { AreChanges cells.now before changes.now }
        requires few_cells { length cells.now ≤ most_cells }
        requires noted { (cell : ℕ) → HasNew before cells.now cell → IsNoted cells.now self.old cell }
        ensures right { OnOk result ((f : ℕ → List ℕ) (front : List ℕ)
            → IsRight f cells.now front self.old → IsRight f cells.now front self.new) }
        ensures noted { OnOk result ((cell : ℕ) → HasNew before cells.now cell
            → IsMoved self.new.moves.items cell) }
    {
        if !self.far.is_empty() {
            self.far.sort_unstable_by_key(|one| one.number);
            move_far(cells, changes, &self.far, &mut self.moves)?;
        }
        Ok(())
    }
}

/// Where a number stands, if that is near its home. A smaller number or an empty cell ends the search: in ordered cells
/// the number stands behind neither.
fn find_near(order: &Salted, cells: &[u64], number: u64) -> Near
    requires some { number ≢ 0 }
    requires ordered { IsOrdered (home_of order.now.bits order.now.salt) cells.now }
    ensures { IsNear cells.now number result }
{
    let home = order.home(number);
    let end = cells.len().min(home.saturating_add(NEAR));
    for cell in home..end {
        if cells[cell] <= number {
            return if cells[cell] == number {
                Near::At(cell)
            } else {
                Near::Nowhere
            };
        }
    }
    Near::Far
}

/// Appends the moves to those changed cells whose numbers are among these, which are in order.
fn move_far(
    cells: &[u64],
    changes: &[CellChange],
    far: &[Waiting],
    moves: &mut Vec<Move>,
) -> Result<(), Memory>
    requires within { All (λ change. change.cell < length cells.now) changes.now }
    requires few_cells { length cells.now ≤ most_cells }
    requires rising { IsNonDecreasingBy (λ one. one.number) far.now }
    ensures right { OnOk result ((f : ℕ → List ℕ) (front bytes : List ℕ)
        → All (λ one. WaitsIn f front bytes one.from one.number) far.now
        → All (IsRightMove f cells.now front bytes) moves.old.items
        → All (IsRightMove f cells.now front bytes) moves.new.items) }
    ensures still { OnOk result ((cell : ℕ) → IsMoved moves.old.items cell → IsMoved moves.new.items cell) }
    ensures moved { OnOk result (All (λ change. AwaitsCell far.now (slice_index cells.now change.cell)
        → IsMoved moves.new.items change.cell) changes.now) }
{
    for change in changes {
        if let Some(from) = waits_from(far, cells[change.cell]) {
            moves.push(Move {
                from,
                cell: change.cell as u32,
            })?;
        }
    }
    Ok(())
}

/// From where on the bytes of a number's cell wait, if it is one of these.
fn waits_from(far: &[Waiting], number: u64) -> Option<u32>
    requires { IsNonDecreasingBy (λ one. one.number) far.now }
    ensures { MatchOption result (¬ AwaitsCell far.now number)
        (λ from. Contains far.now (record { number = number; from = from })) }
{
    match far.binary_search_by_key(&number, |one| one.number) {
        Ok(at) => Some(far[at].from),
        Err(_) => None,
    }
}
