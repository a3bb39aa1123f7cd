//! The bytes of an image, changed in place where a ballot belongs in another cell.

ghost use Rattle.ballot_record.specs.BallotList.{ListedBallots};
ghost use Rattle.body_store.specs.Contents.{all_listed};
ghost use Rattle.body_store.specs.Fronts.{IsListStart};
ghost use Rattle.body_store.specs.Moves.{AreArrivals, AreImageCells, AreSought, Arrivals, Earlier, HasNew, IsLeft, IsMoved, IsRelay, IsRight, IsSought, StandsFrom, StayNoted, WaitsIn, cell_in, arriving_bytes};
ghost use Rattle.layout_def.specs.Changes.{AreChanges};
ghost use Rattle.std.specs.Prelude.{◌≡◌, ◌≢◌, ℕ, ◌+◌, ◌*◌, ◌^◌, ◌<◌, ◌≤◌, [], List, All, IfOk, OnErr, OnOk, flat_map, length, replicate, slice_index, slice_index_or, take};
ghost use Rattle.store_spec.specs.Ballot.{IsValid, numbers_of};
ghost use Rattle.store_spec.specs.Election.{cell_size, header_size, most_cells};
ghost use Rattle.store_spec.specs.Home.{home_of};
ghost use Rattle.store_spec.specs.Image.{ballot_bytes};
ghost use Rattle.store_spec.specs.Layout.{IsOrdered};

use crate::moves::Plan;
use ballot_record::{BallotList, Election, HEADER_BYTES};
use layout_def::CellChange;
use outside_io::Memory;
use probe_order::Salted;
use std::alloc::Global;

/// Changes the bytes of an image to those of its cells, in which each ballot of the image stands that is not withdrawn, and
/// the new ballots of these lists. `changes` say of each cell whose number is new which one it had. It takes all memory
/// before the first byte changes, and time near n log n of the ballots that move, whatever their homes.
pub fn relay(
    alloc: Global,
    order: &Salted,
    election: &Election,
    lists: &[BallotList],
    cells: &[u64],
    changes: &[CellChange],
    image: &mut [u8],
) -> Result<(), Memory>
    ghost was: { Earlier }
    requires election { All (λ list. list.election ≡ election.now) lists.now }
    requires cells { IsRelay election.now was.bytes_of (home_of order.now.bits order.now.salt) (all_listed lists.now)
        was.numbers cells.now image.old }
    requires changes { AreChanges cells.now was.numbers changes.now }
    ensures after { OnOk result (AreImageCells election.now was.bytes_of cells.now image.new) }
    ensures header { take header_size image.new ≡ take header_size image.old }
    ensures unchanged { OnErr result (image.new ≡ image.old) }
{
    let plan = make_plan(alloc, order, election, lists, cells, changes, image)?;
    let size = election.cell_bytes();
    carry_out(&plan, election, lists, cells, size, image);
    clear_left(cells, changes, size, image);
    Ok(())
}

/// What is to be written in each cell that gets another number.
fn make_plan(
    alloc: Global,
    order: &Salted,
    election: &Election,
    lists: &[BallotList],
    cells: &[u64],
    changes: &[CellChange],
    image: &[u8],
) -> Result<Plan, Memory>
    ghost new: { Arrivals }
    requires election { new.election ≡ election.now }
    requires lists { new.ballots ≡ all_listed lists.now }
    requires cells { IsRelay new.election new.bytes_of (home_of order.now.bits order.now.salt) new.ballots
        new.before cells.now image.now }
    requires changes { AreChanges cells.now new.before changes.now }
    ensures right { IfOk result (IsRight new.bytes_of cells.now (arriving_bytes new)) }
    ensures noted { IfOk result (λ plan. (cell : ℕ) → HasNew new.before cells.now cell
        → IsMoved plan.moves.items cell) }
{
    let size = election.cell_bytes();
    let front = count(lists);
    let mut plan = Plan::new(alloc, changes.len())?;
    take_in(&mut plan, order, lists, cells)?;
    take_out(&mut plan, order, size, front, cells, changes, image)?;
    plan.find_far(cells, changes)?;
    Ok(plan)
}

/// How many ballots lists have.
pub fn count(lists: &[BallotList]) -> usize
    requires { length (all_listed lists.now) < 2 ^ 32 }
    ensures { result ≡ length (all_listed lists.now) }
{
    let mut count = 0;
    'lists: for list in lists {
        count += list.len();
    }
    count
}

/// Notes where the ballots of lists belong.
fn take_in(
    plan: &mut Plan,
    order: &Salted,
    lists: &[BallotList],
    cells: &[u64],
) -> Result<(), Memory>
    ghost new: { Arrivals }
    requires ordered { IsOrdered (home_of order.now.bits order.now.salt) cells.now }
    requires few_cells { length cells.now ≤ most_cells }
    requires new { AreArrivals new }
    requires lists { new.ballots ≡ all_listed lists.now }
    requires right { IsRight new.bytes_of cells.now (arriving_bytes new) plan.old }
    ensures right { OnOk result (IsRight new.bytes_of cells.now (arriving_bytes new) plan.new) }
    ensures sought { OnOk result ((k : ℕ) → k < length new.ballots
        → IsSought cells.now plan.new (slice_index (numbers_of new.ballots) k)) }
    ensures bytes { OnOk result (plan.new.bytes.items ≡ plan.old.bytes.items) }
{
    let mut first = 0;
    'lists: for list in lists {
        let count = list.len();
        take_list(plan, order, list, first, cells)?;
        first += count;
    }
    Ok(())
}

/// Notes where the ballots of a list belong, which stand among all from one on.
fn take_list(
    plan: &mut Plan,
    order: &Salted,
    list: &BallotList,
    first: usize,
    cells: &[u64],
) -> Result<(), Memory>
    ghost new: { Arrivals }
    requires ordered { IsOrdered (home_of order.now.bits order.now.salt) cells.now }
    requires few_cells { length cells.now ≤ most_cells }
    requires new { AreArrivals new }
    requires here { StandsFrom first list.now.ballots new.ballots }
    requires right { IsRight new.bytes_of cells.now (arriving_bytes new) plan.old }
    ensures right { OnOk result (IsRight new.bytes_of cells.now (arriving_bytes new) plan.new) }
    ensures sought { OnOk result ((k : ℕ) → first ≤ k → k < first + length list.now.ballots
        → IsSought cells.now plan.new (slice_index (numbers_of new.ballots) k)) }
    ensures still { OnOk result (StayNoted cells.now plan.old plan.new) }
    ensures bytes { OnOk result (plan.new.bytes.items ≡ plan.old.bytes.items) }
{
    'ballots: for place in 0..list.len() {
        plan.note(order, cells, list.number(place), first + place)?;
    }
    Ok(())
}

/// Copies the ballots of cells that they left.
#[tactic(auto, using(ballot_record::proofs::CellFormat::header_width))]
fn take_out(
    plan: &mut Plan,
    order: &Salted,
    size: usize,
    front: usize,
    cells: &[u64],
    changes: &[CellChange],
    image: &[u8],
) -> Result<(), Memory>
    ghost new: { Arrivals }
    requires new { AreArrivals new }
    requires front { front ≡ length new.ballots }
    requires size { size ≡ cell_size new.election }
    requires ordered { IsOrdered (home_of order.now.bits order.now.salt) cells.now }
    requires few_cells { length cells.now ≤ most_cells }
    requires changes { AreChanges cells.now new.before changes.now }
    requires long { length image.now ≡ header_size + length cells.now * size }
    requires before { (cell : ℕ) → cell < length cells.now
        → cell_in size cell image.now ≡ new.bytes_of (slice_index new.before cell) }
    requires right { IsRight new.bytes_of cells.now (arriving_bytes new) plan.old }
    requires none { plan.old.bytes.items ≡ [] }
    ensures right { OnOk result (IsRight new.bytes_of cells.now (arriving_bytes new) plan.new) }
    ensures sought { OnOk result (AreSought cells.now plan.new changes.now) }
    ensures still { OnOk result (StayNoted cells.now plan.old plan.new) }
{
    let mut place = front;
    for change in changes {
        if change.number != 0 {
            let at = HEADER_BYTES + change.cell * size;
            place = plan.add(order, cells, place, change.number, &image[at..at + size])?;
        }
    }
    Ok(())
}

/// One of some lists, and the place of its first ballot among those of all.
#[derive(Clone, Copy)]
struct Front {
    list: usize,
    first: usize,
}

/// Writes what waits where it belongs.
fn carry_out(
    plan: &Plan,
    election: &Election,
    lists: &[BallotList],
    cells: &[u64],
    size: usize,
    image: &mut [u8],
)
    ghost was: { Earlier }
    requires wide { (number : ℕ) → length (was.bytes_of number) ≡ size }
    requires size { size ≡ cell_size election.now }
    requires election { All (λ list. list.election ≡ election.now) lists.now }
    requires valid { All (IsValid election.now) (all_listed lists.now) }
    requires long { length image.old ≡ header_size + length cells.now * size }
    requires before { (cell : ℕ) → cell < length cells.now
        → cell_in size cell image.old ≡ was.bytes_of (slice_index was.numbers cell) }
    requires right { IsRight was.bytes_of cells.now
        (flat_map (ballot_bytes election.now) (all_listed lists.now)) plan.now }
    requires noted { (cell : ℕ) → HasNew was.numbers cells.now cell → IsMoved plan.now.moves.items cell }
    ensures after { (cell : ℕ) → cell < length cells.now → ¬ IsLeft was.numbers cells.now cell
        → cell_in size cell image.new ≡ was.bytes_of (slice_index cells.now cell) }
    ensures header { take header_size image.new ≡ take header_size image.old }
{
    let mut front = Front { list: 0, first: 0 };
    for one in &plan.moves {
        let place = one.from as usize;
        front = list_with(lists, front, place);
        let bytes = waiting(election, lists, &plan.bytes, front, place);
        put_cell_at(image, size, one.cell as usize, bytes);
    }
}

/// The list that has the ballot at a place of all, or past the last; it is looked for from one on.
fn list_with(lists: &[BallotList], front: Front, place: usize) -> Front
    requires front { IsListStart lists.now front }
    ensures front { IsListStart lists.now result }
    ensures past { result.first ≤ place }
    ensures before { result.list < length lists.now → (d : ListedBallots)
        → place < result.first + length (slice_index_or lists.now result.list d).ballots }
{
    let mut front = if place < front.first {
        Front { list: 0, first: 0 }
    } else {
        front
    };
    'lists: while front.list < lists.len() {
        let count = lists[front.list].len();
        if place - front.first < count {
            return front;
        }
        front = Front {
            list: front.list + 1,
            first: front.first + count,
        };
    }
    front
}

/// The bytes of the cell that waits at a place, in the list that has that, or behind all.
fn waiting<'a>(
    election: &Election,
    lists: &'a [BallotList],
    behind: &'a [u8],
    front: Front,
    place: usize,
) -> &'a [u8]
    ghost f: { ℕ → List ℕ }
    requires election { All (λ list. list.election ≡ election.now) lists.now }
    requires valid { All (IsValid election.now) (all_listed lists.now) }
    requires front { IsListStart lists.now front }
    requires past { front.first ≤ place }
    requires before { front.list < length lists.now → (d : ListedBallots)
        → place < front.first + length (slice_index_or lists.now front.list d).ballots }
    requires waits { (number : ℕ) × (length (f number) ≡ cell_size election.now)
        × WaitsIn f (flat_map (ballot_bytes election.now) (all_listed lists.now)) behind.now place number }
    ensures { (number : ℕ) → length (f number) ≡ cell_size election.now
        → WaitsIn f (flat_map (ballot_bytes election.now) (all_listed lists.now)) behind.now place number
        → result.now ≡ f number }
{
    let size = election.cell_bytes();
    let place = place - front.first;
    if front.list < lists.len() {
        return lists[front.list].cell(place);
    }
    let at = place * size;
    &behind[at..at + size]
}

/// Writes zeros in the cells that were left, and are to be empty.
fn clear_left(cells: &[u64], changes: &[CellChange], size: usize, image: &mut [u8])
    ghost was: { Earlier }
    requires blank { was.bytes_of 0 ≡ replicate size 0 }
    requires changes { AreChanges cells.now was.numbers changes.now }
    requires long { length image.old ≡ header_size + length cells.now * size }
    requires others { (cell : ℕ) → cell < length cells.now → ¬ IsLeft was.numbers cells.now cell
        → cell_in size cell image.old ≡ was.bytes_of (slice_index cells.now cell) }
    ensures after { (cell : ℕ) → cell < length cells.now
        → cell_in size cell image.new ≡ was.bytes_of (slice_index cells.now cell) }
    ensures header { take header_size image.new ≡ take header_size image.old }
{
    for change in changes {
        if cells[change.cell] == 0 {
            clear_cell_at(image, size, change.cell);
        }
    }
}

/// Writes zeros in one cell.
#[tactic(auto, using(ballot_record::proofs::CellFormat::header_width))]
fn clear_cell_at(image: &mut [u8], size: usize, cell: usize)
    requires within { header_size + cell * size + size ≤ length image.old }
    ensures here { cell_in size cell image.new ≡ replicate size 0 }
    ensures others { (other : ℕ) → other ≢ cell → cell_in size other image.new ≡ cell_in size other image.old }
    ensures header { take header_size image.new ≡ take header_size image.old }
{
    let at = HEADER_BYTES + cell * size;
    image[at..at + size].fill(0);
}

/// Writes the bytes of one cell.
#[tactic(auto, using(ballot_record::proofs::CellFormat::header_width))]
fn put_cell_at(image: &mut [u8], size: usize, cell: usize, bytes: &[u8])
    requires within { header_size + cell * size + size ≤ length image.old }
    requires size { length bytes.now ≡ size }
    ensures here { cell_in size cell image.new ≡ bytes.now }
    ensures others { (other : ℕ) → other ≢ cell → cell_in size other image.new ≡ cell_in size other image.old }
    ensures header { take header_size image.new ≡ take header_size image.old }
{
    let at = HEADER_BYTES + cell * size;
    image[at..at + size].copy_from_slice(bytes);
}
