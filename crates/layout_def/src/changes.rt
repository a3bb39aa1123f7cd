//! Which cells have other numbers in one list of cells than in another.

ghost use Rattle.layout_def.specs.Changes.{AreChanges, AreChangesUpTo, StandFrom};
ghost use Rattle.std.specs.Int.{bit_at, from_bool};
ghost use Rattle.std.specs.Prelude.{◌≡◌, ◌≢◌, ◌+◌, ◌^◌, ◌<◌, ◌≤◌, ℕ, IfOk, List, OnOk, length, nat_eq, not, slice_index};

use outside_io::Memory;
use std::alloc::Global;
use std::simd::prelude::*;

/// A cell, and the number that it has in another list.
#[derive(Clone, Copy)]
pub struct CellChange {
    pub cell: usize,
    pub number: u64,
}

/// How many cells are compared at once.
pub const BLOCK: usize = 64;

/// What changes from some cells to others, in the order of the cells. It has room for so many changes at first.
pub fn changes_between(
    alloc: Global,
    old: &[u64],
    new: &[u64],
    room: usize,
) -> Result<Vec<CellChange>, Memory>
    requires as_many { length old.now ≡ length new.now }
    requires few { length new.now < 2 ^ 32 }
    ensures { IfOk result (λ changes. AreChanges old.now new.now changes.items) }
{
    let mut changes = Vec::with_capacity(alloc, room.saturating_add(BLOCK))?;
    let mut at = 0;
    while at < old.len() {
        let end = old.len().min(at + BLOCK);
        note_changes(&mut changes, at, &old[at..end], &new[at..end])?;
        at = end;
    }
    Ok(changes)
}

/// Appends the changes of a block of cells, which stand from one on.
pub fn note_changes(
    changes: &mut Vec<CellChange>,
    first: usize,
    old: &[u64],
    new: &[u64],
) -> Result<(), Memory>
    requires as_many { length old.now ≡ length new.now }
    requires block { length new.now ≤ 64 }
    requires few { first + length new.now < 2 ^ 32 }
    ensures { OnOk result ((before after : List ℕ)
        → StandFrom first old.now before → StandFrom first new.now after
        → AreChangesUpTo before after first changes.old.items
        → AreChangesUpTo before after (first + length new.now) changes.new.items) }
{
    let mut others = other_cells(old, new);
    if others == 0 {
        return Ok(());
    }
    changes.reserve(new.len())?;
    while others != 0 {
        let place = others.trailing_zeros() as usize;
        changes.push_reserved(CellChange {
            cell: first + place,
            number: new[place],
        });
        others ^= 1 << place;
    }
    Ok(())
}

/// Which cells of a block have other numbers in another list, a bit each.
pub fn other_cells(old: &[u64], new: &[u64]) -> u64
    requires as_many { length old.now ≡ length new.now }
    requires block { length new.now ≤ 64 }
    ensures { (k : ℕ) → bit_at result k
        ≡ from_bool (not (nat_eq (slice_index old.now k) (slice_index new.now k))) }
{
    if new.len() == BLOCK {
        return others_of_whole(old, new);
    }
    let mut others = 0;
    for place in 0..new.len() {
        others |= u64::from(old[place] != new[place]) << place;
    }
    others
}

/// The same of a whole block, whose cells are compared at once.
fn others_of_whole(old: &[u64], new: &[u64]) -> u64
    requires old { length old.now ≡ 64 }
    requires new { length new.now ≡ 64 }
    ensures { (k : ℕ) → k < 64
        → bit_at result k ≡ from_bool (not (nat_eq (slice_index old.now k) (slice_index new.now k))) }
{
    u64x64::from_slice(old)
        .simd_ne(u64x64::from_slice(new))
        .to_bitmask()
}

/// Puts into each cell the number that it has in the other list, and keeps in its place the one that it had: what changes
/// back.
pub fn exchange(cells: &mut [u64], changes: &mut [CellChange])
    requires { (after : List ℕ) × AreChanges cells.old after changes.old }
    ensures { (after : List ℕ) → AreChanges cells.old after changes.old
        → (cells.new ≡ after) × AreChanges after cells.old changes.new }
{
    for at in 0..changes.len() {
        let cell = changes[at].cell;
        let number = changes[at].number;
        changes[at].number = cells[cell];
        cells[cell] = number;
    }
}
