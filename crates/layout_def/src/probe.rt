//! The search for an empty cell, over pointers that skip what is known to be full.

ghost use Rattle.layout_def.specs.Pointers.{AreSound, LeavesOneEmpty};
ghost use Rattle.std.specs.Prelude.{◌≡◌, ℕ, ◌+◌, ◌<◌, ◌≤◌, EachIndex, IfOk, length, slice_index};
ghost use Rattle.store_spec.specs.Probe.{IsFirstEmpty};

use outside_io::Memory;
use std::alloc::Global;

/// A pointer from each cell to itself, for cells that are all empty.
pub fn fresh_pointers(alloc: Global, cells: usize) -> Result<Vec<usize>, Memory>
    ensures one_each { IfOk result (λ pointers. length pointers.items ≡ cells) }
    ensures to_itself { IfOk result
        (λ pointers. EachIndex pointers.items (λ cell. slice_index pointers.items cell ≡ cell)) }
{
    let mut pointers = Vec::with_capacity(alloc, cells)?;
    for cell in 0..cells {
        pointers.push(cell)?;
    }
    Ok(pointers)
}

/// The first empty cell at or after a place. It shortens the way for later searches.
pub fn first_empty(cells: &[u64], onward: &mut [usize], from: usize) -> usize
    requires sound { AreSound cells.now onward.old }
    requires one_left { LeavesOneEmpty cells.now from }
    ensures first { IsFirstEmpty cells.now from result }
    ensures still_sound { AreSound cells.now onward.new }
{
    let mut at = from;
    while cells[at] != 0 {
        let skipped = onward[onward[at]];
        onward[at] = skipped;
        at = skipped;
    }
    at
}
