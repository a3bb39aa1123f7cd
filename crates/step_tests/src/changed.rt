//! Cells with their changes put into them.

ghost use Rattle.layout_def.specs.Changes.{AreChanges};
ghost use Rattle.std.specs.Prelude.{List, ℕ};

use layout_def::{CellChange, exchange};
use outside_io::Memory;
use std::alloc::Global;

/// A copy of some cells, into which what changes from these to others is put.
pub fn changed(
    alloc: Global,
    cells: &[u64],
    mut changes: Vec<CellChange>,
) -> Result<Vec<u64>, Memory>
    requires { (after : List ℕ) × AreChanges cells.now after changes.items }
{
    let mut changed = Vec::from_slice(alloc, cells)?;
    exchange(&mut changed, &mut changes);
    Ok(changed)
}
