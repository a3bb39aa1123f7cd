//! Zeros, many at once.

ghost use Rattle.std.specs.Prelude.{◌≡◌, ◌-◌, ◌≤◌, ◌++◌, IfOk, OnOk, length, replicate};

use layout_def::put_zeros;
use outside_io::Memory;
use std::alloc::Global;

/// How many bytes are put at once.
const BLOCK_BYTES: usize = 2000;

const BLOCK: [u8; BLOCK_BYTES] = [0; BLOCK_BYTES];

/// Puts zeros behind bytes until they are so many. Where there is room for them no memory is taken.
pub fn lengthen(bytes: &mut Vec<u8>, end: usize) -> Result<(), Memory>
    requires { length bytes.old.items ≤ end }
    ensures { OnOk result (bytes.new.items
        ≡ bytes.old.items ++ replicate (end - length bytes.old.items) 0) }
{
    while bytes.len() < end {
        let count = BLOCK_BYTES.min(end - bytes.len());
        bytes.extend_from_slice(&BLOCK[..count])?;
    }
    Ok(())
}

/// So many empty cells, and memory for so many words behind them.
pub fn empty_cells(alloc: Global, count: usize, behind: usize) -> Result<Vec<u64>, Memory>
    ensures { IfOk result (λ cells. cells.items ≡ replicate count 0) }
{
    let mut cells = Vec::with_capacity(alloc, count.saturating_add(behind))?;
    put_zeros(&mut cells, count)?;
    Ok(cells)
}
