//! Whether a cell is empty. Zeros are looked for in as many bytes at once as one comparison takes.

ghost use Rattle.std.specs.Prelude.{◌≡◌, ℕ, ◌<◌, ◌≤◌, ◌↔◌, length, replicate, slice_index, IsTrue};

/// How many bytes are compared at once. Every cell has more.
const STEP: usize = 8;

/// How many bytes are compared at once in a cell that has so many.
const WIDE: usize = 64;

/// Whether all bytes of a cell are 0.
#[inline(always)]
pub fn is_empty(cell: &[u8]) -> bool
    requires long { 8 ≤ length cell.now }
    ensures { IsTrue result ↔ cell.now ≡ replicate (length cell.now) 0 }
{
    if cell.len() < WIDE {
        is_empty_by(cell, STEP)
    } else {
        is_empty_by(cell, WIDE)
    }
}

/// Whether all bytes of a cell are 0, of which so many are compared at once.
#[inline(always)]
fn is_empty_by(cell: &[u8], step: usize) -> bool
    requires some { 0 < step }
    requires long { step ≤ length cell.now }
    ensures { IsTrue result ↔ cell.now ≡ replicate (length cell.now) 0 }
{
    let last = cell.len() - step;
    let mut from = 0;
    while from < last {
        if !are_zero(&cell[from..from + step]) {
            return false;
        }
        from += step;
    }
    are_zero(&cell[last..last + step])
}

/// Whether all these bytes are 0. It does not stop at the first that is not, so that many are compared at once.
#[inline(always)]
fn are_zero(bytes: &[u8]) -> bool
    ensures { IsTrue result ↔ ((k : ℕ) → k < length bytes.now → slice_index bytes.now k ≡ 0) }
{
    let mut zero = true;
    for byte in bytes {
        zero &= *byte == 0;
    }
    zero
}
