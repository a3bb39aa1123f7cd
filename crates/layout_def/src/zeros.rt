//! Words that are 0, many at once.

ghost use Rattle.std.specs.Prelude.{◌≡◌, ◌++◌, ℕ, OnOk, replicate};

use outside_io::Memory;

/// How many words are put at once. A block of this size is copied in the widest steps that the processor has.
const BLOCK: usize = 250;

const ZEROS: [u64; BLOCK] = [0; BLOCK];

/// Puts so many words that are 0 behind others. Where there is room for them no memory is taken.
pub fn put_zeros(words: &mut Vec<u64>, count: usize) -> Result<(), Memory>
    ensures all { OnOk result (words.new.items ≡ words.old.items ++ replicate count 0) }
    ensures some { (put : ℕ) × (words.new.items ≡ words.old.items ++ replicate put 0) }
{
    let mut left = count;
    while left > 0 {
        let more = BLOCK.min(left);
        words.extend_from_slice(&ZEROS[..more])?;
        left -= more;
    }
    Ok(())
}
