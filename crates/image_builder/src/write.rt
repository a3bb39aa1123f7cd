//! The image of a store, as a whole or a part of it.

ghost use Rattle.std.specs.Prelude.{◌≡◌, ◌+◌, ◌≤◌, List, take, drop, length, IfOk, IsPermutation};
ghost use Rattle.body_store.specs.Contents.{IsStored};
ghost use Rattle.store_spec.specs.Ballot.{Ballot};
ghost use Rattle.store_spec.specs.Election.{bank_size};
ghost use Rattle.store_spec.specs.Image.{image_of};

use body_store::Closed;
use outside_io::Memory;
use std::alloc::Global;

/// The image of a store.
pub fn image(alloc: Global, closed: &Closed) -> Result<Vec<u8>, Memory>
    ensures image { IfOk result (λ bank. bank.items ≡ image_of closed.now.election closed.now.ballots) }

    // The order in which the ballots are listed does not matter.
    ensures any_order { (ballots : List Ballot) → IsPermutation ballots closed.now.ballots
        → IfOk result (λ bank. bank.items ≡ image_of closed.now.election ballots) }
{
    Ok(Vec::from_slice(alloc, closed.image())?)
}

/// Writes the part of the image of a store that begins at a byte and is as long as `out`.
pub fn image_part(closed: &Closed, from: usize, out: &mut [u8])
    requires within { from + length out.old ≤ bank_size closed.now.election }
    ensures part { out.new
        ≡ take (length out.old) (drop from (image_of closed.now.election closed.now.ballots)) }
    ensures whole { length (image_of closed.now.election closed.now.ballots) ≡ bank_size closed.now.election }
    ensures stored { IsStored closed.now }
{
    let image = closed.image();
    out.copy_from_slice(&image[from..from + out.len()]);
}
