//! The image of no ballots.

ghost use Rattle.std.specs.Prelude.{◌≡◌, [], IfOk};
ghost use Rattle.store_spec.specs.Election.{IsElection};
ghost use Rattle.store_spec.specs.Image.{image_of};

use crate::zeros::lengthen;
use ballot_record::{Election, Header};
use outside_io::Memory;
use std::alloc::Global;

/// The image of a store that holds nothing.
pub fn image(alloc: Global, election: &Election) -> Result<Vec<u8>, Memory>
    ensures image { IfOk result (λ bank. bank.items ≡ image_of election.now []) }
    ensures election { IsElection election.now }
{
    let header = Header::of(election);
    let size = election.bank_bytes();
    let mut bank = Vec::with_capacity(alloc, size)?;
    bank.extend_from_slice(&header.bytes)?;
    lengthen(&mut bank, size)?;
    Ok(bank)
}
