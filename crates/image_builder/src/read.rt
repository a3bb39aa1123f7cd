//! Why bytes are not read as the image of a store, and the test of a header.
#![tactic(auto, using(ballot_record::proofs::CellFormat::header_width, std::proofs::lemmas::Grind::common_steps))]

ghost use Rattle.std.specs.Prelude.{◌≡◌, ◌≢◌, ℕ, ◌+◌, ◌<◌, ◌≤◌, ◌++◌, List, [], length, take, IfOk, IfErr};
ghost use Rattle.store_spec.specs.Election.{IsElection, header_size};
ghost use Rattle.store_spec.specs.Image.{header_of};

use ballot_record::{Election, HEADER_BYTES, Header};
use outside_io::Memory;
use std::alloc::{AllocError, AllocFailed};

/// Why bytes were not read as the image of a store.
#[derive(Clone, Copy, Debug, PartialEq, Eq)]
pub enum ImageFault {
    /// The header is not that of this election, but this.
    OtherElection { header: [u8; HEADER_BYTES] },
    /// The header is this election's, and this cell, counted from 0, is the first wrong one.
    Damaged { cell: u32 },
    /// There was no memory.
    Memory,
}

impl From<Memory> for ImageFault {
    ghost use Rattle.std.specs.Prelude.{◌≡◌};
    ghost use Rattle.image_builder.specs.declared.read.ImageFault.TheVariants as faults;

    ghost from_gives = { λ _ fault. fault ≡ faults.Memory };

    fn from(_: Memory) -> Self {
        ImageFault::Memory
    }
}

impl From<AllocError> for ImageFault {
    ghost use Rattle.std.specs.Prelude.{◌≡◌};
    ghost use Rattle.image_builder.specs.declared.read.ImageFault.TheVariants as faults;

    ghost from_gives = { λ _ fault. fault ≡ faults.Memory };

    fn from(_: AllocError) -> Self {
        ImageFault::Memory
    }
}

impl<T: Drop> From<AllocFailed<T>> for ImageFault {
    ghost use Rattle.std.specs.Prelude.{◌≡◌};
    ghost use Rattle.image_builder.specs.declared.read.ImageFault.TheVariants as faults;

    ghost from_gives = { λ _ fault. fault ≡ faults.Memory };

    fn from(_: AllocFailed<T>) -> Self {
        ImageFault::Memory
    }
}

/// Tests whether bytes begin with the header of an election's bank.
pub fn check_header(bytes: &[u8], election: &Election) -> Result<(), ImageFault>
    requires { header_size ≤ length bytes.now }
    ensures own { IfOk result (λ _. take header_size bytes.now ≡ header_of election.now) }
    ensures other { IfErr result (λ _. take header_size bytes.now ≢ header_of election.now) }
    ensures told { IfErr result
        (λ fault. fault ≡ ImageFault.OtherElection (take header_size bytes.now)) }
    ensures valid { IsElection election.now }
{
    prove!(HEADER_BYTES <= bytes.len());
    let mut header = [0; HEADER_BYTES];
    header.copy_from_slice(&bytes[..HEADER_BYTES]);
    if header == Header::of(election).bytes {
        Ok(())
    } else {
        Err(ImageFault::OtherElection { header })
    }
}
