//! Why no store comes back from a medium.

use ballot_record::HEADER_BYTES;
use image_builder::ImageFault;
use outside_io::{Failed, Memory};

/// Why no store came back from a medium.
#[derive(Clone, Copy, Debug, PartialEq, Eq)]
pub enum RecoverFault {
    /// The disk has not as many bytes as a medium, or neither gate is open.
    NoStore,
    /// The header of the bank that is read is not that of this election, but this.
    OtherElection { header: [u8; HEADER_BYTES] },
    /// The header is this election's, and this cell, counted from 0, is the first wrong one of the bank that is read.
    Damaged { cell: u32 },
    /// The disk failed.
    DiskFault,
    /// There was no memory.
    Memory,
}

/// Why a medium is not the store of an election, where it was read whole.
#[derive(Clone, Copy, Debug, PartialEq, Eq)]
pub enum MediumWhy {
    /// The disk has not as many bytes as a medium, or neither gate is open.
    NoStore,
    /// The header of the bank that is read is not that of this election, but this.
    OtherElection { header: [u8; HEADER_BYTES] },
    /// The header is this election's, and this cell, counted from 0, is the first wrong one of the bank that is read.
    Damaged { cell: u32 },
}

impl From<Failed> for RecoverFault {
    ghost use Rattle.std.specs.Prelude.{◌≡◌};
    ghost use Rattle.recovery.specs.declared.fault.RecoverFault.TheVariants as faults;

    ghost from_gives = { λ _ fault. fault ≡ faults.DiskFault };

    fn from(_: Failed) -> Self {
        RecoverFault::DiskFault
    }
}

impl From<Memory> for RecoverFault {
    ghost use Rattle.std.specs.Prelude.{◌≡◌};
    ghost use Rattle.recovery.specs.declared.fault.RecoverFault.TheVariants as faults;

    ghost from_gives = { λ _ fault. fault ≡ faults.Memory };

    fn from(_: Memory) -> Self {
        RecoverFault::Memory
    }
}

impl From<ImageFault> for RecoverFault {
    ghost use Rattle.std.specs.Prelude.{◌≡◌};
    ghost use Rattle.recovery.specs.Faults.{recover_fault};

    ghost from_gives = { λ why fault. fault ≡ recover_fault why };

    fn from(why: ImageFault) -> Self {
        match why {
            ImageFault::OtherElection { header } => RecoverFault::OtherElection { header },
            ImageFault::Damaged { cell } => RecoverFault::Damaged { cell },
            ImageFault::Memory => RecoverFault::Memory,
        }
    }
}
