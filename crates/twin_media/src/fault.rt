//! Why two disks are no pair.

use ballot_record::HEADER_BYTES;
use outside_io::{Failed, Memory};

/// Why a disk is refused, where it was read whole and is not lost.
#[derive(Clone, Copy, Debug, PartialEq, Eq)]
pub enum DiskWhy {
    /// The disk has more bytes than a medium, so many.
    TooLarge { size: u64 },
    /// The header of the bank that is read is not that of this election, but this.
    OtherElection { header: [u8; HEADER_BYTES] },
    /// The header is this election's, and this cell, counted from 0, is the first wrong one of the bank that is read.
    Damaged { cell: u32 },
}

/// Why the first disk is refused.
pub type FirstWhy = DiskWhy;

/// Why the second disk is refused.
pub type SecondWhy = DiskWhy;

/// Why two disks are no pair.
#[derive(Clone, Copy, Debug, PartialEq, Eq)]
pub enum PairFault {
    /// The first disk is refused. No call was made on the second.
    First { why: FirstWhy },
    /// The second disk is refused.
    Second { why: SecondWhy },
    /// Both disks are lost.
    BothLost,
    /// The first disk failed.
    FirstFault,
    /// The second disk failed.
    SecondFault,
    /// There was no memory.
    Memory,
}

/// Why a disk was not found to be lost or to hold a store.
#[derive(Clone, Copy)]
pub(crate) enum FindFault {
    /// The disk is refused.
    Refused { why: DiskWhy },
    /// The disk failed.
    DiskFault,
    /// There was no memory.
    Memory,
}

impl FindFault {
    ghost use Rattle.std.specs.Prelude.{◌≡◌};
    ghost use Rattle.twin_media.specs.Pairing.{first_fault, second_fault};

    /// The same of the first disk of a pair.
    pub(crate) fn of_first(self) -> PairFault
        ensures { result ≡ first_fault self }
    {
        match self {
            FindFault::Refused { why } => PairFault::First { why },
            FindFault::DiskFault => PairFault::FirstFault,
            FindFault::Memory => PairFault::Memory,
        }
    }

    /// The same of the second.
    pub(crate) fn of_second(self) -> PairFault
        ensures { result ≡ second_fault self }
    {
        match self {
            FindFault::Refused { why } => PairFault::Second { why },
            FindFault::DiskFault => PairFault::SecondFault,
            FindFault::Memory => PairFault::Memory,
        }
    }
}

impl From<Failed> for FindFault {
    ghost use Rattle.std.specs.Prelude.{◌≡◌};
    ghost use Rattle.twin_media.specs.declared.fault.FindFault.TheVariants as faults;

    ghost from_gives = { λ _ fault. fault ≡ faults.DiskFault };

    fn from(_: Failed) -> Self {
        FindFault::DiskFault
    }
}
