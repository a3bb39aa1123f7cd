//! Why a tally or an export was not written.

use outside_io::{Failed, Memory};
use std::error::Error;
use std::fmt;

/// Why a report was not written, or not all of it.
#[derive(Clone, Copy, Debug, PartialEq, Eq)]
pub enum PutFault {
    /// The sink failed.
    WriteFault,
    /// There was no memory.
    Memory,
}

impl fmt::Display for PutFault {
    fn fmt<W: fmt::Write>(&self, f: &mut fmt::Formatter<W>) -> fmt::Result {
        f.write_str(match self {
            PutFault::WriteFault => "the output failed",
            PutFault::Memory => "out of memory",
        })
    }
}

impl Error for PutFault {}

impl From<Memory> for PutFault {
    ghost use Rattle.std.specs.Prelude.{◌≡◌};
    ghost use Rattle.tally_export.specs.declared.fault.PutFault.TheVariants as faults;

    ghost from_gives = { λ _ fault. fault ≡ faults.Memory };

    fn from(_: Memory) -> Self {
        PutFault::Memory
    }
}

impl From<Failed> for PutFault {
    ghost use Rattle.std.specs.Prelude.{◌≡◌};
    ghost use Rattle.tally_export.specs.declared.fault.PutFault.TheVariants.{WriteFault};

    ghost from_gives = { λ _ fault. fault ≡ WriteFault };

    fn from(_: Failed) -> Self {
        PutFault::WriteFault
    }
}
