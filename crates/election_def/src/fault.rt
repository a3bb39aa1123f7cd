//! Why a text describes no election.

use outside_io::Memory;
use std::alloc::{AllocError, AllocFailed};
use std::error::Error;
use std::fmt;

/// Why a text gave no election.
#[derive(Clone, Copy, Debug, PartialEq, Eq)]
pub enum ElectionFault {
    /// It describes none: it is not UTF-8, no JSON value, or breaks a rule on the value of an election.
    NotElection,
    /// There was no memory.
    Memory,
}

impl fmt::Display for ElectionFault {
    fn fmt<W: fmt::Write>(&self, f: &mut fmt::Formatter<W>) -> fmt::Result {
        f.write_str(match self {
            ElectionFault::NotElection => "no election",
            ElectionFault::Memory => "out of memory",
        })
    }
}

impl Error for ElectionFault {}

impl<T: Drop> From<AllocFailed<T>> for ElectionFault {
    ghost use Rattle.std.specs.Prelude.{◌≡◌};
    ghost use Rattle.election_def.specs.declared.fault.ElectionFault.TheVariants.{Memory};

    ghost from_gives = { λ _ fault. fault ≡ Memory };

    fn from(_: AllocFailed<T>) -> Self {
        ElectionFault::Memory
    }
}

impl From<serde_json::Error> for ElectionFault {
    ghost use Rattle.std.specs.Prelude.{◌≡◌, ◌↔◌};
    ghost use Rattle.serde_json.specs.Errors.{IsMemory};
    ghost use Rattle.election_def.specs.declared.fault.ElectionFault.TheVariants.{Memory};

    ghost from_gives = { λ error fault. (fault ≡ Memory) ↔ IsMemory error };

    fn from(error: serde_json::Error) -> Self {
        if error.is_memory() {
            ElectionFault::Memory
        } else {
            ElectionFault::NotElection
        }
    }
}
