//! Why a replay, or a line of it, is refused.

use ballot_record::LineWhy;
use outside_io::{Failed, Memory};
use std::alloc::{AllocError, AllocFailed};
use std::error::Error;
use std::fmt;

/// Why a replay wrote no text, or not all of it.
#[derive(Clone, Copy, Debug, PartialEq, Eq)]
pub enum ReplayFault {
    /// The first bad line, counted from 1, and why it is refused.
    BadLine { line: u64, why: LineWhy },
    /// The script gave more than 67,108,864 bytes.
    TooLong,
    /// The script's source failed.
    ReadFault,
    /// The sink failed.
    WriteFault,
    /// There was no memory.
    Memory,
}

impl fmt::Display for ReplayFault {
    fn fmt<W: fmt::Write>(&self, f: &mut fmt::Formatter<W>) -> fmt::Result {
        match self {
            ReplayFault::BadLine { line, why } => write!(f, "line {line} is {why}"),
            ReplayFault::TooLong => f.write_str("the script is too long"),
            ReplayFault::ReadFault => f.write_str("the script failed"),
            ReplayFault::WriteFault => f.write_str("the output failed"),
            ReplayFault::Memory => f.write_str("out of memory"),
        }
    }
}

impl Error for ReplayFault {}

impl From<Memory> for ReplayFault {
    ghost use Rattle.std.specs.Prelude.{◌≡◌};
    ghost use Rattle.schedule_replay.specs.declared.fault.ReplayFault.TheVariants as faults;

    ghost from_gives = { λ _ fault. fault ≡ faults.Memory };

    fn from(_: Memory) -> Self {
        ReplayFault::Memory
    }
}

impl From<Failed> for ReplayFault {
    ghost use Rattle.std.specs.Prelude.{◌≡◌};
    ghost use Rattle.schedule_replay.specs.declared.fault.ReplayFault.TheVariants.{WriteFault};

    ghost from_gives = { λ _ fault. fault ≡ WriteFault };

    // Where the script fails is told before.
    fn from(_: Failed) -> Self {
        ReplayFault::WriteFault
    }
}

/// Why a line was not taken.
#[derive(Clone, Copy, Debug, PartialEq, Eq)]
pub enum Refusal {
    /// The line is bad.
    Bad(LineWhy),
    /// There was no memory.
    Memory,
}

impl<T: Drop> From<AllocFailed<T>> for Refusal {
    ghost use Rattle.std.specs.Prelude.{◌≡◌};
    ghost use Rattle.schedule_replay.specs.declared.fault.Refusal.TheVariants as refusals;

    ghost from_gives = { λ _ refusal. refusal ≡ refusals.Memory };

    fn from(_: AllocFailed<T>) -> Self {
        Refusal::Memory
    }
}

impl From<Memory> for Refusal {
    ghost use Rattle.std.specs.Prelude.{◌≡◌};
    ghost use Rattle.schedule_replay.specs.declared.fault.Refusal.TheVariants as refusals;

    ghost from_gives = { λ _ refusal. refusal ≡ refusals.Memory };

    fn from(_: Memory) -> Self {
        Refusal::Memory
    }
}

impl From<AllocError> for Refusal {
    ghost use Rattle.std.specs.Prelude.{◌≡◌};
    ghost use Rattle.schedule_replay.specs.declared.fault.Refusal.TheVariants as refusals;

    ghost from_gives = { λ _ refusal. refusal ≡ refusals.Memory };

    fn from(_: AllocError) -> Self {
        Refusal::Memory
    }
}
