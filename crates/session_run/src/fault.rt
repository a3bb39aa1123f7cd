//! Why a session did not come to the end of its script.

use ballot_record::HEADER_BYTES;
use outside_io::{LineEndFault, Memory};
use phase_gate::SessionFault;
use recovery::RecoverFault;

/// Why a session did not come to the end of its script.
#[derive(Clone, Copy, Debug, PartialEq, Eq)]
pub enum RunFault {
    /// The disk has not as many bytes as a medium, or neither gate is open.
    NoStore,
    /// The header of the bank that is read is not that of this election, but this.
    OtherElection { header: [u8; HEADER_BYTES] },
    /// The header is this election's, and this cell, counted from 0, is the first wrong one of the bank that is read.
    Damaged { cell: u32 },
    /// The script gave more than 67,108,864 bytes.
    TooLong,
    /// The script's source failed.
    ReadFault,
    /// The disk failed, at recovery or at a checkpoint. The medium is to be recovered.
    DiskFault,
    /// The sink failed.
    WriteFault,
    /// There was no memory.
    Memory,
}

impl From<RecoverFault> for RunFault {
    ghost use Rattle.std.specs.Prelude.{◌≡◌};
    ghost use Rattle.session_run.specs.Faults.{run_fault};

    ghost from_gives = { λ why fault. fault ≡ run_fault why };

    fn from(why: RecoverFault) -> Self {
        match why {
            RecoverFault::NoStore => RunFault::NoStore,
            RecoverFault::OtherElection { header } => RunFault::OtherElection { header },
            RecoverFault::Damaged { cell } => RunFault::Damaged { cell },
            RecoverFault::DiskFault => RunFault::DiskFault,
            RecoverFault::Memory => RunFault::Memory,
        }
    }
}

impl From<SessionFault> for RunFault {
    ghost use Rattle.std.specs.Prelude.{◌≡◌};
    ghost use Rattle.session_run.specs.Faults.{session_fault};

    ghost from_gives = { λ why fault. fault ≡ session_fault why };

    fn from(why: SessionFault) -> Self {
        match why {
            SessionFault::DiskFault => RunFault::DiskFault,
            SessionFault::WriteFault => RunFault::WriteFault,
            SessionFault::Memory => RunFault::Memory,
        }
    }
}

impl From<LineEndFault> for RunFault {
    ghost use Rattle.std.specs.Prelude.{◌≡◌};
    ghost use Rattle.session_run.specs.Faults.{line_fault};

    ghost from_gives = { λ why fault. fault ≡ line_fault why };

    fn from(why: LineEndFault) -> Self {
        match why {
            LineEndFault::TooLong => RunFault::TooLong,
            LineEndFault::ReadFault => RunFault::ReadFault,
        }
    }
}

impl From<Memory> for RunFault {
    ghost use Rattle.std.specs.Prelude.{◌≡◌};
    ghost use Rattle.session_run.specs.declared.fault.RunFault.TheVariants as faults;

    ghost from_gives = { λ _ fault. fault ≡ faults.Memory };

    fn from(_: Memory) -> Self {
        RunFault::Memory
    }
}
