//! Why a session ended before its script.

use outside_io::Memory;
use tally_export::PutFault;

/// Why a line was not handled to its end.
#[derive(Clone, Copy, Debug, PartialEq, Eq)]
pub enum SessionFault {
    /// The disk failed at a checkpoint. The medium is to be recovered.
    DiskFault,
    /// The sink failed.
    WriteFault,
    /// There was no memory.
    Memory,
}

impl From<Memory> for SessionFault {
    ghost use Rattle.std.specs.Prelude.{◌≡◌};
    ghost use Rattle.phase_gate.specs.declared.fault.SessionFault.TheVariants as faults;

    ghost from_gives = { λ _ fault. fault ≡ faults.Memory };

    fn from(_: Memory) -> Self {
        SessionFault::Memory
    }
}

impl From<PutFault> for SessionFault {
    ghost use Rattle.std.specs.Prelude.{◌≡◌};
    ghost use Rattle.phase_gate.specs.Writing.{put_fault};

    ghost from_gives = { λ why fault. fault ≡ put_fault why };

    fn from(why: PutFault) -> Self {
        match why {
            PutFault::WriteFault => SessionFault::WriteFault,
            PutFault::Memory => SessionFault::Memory,
        }
    }
}
