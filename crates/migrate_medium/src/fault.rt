//! Why no medium of version 2 was made of an old one.

use checkpoint::FillFault;
use outside_io::Memory;
use recovery::RecoverFault;

/// Why no medium of version 2 was made of an old one. A fault of the target is given only where the old medium gave a
/// store.
#[derive(Clone, Copy, Debug, PartialEq, Eq)]
pub enum MigrateFault {
    /// The election has no form in version 1, so that there can be no old medium of it.
    NoOldForm,
    /// The old medium gave no store under that form.
    Old { why: RecoverFault },
    /// The target has more bytes than the medium, so many.
    ToSize { size: u64 },
    /// The target has as many bytes as the medium, and a gate is open.
    ToInUse,
    /// The target's disk failed.
    ToFault,
    /// There was no memory.
    Memory,
}

impl From<Memory> for MigrateFault {
    ghost use Rattle.std.specs.Prelude.{◌≡◌};
    ghost use Rattle.migrate_medium.specs.declared.fault.MigrateFault.TheVariants as faults;

    ghost from_gives = { λ _ fault. fault ≡ faults.Memory };

    fn from(_: Memory) -> Self {
        MigrateFault::Memory
    }
}

impl From<FillFault> for MigrateFault {
    ghost use Rattle.std.specs.Prelude.{◌≡◌};
    ghost use Rattle.migrate_medium.specs.Migrating.{target_fault};

    ghost from_gives = { λ why fault. fault ≡ target_fault why };

    fn from(why: FillFault) -> Self {
        match why {
            FillFault::WrongSize { size } => MigrateFault::ToSize { size },
            FillFault::Exists => MigrateFault::ToInUse,
            FillFault::DiskFault => MigrateFault::ToFault,
        }
    }
}
