//! Why a store in parts was not opened.

ghost use Rattle.std.specs.Prelude.{◌≡◌};
ghost use Rattle.partition_store.specs.Opening.{look_fault, recovery_fault_at, refused_at};

use outside_io::Memory;
use recovery::{MediumWhy, RecoverFault};

/// Why a store in parts was not opened. Parts count from 0.
#[derive(Clone, Copy, Debug, PartialEq, Eq)]
pub enum PartFault {
    /// The first medium is no store of the election.
    First { why: MediumWhy },
    /// This further medium, the first such one, is no store of the election.
    Other { index: u32, why: MediumWhy },
    /// This part is the first that holds a number of another part, and this is its least such number.
    Misplaced { index: u32, number: u64 },
    /// The disk of this part failed.
    DiskFault { index: u32 },
    /// There was no memory; or a recovery found on a disk what the look before it had not.
    Memory,
}

impl From<Memory> for PartFault {
    ghost use Rattle.std.specs.Prelude.{◌≡◌};
    ghost use Rattle.partition_store.specs.declared.fault.PartFault.TheVariants as faults;

    ghost from_gives = { λ _ fault. fault ≡ faults.Memory };

    fn from(_: Memory) -> Self {
        PartFault::Memory
    }
}

/// Why the medium of a part is refused, where it was read whole.
fn refused(index: u32, why: MediumWhy) -> PartFault
    ensures { result ≡ refused_at index why }
{
    if index == 0 {
        PartFault::First { why }
    } else {
        PartFault::Other { index, why }
    }
}

/// Why a look at the medium of a part gave no store.
pub(crate) fn fault_at(index: u32, why: RecoverFault) -> PartFault
    ensures { result ≡ look_fault index why }
{
    match why {
        RecoverFault::NoStore => refused(index, MediumWhy::NoStore),
        RecoverFault::OtherElection { header } => {
            refused(index, MediumWhy::OtherElection { header })
        }
        RecoverFault::Damaged { cell } => refused(index, MediumWhy::Damaged { cell }),
        RecoverFault::DiskFault => PartFault::DiskFault { index },
        RecoverFault::Memory => PartFault::Memory,
    }
}

/// Why the recovery of the medium of a part gave no store. A look at it had given one, so that where a recovery refuses
/// it the disk gave other bytes than before: that counts as lack of memory.
pub(crate) fn recovery_fault(index: u32, why: RecoverFault) -> PartFault
    ensures { result ≡ recovery_fault_at index why }
{
    match why {
        RecoverFault::DiskFault => PartFault::DiskFault { index },
        RecoverFault::NoStore
        | RecoverFault::OtherElection { .. }
        | RecoverFault::Damaged { .. }
        | RecoverFault::Memory => PartFault::Memory,
    }
}
