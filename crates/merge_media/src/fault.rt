//! Why media were not merged.

use outside_io::Memory;
use recovery::{MediumWhy, RecoverFault};

/// Why media were not merged. Further media count from 1.
#[derive(Clone, Copy, Debug, PartialEq, Eq)]
pub enum MergeFault {
    /// The target gave no store.
    Target { why: RecoverFault },
    /// The disk of this further medium failed.
    OtherFault { index: u32 },
    /// This further medium, the first such one, is no store of the election.
    Other { index: u32, why: MediumWhy },
    /// This is the least number of which two media hold different ballots.
    Dispute { number: u64 },
    /// The union has so many ballots, more than a store of the election may hold.
    TooMany { count: u32 },
    /// The target's disk failed once its store was read.
    DiskFault,
    /// There was no memory.
    Memory,
}

impl From<Memory> for MergeFault {
    ghost use Rattle.std.specs.Prelude.{◌≡◌};
    ghost use Rattle.merge_media.specs.declared.fault.MergeFault.TheVariants as faults;

    ghost from_gives = { λ _ fault. fault ≡ faults.Memory };

    fn from(_: Memory) -> Self {
        MergeFault::Memory
    }
}
