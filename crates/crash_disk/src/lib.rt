//! The disk under the store, and the disks that tests run it on.
#![tactic(auto)]

mod disk;
mod entry;
mod failing;
pub mod laws;
mod recorded;
mod recording;
mod stop;
mod sure;

pub use disk::Disk;
pub use entry::{DiskCall, Room};
pub use failing::{Failing, LaterCalls, ListedCalls};
pub use recorded::{FusedDisk, MemoryDisk, RecordedDisk};
pub use stop::Torn;
pub use sure::SureDisk;
