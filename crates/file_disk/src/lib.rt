//! A disk over a file of the system.
#![tactic(auto)]

mod file;
mod identity;
mod lock;
mod opened;
mod unsettled;

pub use file::FileDisk;
pub use identity::{FileIdentity, FileLook, LooksAtFiles};
pub use lock::FileLock;
