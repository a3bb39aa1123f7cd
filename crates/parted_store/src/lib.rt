//! A store in parts as what a session needs: the reports on it, and its checkpoints on the disks of its parts.
#![tactic(auto)]

mod count;
mod disks;
pub mod laws;
mod parts_of;
mod renewing;
mod reports;

pub use count::{Eight, Four, PartCount, Two};
pub use disks::Parts;
pub use parts_of::PartsOf;
