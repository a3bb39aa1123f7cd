//! An audit: whether the bytes of a medium are those of the set that they hold, or where they first differ.
#![tactic(auto)]

mod auditing;
mod finding;
pub mod laws;

pub use auditing::audit;
pub use finding::Audit;
