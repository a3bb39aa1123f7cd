//! An election from its JSON text.
#![tactic(auto)]

mod fault;
pub mod laws;
mod parts;
mod read;

pub use fault::ElectionFault;
pub use read::read_election;
