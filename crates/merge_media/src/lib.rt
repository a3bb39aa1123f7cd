//! The union of several media of one election.
#![tactic(auto)]

mod adding;
mod fault;
pub mod laws;
mod merging;
mod union;

pub use fault::MergeFault;
pub use merging::merge;
pub use union::Union;
