//! A run of a session: the store that a medium holds is recovered, and a script is handled line by line.
#![tactic(auto)]

mod fault;
mod run;

pub use fault::RunFault;
pub use run::{play, play_by, run_session};
