//! The replay of a schedule: a phase is stepped as scheduled, and then to its end, and what came of it is written down.
#![tactic(auto)]

mod fault;
pub mod laws;
mod line;
mod machine;
mod reader;
mod run;
mod schedule;
mod script;
mod text;

pub use fault::ReplayFault;
pub use machine::Machine;
pub use run::rest_all;
pub use schedule::replay;
