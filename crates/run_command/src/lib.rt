//! A whole run: the words of a command line, the command that they form, and the election under which it is carried out.
#![tactic(auto)]

mod command;
mod election;
pub mod laws;
mod whole;

pub use command::Command;
pub use run_outcome::{Status, Which};
pub use whole::run;
