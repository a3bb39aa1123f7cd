//! How a run of the program ends: its status, and what every command's row says.
#![tactic(auto)]

mod status;
mod writing;

pub use status::{Status, Which};
pub use writing::write_out;
