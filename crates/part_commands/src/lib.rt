//! The command that runs a session on a store in parts: `part`.
#![tactic(auto)]

pub mod laws;
pub mod part;
mod status;
