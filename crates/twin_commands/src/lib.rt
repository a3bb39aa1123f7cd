//! The command that runs a session on two disks, either of which may be lost: `twin`.
#![tactic(auto)]

pub mod laws;
mod status;
pub mod twin;
