//! The commands that work on a medium alone: a new one is made, or one is audited.
#![tactic(auto)]

pub mod audit;
pub mod init;
pub mod refused;
