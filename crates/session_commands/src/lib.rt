//! The commands that run a session: on a script, or on one that is generated.
#![tactic(auto)]

pub mod fault;
pub mod large;
pub mod session;
