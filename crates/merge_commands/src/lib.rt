//! The command that joins media: `merge`.
#![tactic(auto)]

pub mod merge;
