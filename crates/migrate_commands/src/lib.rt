//! The command that carries a medium of version 1 into one of version 2: `migrate`.
#![tactic(auto)]

pub mod laws;
pub mod migrate;
