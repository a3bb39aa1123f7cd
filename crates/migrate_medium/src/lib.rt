//! The change of an office from version 1 to version 2: a new medium of version 2 with the ballots of an old one.
#![tactic(auto)]

mod carrying;
mod fault;
mod migrating;

pub use fault::MigrateFault;
pub use migrating::migrate;
