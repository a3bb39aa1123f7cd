//! What a session needs of its store, and of the disks on which the store is acknowledged; and the first case: one closed
//! store and its disk.
#![tactic(auto)]

mod one_store;
mod store;

pub use store::{Disks, Store};
