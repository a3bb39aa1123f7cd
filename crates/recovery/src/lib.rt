//! Recovery: what a medium holds comes back, and the medium is made that of it.
#![tactic(auto)]

mod fault;
pub mod laws;
mod reading;
mod restoring;

pub use fault::{MediumWhy, RecoverFault};
pub use reading::{choose, first_difference, look, read_bank};
pub use restoring::{make_canonical, other_of, recover};
