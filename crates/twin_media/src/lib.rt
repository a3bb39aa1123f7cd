//! One disk over two: each call is made on both, and the first one's answer is given.
#![tactic(auto)]

mod fault;
mod finding;
mod pairing;
mod twin;

pub use fault::{DiskWhy, FirstWhy, PairFault, SecondWhy};
pub use pairing::{Paired, pair};
pub use twin::{LAST_MADE, Twin};
