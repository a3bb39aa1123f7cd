//! Shared words on which threads cast and withdraw with no lock: each step is one atomic step on one word, under a rule
//! that is the phase's invariant.
#![tactic(auto)]

mod cast;
pub mod laws;
mod seats;
mod steps;
mod withdraw;
mod words;

pub use cast::{CastSeat, CastSight, CastWords};
pub use withdraw::{WithdrawSeat, WithdrawSight, WithdrawWords};
