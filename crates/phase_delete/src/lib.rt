//! Withdrawing: many withdrawers remove numbers from shared words at once, with no lock, and the store after the phase
//! holds the ballots whose numbers they left.
#![tactic(auto)]

mod kind;
pub mod laws;
mod removing;

pub use kind::{WithdrawPhase, Withdrawer, Withdrawing};
pub use phase_kind::run as run_withdraw;
