//! The commands for an audit by hand: a sample of the ballots of a medium, and lines that are compared with it.
#![tactic(auto)]

mod asked;
pub mod compare;
mod drawn;
pub mod sample;

pub use asked::{Asked, MAX_DICE, asked_of};
