//! A whole phase, from one closed store to the next: what waits in the lists is played to its end by threads, one for each
//! list, and each item is answered.
#![tactic(auto)]

mod casting;
mod finding;
pub mod laws;
mod withdrawing;

pub use casting::play_casting;
pub use finding::play_finding;
pub use phase_insert::Final;
pub use withdrawing::play_withdrawing;
