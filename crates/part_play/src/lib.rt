//! A phase of a store in parts, from one set to the next: what waits in the lists is played to its end by
//! threads, one for each list, and each item goes into the phase of its own part.
#![tactic(auto)]

mod casting;
mod finding;
pub mod laws;
mod several;
mod spread;
mod withdrawing;

pub use casting::play_casting;
pub use finding::play_finding;
pub use phase_insert::Final;
pub use several::play_several;
pub use spread::ByParts;
pub use withdrawing::play_withdrawing;
