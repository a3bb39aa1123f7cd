//! Casting: many tabulators place the ballots of a phase in shared words at once, with no lock, and the store after the
//! phase holds what they accepted.
#![tactic(auto)]

mod claiming;
mod closing;
mod kind;
pub mod laws;
mod reply;

pub use kind::{CastPhase, Casting, Tabulator};
pub use phase_kind::run as run_cast;
pub use reply::{CastReply, Final};
