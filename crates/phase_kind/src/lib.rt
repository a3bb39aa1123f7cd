//! What both kinds of phase are made of, casting and withdrawing: workers that answer items from their seats, with
//! trays for the items and the replies, and all workers of a phase at once.
#![tactic(auto)]

mod closing;
mod kind;
pub mod laws;
mod phase;
mod running;
mod several;
mod table;
mod team;
mod tray;
mod worker;

pub use kind::Kind;
pub use phase::PhaseOf;
pub use running::{run, run_waiting};
pub use several::{Spread, in_order, run_several, share_out};
pub use table::turned;
pub use team::{Team, teams_of, workers_of};
pub use tray::Tray;
pub use worker::Worker;
