//! Reports on a closed store: the tally of its ballots, and their export.
#![tactic(auto)]

mod contests;
mod counts;
mod fault;
pub mod laws;
mod lines;
mod sums;
mod text;
mod threads;

pub use contests::tally;
pub use counts::{CHOICES, Tally};
pub use fault::PutFault;
pub use lines::{export, write_count, write_records};
pub use sums::add_tally;
pub use text::{write_tally, write_tally_of};
pub use threads::tally_threads;
