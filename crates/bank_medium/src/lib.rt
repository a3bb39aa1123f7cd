//! The medium on a disk: its two banks and their gates, read and written. Each call says what it leaves for a read, and
//! what a crash at any moment of it may leave.
#![tactic(auto)]

mod gate;
mod page;
mod place;
mod same;
mod settled;

pub use gate::{close_gate, gates, open_both_gates, open_gate};
pub use page::{read_page, settle, write_bank, write_page};
pub use place::{Bank, bank_place, gate_place};
pub use same::same_bytes;
