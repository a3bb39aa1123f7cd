//! Elections, the ballots cast in them, and the cells and lines that hold a ballot.
#![tactic(auto)]

mod barred;
mod contest;
mod election;
mod fault;
mod format;
pub mod laws;
mod line;
mod list;
mod print;
mod record;
mod version;

pub use barred::Barred;
pub use contest::Contest;
pub use election::{Election, MAX_BITS, MAX_LIMIT, MAX_STYLES};
pub use fault::{LineFault, LineWhy};
pub use format::{
    CellRead, HEADER_BYTES, Header, MAX_BANK_BYTES, MAX_CELL_BYTES, holds_ballot, number_of,
    set_of, style_of, take_cell,
};
pub use line::{read_line, read_line_into, take_number};
pub use list::BallotList;
pub use print::{put_cell_line, put_line};
pub use record::{MAX_MARK_SETS, Record};
pub use version::{MAX_CHOICES, MAX_CONTESTS, most_choices, most_contests};
