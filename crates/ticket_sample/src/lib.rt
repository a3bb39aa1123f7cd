//! A sample of a store's ballots for an audit by hand, and lines that are compared with it.
#![tactic(auto)]

mod compare;
mod drawing;
pub mod laws;
mod tickets;

pub use compare::{Compare, CompareReply};
pub use drawing::sample;
pub use tickets::{TICKET_BYTES, ticket};
