//! The replies to what waited in the lists of a phase, as lines of text.
#![tactic(auto)]

mod lines;
mod reply;

pub use lines::{push_all_replies, push_replies};
pub use reply::Reply;
