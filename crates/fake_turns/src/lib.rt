//! Turns of workers, for tests: what a worker does before an item is seen, or waits for another worker.
#![tactic(auto)]

mod meeting;
mod words;

pub use meeting::Meeting;
pub use words::{SeenWords, Turn};
