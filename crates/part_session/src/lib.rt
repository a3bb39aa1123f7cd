//! A session over a store in parts: its phases, all parts at once, and its script over the disks of all parts.
#![tactic(auto)]

pub mod laws;
mod playing;
mod session;

pub use playing::play_parts;
pub use session::{PartSession, line, play};
