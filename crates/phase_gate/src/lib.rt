//! The session: a script is handled line by line, phase after phase, and a checkpoint makes the medium that of the set.
#![tactic(auto)]

mod closing;
mod fault;
mod inner;
mod item;
mod line;
mod phase;
mod replies;
mod report;
mod session;
mod text;
mod waiting;
mod writing;

pub use closing::play_phase;
pub use fault::SessionFault;
pub use phase::Phase;
pub use replies::Replies;
pub use report::Report;
pub use session::Session;
pub use waiting::Waiting;
pub use writing::Writing;
