//! Stand-ins for a file and for the standard streams. What is done to them is logged, and the call that a test names
//! fails.

mod file;
mod stage;
mod streams;

pub(crate) use file::FakeFiles;
pub(crate) use stage::{Call, FAULT_KINDS, Named, Others, Stage};
pub(crate) use streams::{FakeInput, FakeOutput};
