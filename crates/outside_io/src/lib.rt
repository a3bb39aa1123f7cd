//! What stands outside a run: sources, sinks, the lines of a source, and the turns of workers.
#![tactic(auto)]

mod count;
mod error;
pub mod laws;
mod lines;
mod memory;
mod sink;
mod source;
mod standard;
mod sure;
mod turns;

pub use count::Count;
pub use error::{Failed, Memory};
pub use lines::{LineEndFault, Lines, NextLine};
pub use memory::{MemorySink, MemorySource};
pub use sink::Sink;
pub use source::{Source, read_piece};
pub use standard::{FileSource, StdinSource, StdoutSink};
pub use sure::{SureSink, SureSource};
pub use turns::{NoTurns, Turns};
