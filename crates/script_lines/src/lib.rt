//! The lines of a session's script: what a line says, and that it says it in one way.
#![tactic(auto)]

mod generated;
mod generated_script;
pub mod laws;
mod line;
mod part;
mod put;
mod reading;
mod words;

pub use generated::large_line;
pub use generated_script::GeneratedScript;
pub use line::{Command, Entry, Line, Said};
pub use reading::{read_said, read_script_line};
pub use words::Work;
