//! The options of a large run, from the words behind `large`.
#![tactic(auto)]

pub mod laws;
mod name;
mod options;
mod parsed;

pub use options::{Options, are_options, options_of};
