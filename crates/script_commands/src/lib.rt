//! The commands that read a script and write what comes of it: the image of its ballots, or a replay.
#![tactic(auto)]

pub mod build;
pub mod replay;
