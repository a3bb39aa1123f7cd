//! Tests of phases, in which workers are all at work at once: of ballots that are cast, and of numbers that are withdrawn
//! and looked up. They stand in a crate of their own, since a crate with tests is proved twice.
#![tactic(auto)]

#[cfg(test)]
mod casting;
#[cfg(test)]
mod crowds;
#[cfg(test)]
mod finding;
#[cfg(test)]
mod phases;
#[cfg(test)]
mod playing;
#[cfg(test)]
mod stores;
#[cfg(test)]
mod withdrawing;
