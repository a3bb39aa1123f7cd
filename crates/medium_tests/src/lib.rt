//! Tests of the crates that read and write media. They stand in a crate of their own, since a crate with tests is proved
//! twice.
#![tactic(auto)]

#[cfg(test)]
mod audits;
#[cfg(test)]
mod banks;
#[cfg(test)]
mod calls;
#[cfg(test)]
mod checkpoints;
#[cfg(test)]
mod images;
#[cfg(test)]
mod recoveries;
#[cfg(test)]
mod sessions;
#[cfg(test)]
mod stores;
