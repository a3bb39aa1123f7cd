//! Tests of the crates that read and write texts. They stand in a crate of their own, since a crate with tests is proved
//! twice.
#![tactic(auto)]

#[cfg(test)]
mod elections;
#[cfg(test)]
mod lines;
#[cfg(test)]
mod options;
#[cfg(test)]
mod parts;
#[cfg(test)]
mod records;
#[cfg(test)]
mod reports;
#[cfg(test)]
mod schedules;
