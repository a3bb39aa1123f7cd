//! Tests of the crate over two disks. They stand in a crate of their own, since a crate with tests is proved twice.
#![tactic(auto)]

#[cfg(test)]
mod calls;
#[cfg(test)]
mod media;
#[cfg(test)]
mod pairs;
#[cfg(test)]
mod twins;
