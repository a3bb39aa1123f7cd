//! Tests of sources, sinks and disks: those in memory, those that reach outside, over stand-ins and over real files and
//! streams, and a layer above a disk as its proof sees it. They stand in a crate of their own, since a crate with tests
//! is proved twice.
#![tactic(auto)]

#[cfg(test)]
mod adapters;
#[cfg(test)]
mod fakes;
#[cfg(test)]
mod files;
#[cfg(test)]
mod layer;
#[cfg(test)]
mod lines;
#[cfg(test)]
mod memory;
#[cfg(test)]
mod named_files;
#[cfg(test)]
mod real;
#[cfg(test)]
mod stops;
#[cfg(test)]
mod streams;
#[cfg(test)]
mod written_again;
