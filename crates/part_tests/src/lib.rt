//! Tests of a store in parts: its media, its checkpoints, its phases and its sessions. They stand in a crate of their own,
//! since a crate with tests is proved twice.
#![tactic(auto)]

#[cfg(test)]
mod acknowledging;
#[cfg(test)]
mod crowd;
#[cfg(test)]
mod media;
#[cfg(test)]
mod opening;
#[cfg(test)]
mod phases;
#[cfg(test)]
mod sessions;
