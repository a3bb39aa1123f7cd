//! A store in 2, 4 or 8 parts, by the top bits of a ballot's number, each part on a medium of its own.
#![tactic(auto)]

mod fault;
pub mod laws;
mod looking;
mod opening;
mod part;
mod recovering;
mod store;

pub use fault::PartFault;
pub use part::part_of;
pub use store::PartStore;
