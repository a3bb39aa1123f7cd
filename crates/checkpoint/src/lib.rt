//! A medium is made anew: for a store that takes another's place, and on an unused disk.
#![tactic(auto)]

mod fresh;
mod medium;
mod renewal;

pub use fresh::{FillFault, InitFault, fill, fill_unused, init};
pub use medium::checkpoint;
pub use renewal::{fill_bank, renew_bank};
