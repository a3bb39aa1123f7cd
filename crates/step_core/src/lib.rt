//! The steps by which tabulators and withdrawers change shared words, as tables over states, and cores that make them
//! one by one in any order.
#![tactic(auto)]

mod act;
mod cast;
mod cast_core;
mod index;
pub mod laws;
mod shape;
mod tabulator;
mod withdraw;
mod withdraw_core;
mod withdrawer;

pub use act::{Act, Stepped};
pub use cast::{CastNote, CastState, cast_act, cast_act_from, cast_after, cast_first};
pub use cast_core::CastCore;
pub use shape::Shape;
pub use tabulator::CastMet;
pub use withdraw::{WithdrawNote, WithdrawState, withdraw_act, withdraw_after, withdraw_first};
pub use withdraw_core::WithdrawCore;
pub use withdrawer::WithdrawReply;
