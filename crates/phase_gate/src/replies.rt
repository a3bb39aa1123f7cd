//! The replies of a closed phase of any kind.

use phase_play::Final;
use step_core::WithdrawReply;

/// What a phase is answered: a reply to each item of its lists.
#[derive(Drop)]
pub enum Replies {
    /// Whether each ballot was accepted.
    Cast(Vec<Vec<Final>>),
    /// Whether each number was withdrawn.
    Withdrawn(Vec<Vec<WithdrawReply>>),
    /// Whether each number is held.
    Found(Vec<Vec<bool>>),
}
