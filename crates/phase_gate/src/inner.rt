//! A session without its surroundings: what waits for the close of its phase, and the store.

ghost use Rattle.std.specs.Prelude.{◌≡◌};
ghost use Rattle.phase_gate.specs.Standing.{MayWait};
ghost use Rattle.phase_gate.specs.Waiting.{AreAllOf, phase_or_closed};

use crate::waiting::Waiting;
use any_store::Store;

/// A store, and what waits for the close of the phase that will change it. With nothing that could wait the phase is
/// closed.
#[derive(Drop)]
pub struct InnerSession<S: Store> {
    pub store: S,
    pub waiting: Option<Waiting>,
    ghost may_wait: { MayWait (S.election store) (phase_or_closed waiting) },
    ghost lists: { AreAllOf (S.election store) waiting },
}

/// What is left to do for a line.
#[derive(Clone, Copy, Debug, PartialEq, Eq)]
pub enum Task {
    /// The reply that was put is to be written.
    Nothing,
    /// The set is to be acknowledged, and then the reply that was put is to be written.
    Acknowledge,
    /// The tally of the set is to be written.
    Tally,
    /// The export of the set is to be written.
    Export,
}

/// What a line did: the session after it, and what is left to do.
#[derive(Drop)]
pub struct Answer<S: Store> {
    pub inner: InnerSession<S>,
    pub task: Task,
}

impl<S: Store> Answer<S> {
    /// The session after a line, and this is left to do.
    pub fn of(inner: InnerSession<S>, task: Task) -> Answer<S>
        ensures { result ≡ record { inner = inner; task = task } }
    {
        Answer { inner, task }
    }
}
