//! The phase of a session, and what is written of it.

ghost use Rattle.std.specs.Prelude.{◌≡◌, ◌++◌, ℕ, codes};
ghost use Rattle.phase_gate.specs.InnerSession.{IsPhaseName, phase_at};
ghost use Rattle.script_lines.specs.Words.{work};
ghost use Rattle.store_spec.specs.Session.{last_reply, opened, phase_text};

use crate::inner::InnerSession;
use crate::waiting::Waiting;
use any_store::Store;
use script_lines::Work;

/// What a session is about.
#[derive(Clone, Copy, Debug, PartialEq, Eq)]
pub enum Phase {
    /// The store is closed.
    Closed,
    /// Ballots are cast.
    Casting,
    /// Ballots are withdrawn.
    Withdrawing,
    /// Ballots are looked for.
    Finding,
}

impl<S: Store> InnerSession<S> {
    /// Its phase.
    pub fn phase(&self) -> Phase
        ensures { IsPhaseName result (phase_at self.now) }
    {
        match &self.waiting {
            None => Phase::Closed,
            Some(Waiting::Casting(_)) => Phase::Casting,
            Some(Waiting::Withdrawing(_)) => Phase::Withdrawing,
            Some(Waiting::Finding(_)) => Phase::Finding,
        }
    }

    /// Why a line is refused that does not belong to the phase.
    pub fn refusal(&self) -> &'static str
        ensures { result.now ≡ codes "wrong-phase " ++ phase_text (phase_at self.now) }
    {
        match &self.waiting {
            None => "wrong-phase closed",
            Some(Waiting::Casting(_)) => "wrong-phase casting",
            Some(Waiting::Withdrawing(_)) => "wrong-phase withdrawing",
            Some(Waiting::Finding(_)) => "wrong-phase finding",
        }
    }

    /// What is written where the script ends in the phase.
    pub fn last_reply(&self) -> &'static str
        ensures { result.now ≡ last_reply (phase_at self.now) }
    {
        match &self.waiting {
            None => "",
            Some(Waiting::Casting(_)) => "dropped casting\n",
            Some(Waiting::Withdrawing(_)) => "dropped withdrawing\n",
            Some(Waiting::Finding(_)) => "dropped finding\n",
        }
    }
}

/// The name of a phase of this work.
pub fn phase_name(named: Work) -> &'static str
    ensures { (tabs : ℕ) → result.now ≡ phase_text (opened (work named) tabs) }
{
    match named {
        Work::Casting => "casting",
        Work::Withdrawing => "withdrawing",
        Work::Finding => "finding",
    }
}
