//! What nearly all lines of a script bring: an entry, which waits in its list, and of which nothing is written.

ghost use Rattle.std.specs.Prelude.{◌≡◌, ℕ, IfOk, OnErr, Some};
ghost use Rattle.phase_gate.specs.InnerSession.{closes_of, election_of, IsQueued, phase_at, state_of};
ghost use Rattle.phase_gate.specs.Waiting.{CanWait, GoesInto};
ghost use Rattle.script_lines.specs.Line.{IsSaid};
ghost use Rattle.store_spec.specs.ScriptLine.{IsTab};
ghost use Rattle.store_spec.specs.Session.{AnswersBy};

use crate::inner::InnerSession;
use crate::waiting::Queued;
use any_store::Store;
use ballot_record::Record;
use outside_io::Memory;
use script_lines::{Entry, Said, read_said};

impl<S: Store> InnerSession<S> {
    /// Lets what a line brings wait for the close of the phase. Where it brings nothing that can wait in this phase nothing
    /// is done, and what it says is given back. The ballot of a cast is read in place of the one that stands in `ballot`.
    pub fn queue(&mut self, line: &[u8], ballot: &mut Record) -> Result<Option<Said>, Memory>
        ensures queued { (index : ℕ) → IfOk result (λ left. IsQueued left
            (AnswersBy (closes_of self.old) (election_of self.old) index (state_of self.old) (Some line.now))
            (λ said. IsSaid (election_of self.old) line.now said ballot.new)
            (state_of self.old) (state_of self.new)) }
        ensures store { self.new.store ≡ self.old.store }
        ensures unchanged { OnErr result (state_of self.new ≡ state_of self.old) }
    {
        let said = read_said(line, self.store.election(), ballot);
        match said {
            Said::Item { tab, entry } => match self.queue_entry(tab, entry, ballot)? {
                Queued::Waits => Ok(None),
                Queued::NoList | Queued::OtherPhase => Ok(Some(said)),
            },
            Said::Command(_) | Said::Malformed => Ok(Some(said)),
        }
    }

    /// Lets an entry wait in the list of this number, where the phase has it. The ballot of a cast is this one.
    pub fn queue_entry(&mut self, tab: u8, entry: Entry, ballot: &Record) -> Result<Queued, Memory>
        requires tab { IsTab tab }
        requires entry { CanWait (election_of self.old) entry ballot.now }
        ensures goes { IfOk result (λ queued. GoesInto entry tab ballot.now
            (phase_at self.old) queued (phase_at self.new)) }
        ensures store { self.new.store ≡ self.old.store }
        ensures unchanged { OnErr result (phase_at self.new ≡ phase_at self.old) }
    {
        match &mut self.waiting {
            Some(waiting) => waiting.wait(self.store.election(), tab, entry, ballot),
            None => Ok(Queued::OtherPhase),
        }
    }
}
