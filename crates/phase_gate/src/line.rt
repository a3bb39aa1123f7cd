//! What a line of a script does with a session, and what is replied to it.

ghost use Rattle.std.specs.Prelude.{◌≡◌, [], List, ℕ, IfOk, Some, string_bytes};
ghost use Rattle.phase_gate.specs.InnerSession.{WritesLine, closes_of, effect_of, election_of, phase_at, queued_effect, state_of};
ghost use Rattle.phase_gate.specs.Replies.{PlaysPhases};
ghost use Rattle.phase_gate.specs.Writing.{HasNoEnd, WritesReply, as_written};
ghost use Rattle.phase_gate.specs.Waiting.{CanWait};
ghost use Rattle.script_lines.specs.Line.{IsSaid, command_line, entry_line};
ghost use Rattle.script_lines.specs.Words.{work};
ghost use Rattle.store_spec.specs.ScriptLine.{IsTab, Says};
ghost use Rattle.store_spec.specs.ScriptLine.{ScriptLine as lines};
ghost use Rattle.store_spec.specs.Session.{AnswersBy, refusal, stays, wrong_phase};
ghost use Rattle.store_spec.specs.Session.{Phase as phases};

use crate::closing::tell_replies;
use crate::inner::{Answer, InnerSession, Task};
use crate::phase::Phase;
use crate::replies::Replies;
use crate::text::{push_count, write_opening, write_refusal};
use crate::waiting::{Queued, Waiting};
use crate::writing::Writing;
use any_store::Store;
use ballot_record::Record;
use outside_io::Memory;
use script_lines::{Command, Entry, Said, Work};
use std::alloc::Global;

impl<S: Store> InnerSession<S> {
    /// What a line does that says this and has this number. The ballot of a cast is this one. Its reply comes into `reply`.
    pub fn answer<F: Fn(S, Waiting) -> Result<(S, Replies), Memory>>(
        self,
        alloc: Global,
        said: Said,
        ballot: &Record,
        index: u64,
        play: &F,
        writing: Writing,
        reply: &mut String,
    ) -> Result<Answer<S>, Memory>
        requires plays { PlaysPhases S.election S.ballots S.closes F.pre F.post play.now }
        requires said { (line : List ℕ) × IsSaid (election_of self) line said ballot.now }
        requires nothing { string_bytes reply.old ≡ [] }
        ensures answers { (line : List ℕ) → IsSaid (election_of self) line said ballot.now
            → IfOk result (λ answer. WritesReply writing
            (AnswersBy (closes_of self) (election_of self) index (state_of self) (Some line))
            (effect_of answer (string_bytes reply.new))) }
        ensures election { IfOk result (λ answer. election_of answer.inner ≡ election_of self) }
    {
        match said {
            Said::Item { tab, entry } => self.wait(tab, entry, ballot, index, writing, reply),
            Said::Command(command) => self.command(alloc, command, index, play, writing, reply),
            Said::Malformed => self.refuse(index, "malformed", writing, reply),
        }
    }

    /// Does what a line says that brings nothing for a list. It is refused in a phase that it does not belong to.
    #[inline(never)]
    fn command<F: Fn(S, Waiting) -> Result<(S, Replies), Memory>>(
        self,
        alloc: Global,
        command: Command,
        index: u64,
        play: &F,
        writing: Writing,
        reply: &mut String,
    ) -> Result<Answer<S>, Memory>
        requires plays { PlaysPhases S.election S.ballots S.closes F.pre F.post play.now }
        requires said { (line : List ℕ) × Says (election_of self) line (command_line command) }
        requires nothing { string_bytes reply.old ≡ [] }
        ensures does { IfOk result
            (WritesLine writing self index (command_line command) (string_bytes reply.new)) }
        ensures election { IfOk result (λ answer. election_of answer.inner ≡ election_of self) }
    {
        match (command, self.phase()) {
            (Command::Open { work, tabs }, _) => self.open(
                alloc, work, tabs, index, writing, reply,
            ),
            (Command::CastInvalid { .. }, Phase::Casting) => self.refuse(
                index, "invalid", writing, reply,
            ),
            (Command::Close, _) => self.close(index, play, writing, reply),
            (Command::Checkpoint, Phase::Closed) => self.checkpoint(reply),
            (Command::Tally, Phase::Closed) => Ok(Answer::of(self, Task::Tally)),
            (Command::Export, Phase::Closed) => Ok(self.export(writing)),
            _ => self.refuse_phase(index, writing, reply),
        }
    }

    /// Does nothing, and says why.
    #[inline(never)]
    fn refuse(
        self,
        index: u64,
        why: &str,
        writing: Writing,
        reply: &mut String,
    ) -> Result<Answer<S>, Memory>
        requires why { HasNoEnd why.now }
        requires nothing { string_bytes reply.old ≡ [] }
        ensures stays { IfOk result (λ answer. effect_of answer (string_bytes reply.new)
            ≡ as_written writing (stays (state_of self) (refusal index why.now))) }
        ensures election { IfOk result (λ answer. election_of answer.inner ≡ election_of self) }
    {
        write_refusal(reply, writing, index, why)?;
        Ok(Answer::of(self, Task::Nothing))
    }

    /// Does nothing: the line does not belong to the phase.
    #[inline(never)]
    fn refuse_phase(
        self,
        index: u64,
        writing: Writing,
        reply: &mut String,
    ) -> Result<Answer<S>, Memory>
        requires nothing { string_bytes reply.old ≡ [] }
        ensures stays { IfOk result (λ answer. effect_of answer (string_bytes reply.new)
            ≡ as_written writing (stays (state_of self) (wrong_phase index (phase_at self)))) }
        ensures election { IfOk result (λ answer. election_of answer.inner ≡ election_of self) }
    {
        let why = self.refusal();
        self.refuse(index, why, writing, reply)
    }

    /// Opens a phase for so many tabulators.
    fn open(
        self,
        alloc: Global,
        named: Work,
        tabs: u8,
        index: u64,
        writing: Writing,
        reply: &mut String,
    ) -> Result<Answer<S>, Memory>
        requires tabs { IsTab tabs }
        requires nothing { string_bytes reply.old ≡ [] }
        ensures does { IfOk result
            (WritesLine writing self index (lines.Open (work named) tabs) (string_bytes reply.new)) }
        ensures election { IfOk result (λ answer. election_of answer.inner ≡ election_of self) }
    {
        let InnerSession { store, waiting } = self;
        match waiting {
            None => {
                let waiting = Some(Waiting::opened(alloc, store.election(), named, tabs)?);
                write_opening(reply, writing, named, tabs)?;
                Ok(Answer::of(InnerSession { store, waiting }, Task::Nothing))
            }
            Some(_) => InnerSession { store, waiting }.refuse_phase(index, writing, reply),
        }
    }

    /// An entry is to be handled at the close of the phase.
    fn wait(
        mut self,
        tab: u8,
        entry: Entry,
        ballot: &Record,
        index: u64,
        writing: Writing,
        reply: &mut String,
    ) -> Result<Answer<S>, Memory>
        requires tab { IsTab tab }
        requires entry { CanWait (election_of self) entry ballot.now }
        requires nothing { string_bytes reply.old ≡ [] }
        ensures does { IfOk result
            (WritesLine writing self index (entry_line tab entry ballot.now) (string_bytes reply.new)) }
        ensures election { IfOk result (λ answer. election_of answer.inner ≡ election_of self) }
    {
        let queued = self.queue_entry(tab, entry, ballot)?;
        self.queued(queued, index, writing, reply)
    }

    /// Answers for an entry: it waits, or there is no such list, or the phase is another.
    fn queued(
        self,
        queued: Queued,
        index: u64,
        writing: Writing,
        reply: &mut String,
    ) -> Result<Answer<S>, Memory>
        requires nothing { string_bytes reply.old ≡ [] }
        ensures effect { IfOk result (λ answer. effect_of answer (string_bytes reply.new)
            ≡ as_written writing (queued_effect index (state_of self) queued)) }
        ensures election { IfOk result (λ answer. election_of answer.inner ≡ election_of self) }
    {
        match queued {
            Queued::Waits => Ok(Answer::of(self, Task::Nothing)),
            Queued::NoList => self.refuse(index, "invalid", writing, reply),
            Queued::OtherPhase => self.refuse_phase(index, writing, reply),
        }
    }

    /// Closes a phase: what waits is handled.
    fn close<F: Fn(S, Waiting) -> Result<(S, Replies), Memory>>(
        self,
        index: u64,
        play: &F,
        writing: Writing,
        reply: &mut String,
    ) -> Result<Answer<S>, Memory>
        requires plays { PlaysPhases S.election S.ballots S.closes F.pre F.post play.now }
        requires nothing { string_bytes reply.old ≡ [] }
        ensures does { IfOk result (WritesLine writing self index lines.Close (string_bytes reply.new)) }
        ensures election { IfOk result (λ answer. election_of answer.inner ≡ election_of self) }
    {
        let InnerSession { store, waiting } = self;
        match waiting {
            Some(waiting) => {
                let (store, replies) = play(store, waiting)?;
                tell_replies(reply, writing, &replies, store.len())?;
                let waiting = None;
                Ok(Answer::of(InnerSession { store, waiting }, Task::Nothing))
            }
            None => InnerSession { store, waiting }.refuse_phase(index, writing, reply),
        }
    }

    /// The set is to be acknowledged.
    fn checkpoint(self, reply: &mut String) -> Result<Answer<S>, Memory>
        requires closed { phase_at self ≡ phases.Closed }
        requires nothing { string_bytes reply.old ≡ [] }
        ensures does { (writing : Writing) (index : ℕ) → IfOk result
            (WritesLine writing self index lines.Checkpoint (string_bytes reply.new)) }
        ensures election { IfOk result (λ answer. election_of answer.inner ≡ election_of self) }
    {
        push_count(reply, "checkpoint", self.store.len())?;
        Ok(Answer::of(self, Task::Acknowledge))
    }

    /// The export of the set is to be written. A summary has none of its lines.
    fn export(self, writing: Writing) -> Answer<S>
        requires { phase_at self ≡ phases.Closed }
        ensures does { (index : ℕ) → WritesLine writing self index lines.Export [] result }
        ensures election { election_of result.inner ≡ election_of self }
    {
        match writing {
            Writing::All => Answer::of(self, Task::Export),
            Writing::Summary => Answer::of(self, Task::Nothing),
        }
    }
}
