//! A session: one line after another.

ghost use Rattle.std.specs.Prelude.{◌≡◌, ◌∷◌, [], ℕ, List, IfErr, IfOk, OnErr, OnOk, Some, IsErrOf};
ghost use Rattle.outside_io.specs.Outside.{output};
ghost use Rattle.phase_gate.specs.Around.{around};
ghost use Rattle.any_store.specs.Checkpointed.{AreMedia, IsMediumNow};
ghost use Rattle.phase_gate.specs.Checkpointed.{Acknowledges, NotAcknowledged};
ghost use Rattle.any_store.specs.Disks.{one_store, store_model};
ghost use Rattle.phase_gate.specs.InnerSession.{IsPhaseName, IsQueued, acknowledged_at, ballots_of, election_of};
ghost use Rattle.phase_gate.specs.LineEnds.{LastEnds, LineEnds, state_left};
ghost use Rattle.phase_gate.specs.Replies.{ClosesBy, PlaysPhases, words_of};
ghost use Rattle.phase_gate.specs.Standing.{MayWait};
ghost use Rattle.phase_gate.specs.Writing.{written_of};
ghost use Rattle.phase_gate.specs.Waiting.{AreListsOf, phase_of};
ghost use Rattle.script_lines.specs.Line.{IsSaid};
ghost use Rattle.store_spec.specs.Ballot.{Ballot};
ghost use Rattle.store_spec.specs.Disk.{disk_model};
ghost use Rattle.store_spec.specs.Session.{begun, closing, AnswersBy, of_one_store};

use crate::closing::play_phase;
use crate::fault::SessionFault;
use crate::inner::{Answer, InnerSession, Task};
use crate::phase::Phase;
use crate::replies::Replies;
use crate::report::Report;
use crate::waiting::Waiting;
use crate::writing::{Writing, write_task, write_text};
use any_store::{Disks, Store};
use ballot_record::Record;
use body_store::Closed;
use crash_disk::Disk;
use image_builder::Scratch;
use outside_io::{Memory, Sink, Turns};
use script_lines::Said;
use std::alloc::Global;
use std::marker::Model;
use std::thread::Threads;

/// A session between two lines of its script.
#[derive(Drop)]
pub struct Session<S: Store = Closed> {
    inner: InnerSession<S>,
    writing: Writing,
    reply: String,
}

impl<S: Store> Model for Session<S> {
    ghost use Rattle.phase_gate.specs.Standing.{Standing, IsStanding};

    ghost Value = { Standing };

    ghost use Rattle.phase_gate.specs.InnerSession.{standing_of};

    ghost view = { standing_of };
}

impl<S: Store> Session<S> {
    /// It begins closed, with this store. It writes all of its replies.
    pub fn new(alloc: Global, store: S) -> Session<S>
        ensures election { result.election ≡ S.election store }
        ensures begun { result.state ≡ begun (S.ballots store) }
        ensures writing { result.writing ≡ Writing.All }
    {
        Session::writing(alloc, store, Writing::All)
    }

    /// The same, and this is what it writes of its replies.
    pub fn writing(alloc: Global, store: S, writing: Writing) -> Session<S>
        ensures election { result.election ≡ S.election store }
        ensures begun { result.state ≡ begun (S.ballots store) }
        ensures writing { result.writing ≡ writing }
    {
        Session {
            inner: InnerSession {
                store,
                waiting: None,
            },
            writing,
            reply: String::new(alloc),
        }
    }

    /// The phase that it is in.
    pub fn phase(&self) -> Phase
        ensures { IsPhaseName result self.now.state.phase }
    {
        self.inner.phase()
    }

    /// Lets what a line of its script brings wait for the close of the phase. Nearly all lines bring something that
    /// waits, and nothing is written of them. Where this one does not, nothing is done, and what it says is given back, for
    /// `line` to handle. The ballot of a cast is read in place of the one that stands in `ballot`, whatever that is.
    pub fn queue(&mut self, line: &[u8], ballot: &mut Record) -> Result<Option<Said>, Memory>
        ensures queued { (index : ℕ) → IfOk result (λ left. IsQueued left
            (AnswersBy (S.closes self.old.election) self.old.election index self.old.state (Some line.now))
            (λ said. IsSaid self.old.election line.now said ballot.new)
            self.old.state self.new.state) }
        ensures set { self.new.state.set ≡ self.old.state.set }
        ensures election { self.new.election ≡ self.old.election }
        ensures writing { self.new.writing ≡ self.old.writing }
        ensures unchanged { OnErr result (self.new ≡ self.old) }
    {
        self.inner.queue(line, ballot)
    }

    /// Handles a line of its script, which says this and has this number, counted from 1. The ballot of a cast is this one.
    /// `play` plays the phases of its store. Whoever has read the reply to a checkpoint can rely on it: the disks are the
    /// media of the set. A tally and an export go straight to the sink. A refusal gives the session up.
    pub fn line_by<R, M, K, F>(
        self,
        rt: &R,
        alloc: Global,
        line: &[u8],
        said: Said,
        ballot: &Record,
        index: u64,
        disks: &mut M,
        out: &mut K,
        play: &F,
        scratch: &mut Scratch,
        report: &mut Report,
    ) -> Result<Session<S>, SessionFault>
    where
        R: Threads + Sync,
        M: Disks<S>,
        K: Sink,
        F: Fn(S, Waiting) -> Result<(S, Replies), Memory>,
        requires plays { PlaysPhases S.election S.ballots S.closes F.pre F.post play.now }
        requires said { IsSaid self.election line.now said ballot.now }
        requires media { (set : List Ballot) × AreMedia M.disks self.election set disks.old }
        ensures ends { LineEnds (store_model S.closes M.disks) (written_of self.writing) self.election index self.state line.now
            (state_left (λ session. session.state) result)
            (around (output K.taken K.faults out.old) disks.old report.old)
            (around (output K.taken K.faults out.new) disks.new report.new) }
        ensures election { IfOk result (λ session. session.election ≡ self.election) }
        ensures writing { IfOk result (λ session. session.writing ≡ self.writing) }
        ensures others { report.new.others ≡ report.old.others }
        ensures begun { report.new.begun ≡ report.old.begun }
        ensures leads { M.leads_to disks.old disks.new }
        ensures fails { IsErrOf result SessionFault.DiskFault → M.fails_to disks.old disks.new }
    {
        let Session {
            inner,
            writing,
            mut reply,
        } = self;
        reply.clear();
        let Answer { inner, task } = inner.answer(
            alloc, said, ballot, index, play, writing, &mut reply,
        )?;
        prepare(task, &inner, disks, scratch, report)?;
        report.held = inner.store.len() as u32;
        write_task(rt, alloc, task, &inner, &reply, out)?;
        Ok(Session {
            inner,
            writing,
            reply,
        })
    }

    /// The script has ended: a phase that is still open is dropped. A summary does not say so.
    pub fn end<K: Sink>(self, out: &mut K) -> Result<(), SessionFault>
        ensures { LastEnds (written_of self.writing) self.state.phase result
            (output K.taken K.faults out.old) (output K.taken K.faults out.new) }
    {
        match self.writing {
            Writing::All => Ok(write_text(self.inner.last_reply(), out)?),
            Writing::Summary => Ok(()),
        }
    }
}

impl Session<Closed> {
    /// Handles a line of its script, which says this, of a closed store and its disk.
    pub fn line<R: Threads + Sync, D: Disk, K: Sink, T: Turns>(
        self,
        rt: &R,
        alloc: Global,
        line: &[u8],
        said: Said,
        ballot: &Record,
        index: u64,
        disk: &mut D,
        out: &mut K,
        turns: &T,
        scratch: &mut Scratch,
        report: &mut Report,
    ) -> Result<Session, SessionFault>
        requires said { IsSaid self.election line.now said ballot.now }
        requires medium { (set : List Ballot) × IsMediumNow
            (disk_model D.seen D.calls D.may_leave D.faults) self.election set disk.old }
        ensures ends { LineEnds (one_store (disk_model D.seen D.calls D.may_leave D.faults))
            (written_of self.writing) self.election index self.state line.now
            (state_left (λ session. session.state) result)
            (around (output K.taken K.faults out.old) disk.old report.old)
            (around (output K.taken K.faults out.new) disk.new report.new) }
        ensures election { IfOk result (λ session. session.election ≡ self.election) }
        ensures writing { IfOk result (λ session. session.writing ≡ self.writing) }
        ensures others { report.new.others ≡ report.old.others }
        ensures begun { report.new.begun ≡ report.old.begun }
        ensures leads { D.leads_to disk.old disk.new }
        ensures fails { IsErrOf result SessionFault.DiskFault → D.fails_to disk.old disk.new }
    {
        let play = |store: Closed, waiting: Waiting| -> Result<(Closed, Replies), Memory>
            requires waiting { MayWait store.election (phase_of waiting) }
            requires lists { AreListsOf store.election waiting }
            ensures election { IfOk result (λ played. played.0.election ≡ store.election) }
            ensures closes { IfOk result (λ played. ClosesBy (of_one_store store.election) store.ballots
                (phase_of waiting) (closing (words_of played.1) played.0.ballots)) }
        { play_phase(rt, alloc, store, waiting, turns) };
        self.line_by(
            rt, alloc, line, said, ballot, index, disk, out, &play, scratch, report,
        )
    }
}

/// Does what comes before the writing of a line.
fn prepare<S: Store, M: Disks<S>>(
    task: Task,
    inner: &InnerSession<S>,
    disks: &mut M,
    scratch: &mut Scratch,
    report: &mut Report,
) -> Result<(), SessionFault>
    requires media { (set : List Ballot) × AreMedia M.disks (election_of inner.now) set disks.old }
    ensures acknowledged { OnOk result (Acknowledges M.disks
        (election_of inner.now) (acknowledged_at task (ballots_of inner.now)) disks.old disks.new
        report.old.marks.items report.new.marks.items) }
    ensures refused { IfErr result (λ fault. (task ≡ Task.Acknowledge) × NotAcknowledged M.disks
        (election_of inner.now) (ballots_of inner.now) disks.old disks.new fault) }
    ensures marks { OnErr result (report.new.marks.items ≡ report.old.marks.items) }
    ensures held { report.new.held ≡ report.old.held }
    ensures others { report.new.others ≡ report.old.others }
    ensures begun { report.new.begun ≡ report.old.begun }
    ensures leads { M.leads_to disks.old disks.new }
    ensures fails { IsErrOf result SessionFault.DiskFault → M.fails_to disks.old disks.new }
{
    match task {
        Task::Acknowledge => acknowledge(inner, disks, scratch, report),
        _ => Ok(()),
    }
}

/// Makes the disks the media of the set, and marks how many calls were made by then. The room for the mark is taken first.
fn acknowledge<S: Store, M: Disks<S>>(
    inner: &InnerSession<S>,
    disks: &mut M,
    scratch: &mut Scratch,
    report: &mut Report,
) -> Result<(), SessionFault>
    requires media { (set : List Ballot) × AreMedia M.disks (election_of inner.now) set disks.old }
    ensures acknowledged { OnOk result (Acknowledges M.disks
        (election_of inner.now) (ballots_of inner.now ∷ []) disks.old disks.new
        report.old.marks.items report.new.marks.items) }
    ensures refused { IfErr result (NotAcknowledged M.disks
        (election_of inner.now) (ballots_of inner.now) disks.old disks.new) }
    ensures marks { OnErr result (report.new.marks.items ≡ report.old.marks.items) }
    ensures held { report.new.held ≡ report.old.held }
    ensures others { report.new.others ≡ report.old.others }
    ensures begun { report.new.begun ≡ report.old.begun }
    ensures leads { M.leads_to disks.old disks.new }
    ensures fails { IsErrOf result SessionFault.DiskFault → M.fails_to disks.old disks.new }
{
    if report.marks.reserve(1).is_err() {
        return Err(SessionFault::Memory);
    }
    if disks.acknowledge(&inner.store, scratch).is_err() {
        return Err(SessionFault::DiskFault);
    }
    report.marks.push_reserved(disks.made());
    Ok(())
}
