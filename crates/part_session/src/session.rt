//! A session over a store in parts, and its script over the disks of the parts.

ghost use Rattle.any_store.specs.Beside.{AreRows};
ghost use Rattle.any_store.specs.Checkpointed.{AreMedia};
ghost use Rattle.any_store.specs.Disks.{store_model};
ghost use Rattle.outside_io.specs.Outside.{input, output};
ghost use Rattle.partition_store.specs.Parted.{joined};
ghost use Rattle.phase_gate.specs.Around.{around, rows_of};
ghost use Rattle.phase_gate.specs.LineEnds.{LineEnds, state_left};
ghost use Rattle.phase_gate.specs.Replies.{ClosesBy, words_of};
ghost use Rattle.phase_gate.specs.Standing.{MayWait};
ghost use Rattle.phase_gate.specs.Writing.{written_of};
ghost use Rattle.phase_gate.specs.Waiting.{AreListsOf, phase_of};
ghost use Rattle.script_lines.specs.Line.{IsSaid};
ghost use Rattle.session_run.specs.Ends.{GoesOn};
ghost use Rattle.session_run.specs.History.{Stood};
ghost use Rattle.std.specs.Prelude.{◌≡◌, [], List, false, IfOk, IsErrOf};
ghost use Rattle.store_spec.specs.Ballot.{Ballot};
ghost use Rattle.store_spec.specs.Election.{IsElection};
ghost use Rattle.store_spec.specs.Input.{script_limit};
ghost use Rattle.store_spec.specs.Parts.{of_parts};
ghost use Rattle.store_spec.specs.Session.{closing};

use crate::playing::play_parts;
use any_store::Disks;
use ballot_record::Record;
use image_builder::Scratch;
use outside_io::{Lines, Memory, Sink, Source, Turns};
use parted_store::{PartCount, PartsOf};
use phase_gate::{Replies, Report, Session, SessionFault, Waiting};
use script_lines::Said;
use session_run::{RunFault, play_by};
use std::alloc::Global;
use std::thread::Threads;

/// A session over a store in parts.
pub type PartSession<P> = Session<PartsOf<P>>;

/// Handles a line of the script of a session over a store in parts, which says this, and the disks of its parts.
pub fn line<P, R, M, K, T>(
    session: PartSession<P>,
    rt: &R,
    alloc: Global,
    line: &[u8],
    said: Said,
    ballot: &Record,
    index: u64,
    disks: &mut M,
    out: &mut K,
    turns: &T,
    scratch: &mut Scratch,
    report: &mut Report,
) -> Result<PartSession<P>, SessionFault>
where
    P: PartCount,
    R: Threads + Sync,
    M: Disks<PartsOf<P>>,
    K: Sink,
    T: Turns,
    requires said { IsSaid session.election line.now said ballot.now }
    requires media { (set : List Ballot) × AreMedia M.disks session.election set disks.old }
    ensures ends { LineEnds (store_model (of_parts P.bits) M.disks) (written_of session.writing)
        session.election index session.state line.now (state_left (λ next. next.state) result)
        (around (output K.taken K.faults out.old) disks.old report.old)
        (around (output K.taken K.faults out.new) disks.new report.new) }
    ensures election { IfOk result (λ next. next.election ≡ session.election) }
    ensures writing { IfOk result (λ next. next.writing ≡ session.writing) }
    ensures others { report.new.others ≡ report.old.others }
    ensures begun { report.new.begun ≡ report.old.begun }
    ensures leads { M.leads_to disks.old disks.new }
    ensures fails { IsErrOf result SessionFault.DiskFault → M.fails_to disks.old disks.new }
{
    let play = |store: PartsOf<P>, waiting: Waiting| -> Result<(PartsOf<P>, Replies), Memory>
        requires waiting { MayWait store.store.election (phase_of waiting) }
        requires lists { AreListsOf store.store.election waiting }
        ensures election { IfOk result (λ played. played.0.store.election ≡ store.store.election) }
        ensures closes { IfOk result (λ played. ClosesBy (of_parts P.bits store.store.election)
            (joined store.store.sets) (phase_of waiting)
            (closing (words_of played.1) (joined played.0.store.sets))) }
    { play_parts(rt, alloc, store, waiting, turns) };
    session.line_by(
        rt, alloc, line, said, ballot, index, disks, out, &play, scratch, report,
    )
}

/// Handles a script line by line, in a session over a store in parts that has just begun, and the disks of its parts,
/// with a reader that has read nothing yet.
pub fn play<P, R, S, K, M, T>(
    rt: &R,
    alloc: Global,
    session: PartSession<P>,
    lines: &mut Lines,
    script: &mut S,
    out: &mut K,
    disks: &mut M,
    turns: &T,
    scratch: &mut Scratch,
    report: &mut Report,
) -> Result<(), RunFault>
where
    P: PartCount,
    R: Threads + Sync,
    S: Source,
    K: Sink,
    M: Disks<PartsOf<P>>,
    T: Turns,
    requires election { IsElection session.election }
    requires media { (set : List Ballot) × AreMedia M.disks session.election set disks.old }
    requires nothing_kept { lines.old.text ≡ [] }
    requires room { lines.old.room ≡ script_limit }
    requires not_ended { lines.old.ended ≡ false }
    requires marks { report.old.marks.items ≡ [] }
    requires others { AreRows M.disks report.old.begun report.old.marks.items (rows_of report.old) }
    ensures ends { GoesOn (store_model (of_parts P.bits) M.disks) (written_of session.writing)
        session.election session.state result
        (input S.left S.faults script.old) (input S.left S.faults script.new)
        (around (output K.taken K.faults out.old) disks.old report.old)
        (around (output K.taken K.faults out.new) disks.new report.new) }
    ensures others { AreRows M.disks report.new.begun report.new.marks.items (rows_of report.new) }
    ensures begun { report.new.begun ≡ report.old.begun }
    ensures stood { Stood M.disks M.leads_to disks.old disks.new report.new.marks.items }
    ensures leads { M.leads_to disks.old disks.new }
    ensures fails { IsErrOf result RunFault.DiskFault → M.fails_to disks.old disks.new }
{
    let phases = |store: PartsOf<P>, waiting: Waiting| -> Result<(PartsOf<P>, Replies), Memory>
        requires waiting { MayWait store.store.election (phase_of waiting) }
        requires lists { AreListsOf store.store.election waiting }
        ensures election { IfOk result (λ played. played.0.store.election ≡ store.store.election) }
        ensures closes { IfOk result (λ played. ClosesBy (of_parts P.bits store.store.election)
            (joined store.store.sets) (phase_of waiting)
            (closing (words_of played.1) (joined played.0.store.sets))) }
    { play_parts(rt, alloc, store, waiting, turns) };
    play_by(
        rt, alloc, session, lines, script, out, disks, &phases, scratch, report,
    )
}
