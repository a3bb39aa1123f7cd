//! A whole session, from the recovery of its medium to its last line.

ghost use Rattle.std.specs.Prelude.{◌≡◌, ◌≤◌, [], All, List, false, IfOk, IsErrOf, OnOk};
ghost use Rattle.outside_io.specs.Outside.{input, output};
ghost use Rattle.phase_gate.specs.Around.{around, rows_of};
ghost use Rattle.phase_gate.specs.Beside.{AddsRow, AreBeside};
ghost use Rattle.any_store.specs.Beside.{AreRows};
ghost use Rattle.any_store.specs.Checkpointed.{AreMedia, IsMediumNow};
ghost use Rattle.any_store.specs.Disks.{first_of, one_store, store_model};
ghost use Rattle.any_store.specs.Disks.StoreDisks.{Alone};
ghost use Rattle.phase_gate.specs.LineEnds.{LineEnds, state_left};
ghost use Rattle.phase_gate.specs.Replies.{ClosesBy, PlaysPhases, words_of};
ghost use Rattle.phase_gate.specs.Standing.{MayWait};
ghost use Rattle.phase_gate.specs.Writing.{written_of};
ghost use Rattle.phase_gate.specs.Waiting.{AreListsOf, phase_of};
ghost use Rattle.script_lines.specs.Line.{IsSaid};
ghost use Rattle.session_run.specs.Ends.{GoesOn, SessionEnds};
ghost use Rattle.session_run.specs.History.{Stands, Stood};
ghost use Rattle.store_spec.specs.Ballot.{Ballot};
ghost use Rattle.store_spec.specs.Disk.{disk_model};
ghost use Rattle.store_spec.specs.Election.{IsElection};
ghost use Rattle.store_spec.specs.Input.{script_limit};
ghost use Rattle.store_spec.specs.Session.{closing, of_one_store};

use crate::fault::RunFault;
use any_store::{Disks, Store};
use ballot_record::{Election, Record};
use body_store::Closed;
use crash_disk::Disk;
use image_builder::Scratch;
use outside_io::{Lines, Memory, NextLine, Sink, Source, Turns};
use phase_gate::{Replies, Report, Session, SessionFault, Waiting, Writing, play_phase};
use recovery::recover;
use script_lines::Said;
use std::alloc::Global;
use std::thread::Threads;

/// Recovers the store that a medium holds, and handles a script line by line, of whose replies it tells all or their
/// summary. Each checkpoint that is acknowledged leaves the medium of the set on the disk, and a stop at any moment
/// leaves the set that was acknowledged last or the one that is being checkpointed.
pub fn run_session<R: Threads + Sync, S: Source, K: Sink, D: Disk, T: Turns>(
    rt: &R,
    alloc: Global,
    election: &Election,
    script: &mut S,
    out: &mut K,
    disk: &mut D,
    turns: &T,
    writing: Writing,
    report: &mut Report,
) -> Result<(), RunFault>
    requires election { IsElection election.now }
    requires marks { report.old.marks.items ≡ [] }
    requires others { report.old.others.items ≡ [] }
    requires held { report.old.held ≡ 0 }
    ensures ends { SessionEnds (disk_model D.seen D.calls D.may_leave D.faults) (written_of writing)
        election.now result
        (input S.left S.faults script.old) (input S.left S.faults script.new)
        (around (output K.taken K.faults out.old) disk.old report.old)
        (around (output K.taken K.faults out.new) disk.new report.new) }
    ensures others { AreBeside report.new.begun report.new.marks.items report.new.others.items }
    ensures begun { report.new.begun ≡ report.old.begun }
    ensures leads { D.leads_to disk.old disk.new }
{
    let mut scratch = Scratch::new(alloc)?;
    let mut lines = Lines::new(alloc)?;
    let closed = recover(alloc, disk, election, &mut scratch)?;
    report.held = closed.len() as u32;
    let session = Session::writing(alloc, closed, writing);
    play(
        rt,
        alloc,
        session,
        &mut lines,
        script,
        out,
        disk,
        turns,
        &mut scratch,
        report,
    )
}

/// The same of a closed store and its disk.
pub fn play<R: Threads + Sync, S: Source, K: Sink, D: Disk, T: Turns>(
    rt: &R,
    alloc: Global,
    session: Session,
    lines: &mut Lines,
    script: &mut S,
    out: &mut K,
    disk: &mut D,
    turns: &T,
    scratch: &mut Scratch,
    report: &mut Report,
) -> Result<(), RunFault>
    requires election { IsElection session.election }
    requires medium { (set : List Ballot) × IsMediumNow
        (disk_model D.seen D.calls D.may_leave D.faults) session.election set disk.old }
    requires nothing_kept { lines.old.text ≡ [] }
    requires room { lines.old.room ≡ script_limit }
    requires not_ended { lines.old.ended ≡ false }
    requires marks { report.old.marks.items ≡ [] }
    requires others { AreBeside report.old.begun report.old.marks.items report.old.others.items }
    ensures ends { GoesOn (one_store (disk_model D.seen D.calls D.may_leave D.faults)) (written_of session.writing)
        session.election session.state result
        (input S.left S.faults script.old) (input S.left S.faults script.new)
        (around (output K.taken K.faults out.old) disk.old report.old)
        (around (output K.taken K.faults out.new) disk.new report.new) }
    ensures others { AreBeside report.new.begun report.new.marks.items report.new.others.items }
    ensures begun { report.new.begun ≡ report.old.begun }
    ensures stood { Stood (Alone (disk_model D.seen D.calls D.may_leave D.faults))
        D.leads_to disk.old disk.new report.new.marks.items }
    ensures leads { D.leads_to disk.old disk.new }
    ensures fails { IsErrOf result RunFault.DiskFault → D.fails_to disk.old disk.new }
{
    let phases = |store: Closed, waiting: Waiting| -> Result<(Closed, Replies), Memory>
        requires waiting { MayWait store.election (phase_of waiting) }
        requires lists { AreListsOf store.election waiting }
        ensures election { IfOk result (λ played. played.0.election ≡ store.election) }
        ensures closes { IfOk result (λ played. ClosesBy (of_one_store store.election) store.ballots
            (phase_of waiting) (closing (words_of played.1) played.0.ballots)) }
    { play_phase(rt, alloc, store, waiting, turns) };
    play_by(
        rt, alloc, session, lines, script, out, disk, &phases, scratch, report,
    )
}

/// Handles a script line by line, in a session that has just begun, with a reader that has read nothing yet. `play` plays
/// the phases of its store.
pub fn play_by<R, S, K, Y, M, F>(
    rt: &R,
    alloc: Global,
    mut session: Session<Y>,
    lines: &mut Lines,
    script: &mut S,
    out: &mut K,
    disks: &mut M,
    play: &F,
    scratch: &mut Scratch,
    report: &mut Report,
) -> Result<(), RunFault>
where
    R: Threads + Sync,
    S: Source,
    K: Sink,
    Y: Store,
    M: Disks<Y>,
    F: Fn(Y, Waiting) -> Result<(Y, Replies), Memory>,
    requires plays { PlaysPhases Y.election Y.ballots Y.closes F.pre F.post play.now }
    requires election { IsElection session.election }
    requires media { (set : List Ballot) × AreMedia M.disks session.election set disks.old }
    requires nothing_kept { lines.old.text ≡ [] }
    requires room { lines.old.room ≡ script_limit }
    requires not_ended { lines.old.ended ≡ false }
    requires marks { report.old.marks.items ≡ [] }
    requires others { AreRows M.disks report.old.begun report.old.marks.items (rows_of report.old) }
    ensures ends { GoesOn (store_model Y.closes M.disks) (written_of session.writing)
        session.election session.state result
        (input S.left S.faults script.old) (input S.left S.faults script.new)
        (around (output K.taken K.faults out.old) disks.old report.old)
        (around (output K.taken K.faults out.new) disks.new report.new) }
    ensures others { AreRows M.disks report.new.begun report.new.marks.items (rows_of report.new) }
    ensures begun { report.new.begun ≡ report.old.begun }
    ensures stood { Stood M.disks M.leads_to disks.old disks.new report.new.marks.items }
    ensures leads { M.leads_to disks.old disks.new }
    ensures fails { IsErrOf result RunFault.DiskFault → M.fails_to disks.old disks.new }
{
    let mut index = 0;
    let mut ballot = Record::blank();
    'lines: loop {
        let line: &[u8] = match lines.next_line(script)? {
            NextLine::Whole => lines.line(),
            // A line that is too wide is malformed, as an empty one is.
            NextLine::TooWide => b"",
            NextLine::End => return Ok(session.end(out)?),
        };
        index += 1;
        // Nearly all lines bring what waits for the close of a phase. A session is moved for the others alone.
        if let Some(said) = session.queue(line, &mut ballot)? {
            session = handle(
                rt, alloc, session, line, said, &ballot, index, disks, out, play, scratch, report,
            )?;
        }
    }
}

/// Handles a line that says this and does not wait for the close of a phase. The room for the list of a mark is taken
/// before it, and the list of a mark that it made is added behind it, also where the line is refused: no disk was called
/// since.
fn handle<R, K, Y, M, F>(
    rt: &R,
    alloc: Global,
    session: Session<Y>,
    line: &[u8],
    said: Said,
    ballot: &Record,
    index: u64,
    disks: &mut M,
    out: &mut K,
    play: &F,
    scratch: &mut Scratch,
    report: &mut Report,
) -> Result<Session<Y>, SessionFault>
where
    R: Threads + Sync,
    K: Sink,
    Y: Store,
    M: Disks<Y>,
    F: Fn(Y, Waiting) -> Result<(Y, Replies), Memory>,
    requires plays { PlaysPhases Y.election Y.ballots Y.closes F.pre F.post play.now }
    requires said { IsSaid session.election line.now said ballot.now }
    requires media { (set : List Ballot) × AreMedia M.disks session.election set disks.old }
    requires marks { All (λ mark. mark ≤ (first_of M.disks).calls disks.old) report.old.marks.items }
    requires others { AreRows M.disks report.old.begun report.old.marks.items (rows_of report.old) }
    ensures ends { LineEnds (store_model Y.closes M.disks)
        (written_of session.writing) session.election index session.state line.now
        (state_left (λ session. session.state) result)
        (around (output K.taken K.faults out.old) disks.old report.old)
        (around (output K.taken K.faults out.new) disks.new report.new) }
    ensures election { IfOk result (λ next. next.election ≡ session.election) }
    ensures writing { IfOk result (λ next. next.writing ≡ session.writing) }
    ensures rows { AddsRow M.disks disks.new report.new.begun report.old.marks.items report.new.marks.items
        (rows_of report.old) (rows_of report.new) }
    ensures begun { report.new.begun ≡ report.old.begun }
    ensures stands { OnOk result (Stands M.disks disks.old disks.new report.new.marks.items) }
    ensures stood { Stood M.disks M.leads_to disks.old disks.new report.new.marks.items }
    ensures leads { M.leads_to disks.old disks.new }
    ensures fails { IsErrOf result SessionFault.DiskFault → M.fails_to disks.old disks.new }
{
    let list = report.room(alloc, disks.width(report.begun))?;
    let answer = session.line_by(
        rt, alloc, line, said, ballot, index, disks, out, play, scratch, report,
    );
    report.complete::<Y, M>(disks, list);
    answer
}
