//! The command `twin`: two disks become the medium of one set, and a session handles a script on both.

ghost use Rattle.body_store.specs.Contents.{IsStored};
ghost use Rattle.outside_io.specs.Outside.{input, output};
ghost use Rattle.phase_gate.specs.Around.{around};
ghost use Rattle.phase_gate.specs.Beside.{AreBeside};
ghost use Rattle.any_store.specs.Checkpointed.{IsMediumNow};
ghost use Rattle.any_store.specs.Disks.StoreDisks.{Alone};
ghost use Rattle.run_outcome.specs.Row.{OfOne};
ghost use Rattle.run_outcome.specs.Status.{ended, ended_as};
ghost use Rattle.run_outcome.specs.World.{nothing_reported};
ghost use Rattle.session_commands.specs.Session.{reported, run_status};
ghost use Rattle.session_run.specs.History.{Stood};
ghost use Rattle.session_run.specs.declared.fault.RunFault.{RunFault};
ghost use Rattle.std.specs.Prelude.{All, Result, ◌≡◌, ◌≢◌, ◌⊎◌, ◌+◌, ◌<◌, [], Err, Some, false, is_some, length, IsErrOf};
ghost use Rattle.store_spec.specs.Disk.{disk_model};
ghost use Rattle.store_spec.specs.Election.{IsElection};
ghost use Rattle.store_spec.specs.Fault.{last_count};
ghost use Rattle.store_spec.specs.Input.{script_limit};
ghost use Rattle.twin_commands.specs.Twin.{Continues, FailsSync, GoesOnBehind, IsBlame, SyncsAndGoesOn, TwinEnds, paired_text};

use crate::status::status_of;
use ballot_record::Election;
use bank_medium::settle;
use body_store::Closed;
use crash_disk::Disk;
use image_builder::Scratch;
use outside_io::{Lines, Sink, Source, Turns};
use phase_gate::{Report, Session, Writing};
use run_outcome::Status;
use session_commands::fault;
use session_run::{RunFault, play};
use std::alloc::Global;
use std::thread::Threads;
use twin_media::{LAST_MADE, Paired, Twin, pair};

/// The line that tells how two disks were found.
fn line_of(paired: Paired) -> &'static [u8]
    ensures { result.now ≡ paired_text paired }
{
    match paired {
        Paired::Equal => b"media equal\n",
        Paired::Differed => b"media differed\n",
        Paired::FirstRestored => b"media first-restored\n",
        Paired::SecondRestored => b"media second-restored\n",
    }
}

/// Writes the line that tells how two disks were found, and handles the script on a disk that is the medium of a store.
fn go_on<R: Threads + Sync, S: Source, K: Sink, D: Disk, T: Turns>(
    rt: &R,
    alloc: Global,
    store: Closed,
    paired: Paired,
    lines: &mut Lines,
    script: &mut S,
    out: &mut K,
    disk: &mut D,
    turns: &T,
    scratch: &mut Scratch,
    report: &mut Report,
) -> Result<(), RunFault>
    requires election { IsElection store.election }
    requires medium { IsMediumNow (disk_model D.seen D.calls D.may_leave D.faults)
        store.election store.ballots disk.old }
    requires nothing_kept { lines.old.text ≡ [] }
    requires room { lines.old.room ≡ script_limit }
    requires not_ended { lines.old.ended ≡ false }
    requires marks { report.old.marks.items ≡ [] }
    requires others { report.old.others.items ≡ [] }
    ensures goes_on { GoesOnBehind (disk_model D.seen D.calls D.may_leave D.faults)
        store.election store.ballots paired result
        (input S.left S.faults script.old) (input S.left S.faults script.new)
        (output K.taken K.faults out.old)
        (around (output K.taken K.faults out.new) disk.new report.new) disk.old }
    ensures others { AreBeside report.new.begun report.new.marks.items report.new.others.items }
    ensures begun { report.new.begun ≡ report.old.begun }
    ensures stood { Stood (Alone (disk_model D.seen D.calls D.may_leave D.faults))
        D.leads_to disk.old disk.new report.new.marks.items }
    ensures leads { D.leads_to disk.old disk.new }
    ensures fails { IsErrOf result RunFault.DiskFault → D.fails_to disk.old disk.new }
{
    report.held = store.len() as u32;
    if out.write_all(line_of(paired)).is_err() {
        return Err(RunFault::WriteFault);
    }
    let session = Session::writing(alloc, store, Writing::All);
    play(
        rt, alloc, session, lines, script, out, disk, turns, scratch, report,
    )
}

/// Syncs a disk that is the medium of a store, reports that two disks were paired with these counts of calls, and goes
/// on.
fn sync_and_go_on<R: Threads + Sync, S: Source, K: Sink, D: Disk, T: Turns>(
    rt: &R,
    alloc: Global,
    store: Closed,
    paired: Paired,
    begun: (u64, u64),
    lines: &mut Lines,
    script: &mut S,
    out: &mut K,
    disk: &mut D,
    turns: &T,
    scratch: &mut Scratch,
    report: &mut Report,
) -> Result<(), RunFault>
    requires election { IsElection store.election }
    requires medium { IsMediumNow (disk_model D.seen D.calls D.may_leave D.faults)
        store.election store.ballots disk.old }
    requires nothing_kept { lines.old.text ≡ [] }
    requires room { lines.old.room ≡ script_limit }
    requires not_ended { lines.old.ended ≡ false }
    requires marks { report.old.marks.items ≡ [] }
    requires others { report.old.others.items ≡ [] }
    ensures ends { ((result ≡ Err RunFault.DiskFault) × FailsSync
        (disk_model D.seen D.calls D.may_leave D.faults)
        (input S.left S.faults script.old) (input S.left S.faults script.new)
        (output K.taken K.faults out.old) (output K.taken K.faults out.new)
        (reported report.old) (reported report.new) disk.old disk.new)
        ⊎ SyncsAndGoesOn (disk_model D.seen D.calls D.may_leave D.faults) D.leads_to
        store.election store.ballots paired result begun
        (input S.left S.faults script.old) (input S.left S.faults script.new)
        (output K.taken K.faults out.old)
        (around (output K.taken K.faults out.new) disk.new report.new) (reported report.new) disk.old }
    ensures leads { D.leads_to disk.old disk.new }
    ensures fails { IsErrOf result RunFault.DiskFault → D.fails_to disk.old disk.new }
{
    if settle(disk).is_err() {
        return Err(RunFault::DiskFault);
    }
    report.begun = Some(begun);
    go_on(
        rt, alloc, store, paired, lines, script, out, disk, turns, scratch, report,
    )
}

/// The status of a call on both disks that failed.
fn blame<A: Disk, B: Disk>(twin: &Twin<A, B>) -> Status
    ensures { IsBlame (A.calls twin.now.first.now) (B.calls twin.now.second.now) twin.now.failed result }
{
    if twin.is_counted_out() {
        return Status::Memory;
    }
    match twin.failed() {
        Some(0) => Status::DiskFault,
        _ => Status::OtherDiskFault { index: 1 },
    }
}

/// How a session on both disks ended, by the disk that failed, if one did.
fn told<A: Disk, B: Disk>(answer: Result<(), RunFault>, twin: &Twin<A, B>) -> Result<(), Status>
    ensures blamed { answer ≡ Err RunFault.DiskFault
        → IsBlame (A.calls twin.now.first.now) (B.calls twin.now.second.now) twin.now.failed (ended result) }
    ensures same { answer ≢ Err RunFault.DiskFault → ended result ≡ ended_as run_status answer }
{
    match answer {
        Ok(()) => Ok(()),
        Err(RunFault::DiskFault) => Err(blame(twin)),
        Err(why) => Err(fault::status_of(why)),
    }
}

/// The same of both disks as one, and how it ended as a status.
fn on_twin<'a, R: Threads + Sync, S: Source, K: Sink, A: Disk, B: Disk, T: Turns>(
    rt: &R,
    alloc: Global,
    store: Closed,
    paired: Paired,
    begun: (u64, u64),
    lines: &mut Lines,
    script: &mut S,
    out: &mut K,
    twin: &mut Twin<'a, A, B>,
    turns: &T,
    scratch: &mut Scratch,
    report: &mut Report,
) -> Result<(), Status>
    requires election { IsElection store.election }
    requires medium { IsMediumNow (disk_model ⟦<Twin<'a, A, B> as Disk>⟧.seen
        ⟦<Twin<'a, A, B> as Disk>⟧.calls ⟦<Twin<'a, A, B> as Disk>⟧.may_leave ⟦<Twin<'a, A, B> as Disk>⟧.faults)
        store.election store.ballots twin.old }
    requires nothing_kept { lines.old.text ≡ [] }
    requires room { lines.old.room ≡ script_limit }
    requires not_ended { lines.old.ended ≡ false }
    requires marks { report.old.marks.items ≡ [] }
    requires others { report.old.others.items ≡ [] }
    ensures ends { (answer : Result (Unit {0}) RunFault)
        × (((answer ≡ Err RunFault.DiskFault) × FailsSync
        (disk_model ⟦<Twin<'a, A, B> as Disk>⟧.seen ⟦<Twin<'a, A, B> as Disk>⟧.calls
        ⟦<Twin<'a, A, B> as Disk>⟧.may_leave ⟦<Twin<'a, A, B> as Disk>⟧.faults)
        (input S.left S.faults script.old) (input S.left S.faults script.new)
        (output K.taken K.faults out.old) (output K.taken K.faults out.new)
        (reported report.old) (reported report.new) twin.old twin.new)
        ⊎ SyncsAndGoesOn (disk_model ⟦<Twin<'a, A, B> as Disk>⟧.seen ⟦<Twin<'a, A, B> as Disk>⟧.calls
        ⟦<Twin<'a, A, B> as Disk>⟧.may_leave ⟦<Twin<'a, A, B> as Disk>⟧.faults)
        ⟦<Twin<'a, A, B> as Disk>⟧.leads_to
        store.election store.ballots paired answer begun
        (input S.left S.faults script.old) (input S.left S.faults script.new)
        (output K.taken K.faults out.old)
        (around (output K.taken K.faults out.new) twin.new report.new) (reported report.new) twin.old)
        × (answer ≡ Err RunFault.DiskFault → ⟦<Twin<'a, A, B> as Disk>⟧.fails_to twin.old twin.new)
        × (answer ≡ Err RunFault.DiskFault → IsBlame (A.calls twin.new.first.now)
        (B.calls twin.new.second.now) twin.new.failed (ended result))
        × (answer ≢ Err RunFault.DiskFault → ended result ≡ ended_as run_status answer) }
    ensures leads { ⟦<Twin<'a, A, B> as Disk>⟧.leads_to twin.old twin.new }
{
    let answer = sync_and_go_on(
        rt, alloc, store, paired, begun, lines, script, out, twin, turns, scratch, report,
    );
    told(answer, twin)
}

/// Makes one disk of two that are the medium of a store, and handles the script on it. It is synced first, as every
/// session begins by a sync.
fn on_both<R: Threads + Sync, S: Source, K: Sink, A: Disk, B: Disk, T: Turns>(
    rt: &R,
    alloc: Global,
    store: Closed,
    paired: Paired,
    lines: &mut Lines,
    script: &mut S,
    out: &mut K,
    first: &mut A,
    second: &mut B,
    turns: &T,
    scratch: &mut Scratch,
    report: &mut Report,
) -> Result<(), Status>
    requires election { IsElection store.election }
    requires stored { IsStored store }
    requires few { A.calls first.old + 2 < last_count }
    requires alike { A.seen first.old ≡ B.seen second.old }
    requires first_medium { IsMediumNow (disk_model A.seen A.calls A.may_leave A.faults)
        store.election store.ballots first.old }
    requires second_medium { IsMediumNow (disk_model B.seen B.calls B.may_leave B.faults)
        store.election store.ballots second.old }
    requires nothing_kept { lines.old.text ≡ [] }
    requires room { lines.old.room ≡ script_limit }
    requires not_ended { lines.old.ended ≡ false }
    requires report { reported report.old ≡ nothing_reported }
    ensures { Continues (disk_model A.seen A.calls A.may_leave A.faults)
        (disk_model B.seen B.calls B.may_leave B.faults)
        store.election store.ballots paired (ended result) (reported report.new)
        (input S.left S.faults script.old) (input S.left S.faults script.new)
        (output K.taken K.faults out.old) (output K.taken K.faults out.new)
        first.old first.new second.old second.new }
{
    let begun = (first.calls(), second.calls());
    let mut twin = Twin::new(first, second);
    on_twin(
        rt, alloc, store, paired, begun, lines, script, out, &mut twin, turns, scratch, report,
    )
}

/// Pairs two disks, and handles the script on both.
fn twin_with<R: Threads + Sync, S: Source, K: Sink, D: Disk, T: Turns>(
    rt: &R,
    alloc: Global,
    election: &Election,
    script: &mut S,
    out: &mut K,
    first: &mut D,
    second: &mut D,
    turns: &T,
    report: &mut Report,
) -> Result<(), Status>
    requires election { IsElection election.now }
    requires told { is_some (D.seen first.old) ≡ is_some (D.seen second.old) }
    requires report { reported report.old ≡ nothing_reported }
    ensures { TwinEnds (disk_model D.seen D.calls D.may_leave D.faults)
        election.now (ended result) (reported report.new)
        (input S.left S.faults script.old) (input S.left S.faults script.new)
        (output K.taken K.faults out.old) (output K.taken K.faults out.new)
        first.old first.new second.old second.new }
{
    let mut scratch = Scratch::new(alloc)?;
    let mut lines = Lines::new(alloc)?;
    let (store, paired) = match pair(alloc, first, second, election, &mut scratch) {
        Ok(made) => made,
        Err(fault) => return Err(status_of(fault)),
    };
    let counts = (first.calls(), second.calls());
    if counts.0 >= LAST_MADE || counts.1 >= LAST_MADE {
        return Err(Status::Memory);
    }
    on_both(
        rt,
        alloc,
        store,
        paired,
        &mut lines,
        script,
        out,
        first,
        second,
        turns,
        &mut scratch,
        report,
    )
}

/// Pairs the medium with the only further one, writes how they were found, and handles a script as a session does, on
/// both. Either of them may be lost, and either is enough afterwards.
pub fn twin<R: Threads + Sync, S: Source, K: Sink, D: Disk, T: Turns>(
    rt: &R,
    alloc: Global,
    election: &Election,
    script: &mut S,
    out: &mut K,
    disk: &mut D,
    more: &mut [D],
    turns: &T,
    report: &mut Report,
) -> Result<(), Status>
    requires election { IsElection election.now }
    requires second { length more.old ≡ 1 }
    requires told { All (λ second. is_some (D.seen second) ≡ is_some (D.seen disk.old)) more.old }
    requires report { reported report.old ≡ nothing_reported }
    ensures { OfOne (TwinEnds (disk_model D.seen D.calls D.may_leave D.faults)
        election.now (ended result) (reported report.new)
        (input S.left S.faults script.old) (input S.left S.faults script.new)
        (output K.taken K.faults out.old) (output K.taken K.faults out.new)
        disk.old disk.new) more.old more.new }
{
    twin_with(
        rt,
        alloc,
        election,
        script,
        out,
        disk,
        &mut more[0],
        turns,
        report,
    )
}
