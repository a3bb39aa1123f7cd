//! The command `part`: a session on a store in parts, by the top bits of the numbers, each part on a medium of its own.

ghost use Rattle.any_store.specs.Checkpointed.{AreMedia};
ghost use Rattle.outside_io.specs.Outside.{input, output};
ghost use Rattle.part_commands.specs.Handled.{EndsAs, Handles};
ghost use Rattle.part_commands.specs.Part.{PartEnds};
ghost use Rattle.parted_store.specs.Leads.{OnePartFails};
ghost use Rattle.parted_store.specs.Slots.{models_of, parted_disks};
ghost use Rattle.parted_store.specs.Views.{both_of};
ghost use Rattle.partition_store.specs.Parted.{AreFurther, bits_of, joined};
ghost use Rattle.run_outcome.specs.Status.{ended};
ghost use Rattle.run_outcome.specs.World.{nothing_reported};
ghost use Rattle.session_commands.specs.Session.{reported};
ghost use Rattle.session_run.specs.declared.fault.RunFault.{RunFault};
ghost use Rattle.std.specs.Prelude.{◌≡◌, ◌+◌, ◌<◌, ◌^◌, [], Err, IfSome, false, length};
ghost use Rattle.store_spec.specs.Disk.{disk_model};
ghost use Rattle.store_spec.specs.Election.{IsElection};
ghost use Rattle.store_spec.specs.Input.{script_limit};

use crate::status::{disk_fault, status_of};
use ballot_record::Election;
use crash_disk::Disk;
use image_builder::Scratch;
use outside_io::{Lines, Sink, Source, Turns};
use part_session::play;
use parted_store::laws::opened_media;
use parted_store::{Eight, Four, PartCount, Parts, PartsOf, Two};
use partition_store::PartStore;
use phase_gate::{Report, Session, Writing};
use run_outcome::Status;
use session_commands::fault;
use session_run::RunFault;
use std::alloc::Global;
use std::thread::Threads;

/// How a session on the parts ended, by the disk that failed, if one did.
fn told(answer: Result<(), RunFault>, failed: Option<usize>) -> Result<(), Status>
    requires { answer ≡ Err RunFault.DiskFault → IfSome failed (λ part. part < 2 ^ 32) }
    ensures { EndsAs answer failed (ended result) }
{
    match (answer, failed) {
        (Ok(()), _) => Ok(()),
        (Err(RunFault::DiskFault), Some(part)) => Err(disk_fault(part as u32)),
        (Err(why), _) => Err(fault::status_of(why)),
    }
}

/// Handles the script on a store whose parts are on these disks.
fn handle<P: PartCount, R: Threads + Sync, S: Source, K: Sink, D: Disk, T: Turns>(
    rt: &R,
    alloc: Global,
    store: PartStore,
    lines: &mut Lines,
    script: &mut S,
    out: &mut K,
    disk: &mut D,
    more: &mut [D],
    turns: &T,
    scratch: &mut Scratch,
    report: &mut Report,
) -> Result<(), Status>
    requires bits { store.bits ≡ P.bits }
    requires parts { bits_of (length more.old) ≡ P.bits }
    requires many { length more.old + 1 ≡ 2 ^ P.bits }
    requires election { IsElection store.election }
    requires media { AreMedia (parted_disks (disk_model D.seen D.calls D.may_leave D.faults)
        (disk_model D.seen D.calls D.may_leave D.faults) P.bits (length more.old))
        store.election (joined store.sets) (disk.old, more.old) }
    requires nothing_kept { lines.old.text ≡ [] }
    requires room { lines.old.room ≡ script_limit }
    requires not_ended { lines.old.ended ≡ false }
    requires report { reported report.old ≡ nothing_reported }
    ensures { Handles (disk_model D.seen D.calls D.may_leave D.faults)
        store.election (joined store.sets) (ended result) (reported report.new)
        (input S.left S.faults script.old) (input S.left S.faults script.new)
        (output K.taken K.faults out.old) (output K.taken K.faults out.new)
        disk.old disk.new more.old more.new }
{
    report.held = store.len() as u32;
    let session = Session::writing(alloc, PartsOf::<P>::new(store), Writing::All);
    let mut disks = Parts::<P, D, D>::new(disk, more);
    let answer = play(
        rt, alloc, session, lines, script, out, &mut disks, turns, scratch, report,
    );
    told(answer, disks.failed())
}

/// The same, by how many parts there are.
fn handle_parts<R: Threads + Sync, S: Source, K: Sink, D: Disk, T: Turns>(
    rt: &R,
    alloc: Global,
    store: PartStore,
    lines: &mut Lines,
    script: &mut S,
    out: &mut K,
    disk: &mut D,
    more: &mut [D],
    turns: &T,
    scratch: &mut Scratch,
    report: &mut Report,
) -> Result<(), Status>
    requires bits { store.bits ≡ bits_of (length more.old) }
    requires further { AreFurther (length more.old) }
    requires election { IsElection store.election }
    requires media { AreMedia (parted_disks (disk_model D.seen D.calls D.may_leave D.faults)
        (disk_model D.seen D.calls D.may_leave D.faults) store.bits (length more.old))
        store.election (joined store.sets) (disk.old, more.old) }
    requires nothing_kept { lines.old.text ≡ [] }
    requires room { lines.old.room ≡ script_limit }
    requires not_ended { lines.old.ended ≡ false }
    requires report { reported report.old ≡ nothing_reported }
    ensures { Handles (disk_model D.seen D.calls D.may_leave D.faults)
        store.election (joined store.sets) (ended result) (reported report.new)
        (input S.left S.faults script.old) (input S.left S.faults script.new)
        (output K.taken K.faults out.old) (output K.taken K.faults out.new)
        disk.old disk.new more.old more.new }
{
    match more.len() {
        1 => handle::<Two, R, S, K, D, T>(
            rt, alloc, store, lines, script, out, disk, more, turns, scratch, report,
        ),
        3 => handle::<Four, R, S, K, D, T>(
            rt, alloc, store, lines, script, out, disk, more, turns, scratch, report,
        ),
        _ => handle::<Eight, R, S, K, D, T>(
            rt, alloc, store, lines, script, out, disk, more, turns, scratch, report,
        ),
    }
}

/// Opens the store whose part 0 is on `disk`, and part i on the i-th of `more`, and handles a script as a session does, each
/// ballot in the part of its number. A part may hold as many ballots as a store of the election.
pub fn part<R: Threads + Sync, S: Source, K: Sink, D: Disk, T: Turns>(
    rt: &R,
    alloc: Global,
    election: &Election,
    script: &mut S,
    out: &mut K,
    disk: &mut D,
    more: &mut [D],
    turns: &T,
    report: &mut Report,
) -> Result<(), Status>
    requires election { IsElection election.now }
    requires parts { AreFurther (length more.old) }
    requires report { reported report.old ≡ nothing_reported }
    ensures { PartEnds (disk_model D.seen D.calls D.may_leave D.faults)
        election.now (ended result) (reported report.new)
        (input S.left S.faults script.old) (input S.left S.faults script.new)
        (output K.taken K.faults out.old) (output K.taken K.faults out.new)
        disk.old disk.new more.old more.new }
{
    let mut scratch = Scratch::new(alloc)?;
    let mut lines = Lines::new(alloc)?;
    let store = match PartStore::open(alloc, disk, more, election, &mut scratch) {
        Ok(store) => store,
        Err(fault) => return Err(status_of(fault)),
    };
    opened_media::<D, D>();
    handle_parts(
        rt,
        alloc,
        store,
        &mut lines,
        script,
        out,
        disk,
        more,
        turns,
        &mut scratch,
        report,
    )
}
