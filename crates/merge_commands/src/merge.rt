//! The command `merge`: a medium becomes that of the union of its own set and those of further media.

ghost use Rattle.merge_commands.specs.Merge.{KeepsOldOrUnion, MergeEnds, MergesNone, merge_status, merged_text};
ghost use Rattle.merge_media.specs.Merging.{Merges, MergesThroughout};
ghost use Rattle.outside_io.specs.Outside.{output};
ghost use Rattle.recovery.specs.ReadsOnly.{WritesNothing};
ghost use Rattle.run_outcome.specs.Status.{ended};
ghost use Rattle.std.specs.List.{AllZip};
ghost use Rattle.std.specs.Prelude.{◌≡◌, ◌≤◌, IfErr, IfOk, is_some, length};
ghost use Rattle.store_spec.specs.Disk.{disk_model};

use ballot_record::Election;
use crash_disk::Disk;
use image_builder::Scratch;
use medium_commands::refused;
use merge_media::MergeFault;
use outside_io::{Memory, Sink};
use run_outcome::{Status, write_out};
use std::alloc::Global;

/// The status of media that are not merged.
fn status_of(fault: MergeFault) -> Status
    ensures { result ≡ merge_status fault }
{
    match fault {
        MergeFault::Target { why } => refused::status_of(why),
        MergeFault::OtherFault { index } => Status::OtherDiskFault { index },
        MergeFault::Other { index, why } => Status::BadMedium { index, why },
        MergeFault::Dispute { number } => Status::MergeConflict { number },
        MergeFault::TooMany { count } => Status::MergeFull { count },
        MergeFault::DiskFault => Status::DiskFault,
        MergeFault::Memory => Status::Memory,
    }
}

/// Merges the media, and answers how many ballots the target holds then.
#[tactic(auto, using(crate::proofs::Merged::refused_none))]
fn united<D: Disk>(
    alloc: Global,
    election: &Election,
    disk: &mut D,
    more: &mut [D],
) -> Result<u32, Status>
    requires { length more.old ≤ 8 }
    ensures merged { IfOk result (Merges (disk_model D.seen D.calls D.may_leave D.faults)
        (disk_model D.seen D.calls D.may_leave D.faults) election.now disk.old disk.new more.old more.new) }
    ensures refused { IfErr result (λ status. MergesNone (disk_model D.seen D.calls D.may_leave D.faults)
        election.now status disk.old disk.new more.old more.new) }
    ensures crashes { KeepsOldOrUnion (disk_model D.seen D.calls D.may_leave D.faults)
        election.now disk.old disk.new more.old }
    ensures throughout { MergesThroughout (disk_model D.seen D.calls D.may_leave D.faults)
        (disk_model D.seen D.calls D.may_leave D.faults) election.now disk.old disk.new more.old }
    ensures reads { AllZip (WritesNothing D.seen D.calls D.may_leave) more.old more.new }
    ensures told { is_some (D.seen disk.new) ≡ is_some (D.seen disk.old) }
{
    let mut scratch = Scratch::new(alloc)?;
    match merge_media::merge(alloc, disk, more, election, &mut scratch) {
        Ok(count) => Ok(count),
        Err(fault) => Err(status_of(fault)),
    }
}

/// The line that tells how many ballots the target holds.
fn line_of(alloc: Global, count: u32) -> Result<Vec<u8>, Memory>
    ensures { IfOk result (λ line. line.items ≡ merged_text count) }
{
    Ok(format!(in alloc; "merged {count}\n")?.into_bytes())
}

/// Makes a medium that of the union of its own set and those of further media, and writes `merged`, how many ballots it
/// holds then, and a line end. Nothing is written to the further media.
pub fn merge<K: Sink, D: Disk>(
    alloc: Global,
    election: &Election,
    out: &mut K,
    disk: &mut D,
    more: &mut [D],
) -> Result<(), Status>
    requires { length more.old ≤ 8 }
    ensures { MergeEnds (disk_model D.seen D.calls D.may_leave D.faults) election.now (ended result)
        (output K.taken K.faults out.old) (output K.taken K.faults out.new)
        disk.old disk.new more.old more.new }
{
    let count = united(alloc, election, disk, more)?;
    let line = line_of(alloc, count)?;
    write_out(out, &line)
}
