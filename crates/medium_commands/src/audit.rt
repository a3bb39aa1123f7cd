//! The command `audit`: whether the bytes of a medium are those of the set that they hold.

ghost use Rattle.medium_commands.specs.Audit.{AuditEnds, finding_text};
ghost use Rattle.outside_io.specs.Outside.{output};
ghost use Rattle.run_outcome.specs.Status.{ended};
ghost use Rattle.std.specs.Prelude.{◌≡◌, IfOk, string_bytes};
ghost use Rattle.store_spec.specs.Disk.{disk_model};

use crate::refused::status_of;
use audit_medium::Audit;
use ballot_record::Election;
use crash_disk::Disk;
use outside_io::{Memory, Sink};
use run_outcome::{Status, write_out};
use std::alloc::Global;

/// The line that tells what was found.
fn line_of(alloc: Global, found: Audit) -> Result<String, Memory>
    ensures { IfOk result (λ line. string_bytes line ≡ finding_text found) }
{
    match found {
        Audit::Canonical { held } => Ok(format!(in alloc; "canonical {held}\n")?),
        Audit::Differs { place } => Ok(format!(in alloc; "differs {place}\n")?),
    }
}

/// Reads a medium and writes whether it is canonical, or where it differs. Nothing is written to the disk.
pub fn audit<K: Sink, D: Disk>(
    alloc: Global,
    election: &Election,
    out: &mut K,
    disk: &mut D,
) -> Result<(), Status>
    ensures { AuditEnds (disk_model D.seen D.calls D.may_leave D.faults) election.now (ended result)
        (output K.taken K.faults out.old) (output K.taken K.faults out.new) disk.old disk.new }
{
    let found = match audit_medium::audit(alloc, disk, election) {
        Ok(found) => found,
        Err(why) => return Err(status_of(why)),
    };
    let line = line_of(alloc, found)?;
    write_out(out, line.as_str().as_bytes())?;
    match found {
        Audit::Canonical { .. } => Ok(()),
        Audit::Differs { place } => Err(Status::NotCanonical { place }),
    }
}
