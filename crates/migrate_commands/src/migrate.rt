//! The command `migrate`: an unused medium becomes that of version 2 with the ballots of an old one.

ghost use Rattle.migrate_commands.specs.Migrate.{FillsTarget, IsMigrated, MigrateEnds, MigratesNone, migrate_status, migrated_text};
ghost use Rattle.outside_io.specs.Outside.{output};
ghost use Rattle.recovery.specs.ReadsOnly.{WritesNothing};
ghost use Rattle.run_outcome.specs.Row.{OfOne};
ghost use Rattle.run_outcome.specs.Status.{ended};
ghost use Rattle.std.specs.Prelude.{◌≡◌, IfErr, IfOk, is_some, length};
ghost use Rattle.store_spec.specs.Disk.{disk_model};

use ballot_record::Election;
use crash_disk::Disk;
use medium_commands::refused;
use migrate_medium::MigrateFault;
use outside_io::{Memory, Sink};
use run_outcome::{Status, write_out};
use std::alloc::Global;

/// The status of a target that was not filled. It is the first further medium, and the only one.
fn status_of(fault: MigrateFault) -> Status
    ensures { result ≡ migrate_status fault }
{
    match fault {
        MigrateFault::NoOldForm => Status::NoOldForm,
        MigrateFault::Old { why } => refused::status_of(why),
        MigrateFault::ToSize { size } => Status::MediumSize { index: 1, size },
        MigrateFault::ToInUse => Status::MediumInUse { index: 1 },
        MigrateFault::ToFault => Status::OtherDiskFault { index: 1 },
        MigrateFault::Memory => Status::Memory,
    }
}

/// Fills the target, and answers how many ballots it holds then.
fn filled<D: Disk>(
    alloc: Global,
    election: &Election,
    disk: &mut D,
    target: &mut D,
) -> Result<u32, Status>
    ensures migrated { IfOk result (IsMigrated (disk_model D.seen D.calls D.may_leave D.faults)
        election.now disk.old disk.new target.old target.new) }
    ensures refused { IfErr result (MigratesNone (disk_model D.seen D.calls D.may_leave D.faults)
        election.now disk.old disk.new target.old target.new) }
    ensures crashes { FillsTarget (disk_model D.seen D.calls D.may_leave D.faults)
        election.now disk.old target.old target.new }
    ensures reads { WritesNothing D.seen D.calls D.may_leave disk.old disk.new }
    ensures told { is_some (D.seen target.new) ≡ is_some (D.seen target.old) }
{
    match migrate_medium::migrate(alloc, disk, target, election) {
        Ok(count) => Ok(count),
        Err(fault) => Err(status_of(fault)),
    }
}

/// The line that tells how many ballots the target holds.
fn line_of(alloc: Global, count: u32) -> Result<Vec<u8>, Memory>
    ensures { IfOk result (λ line. line.items ≡ migrated_text count) }
{
    Ok(format!(in alloc; "migrated {count}\n")?.into_bytes())
}

/// The command on one target.
fn migrate_into<K: Sink, D: Disk>(
    alloc: Global,
    election: &Election,
    out: &mut K,
    disk: &mut D,
    target: &mut D,
) -> Result<(), Status>
    ensures { MigrateEnds (disk_model D.seen D.calls D.may_leave D.faults) election.now (ended result)
        (output K.taken K.faults out.old) (output K.taken K.faults out.new)
        disk.old disk.new target.old target.new }
{
    let count = filled(alloc, election, disk, target)?;
    let line = line_of(alloc, count)?;
    write_out(out, &line)
}

/// Makes the only further medium, unless it is in use, that of the ballots that the medium holds in version 1, under the
/// election, which is of version 2. Then writes `migrated`, how many ballots they are, and a line end. Nothing is written
/// to the old medium.
pub fn migrate<K: Sink, D: Disk>(
    alloc: Global,
    election: &Election,
    out: &mut K,
    disk: &mut D,
    more: &mut [D],
) -> Result<(), Status>
    requires { length more.old ≡ 1 }
    ensures { OfOne (MigrateEnds (disk_model D.seen D.calls D.may_leave D.faults) election.now (ended result)
        (output K.taken K.faults out.old) (output K.taken K.faults out.new)
        disk.old disk.new) more.old more.new }
{
    migrate_into(alloc, election, out, disk, &mut more[0])
}
