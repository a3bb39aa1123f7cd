//! The sample of the ballots that a medium holds, which is read and not written.

ghost use Rattle.std.specs.Prelude.{◌≡◌, ◌≤◌, IfErr, IfOk, List, OnOk};
ghost use Rattle.body_store.specs.Contents.{ballots_of};
ghost use Rattle.recovery.specs.ReadsOnly.{WritesNothing};
ghost use Rattle.sample_commands.specs.Looked.{ShowsNone, ShowsSet};
ghost use Rattle.sample_commands.specs.Sample.{asked_sample};
ghost use Rattle.store_spec.specs.Ballot.{Ballot};
ghost use Rattle.store_spec.specs.Disk.{disk_model};

use crate::asked::Asked;
use ballot_record::{Election, Record};
use crash_disk::Disk;
use medium_commands::refused::status_of;
use recovery::look;
use run_outcome::Status;
use std::alloc::Global;

/// The sample that is asked for.
pub fn drawn<D: Disk>(
    alloc: Global,
    election: &Election,
    asked: &Asked,
    disk: &mut D,
) -> Result<Vec<Record>, Status>
    ensures drawn { IfOk result (λ records. (set : List Ballot)
        × ShowsSet (disk_model D.seen D.calls D.may_leave D.faults) election.now set disk.old disk.new
        × (ballots_of records.items ≡ asked_sample asked.now set)) }
    ensures refused { IfErr result (λ status.
        ShowsNone (disk_model D.seen D.calls D.may_leave D.faults) election.now status disk.old disk.new) }
    ensures reads { WritesNothing D.seen D.calls D.may_leave disk.old disk.new }
{
    let store = match look(alloc, disk, election) {
        Ok(store) => store,
        Err(why) => return Err(status_of(why)),
    };
    Ok(ticket_sample::sample(alloc, &store, asked.dice(), asked.count)?)
}
