//! The command `init`: an unused disk becomes the medium of the empty set.

ghost use Rattle.medium_commands.specs.Init.{InitEnds, new_status};
ghost use Rattle.outside_io.specs.Outside.{output};
ghost use Rattle.run_outcome.specs.Status.{ended};
ghost use Rattle.std.specs.Prelude.{◌≡◌};
ghost use Rattle.store_spec.specs.Disk.{disk_model};

use ballot_record::Election;
use checkpoint::InitFault;
use crash_disk::Disk;
use outside_io::Sink;
use run_outcome::{Status, write_out};
use std::alloc::Global;

/// What is written once the medium stands.
const READY: &[u8] = b"ready\n";

fn status_of(fault: InitFault) -> Status
    ensures { result ≡ new_status fault }
{
    match fault {
        InitFault::WrongSize { size } => Status::WrongSize { size },
        InitFault::Exists => Status::Exists,
        InitFault::DiskFault => Status::DiskFault,
        InitFault::Memory => Status::Memory,
    }
}

/// Makes an unused disk the medium of the empty set, and writes `ready` and a line end.
pub fn init<K: Sink, D: Disk>(
    alloc: Global,
    election: &Election,
    out: &mut K,
    disk: &mut D,
) -> Result<(), Status>
    ensures { InitEnds (disk_model D.seen D.calls D.may_leave D.faults) election.now (ended result)
        (output K.taken K.faults out.old) (output K.taken K.faults out.new) disk.old disk.new }
{
    match checkpoint::init(alloc, disk, election) {
        Ok(()) => write_out(out, READY),
        Err(fault) => Err(status_of(fault)),
    }
}
