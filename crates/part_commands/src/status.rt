//! Why the media of the parts are not opened, and which of their disks failed, as statuses.

ghost use Rattle.part_commands.specs.Part.{disk_status, open_status};
ghost use Rattle.recovery.specs.Faults.{medium_fault};
ghost use Rattle.medium_commands.specs.Refused.{refused_status};
ghost use Rattle.std.specs.Prelude.{◌≡◌};

use partition_store::PartFault;
use recovery::MediumWhy;
use run_outcome::Status;

/// The status of a call on the disk of this part that failed.
pub(crate) fn disk_fault(part: u32) -> Status
    ensures { result ≡ disk_status part }
{
    if part == 0 {
        Status::DiskFault
    } else {
        Status::OtherDiskFault { index: part }
    }
}

/// The status of a first medium that is refused.
fn first_refused(why: MediumWhy) -> Status
    ensures { result ≡ refused_status (medium_fault why) }
{
    match why {
        MediumWhy::NoStore => Status::NoStore,
        MediumWhy::OtherElection { header } => Status::OtherElection { header },
        MediumWhy::Damaged { cell } => Status::Damaged { cell },
    }
}

/// The status of media that are not opened.
pub(crate) fn status_of(fault: PartFault) -> Status
    ensures { result ≡ open_status fault }
{
    match fault {
        PartFault::First { why } => first_refused(why),
        PartFault::Other { index, why } => Status::BadMedium { index, why },
        PartFault::Misplaced { index, number } => Status::Misplaced { index, number },
        PartFault::DiskFault { index } => disk_fault(index),
        PartFault::Memory => Status::Memory,
    }
}
