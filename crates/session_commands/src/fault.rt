//! The faults of a session, as statuses.

ghost use Rattle.session_commands.specs.Session.{run_status};
ghost use Rattle.std.specs.Prelude.{◌≡◌};

use run_outcome::{Status, Which};
use session_run::RunFault;

/// The status of a fault of a session.
pub fn status_of(fault: RunFault) -> Status
    ensures { result ≡ run_status fault }
{
    match fault {
        RunFault::NoStore => Status::NoStore,
        RunFault::OtherElection { header } => Status::OtherElection { header },
        RunFault::Damaged { cell } => Status::Damaged { cell },
        RunFault::TooLong => Status::TooLong {
            which: Which::Script,
        },
        RunFault::ReadFault => Status::ReadFault {
            which: Which::Script,
        },
        RunFault::DiskFault => Status::DiskFault,
        RunFault::WriteFault => Status::WriteFault,
        RunFault::Memory => Status::Memory,
    }
}
