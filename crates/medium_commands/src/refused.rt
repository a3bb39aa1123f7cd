//! Why a medium is refused, as a status.

ghost use Rattle.medium_commands.specs.Refused.{refused_status};
ghost use Rattle.std.specs.Prelude.{◌≡◌};

use recovery::RecoverFault;
use run_outcome::Status;

/// The status of a medium that is refused.
pub fn status_of(why: RecoverFault) -> Status
    ensures { result ≡ refused_status why }
{
    match why {
        RecoverFault::NoStore => Status::NoStore,
        RecoverFault::OtherElection { header } => Status::OtherElection { header },
        RecoverFault::Damaged { cell } => Status::Damaged { cell },
        RecoverFault::DiskFault => Status::DiskFault,
        RecoverFault::Memory => Status::Memory,
    }
}
