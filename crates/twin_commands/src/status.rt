//! Why two disks are no pair, and why they ceased to be one, as statuses.

ghost use Rattle.std.specs.Prelude.{◌≡◌};
ghost use Rattle.twin_commands.specs.Twin.{first_status, pair_status, second_status};

use recovery::MediumWhy;
use run_outcome::Status;
use twin_media::{DiskWhy, PairFault};

/// The status of a first disk that is refused.
fn first_status_of(why: DiskWhy) -> Status
    ensures { result ≡ first_status why }
{
    match why {
        DiskWhy::TooLarge { size } => Status::WrongSize { size },
        DiskWhy::OtherElection { header } => Status::OtherElection { header },
        DiskWhy::Damaged { cell } => Status::Damaged { cell },
    }
}

/// The status of a second disk that is refused. It is the first further medium, and the only one.
fn second_status_of(why: DiskWhy) -> Status
    ensures { result ≡ second_status why }
{
    let why = match why {
        DiskWhy::TooLarge { size } => return Status::MediumSize { index: 1, size },
        DiskWhy::OtherElection { header } => MediumWhy::OtherElection { header },
        DiskWhy::Damaged { cell } => MediumWhy::Damaged { cell },
    };
    Status::BadMedium { index: 1, why }
}

/// The status of two disks that are no pair.
pub(crate) fn status_of(fault: PairFault) -> Status
    ensures { result ≡ pair_status fault }
{
    match fault {
        PairFault::First { why } => first_status_of(why),
        PairFault::Second { why } => second_status_of(why),
        PairFault::BothLost => Status::NoStore,
        PairFault::FirstFault => Status::DiskFault,
        PairFault::SecondFault => Status::OtherDiskFault { index: 1 },
        PairFault::Memory => Status::Memory,
    }
}
