//! The checkpoint: a medium comes to hold another set.

ghost use Rattle.std.specs.Prelude.{◌≡◌, ◌≤◌, ◌⊎◌, ℕ, List, Some, is_some, OnOk, OnErr};
ghost use Rattle.std.specs.Option.{ForSome};
ghost use Rattle.body_store.specs.Contents.{IsStored};
ghost use Rattle.outside_io.specs.Told.{AsTold};
ghost use Rattle.crash_disk.specs.MadeCalls.{MakesCalls};
ghost use Rattle.store_spec.specs.Ballot.{Ballot};
ghost use Rattle.store_spec.specs.Disk.{IsSettled, LeavesOnly};
ghost use Rattle.store_spec.specs.Fault.{CountsFault};
ghost use Rattle.store_spec.specs.Medium.{HoldsSet, IsMediumOf};

use crate::renewal::renew_bank;
use bank_medium::Bank;
use body_store::Closed;
use crash_disk::Disk;
use image_builder::Scratch;
use outside_io::Failed;

/// Makes a medium that of a store: bank B is renewed from the store's image, and then bank A. Only pages that differ
/// are written. At each moment a crash leaves a medium that holds the old set or that of the store. After
/// `Failed` it is to be recovered.
pub fn checkpoint<D: Disk>(
    disk: &mut D,
    closed: &Closed,
    scratch: &mut Scratch,
) -> Result<(), Failed>
    requires settled { IsSettled D.seen D.calls D.may_leave disk.old }
    requires medium { ForSome (D.seen disk.old)
        (λ bytes. (old : List Ballot) × IsMediumOf closed.now.election bytes old) }
    ensures stored { OnOk result (IsStored closed.now) }
    ensures medium { OnOk result (AsTold D.seen disk.old disk.new
        (λ _ bytes. IsMediumOf closed.now.election bytes closed.now.ballots)) }
    ensures settled { OnOk result (IsSettled D.seen D.calls D.may_leave disk.new) }
    ensures any_moment { (bytes : List ℕ) (old : List Ballot) → D.seen disk.old ≡ Some bytes
        → IsMediumOf closed.now.election bytes old → LeavesOnly D.calls D.may_leave disk.old disk.new
        (λ c. HoldsSet closed.now.election c old ⊎ HoldsSet closed.now.election c closed.now.ballots) }
    ensures calls { MakesCalls D.seen D.calls D.faults D.leads_to (CountsFault result) disk.old disk.new }
    ensures fails { OnErr result (D.fails_to disk.old disk.new) }
{
    let election = closed.election();
    let made = closed.image();
    renew_bank(disk, election, Bank::B, made, &mut scratch.found)?;
    renew_bank(disk, election, Bank::A, made, &mut scratch.found)
}
