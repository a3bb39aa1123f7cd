//! What a disk is found to hold, and how it comes to hold another set.

ghost use Rattle.std.specs.Prelude.{◌≡◌, ◌↔◌, ◌<◌, ◌≤◌, ℕ, List, Some, is_some, IfErr, IfOk, IfSome, IsErrOf, IsTrue, OnOk};
ghost use Rattle.std.specs.Option.{ForSome};
ghost use Rattle.body_store.specs.Contents.{IsStored};
ghost use Rattle.outside_io.specs.Told.{AsTold};
ghost use Rattle.recovery.specs.ReadsOnly.{WritesNothing};
ghost use Rattle.recovery.specs.Refused.{IsRefusedMedium};
ghost use Rattle.crash_disk.specs.MadeCalls.{MakesCalls};
ghost use Rattle.store_spec.specs.Ballot.{Ballot};
ghost use Rattle.store_spec.specs.Disk.{leaves_now, IsSettled, LeavesOnly, LeavesOnlyOnceSynced, SyncsFirst};
ghost use Rattle.store_spec.specs.Fault.{last_count, CountsFault, CountsFaultIf};
ghost use Rattle.store_spec.specs.Medium.{HoldsSet, IsMediumOf, IsUnused};
ghost use Rattle.twin_media.specs.Finding.{FindRefuses, HasFound, IsFound, IsHeld, IsHeldUnder, IsUnchangedByFind};
ghost use Rattle.twin_media.specs.Pairing.{IsKeptOr};

use crate::fault::{DiskWhy, FindFault};
use ballot_record::Election;
use bank_medium::{Bank, same_bytes, settle};
use body_store::Closed;
use checkpoint::{checkpoint, fill_unused};
use crash_disk::Disk;
use image_builder::Scratch;
use outside_io::Failed;
use recovery::{RecoverFault, choose, make_canonical, read_bank};
use std::alloc::Global;

/// A store that was read from a disk, the bank that it was read from, and whether the gate of the other one is open.
#[derive(Drop)]
pub(crate) struct Held {
    pub(crate) store: Closed,
    bank: Bank,
    open_too: bool,
}

/// The store that a disk holds. It only reads.
fn read<D: Disk>(alloc: Global, disk: &mut D, election: &Election) -> Result<Held, RecoverFault>
    ensures held { IfOk result
        (λ held. IfSome (D.seen disk.old) (IsHeld election.now held)) }
    ensures store { IfOk result (IsHeldUnder election.now) }
    ensures refused { IfErr result
        (λ fault. IfSome (D.seen disk.old) (λ bytes. IsRefusedMedium election.now bytes fault)) }
    ensures reads { WritesNothing D.seen D.calls D.may_leave disk.old disk.new }
    ensures calls { MakesCalls D.seen D.calls D.faults D.leads_to (CountsFaultIf (IsErrOf result RecoverFault.DiskFault))
        disk.old disk.new }
{
    let (bank, open_too) = choose(disk, election)?;
    let store = read_bank(alloc, disk, election, bank)?;
    Ok(Held {
        store,
        bank,
        open_too,
    })
}

/// The store that a disk holds, or none where it is lost. It only reads.
fn look<D: Disk>(
    alloc: Global,
    disk: &mut D,
    election: &Election,
) -> Result<Option<Held>, FindFault>
    ensures found { IfOk result
        (λ found. IfSome (D.seen disk.old) (HasFound election.now found)) }
    ensures store { IfOk result (λ found. IfSome found (IsHeldUnder election.now)) }
    ensures refused { IfErr result (λ why. IfSome (D.seen disk.old) (FindRefuses election.now why)) }
    ensures reads { WritesNothing D.seen D.calls D.may_leave disk.old disk.new }
    ensures calls { MakesCalls D.seen D.calls D.faults D.leads_to (CountsFaultIf (IsErrOf result FindFault.DiskFault))
        disk.old disk.new }
{
    let size = disk.size()?;
    if size > election.medium_bytes() {
        let why = DiskWhy::TooLarge { size };
        return Err(FindFault::Refused { why });
    }
    let why = match read(alloc, disk, election) {
        Ok(held) => return Ok(Some(held)),
        Err(RecoverFault::NoStore) => return Ok(None),
        Err(RecoverFault::OtherElection { header }) => DiskWhy::OtherElection { header },
        Err(RecoverFault::Damaged { cell }) => DiskWhy::Damaged { cell },
        Err(RecoverFault::DiskFault) => return Err(FindFault::DiskFault),
        Err(RecoverFault::Memory) => return Err(FindFault::Memory),
    };
    Err(FindFault::Refused { why })
}

/// Syncs a disk and finds what it holds. Nothing is written.
pub(crate) fn find<D: Disk>(
    alloc: Global,
    disk: &mut D,
    election: &Election,
) -> Result<Option<Held>, FindFault>
    ensures found { IfOk result
        (λ found. IfSome (D.seen disk.old) (HasFound election.now found)) }
    ensures store { IfOk result (λ found. IfSome found (IsHeldUnder election.now)) }
    ensures same_bytes { OnOk result (D.seen disk.new ≡ D.seen disk.old) }
    ensures settled { OnOk result (IsSettled D.seen D.calls D.may_leave disk.new) }
    ensures once_synced { OnOk result ((bytes : List ℕ) → D.seen disk.old ≡ Some bytes
        → LeavesOnlyOnceSynced D.calls D.may_leave disk.old disk.new (λ image. image ≡ bytes)) }
    ensures refused { IfErr result (λ why. IfSome (D.seen disk.old) (FindRefuses election.now why)) }
    ensures unchanged { IfErr result (λ why. IsUnchangedByFind why (D.seen disk.old) (D.seen disk.new)) }
    ensures any_moment { (bytes : List ℕ) → D.seen disk.old ≡ Some bytes
        → SyncsFirst D.calls D.may_leave disk.old disk.new (λ image. image ≡ bytes) }
    ensures unharmed { (bytes : List ℕ) → D.seen disk.old ≡ Some bytes
        → LeavesOnly D.calls D.may_leave disk.old disk.new
        (leaves_now D.calls D.may_leave disk.old) }
    ensures called { D.calls disk.new < last_count → D.calls disk.old < D.calls disk.new }
    ensures calls { MakesCalls D.seen D.calls D.faults D.leads_to (CountsFaultIf (IsErrOf result FindFault.DiskFault))
        disk.old disk.new }
{
    settle(disk)?;
    look(alloc, disk, election)
}

/// Whether two stores of one election hold the same set: then their images are the same.
pub(crate) fn same_set(one: &Closed, two: &Closed) -> bool
    requires { one.now.election ≡ two.now.election }
    ensures { IsTrue result ↔ (one.now.ballots ≡ two.now.ballots) }
{
    same_bytes(one.image(), two.image())
}

/// Makes a disk the medium of the set that it was found to hold.
fn mend<D: Disk>(
    disk: &mut D,
    election: &Election,
    held: &Held,
    scratch: &mut Scratch,
) -> Result<(), Failed>
    requires store { IsHeldUnder election.now held.now }
    requires settled { IsSettled D.seen D.calls D.may_leave disk.old }
    requires held { ForSome (D.seen disk.old) (IsHeld election.now held.now) }
    ensures medium { OnOk result (AsTold D.seen disk.old disk.new
        (λ _ bytes. IsMediumOf election.now bytes held.now.store.ballots)) }
    ensures settled { OnOk result (IsSettled D.seen D.calls D.may_leave disk.new) }
    ensures any_moment { (bytes : List ℕ) → D.seen disk.old ≡ Some bytes
        → LeavesOnly D.calls D.may_leave disk.old disk.new
        (λ image. HoldsSet election.now image held.now.store.ballots) }
    ensures calls { MakesCalls D.seen D.calls D.faults D.leads_to (CountsFault result) disk.old disk.new }
{
    let made = held.store.image();
    let found = &mut scratch.found;
    make_canonical(disk, election, held.bank, held.open_too, made, found)
}

/// Makes a disk that holds a set the medium of a store: first that of its own set, and then, where it is another one,
/// of the store.
fn renew<D: Disk>(
    disk: &mut D,
    election: &Election,
    held: &Held,
    store: &Closed,
    scratch: &mut Scratch,
) -> Result<(), Failed>
    requires store { IsHeldUnder election.now held.now }
    requires own { store.now.election ≡ election.now }
    requires settled { IsSettled D.seen D.calls D.may_leave disk.old }
    requires held { ForSome (D.seen disk.old) (IsHeld election.now held.now) }
    ensures medium { OnOk result (AsTold D.seen disk.old disk.new
        (λ _ bytes. IsMediumOf election.now bytes store.now.ballots)) }
    ensures settled { OnOk result (IsSettled D.seen D.calls D.may_leave disk.new) }
    ensures any_moment { (bytes : List ℕ) → D.seen disk.old ≡ Some bytes
        → LeavesOnly D.calls D.may_leave disk.old disk.new
        (IsKeptOr election.now (λ set. set ≡ store.now.ballots) bytes) }
    ensures calls { MakesCalls D.seen D.calls D.faults D.leads_to (CountsFault result) disk.old disk.new }
{
    mend(disk, election, held, scratch)?;
    if same_set(&held.store, store) {
        return Ok(());
    }
    checkpoint(disk, store, scratch)
}

/// Makes a disk, lost or not, the medium of a store.
pub(crate) fn make<D: Disk>(
    disk: &mut D,
    election: &Election,
    found: Option<&Held>,
    store: &Closed,
    scratch: &mut Scratch,
) -> Result<(), Failed>
    requires store { IfSome found (λ held. IsHeldUnder election.now held.now) }
    requires own { store.now.election ≡ election.now }
    requires settled { IsSettled D.seen D.calls D.may_leave disk.old }
    requires found { ForSome (D.seen disk.old) (IsFound election.now found) }
    ensures medium { OnOk result (AsTold D.seen disk.old disk.new
        (λ _ bytes. IsMediumOf election.now bytes store.now.ballots)) }
    ensures settled { OnOk result (IsSettled D.seen D.calls D.may_leave disk.new) }
    ensures any_moment { (bytes : List ℕ) → D.seen disk.old ≡ Some bytes
        → LeavesOnly D.calls D.may_leave disk.old disk.new
        (IsKeptOr election.now (λ set. set ≡ store.now.ballots) bytes) }
    ensures calls { MakesCalls D.seen D.calls D.faults D.leads_to (CountsFault result) disk.old disk.new }
{
    match found {
        Some(held) => renew(disk, election, held, store, scratch),
        None => fill_unused(disk, store, election),
    }
}
