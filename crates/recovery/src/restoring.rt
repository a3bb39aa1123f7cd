//! Recovery.

ghost use Rattle.std.specs.Prelude.{◌≡◌, ◌<◌, ◌≤◌, ◌↔◌, ℕ, List, length, Some, is_some, IsErrOf, IsTrue, IfErr, IfOk, IfSome, OnOk};
ghost use Rattle.std.specs.Option.{ForSome};
ghost use Rattle.bank_medium.specs.Banks.{bank_named, bytes_of};
ghost use Rattle.body_store.specs.Contents.{IsStored};
ghost use Rattle.outside_io.specs.Told.{AsTold};
ghost use Rattle.image_builder.specs.Page.{page_size};
ghost use Rattle.recovery.specs.Canonical.{IsReadFrom};
ghost use Rattle.recovery.specs.ReadsOnly.{ReadsOnly};
ghost use Rattle.recovery.specs.Refused.{IsRefusedMedium, IsUnchangedAt, IsUnharmedAt};
ghost use Rattle.crash_disk.specs.MadeCalls.{MakesCalls};
ghost use Rattle.store_spec.specs.Ballot.{Ballot};
ghost use Rattle.store_spec.specs.Disk.{disk_model, IsSettled, LeavesOnly, LeavesOnlyOnceSynced, SyncsFirst};
ghost use Rattle.store_spec.specs.Election.{IsElection, bank_size};
ghost use Rattle.store_spec.specs.Fault.{last_count, CountsFault, CountsFaultIf};
ghost use Rattle.store_spec.specs.Image.{IsImageOf};
ghost use Rattle.store_spec.specs.Medium.{HoldsSet, HoldsTheSame, IsMediumOf, IsOpen, other_bank};

use crate::fault::RecoverFault;
use crate::reading::{choose, has_bytes, read_bank};
use ballot_record::Election;
use bank_medium::{Bank, settle};
use body_store::Closed;
use checkpoint::{fill_bank, renew_bank};
use crash_disk::Disk;
use image_builder::Scratch;
use outside_io::Failed;
use std::alloc::Global;

/// Reads the store that a medium holds, and makes the medium that of the store. Nothing is written before the bank that
/// is read was read whole. It syncs first: until that sync has returned a crash leaves what it might have left before,
/// and from then on what holds the same as the bytes read. Where that sync fails, nothing is written.
pub fn recover<D: Disk>(
    alloc: Global,
    disk: &mut D,
    election: &Election,
    scratch: &mut Scratch,
) -> Result<Closed, RecoverFault>
    ensures held { IfOk result (λ store. IfSome (D.seen disk.old)
        (λ bytes. HoldsSet election.now bytes store.ballots)) }
    ensures election { IfOk result (λ store. store.election ≡ election.now) }
    ensures stored { IfOk result IsStored }
    ensures medium { IfOk result (λ store. AsTold D.seen disk.old disk.new
        (λ _ bytes. IsMediumOf election.now bytes store.ballots)) }
    ensures settled { OnOk result (IsSettled D.seen D.calls D.may_leave disk.new) }
    ensures refused { IfErr result
        (λ fault. IfSome (D.seen disk.old) (λ bytes. IsRefusedMedium election.now bytes fault)) }
    ensures unchanged { IfErr result
        (λ fault. IsUnchangedAt fault (D.seen disk.old) (D.seen disk.new)) }
    ensures unharmed { IfErr result (λ fault. (bytes : List ℕ) → D.seen disk.old ≡ Some bytes
        → IsUnharmedAt (disk_model D.seen D.calls D.may_leave D.faults) election.now bytes fault
        disk.old disk.new) }
    ensures any_moment { (bytes : List ℕ) → D.seen disk.old ≡ Some bytes
        → SyncsFirst D.calls D.may_leave disk.old disk.new (HoldsTheSame election.now bytes) }
    ensures once_synced { OnOk result ((bytes : List ℕ) → D.seen disk.old ≡ Some bytes
        → LeavesOnlyOnceSynced D.calls D.may_leave disk.old disk.new
        (HoldsTheSame election.now bytes)) }

    // On a settled disk that holds the medium of a set nothing is written.
    ensures canonical { (bytes : List ℕ) (set : List Ballot)
        → IsSettled D.seen D.calls D.may_leave disk.old → D.seen disk.old ≡ Some bytes
        → IsMediumOf election.now bytes set
        → ReadsOnly D.seen D.calls D.may_leave disk.old disk.new }
    ensures called { D.calls disk.new < last_count → D.calls disk.old < D.calls disk.new }
    ensures calls { MakesCalls D.seen D.calls D.faults D.leads_to (CountsFaultIf (IsErrOf result RecoverFault.DiskFault))
        disk.old disk.new }
{
    settle(disk)?;
    restore(alloc, disk, election, scratch)
}

/// The same on a settled disk.
fn restore<D: Disk>(
    alloc: Global,
    disk: &mut D,
    election: &Election,
    scratch: &mut Scratch,
) -> Result<Closed, RecoverFault>
    requires { IsSettled D.seen D.calls D.may_leave disk.old }
    ensures settled { OnOk result (IsSettled D.seen D.calls D.may_leave disk.new) }
    ensures held { IfOk result (λ store. IfSome (D.seen disk.old)
        (λ bytes. HoldsSet election.now bytes store.ballots)) }
    ensures election { IfOk result (λ store. store.election ≡ election.now) }
    ensures stored { IfOk result IsStored }
    ensures medium { IfOk result (λ store. AsTold D.seen disk.old disk.new
        (λ _ bytes. IsMediumOf election.now bytes store.ballots)) }
    ensures refused { IfErr result
        (λ fault. IfSome (D.seen disk.old) (λ bytes. IsRefusedMedium election.now bytes fault)) }
    ensures unchanged { IfErr result
        (λ fault. IsUnchangedAt fault (D.seen disk.old) (D.seen disk.new)) }
    ensures unharmed { IfErr result (λ fault. (bytes : List ℕ) → D.seen disk.old ≡ Some bytes
        → IsUnharmedAt (disk_model D.seen D.calls D.may_leave D.faults) election.now bytes fault
        disk.old disk.new) }
    ensures any_moment { (bytes : List ℕ) → D.seen disk.old ≡ Some bytes
        → LeavesOnly D.calls D.may_leave disk.old disk.new (HoldsTheSame election.now bytes) }
    ensures canonical { (bytes : List ℕ) (set : List Ballot) → D.seen disk.old ≡ Some bytes
        → IsMediumOf election.now bytes set
        → ReadsOnly D.seen D.calls D.may_leave disk.old disk.new }
    ensures calls { MakesCalls D.seen D.calls D.faults D.leads_to (CountsFaultIf (IsErrOf result RecoverFault.DiskFault))
        disk.old disk.new }
{
    let (bank, open_too) = choose(disk, election)?;
    let closed = read_bank(alloc, disk, election, bank)?;
    make_canonical(
        disk,
        election,
        bank,
        open_too,
        closed.image(),
        &mut scratch.found,
    )?;
    Ok(closed)
}

/// Makes the other bank and its gate agree with the bank that was read, which has these bytes. At each moment a crash
/// leaves what holds the same set.
pub fn make_canonical<D: Disk>(
    disk: &mut D,
    election: &Election,
    bank: Bank,
    open_too: bool,
    made: &[u8],
    found: &mut [u8],
) -> Result<(), Failed>
    requires election { IsElection election.now }
    requires whole { length made.now ≡ bank_size election.now }
    requires found_page { length found.old ≡ page_size }
    requires settled { IsSettled D.seen D.calls D.may_leave disk.old }
    requires read { ForSome (D.seen disk.old)
        (λ bytes. IsReadFrom election.now bytes (bank_named bank)) }
    requires bytes { ForSome (D.seen disk.old)
        (λ bytes. bytes_of election.now bank bytes ≡ made.now) }
    requires gate { ForSome (D.seen disk.old)
        (λ bytes. IsTrue open_too ↔ IsOpen election.now (other_bank (bank_named bank)) bytes) }
    ensures medium { (set : List Ballot) → IsImageOf election.now made.now set
        → OnOk result (AsTold D.seen disk.old disk.new
        (λ _ bytes. IsMediumOf election.now bytes set)) }
    ensures settled { OnOk result (IsSettled D.seen D.calls D.may_leave disk.new) }
    ensures any_moment { (bytes : List ℕ) (set : List Ballot) → D.seen disk.old ≡ Some bytes
        → IsImageOf election.now made.now set
        → LeavesOnly D.calls D.may_leave disk.old disk.new (λ c. HoldsSet election.now c set) }
    ensures canonical { (bytes : List ℕ) (set : List Ballot) → D.seen disk.old ≡ Some bytes
        → IsMediumOf election.now bytes set
        → ReadsOnly D.seen D.calls D.may_leave disk.old disk.new }
    ensures calls { MakesCalls D.seen D.calls D.faults D.leads_to (CountsFault result) disk.old disk.new }
{
    let other = other_of(bank);
    if !open_too {
        return fill_bank(disk, election, other, made, found);
    }
    if has_bytes(disk, election, other, made, found)? {
        return Ok(());
    }
    renew_bank(disk, election, other, made, found)
}

/// The other bank.
pub fn other_of(bank: Bank) -> Bank
    ensures { bank_named result ≡ other_bank (bank_named bank) }
{
    match bank {
        Bank::A => Bank::B,
        Bank::B => Bank::A,
    }
}
