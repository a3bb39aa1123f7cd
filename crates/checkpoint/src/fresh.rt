//! A medium of a store, or of the empty set, on a disk that holds no store yet.

ghost use Rattle.std.specs.Prelude.{◌≡◌, ◌⊎◌, ◌+◌, ◌≤◌, ◌++◌, ℕ, List, [], Some, option_map, is_some, IsErrOf, IfErr, IfSome, OnOk, length};
ghost use Rattle.std.specs.Option.{ForSome};
ghost use Rattle.bank_medium.specs.Banks.{place_of};
ghost use Rattle.checkpoint.specs.Unused.{init_fault, IsInitRefused, IsUnchangedByInit, IsUnharmedByInit, IsUntouchedOr, IsUntouchedOrNew, IsUnusedOrHolds};
ghost use Rattle.outside_io.specs.Told.{AsTold};
ghost use Rattle.crash_disk.specs.MadeCalls.{MakesCalls};
ghost use Rattle.store_spec.specs.Disk.{disk_model, leaves_now, overwritten, IsSettled, LeavesOnly, SyncsFirst};
ghost use Rattle.store_spec.specs.Fault.{CountsFault, CountsFaultIf};
ghost use Rattle.store_spec.specs.Election.{bank_size};
ghost use Rattle.store_spec.specs.Medium.{IsMediumOf, IsUnused};

use ballot_record::Election;
use bank_medium::{Bank, gates, open_both_gates, settle, write_page};
use body_store::Closed;
use crash_disk::Disk;
use image_builder::PAGE_BYTES;
use outside_io::{Failed, Memory};
use std::alloc::Global;

/// Why a disk is not filled.
#[derive(Clone, Copy, Debug, PartialEq, Eq)]
pub enum FillFault {
    /// The disk has more bytes than a medium, so many.
    WrongSize { size: u64 },
    /// The disk has as many bytes as a medium, and a gate is open.
    Exists,
    /// The disk failed.
    DiskFault,
}

impl From<Failed> for FillFault {
    ghost use Rattle.std.specs.Prelude.{◌≡◌};
    ghost use Rattle.checkpoint.specs.declared.fresh.FillFault.TheVariants as faults;

    ghost from_gives = { λ _ fault. fault ≡ faults.DiskFault };

    fn from(_: Failed) -> Self {
        FillFault::DiskFault
    }
}

/// Why no medium was made.
#[derive(Clone, Copy, Debug, PartialEq, Eq)]
pub enum InitFault {
    /// The disk has more bytes than a medium, so many.
    WrongSize { size: u64 },
    /// The disk has as many bytes as a medium, and a gate is open.
    Exists,
    /// The disk failed.
    DiskFault,
    /// There was no memory.
    Memory,
}

impl From<FillFault> for InitFault {
    ghost use Rattle.std.specs.Prelude.{◌≡◌};
    ghost use Rattle.checkpoint.specs.Unused.{init_fault};

    ghost from_gives = { λ why fault. fault ≡ init_fault why };

    fn from(why: FillFault) -> Self {
        match why {
            FillFault::WrongSize { size } => InitFault::WrongSize { size },
            FillFault::Exists => InitFault::Exists,
            FillFault::DiskFault => InitFault::DiskFault,
        }
    }
}

/// Makes an unused disk the medium of the empty set: it is filled from the store that holds nothing. Where there is no
/// memory for that store, the disk is looked at all the same.
pub fn init<D: Disk>(alloc: Global, disk: &mut D, election: &Election) -> Result<(), InitFault>
    ensures medium { OnOk result (AsTold D.seen disk.old disk.new
        (λ _ bytes. IsMediumOf election.now bytes [])) }
    ensures settled { OnOk result (IsSettled D.seen D.calls D.may_leave disk.new) }
    ensures unused { OnOk result (IfSome (D.seen disk.old) (IsUnused election.now)) }
    ensures refused { IfErr result
        (λ fault. IfSome (D.seen disk.old) (λ bytes. IsInitRefused election.now bytes fault)) }
    ensures unchanged { IfErr result
        (λ fault. IsUnchangedByInit fault (D.seen disk.old) (D.seen disk.new)) }
    ensures unharmed { IfErr result (λ fault. (bytes : List ℕ) → D.seen disk.old ≡ Some bytes
        → IsUnharmedByInit (disk_model D.seen D.calls D.may_leave D.faults) fault disk.old disk.new) }
    ensures any_moment { (bytes : List ℕ) → D.seen disk.old ≡ Some bytes
        → SyncsFirst D.calls D.may_leave disk.old disk.new (IsUntouchedOrNew election.now bytes) }
    ensures calls { MakesCalls D.seen D.calls D.faults D.leads_to (CountsFaultIf (IsErrOf result InitFault.DiskFault))
        disk.old disk.new }
{
    match Closed::empty(alloc, election) {
        Ok(closed) => Ok(fill(disk, &closed, election)?),
        Err(Memory) => {
            find_unused(disk, election)?;
            Err(InitFault::Memory)
        }
    }
}

/// Makes an unused disk the medium of a store: both banks are written and settled before the gates are opened. Until
/// the first sync has returned a crash leaves what it might have left before. From then on nothing was written yet, or
/// it leaves what is unused still or holds the set of the store.
pub fn fill<D: Disk>(disk: &mut D, closed: &Closed, election: &Election) -> Result<(), FillFault>
    requires { closed.now.election ≡ election.now }
    ensures medium { OnOk result (AsTold D.seen disk.old disk.new
        (λ _ bytes. IsMediumOf election.now bytes closed.now.ballots)) }
    ensures settled { OnOk result (IsSettled D.seen D.calls D.may_leave disk.new) }
    ensures unused { OnOk result (IfSome (D.seen disk.old) (IsUnused election.now)) }
    ensures refused { IfErr result (λ fault. IfSome (D.seen disk.old)
        (λ bytes. IsInitRefused election.now bytes (init_fault fault))) }
    ensures unchanged { IfErr result
        (λ fault. IsUnchangedByInit (init_fault fault) (D.seen disk.old) (D.seen disk.new)) }
    ensures unharmed { IfErr result (λ fault. (bytes : List ℕ) → D.seen disk.old ≡ Some bytes
        → IsUnharmedByInit (disk_model D.seen D.calls D.may_leave D.faults) (init_fault fault)
        disk.old disk.new) }
    ensures any_moment { (bytes : List ℕ) → D.seen disk.old ≡ Some bytes
        → SyncsFirst D.calls D.may_leave disk.old disk.new
        (IsUntouchedOr election.now closed.now.ballots bytes) }
    ensures calls { MakesCalls D.seen D.calls D.faults D.leads_to (CountsFaultIf (IsErrOf result FillFault.DiskFault))
        disk.old disk.new }
{
    settle(disk)?;
    look(disk, election)?;
    fill_unused(disk, closed, election)?;
    Ok(())
}

/// The same on a settled disk that is known to be unused.
pub fn fill_unused<D: Disk>(
    disk: &mut D,
    closed: &Closed,
    election: &Election,
) -> Result<(), Failed>
    requires own { closed.now.election ≡ election.now }
    requires settled { IsSettled D.seen D.calls D.may_leave disk.old }
    requires unused { ForSome (D.seen disk.old) (IsUnused election.now) }
    ensures medium { OnOk result (AsTold D.seen disk.old disk.new
        (λ _ bytes. IsMediumOf election.now bytes closed.now.ballots)) }
    ensures settled { OnOk result (IsSettled D.seen D.calls D.may_leave disk.new) }
    ensures any_moment { (bytes : List ℕ) → D.seen disk.old ≡ Some bytes
        → LeavesOnly D.calls D.may_leave disk.old disk.new
        (IsUnusedOrHolds election.now closed.now.ballots) }
    ensures calls { MakesCalls D.seen D.calls D.faults D.leads_to (CountsFault result) disk.old disk.new }
{
    write_banks(disk, election, closed.image())?;
    open_both_gates(disk, election)
}

/// Tells whether a disk is unused, and syncs it first.
fn find_unused<D: Disk>(disk: &mut D, election: &Election) -> Result<(), FillFault>
    ensures unused { OnOk result (IfSome (D.seen disk.old) (IsUnused election.now)) }
    ensures same_bytes { OnOk result (D.seen disk.new ≡ D.seen disk.old) }
    ensures refused { IfErr result (λ fault. IfSome (D.seen disk.old)
        (λ bytes. IsInitRefused election.now bytes (init_fault fault))) }
    ensures unchanged { IfErr result
        (λ fault. IsUnchangedByInit (init_fault fault) (D.seen disk.old) (D.seen disk.new)) }
    ensures unharmed { (bytes : List ℕ) → D.seen disk.old ≡ Some bytes
        → LeavesOnly D.calls D.may_leave disk.old disk.new
        (leaves_now D.calls D.may_leave disk.old) }
    ensures any_moment { (bytes : List ℕ) → D.seen disk.old ≡ Some bytes
        → SyncsFirst D.calls D.may_leave disk.old disk.new (IsUntouchedOrNew election.now bytes) }
    ensures calls { MakesCalls D.seen D.calls D.faults D.leads_to (CountsFaultIf (IsErrOf result FillFault.DiskFault))
        disk.old disk.new }
{
    settle(disk)?;
    look(disk, election)
}

/// Tells whether a disk is unused.
fn look<D: Disk>(disk: &mut D, election: &Election) -> Result<(), FillFault>
    requires { IsSettled D.seen D.calls D.may_leave disk.old }
    ensures unused { OnOk result (IfSome (D.seen disk.old) (IsUnused election.now)) }
    ensures refused { IfErr result (λ fault. IfSome (D.seen disk.old)
        (λ bytes. IsInitRefused election.now bytes (init_fault fault))) }
    ensures same_bytes { D.seen disk.new ≡ D.seen disk.old }
    ensures settled { IsSettled D.seen D.calls D.may_leave disk.new }
    ensures any_moment { (bytes : List ℕ) → D.seen disk.old ≡ Some bytes
        → LeavesOnly D.calls D.may_leave disk.old disk.new (λ c. c ≡ bytes) }
    ensures calls { MakesCalls D.seen D.calls D.faults D.leads_to (CountsFaultIf (IsErrOf result FillFault.DiskFault))
        disk.old disk.new }
{
    let size = disk.size()?;
    if size > election.medium_bytes() {
        return Err(FillFault::WrongSize { size });
    }
    if size < election.medium_bytes() {
        return Ok(());
    }
    match gates(disk, election)? {
        (false, false) => Ok(()),
        _ => Err(FillFault::Exists),
    }
}

/// Writes these bytes as both banks of an unused disk, and settles them.
fn write_banks<D: Disk>(disk: &mut D, election: &Election, made: &[u8]) -> Result<(), Failed>
    requires whole { length made.now ≡ bank_size election.now }
    requires settled { IsSettled D.seen D.calls D.may_leave disk.old }
    requires unused { ForSome (D.seen disk.old) (IsUnused election.now) }
    ensures written { OnOk result (D.seen disk.new
        ≡ option_map (overwritten 0 (made.now ++ made.now)) (D.seen disk.old)) }
    ensures settled { OnOk result (IsSettled D.seen D.calls D.may_leave disk.new) }
    ensures any_moment { LeavesOnly D.calls D.may_leave disk.old disk.new (IsUnused election.now) }
    ensures calls { MakesCalls D.seen D.calls D.faults D.leads_to (CountsFault result) disk.old disk.new }
{
    write_each_page(disk, election, Bank::A, made)?;
    write_each_page(disk, election, Bank::B, made)?;
    settle(disk)
}

/// Writes these bytes as a bank of an unused disk, page after page, in ascending order. They are not settled yet.
fn write_each_page<D: Disk>(
    disk: &mut D,
    election: &Election,
    bank: Bank,
    made: &[u8],
) -> Result<(), Failed>
    requires whole { length made.now ≡ bank_size election.now }
    requires begins { ForSome (D.seen disk.old) (λ old. place_of election.now bank ≤ length old) }
    requires unused { (c : List ℕ) → leaves_now D.calls D.may_leave disk.old c
        → IsUnused election.now c }
    ensures written { OnOk result (D.seen disk.new
        ≡ option_map (overwritten (place_of election.now bank) made.now) (D.seen disk.old)) }
    ensures any_moment { LeavesOnly D.calls D.may_leave disk.old disk.new (IsUnused election.now) }
    ensures calls { MakesCalls D.seen D.calls D.faults D.leads_to (CountsFault result) disk.old disk.new }
{
    let end = made.len();
    let mut at = 0;
    while at < end {
        let count = PAGE_BYTES.min(end - at);
        write_page(disk, election, bank, at, &made[at..at + count])?;
        at += count;
    }
    Ok(())
}
