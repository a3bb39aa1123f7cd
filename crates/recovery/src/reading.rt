//! What a medium is found to hold. Nothing is written here.

ghost use Rattle.std.specs.Prelude.{◌≡◌, ◌≢◌, ◌↔◌, ◌+◌, ◌<◌, ◌≤◌, ◌++◌, ℕ, List, length, slice_range, IsErrOf, IsTrue, IfErr, IfOk, IfSome, OnOk, []};
ghost use Rattle.std.specs.Option.{ForSome};
ghost use Rattle.bank_medium.specs.Banks.{bank_named, bytes_of, HasMediumSize};
ghost use Rattle.body_store.specs.Contents.{IsStored};
ghost use Rattle.image_builder.specs.Cells.{AreJudged};
ghost use Rattle.image_builder.specs.Page.{page_size};
ghost use Rattle.recovery.specs.Canonical.{IsChoice, IsReadAs, IsReadFrom};
ghost use Rattle.recovery.specs.Differing.{IsFirstDifference};
ghost use Rattle.recovery.specs.ReadsOnly.{WritesNothing};
ghost use Rattle.recovery.specs.Refused.{IsRefusedMedium};
ghost use Rattle.crash_disk.specs.MadeCalls.{MakesCalls};
ghost use Rattle.store_spec.specs.Disk.{KeepsCrashImages};
ghost use Rattle.store_spec.specs.Election.{IsElection, bank_size};
ghost use Rattle.store_spec.specs.Fault.{CountsFault, CountsFaultIf};
ghost use Rattle.store_spec.specs.Medium.{HoldsSet};

use crate::fault::RecoverFault;
use ballot_record::Election;
use bank_medium::{Bank, gates, read_page, same_bytes};
use body_store::{Closed, lengthen};
use crash_disk::Disk;
use image_builder::{CellsRead, PAGE_BYTES};
use outside_io::{Failed, Memory};
use std::alloc::Global;

/// The store that the bytes read now hold. It asks for the size and reads: it neither writes nor syncs, so the disk need
/// not be settled, and at each moment a crash leaves what it might have left at the start, whatever is answered.
pub fn look<D: Disk>(
    alloc: Global,
    disk: &mut D,
    election: &Election,
) -> Result<Closed, RecoverFault>
    ensures held { IfOk result (λ store. IfSome (D.seen disk.old)
        (λ bytes. HoldsSet election.now bytes store.ballots)) }
    ensures election { IfOk result (λ store. store.election ≡ election.now) }
    ensures stored { IfOk result IsStored }
    ensures refused { IfErr result
        (λ fault. IfSome (D.seen disk.old) (λ bytes. IsRefusedMedium election.now bytes fault)) }
    ensures reads { WritesNothing D.seen D.calls D.may_leave disk.old disk.new }
    ensures calls { MakesCalls D.seen D.calls D.faults D.leads_to (CountsFaultIf (IsErrOf result RecoverFault.DiskFault))
        disk.old disk.new }
{
    let (bank, _) = choose(disk, election)?;
    read_bank(alloc, disk, election, bank)
}

/// The bank that is read, and whether the gate of the other one is open. It takes no memory.
pub fn choose<D: Disk>(disk: &mut D, election: &Election) -> Result<(Bank, bool), RecoverFault>
    ensures chosen { IfOk result (λ choice. IfSome (D.seen disk.old)
        (λ bytes. IsChoice election.now bytes (bank_named choice.0) choice.1)) }
    ensures refused { IfErr result
        (λ fault. IfSome (D.seen disk.old) (λ bytes. IsRefusedMedium election.now bytes fault)) }
    ensures no_memory { IfErr result (λ fault. fault ≢ RecoverFault.Memory) }
    ensures reads { WritesNothing D.seen D.calls D.may_leave disk.old disk.new }
    ensures calls { MakesCalls D.seen D.calls D.faults D.leads_to (CountsFaultIf (IsErrOf result RecoverFault.DiskFault))
        disk.old disk.new }
{
    if disk.size()? != election.medium_bytes() {
        return Err(RecoverFault::NoStore);
    }
    match gates(disk, election)? {
        (true, open) => Ok((Bank::A, open)),
        (false, true) => Ok((Bank::B, false)),
        (false, false) => Err(RecoverFault::NoStore),
    }
}

/// The store whose image the bank that is read is. Each page is judged where it stands, in the bytes that become the
/// store's.
pub fn read_bank<D: Disk>(
    alloc: Global,
    disk: &mut D,
    election: &Election,
    bank: Bank,
) -> Result<Closed, RecoverFault>
    requires from { ForSome (D.seen disk.old)
        (λ bytes. IsReadFrom election.now bytes (bank_named bank)) }
    ensures read { IfOk result (λ store. IfSome (D.seen disk.old)
        (λ bytes. IsReadAs election.now bytes (bank_named bank) store.ballots)) }
    ensures election { IfOk result (λ store. store.election ≡ election.now) }
    ensures stored { IfOk result IsStored }
    ensures refused { IfErr result
        (λ fault. IfSome (D.seen disk.old) (λ bytes. IsRefusedMedium election.now bytes fault)) }
    ensures reads { WritesNothing D.seen D.calls D.may_leave disk.old disk.new }
    ensures calls { MakesCalls D.seen D.calls D.faults D.leads_to (CountsFaultIf (IsErrOf result RecoverFault.DiskFault))
        disk.old disk.new }
{
    let mut cells = CellsRead::new(alloc, election)?;
    let mut made = zeros(alloc, election)?;
    read_pages(disk, election, bank, &mut cells, &mut made)?;
    Ok(cells.into_store(alloc, made, election)?)
}

/// Reads a bank page after page into these bytes, and judges each page where it stands.
fn read_pages<D: Disk>(
    disk: &mut D,
    election: &Election,
    bank: Bank,
    cells: &mut CellsRead,
    made: &mut [u8],
) -> Result<(), RecoverFault>
    requires election { IsElection election.now }
    requires none { AreJudged election.now cells.old [] }
    requires whole { length made.old ≡ bank_size election.now }
    requires from { ForSome (D.seen disk.old)
        (λ bytes. IsReadFrom election.now bytes (bank_named bank)) }
    ensures judged { OnOk result (AreJudged election.now cells.new made.new) }
    ensures read { OnOk result (IfSome (D.seen disk.old)
        (λ bytes. made.new ≡ bytes_of election.now bank bytes)) }
    ensures refused { IfErr result
        (λ fault. IfSome (D.seen disk.old) (λ bytes. IsRefusedMedium election.now bytes fault)) }
    ensures reads { WritesNothing D.seen D.calls D.may_leave disk.old disk.new }
    ensures calls { MakesCalls D.seen D.calls D.faults D.leads_to (CountsFaultIf (IsErrOf result RecoverFault.DiskFault))
        disk.old disk.new }
{
    let end = made.len();
    let mut at = 0;
    while at < end {
        let count = PAGE_BYTES.min(end - at);
        read_page(disk, election, bank, at, &mut made[at..at + count])?;
        cells.judge(&made[..at + count], election)?;
        at += count;
    }
    Ok(())
}

/// As many zeros as a bank has bytes.
fn zeros(alloc: Global, election: &Election) -> Result<Vec<u8>, Memory>
    ensures { IfOk result (λ bytes. length bytes.items ≡ bank_size election.now) }
{
    let size = election.bank_bytes();
    let mut bytes = Vec::with_capacity(alloc, size)?;
    lengthen(&mut bytes, size)?;
    Ok(bytes)
}

/// The first of these bytes, counted from 0, that a bank has not. It reads up to the page where that byte stands.
pub fn first_difference<D: Disk>(
    disk: &mut D,
    election: &Election,
    bank: Bank,
    made: &[u8],
    found: &mut [u8],
) -> Result<Option<usize>, Failed>
    requires whole { length made.now ≡ bank_size election.now }
    requires found_page { length found.old ≡ page_size }
    requires size { HasMediumSize election.now (D.seen disk.old) }
    ensures difference { IfOk result (λ first. IfSome (D.seen disk.old)
        (λ bytes. IsFirstDifference (bytes_of election.now bank bytes) made.now first)) }
    ensures within { IfOk result (λ first. IfSome first (λ at. at < bank_size election.now)) }
    ensures reads { WritesNothing D.seen D.calls D.may_leave disk.old disk.new }
    ensures calls { MakesCalls D.seen D.calls D.faults D.leads_to (CountsFault result) disk.old disk.new }
{
    let end = made.len();
    let mut at = 0;
    while at < end {
        let count = PAGE_BYTES.min(end - at);
        let page = &made[at..at + count];
        let found = &mut found[..count];
        if let Some(place) = page_difference(disk, election, bank, at, page, found)? {
            return Ok(Some(at + place));
        }
        at += count;
    }
    Ok(None)
}

/// Whether a bank has these bytes.
pub(crate) fn has_bytes<D: Disk>(
    disk: &mut D,
    election: &Election,
    bank: Bank,
    made: &[u8],
    found: &mut [u8],
) -> Result<bool, Failed>
    requires whole { length made.now ≡ bank_size election.now }
    requires found_page { length found.old ≡ page_size }
    requires size { HasMediumSize election.now (D.seen disk.old) }
    ensures bytes { IfOk result (λ same. IfSome (D.seen disk.old)
        (λ bytes. IsTrue same ↔ (bytes_of election.now bank bytes ≡ made.now))) }
    ensures reads { WritesNothing D.seen D.calls D.may_leave disk.old disk.new }
    ensures calls { MakesCalls D.seen D.calls D.faults D.leads_to (CountsFault result) disk.old disk.new }
{
    Ok(first_difference(disk, election, bank, made, found)?.is_none())
}

/// The first byte of a page, counted from that of the page, that a bank has not.
fn page_difference<D: Disk>(
    disk: &mut D,
    election: &Election,
    bank: Bank,
    at: usize,
    page: &[u8],
    found: &mut [u8],
) -> Result<Option<usize>, Failed>
    requires one_page { length found.old ≡ length page.now }
    requires within { at + length page.now ≤ bank_size election.now }
    requires size { HasMediumSize election.now (D.seen disk.old) }
    ensures difference { IfOk result (λ first. IfSome (D.seen disk.old) (λ bytes. IsFirstDifference
        (slice_range (bytes_of election.now bank bytes) at (at + length page.now)) page.now first)) }
    ensures within { IfOk result (λ first. IfSome first (λ place. place < length page.now)) }
    ensures same_bytes { D.seen disk.new ≡ D.seen disk.old }
    ensures crash_images { KeepsCrashImages D.calls D.may_leave disk.old disk.new }
    ensures calls { MakesCalls D.seen D.calls D.faults D.leads_to (CountsFault result) disk.old disk.new }
{
    read_page(disk, election, bank, at, found)?;
    Ok(first_differing(found, page))
}

/// The first place at which two pages differ. Most are the same, and are compared many bytes at a time.
fn first_differing(found: &[u8], page: &[u8]) -> Option<usize>
    requires { length found.now ≡ length page.now }
    ensures difference { IsFirstDifference found.now page.now result }
    ensures within { IfSome result (λ place. place < length page.now) }
{
    if same_bytes(found, page) {
        return None;
    }
    for (place, byte) in found.iter().enumerate() {
        if *byte != page[place] {
            return Some(place);
        }
    }
    None
}
