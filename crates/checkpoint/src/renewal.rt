//! The renewal of one bank, page after page.

ghost use Rattle.std.specs.Prelude.{◌≡◌, ◌+◌, ◌≤◌, ℕ, List, length, Some, option_map, is_some, OnOk, OnErr};
ghost use Rattle.std.specs.Option.{ForSome};
ghost use Rattle.bank_medium.specs.Banks.{bank_named, place_of, HasMediumSize, HasOpen, LeavesUnread};
ghost use Rattle.image_builder.specs.Page.{page_size};
ghost use Rattle.checkpoint.specs.Renewal.{IsHalfRenewed, IsRenewed};
ghost use Rattle.outside_io.specs.Told.{AsTold};
ghost use Rattle.crash_disk.specs.MadeCalls.{MakesCalls};
ghost use Rattle.store_spec.specs.Disk.{overwritten, IsTorn, IsSettled, LeavesOnly, LeavesTorn};
ghost use Rattle.store_spec.specs.Election.{bank_size};
ghost use Rattle.store_spec.specs.Fault.{CountsFault};

use ballot_record::Election;
use bank_medium::{Bank, close_gate, open_gate, read_page, same_bytes, settle, write_page};
use crash_disk::Disk;
use image_builder::PAGE_BYTES;
use outside_io::Failed;

/// Writes a page over that of a bank whose gate is closed, unless it stands there already.
fn renew_page<D: Disk>(
    disk: &mut D,
    election: &Election,
    bank: Bank,
    at: usize,
    page: &[u8],
    found: &mut [u8],
) -> Result<(), Failed>
    requires one_page { length found.old ≡ length page.now }
    requires within { at + length page.now ≤ bank_size election.now }
    requires size { HasMediumSize election.now (D.seen disk.old) }
    requires unread { LeavesUnread D.calls D.may_leave election.now bank disk.old }
    ensures written { OnOk result (D.seen disk.new
        ≡ option_map (overwritten (place_of election.now bank + at) page.now) (D.seen disk.old)) }
    ensures any_moment { (start : List ℕ)
        → LeavesTorn D.calls D.may_leave
        (place_of election.now bank) (bank_size election.now) start disk.old
        → LeavesOnly D.calls D.may_leave disk.old disk.new
        (IsTorn (place_of election.now bank) (bank_size election.now) start) }
    ensures calls { MakesCalls D.seen D.calls D.faults D.leads_to (CountsFault result) disk.old disk.new }
    ensures fails { OnErr result (D.fails_to disk.old disk.new) }
{
    read_page(disk, election, bank, at, found)?;
    if same_bytes(found, page) {
        return Ok(());
    }
    write_page(disk, election, bank, at, page)
}

/// Writes those pages of a bank whose gate is closed that differ from these bytes. They are not settled yet.
fn write_pages<D: Disk>(
    disk: &mut D,
    election: &Election,
    bank: Bank,
    made: &[u8],
    found: &mut [u8],
) -> Result<(), Failed>
    requires whole { length made.now ≡ bank_size election.now }
    requires found_page { length found.old ≡ page_size }
    requires settled { IsSettled D.seen D.calls D.may_leave disk.old }
    requires size { HasMediumSize election.now (D.seen disk.old) }
    requires closed { ForSome (D.seen disk.old) (λ old. ¬ HasOpen election.now bank old) }
    ensures written { OnOk result (D.seen disk.new
        ≡ option_map (overwritten (place_of election.now bank) made.now) (D.seen disk.old)) }
    ensures any_moment { (old : List ℕ) → D.seen disk.old ≡ Some old
        → LeavesOnly D.calls D.may_leave disk.old disk.new
        (IsTorn (place_of election.now bank) (bank_size election.now) old) }
    ensures calls { MakesCalls D.seen D.calls D.faults D.leads_to (CountsFault result) disk.old disk.new }
    ensures fails { OnErr result (D.fails_to disk.old disk.new) }
{
    let end = made.len();
    let mut at = 0;
    while at < end {
        let count = PAGE_BYTES.min(end - at);
        let page = &made[at..at + count];
        renew_page(disk, election, bank, at, page, &mut found[..count])?;
        at += count;
    }
    Ok(())
}

/// Writes these bytes over a bank whose gate is closed, settles it, and opens its gate. Only pages that differ are
/// written. At each moment a crash leaves the gate closed or the bank whole.
pub fn fill_bank<D: Disk>(
    disk: &mut D,
    election: &Election,
    bank: Bank,
    made: &[u8],
    found: &mut [u8],
) -> Result<(), Failed>
    requires whole { length made.now ≡ bank_size election.now }
    requires found_page { length found.old ≡ page_size }
    requires settled { IsSettled D.seen D.calls D.may_leave disk.old }
    requires size { HasMediumSize election.now (D.seen disk.old) }
    requires closed { ForSome (D.seen disk.old) (λ old. ¬ HasOpen election.now bank old) }
    ensures renewed { OnOk result (AsTold D.seen disk.old disk.new
        (IsRenewed election.now (bank_named bank) made.now)) }
    ensures settled { OnOk result (IsSettled D.seen D.calls D.may_leave disk.new) }
    ensures any_moment { (old : List ℕ) → D.seen disk.old ≡ Some old
        → LeavesOnly D.calls D.may_leave disk.old disk.new
        (IsHalfRenewed election.now (bank_named bank) made.now old) }
    ensures calls { MakesCalls D.seen D.calls D.faults D.leads_to (CountsFault result) disk.old disk.new }
    ensures fails { OnErr result (D.fails_to disk.old disk.new) }
{
    write_pages(disk, election, bank, made, found)?;
    settle(disk)?;
    open_gate(disk, election, bank)
}

/// Writes these bytes over a bank whose gate is open: the gate is closed first. At each moment a crash leaves the gate
/// closed, or the bank whole, as it was or as it is to be.
pub fn renew_bank<D: Disk>(
    disk: &mut D,
    election: &Election,
    bank: Bank,
    made: &[u8],
    found: &mut [u8],
) -> Result<(), Failed>
    requires whole { length made.now ≡ bank_size election.now }
    requires found_page { length found.old ≡ page_size }
    requires settled { IsSettled D.seen D.calls D.may_leave disk.old }
    requires size { HasMediumSize election.now (D.seen disk.old) }
    requires opened { ForSome (D.seen disk.old) (λ old. HasOpen election.now bank old) }
    ensures renewed { OnOk result (AsTold D.seen disk.old disk.new
        (IsRenewed election.now (bank_named bank) made.now)) }
    ensures settled { OnOk result (IsSettled D.seen D.calls D.may_leave disk.new) }
    ensures any_moment { (old : List ℕ) → D.seen disk.old ≡ Some old
        → LeavesOnly D.calls D.may_leave disk.old disk.new
        (IsHalfRenewed election.now (bank_named bank) made.now old) }
    ensures calls { MakesCalls D.seen D.calls D.faults D.leads_to (CountsFault result) disk.old disk.new }
    ensures fails { OnErr result (D.fails_to disk.old disk.new) }
{
    close_gate(disk, election, bank)?;
    fill_bank(disk, election, bank, made, found)
}
