//! The bytes of the banks.
#![tactic(auto, using(ballot_record::proofs::CellFormat::largest_bank_width))]

ghost use Rattle.std.specs.Prelude.{◌≡◌, ◌↔◌, ◌+◌, ◌≤◌, ℕ, List, length, slice_range, Some, option_map, is_some, IfSome, OnOk, OnErr};
ghost use Rattle.std.specs.Option.{ForSome};
ghost use Rattle.bank_medium.specs.Banks.{bytes_of, place_of, HasMediumSize, HasOpen, LeavesUnread};
ghost use Rattle.crash_disk.specs.MadeCalls.{MakesCalls};
ghost use Rattle.store_spec.specs.Disk.{overwritten, IsTorn, IsSettled, SeenTorn, KeepsCrashImages, AddsNoCrashImage, KeepsThemInside, LeavesOnly, TearsAtMost, TearsExactly};
ghost use Rattle.store_spec.specs.Election.{bank_size};
ghost use Rattle.store_spec.specs.Fault.{CountsFault};

use crate::place::{Bank, bank_place};
use crate::settled::write_settled;
use ballot_record::Election;
use crash_disk::Disk;
use outside_io::Failed;

/// Reads the bytes of a bank from `at` on, as many as `out` has.
pub fn read_page<D: Disk>(
    disk: &mut D,
    election: &Election,
    bank: Bank,
    at: usize,
    out: &mut [u8],
) -> Result<(), Failed>
    requires size { HasMediumSize election.now (D.seen disk.old) }
    requires within { at + length out.old ≤ bank_size election.now }
    ensures read { OnOk result (IfSome (D.seen disk.old) (λ bytes.
        out.new ≡ slice_range (bytes_of election.now bank bytes) at (at + length out.old))) }
    ensures same_bytes { D.seen disk.new ≡ D.seen disk.old }
    ensures crash_images { KeepsCrashImages D.calls D.may_leave disk.old disk.new }
    ensures calls { MakesCalls D.seen D.calls D.faults D.leads_to (CountsFault result) disk.old disk.new }
    ensures fails { OnErr result (D.fails_to disk.old disk.new) }
{
    disk.read(bank_place(election, bank) + at as u64, out)
}

/// Writes bytes of a bank from `at` on. It is not settled yet, so the bank must be one that is not read.
pub fn write_page<D: Disk>(
    disk: &mut D,
    election: &Election,
    bank: Bank,
    at: usize,
    bytes: &[u8],
) -> Result<(), Failed>
    requires within { at + length bytes.now ≤ bank_size election.now }
    requires begins { ForSome (D.seen disk.old)
        (λ old. place_of election.now bank + at ≤ length old) }
    requires unread { LeavesUnread D.calls D.may_leave election.now bank disk.old }
    ensures written { OnOk result (D.seen disk.new
        ≡ option_map (overwritten (place_of election.now bank + at) bytes.now) (D.seen disk.old)) }
    ensures torn { OnErr result (SeenTorn (place_of election.now bank + at) (length bytes.now)
        (D.seen disk.old) (D.seen disk.new)) }
    ensures crash_images { TearsAtMost D.calls D.may_leave
        (place_of election.now bank + at) (length bytes.now) disk.old disk.new }
    ensures any_bytes { OnOk result (TearsExactly D.calls D.may_leave
        (place_of election.now bank + at) (length bytes.now) disk.old disk.new) }
    ensures calls { MakesCalls D.seen D.calls D.faults D.leads_to (CountsFault result) disk.old disk.new }
    ensures fails { OnErr result (D.fails_to disk.old disk.new) }
{
    disk.write_at(bank_place(election, bank) + at as u64, bytes)
}

/// Settles what was written.
pub fn settle<D: Disk>(disk: &mut D) -> Result<(), Failed>
    ensures same_bytes { OnOk result (D.seen disk.new ≡ D.seen disk.old) }
    ensures crash_images { AddsNoCrashImage D.calls D.may_leave disk.old disk.new }
    ensures inside { KeepsThemInside D.calls D.may_leave disk.old disk.new }
    ensures settled { OnOk result (IsSettled D.seen D.calls D.may_leave disk.new) }
    ensures unsettled { OnErr result (KeepsCrashImages D.calls D.may_leave disk.old disk.new) }
    ensures calls { MakesCalls D.seen D.calls D.faults D.leads_to (CountsFault result) disk.old disk.new }
    ensures fails { OnErr result (D.fails_to disk.old disk.new) }
{
    disk.sync()
}

/// Writes a whole bank whose gate is closed, and settles it. At each moment a crash leaves what was there, but for the
/// bank.
pub fn write_bank<D: Disk>(
    disk: &mut D,
    election: &Election,
    bank: Bank,
    bytes: &[u8],
) -> Result<(), Failed>
    requires settled { IsSettled D.seen D.calls D.may_leave disk.old }
    requires size { HasMediumSize election.now (D.seen disk.old) }
    requires closed { ForSome (D.seen disk.old) (λ old. ¬ HasOpen election.now bank old) }
    requires one_bank { length bytes.now ≡ bank_size election.now }
    ensures written { OnOk result (D.seen disk.new
        ≡ option_map (overwritten (place_of election.now bank) bytes.now) (D.seen disk.old)) }
    ensures settled { OnOk result (IsSettled D.seen D.calls D.may_leave disk.new) }
    ensures any_moment { (old : List ℕ) → D.seen disk.old ≡ Some old → LeavesOnly D.calls D.may_leave
        disk.old disk.new (IsTorn (place_of election.now bank) (bank_size election.now) old) }
    ensures calls { MakesCalls D.seen D.calls D.faults D.leads_to (CountsFault result) disk.old disk.new }
    ensures fails { OnErr result (D.fails_to disk.old disk.new) }
{
    write_settled(disk, bank_place(election, bank), bytes)
}
