//! The audit of a medium. Nothing is written here.

ghost use Rattle.std.specs.Prelude.{◌≡◌, ◌↔◌, ◌≤◌, IsErrOf, IsTrue, IfErr, IfOk, IfSome, length};
ghost use Rattle.std.specs.Option.{ForSome};
ghost use Rattle.audit_medium.specs.Audited.{IsAudited};
ghost use Rattle.bank_medium.specs.Banks.{bank_named};
ghost use Rattle.image_builder.specs.Page.{page_size};
ghost use Rattle.recovery.specs.Canonical.{IsReadAs};
ghost use Rattle.recovery.specs.ReadsOnly.{ReadsOnly, WritesNothing};
ghost use Rattle.recovery.specs.Refused.{IsRefusedMedium};
ghost use Rattle.recovery.specs.declared.fault.RecoverFault.TheVariants.{DiskFault};
ghost use Rattle.crash_disk.specs.MadeCalls.{MakesCalls};
ghost use Rattle.store_spec.specs.Disk.{IsSettled};
ghost use Rattle.store_spec.specs.Election.{bank_size};
ghost use Rattle.store_spec.specs.Fault.{CountsFault, CountsFaultIf};
ghost use Rattle.store_spec.specs.Image.{image_of};
ghost use Rattle.store_spec.specs.Medium.{IsOpen, other_bank};

use crate::finding::Audit;
use ballot_record::Election;
use bank_medium::{Bank, bank_place, gate_place};
use body_store::Closed;
use crash_disk::Disk;
use image_builder::Scratch;
use outside_io::Failed;
use recovery::{RecoverFault, choose, first_difference, other_of, read_bank};
use std::alloc::Global;

/// Reads the store that a medium holds, and compares the medium with that of the store. It asks for the size and reads.
/// The disk need not be settled: what is told is what a read gives.
pub fn audit<D: Disk>(
    alloc: Global,
    disk: &mut D,
    election: &Election,
) -> Result<Audit, RecoverFault>
    ensures audited { IfOk result
        (λ audit. IfSome (D.seen disk.old) (λ bytes. IsAudited election.now bytes audit)) }
    ensures refused { IfErr result
        (λ fault. IfSome (D.seen disk.old) (λ bytes. IsRefusedMedium election.now bytes fault)) }
    ensures same_bytes { D.seen disk.new ≡ D.seen disk.old }
    ensures reads { WritesNothing D.seen D.calls D.may_leave disk.old disk.new }
    ensures settled { IsSettled D.seen D.calls D.may_leave disk.old
        → ReadsOnly D.seen D.calls D.may_leave disk.old disk.new }
    ensures calls { MakesCalls D.seen D.calls D.faults D.leads_to (CountsFaultIf (IsErrOf result DiskFault))
        disk.old disk.new }
{
    let (bank, open_too) = choose(disk, election)?;
    let mut scratch = Scratch::new(alloc)?;
    let closed = read_bank(alloc, disk, election, bank)?;
    Ok(compare(disk, &closed, bank, open_too, &mut scratch.found)?)
}

/// Compares the other bank and its gate with those of the medium of the store that was read from a bank. That bank and
/// its gate are as the medium has them.
#[tactic(auto, using(ballot_record::proofs::CellFormat::largest_bank_width))]
fn compare<D: Disk>(
    disk: &mut D,
    closed: &Closed,
    bank: Bank,
    open_too: bool,
    found: &mut [u8],
) -> Result<Audit, Failed>
    requires found_page { length found.old ≡ page_size }
    requires read { ForSome (D.seen disk.old)
        (λ bytes. IsReadAs closed.now.election bytes (bank_named bank) closed.now.ballots) }
    requires gate { ForSome (D.seen disk.old)
        (λ bytes. IsTrue open_too ↔ IsOpen closed.now.election (other_bank (bank_named bank)) bytes) }
    ensures audited { IfOk result
        (λ audit. IfSome (D.seen disk.old) (λ bytes. IsAudited closed.now.election bytes audit)) }
    ensures reads { WritesNothing D.seen D.calls D.may_leave disk.old disk.new }
    ensures calls { MakesCalls D.seen D.calls D.faults D.leads_to (CountsFault result) disk.old disk.new }
{
    let election = closed.election();
    let other = other_of(bank);
    let first = first_difference(disk, election, other, closed.image(), found)?;
    if let Some(at) = first {
        let place = bank_place(election, other) + at as u64;
        return Ok(Audit::Differs { place });
    }
    if open_too {
        let held = closed.len() as u32;
        return Ok(Audit::Canonical { held });
    }
    let place = gate_place(election, other);
    Ok(Audit::Differs { place })
}
