//! The gates of the banks.

ghost use Rattle.std.specs.Prelude.{◌≡◌, ◌↔◌, ◌≤◌, ℕ, List, [], ◌∷◌, length, Some, option_map, is_some, IsTrue, IfSome, IfOk, OnOk, OnErr};
ghost use Rattle.std.specs.Option.{ForSome};
ghost use Rattle.bank_medium.specs.Banks.{gate_of, HasMediumSize, HasOpen};
ghost use Rattle.bank_medium.specs.declared.place.Bank.TheVariants.{A, B};
ghost use Rattle.crash_disk.specs.MadeCalls.{MakesCalls};
ghost use Rattle.store_spec.specs.Disk.{overwritten, IsTorn, IsSettled, KeepsCrashImages, LeavesOnly};
ghost use Rattle.store_spec.specs.Fault.{CountsFault};
ghost use Rattle.store_spec.specs.Medium.{open_gate, closed_gate};

use crate::place::{Bank, gate_place};
use crate::settled::write_settled;
use ballot_record::Election;
use crash_disk::Disk;
use outside_io::Failed;

const OPEN: u8 = 0xa7;

const CLOSED: u8 = 0;

/// Which gates are open: that of bank A, and that of bank B.
pub fn gates<D: Disk>(disk: &mut D, election: &Election) -> Result<(bool, bool), Failed>
    requires { HasMediumSize election.now (D.seen disk.old) }
    ensures gate_a { IfOk result (λ which. IfSome (D.seen disk.old)
        (λ bytes. IsTrue which.0 ↔ HasOpen election.now A bytes)) }
    ensures gate_b { IfOk result (λ which. IfSome (D.seen disk.old)
        (λ bytes. IsTrue which.1 ↔ HasOpen election.now B bytes)) }
    ensures same_bytes { D.seen disk.new ≡ D.seen disk.old }
    ensures crash_images { KeepsCrashImages D.calls D.may_leave disk.old disk.new }
    ensures calls { MakesCalls D.seen D.calls D.faults D.leads_to (CountsFault result) disk.old disk.new }
    ensures fails { OnErr result (D.fails_to disk.old disk.new) }
{
    let mut gates = [0; 2];
    disk.read(gate_place(election, Bank::A), &mut gates)?;
    Ok((gates[0] == OPEN, gates[1] == OPEN))
}

/// Closes a gate, and settles it. At each moment a crash leaves what was there, but for that gate.
pub fn close_gate<D: Disk>(disk: &mut D, election: &Election, bank: Bank) -> Result<(), Failed>
    requires settled { IsSettled D.seen D.calls D.may_leave disk.old }
    requires size { HasMediumSize election.now (D.seen disk.old) }
    ensures written { OnOk result (D.seen disk.new
        ≡ option_map (overwritten (gate_of election.now bank) (closed_gate ∷ [])) (D.seen disk.old)) }
    ensures settled { OnOk result (IsSettled D.seen D.calls D.may_leave disk.new) }
    ensures any_moment { (old : List ℕ) → D.seen disk.old ≡ Some old → LeavesOnly D.calls
        D.may_leave disk.old disk.new (IsTorn (gate_of election.now bank) 1 old) }
    ensures calls { MakesCalls D.seen D.calls D.faults D.leads_to (CountsFault result) disk.old disk.new }
    ensures fails { OnErr result (D.fails_to disk.old disk.new) }
{
    write_settled(disk, gate_place(election, bank), &[CLOSED])
}

/// Opens a gate, and settles it. At each moment a crash leaves what was there, but for that gate.
pub fn open_gate<D: Disk>(disk: &mut D, election: &Election, bank: Bank) -> Result<(), Failed>
    requires settled { IsSettled D.seen D.calls D.may_leave disk.old }
    requires size { HasMediumSize election.now (D.seen disk.old) }
    ensures written { OnOk result (D.seen disk.new
        ≡ option_map (overwritten (gate_of election.now bank) (open_gate ∷ [])) (D.seen disk.old)) }
    ensures settled { OnOk result (IsSettled D.seen D.calls D.may_leave disk.new) }
    ensures any_moment { (old : List ℕ) → D.seen disk.old ≡ Some old → LeavesOnly D.calls
        D.may_leave disk.old disk.new (IsTorn (gate_of election.now bank) 1 old) }
    ensures calls { MakesCalls D.seen D.calls D.faults D.leads_to (CountsFault result) disk.old disk.new }
    ensures fails { OnErr result (D.fails_to disk.old disk.new) }
{
    write_settled(disk, gate_place(election, bank), &[OPEN])
}

/// Opens both gates by one write, and settles it. At each moment a crash leaves what was there, but for the gates.
pub fn open_both_gates<D: Disk>(disk: &mut D, election: &Election) -> Result<(), Failed>
    requires settled { IsSettled D.seen D.calls D.may_leave disk.old }
    requires banks { ForSome (D.seen disk.old) (λ old. gate_of election.now A ≤ length old) }
    ensures written { OnOk result (D.seen disk.new ≡ option_map
        (overwritten (gate_of election.now A) (open_gate ∷ open_gate ∷ [])) (D.seen disk.old)) }
    ensures settled { OnOk result (IsSettled D.seen D.calls D.may_leave disk.new) }
    ensures any_moment { (old : List ℕ) → D.seen disk.old ≡ Some old → LeavesOnly D.calls
        D.may_leave disk.old disk.new (IsTorn (gate_of election.now A) 2 old) }
    ensures calls { MakesCalls D.seen D.calls D.faults D.leads_to (CountsFault result) disk.old disk.new }
    ensures fails { OnErr result (D.fails_to disk.old disk.new) }
{
    write_settled(disk, gate_place(election, Bank::A), &[OPEN, OPEN])
}
