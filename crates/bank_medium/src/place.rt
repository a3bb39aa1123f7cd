//! Where the parts of a medium stand.
#![tactic(auto, using(ballot_record::proofs::CellFormat::largest_bank_width))]

ghost use Rattle.std.specs.Prelude.{◌≡◌, ◌+◌, ◌*◌, ◌≤◌};
ghost use Rattle.bank_medium.specs.Banks.{place_of, gate_of};
ghost use Rattle.ballot_record.specs.Format.{largest_bank};
ghost use Rattle.store_spec.specs.Election.{bank_size};

use ballot_record::Election;

/// One of the two banks.
#[derive(Clone, Copy, Debug, PartialEq, Eq)]
pub enum Bank {
    A,
    B,
}

/// The first byte of a bank.
pub fn bank_place(election: &Election, bank: Bank) -> u64
    ensures place { result ≡ place_of election.now bank }
    ensures at_most { result + bank_size election.now ≤ 2 * largest_bank }
{
    let size = election.bank_bytes() as u64;
    match bank {
        Bank::A => 0,
        Bank::B => size,
    }
}

/// The gate of a bank.
pub fn gate_place(election: &Election, bank: Bank) -> u64
    ensures { result ≡ gate_of election.now bank }
{
    let behind = 2 * election.bank_bytes() as u64;
    match bank {
        Bank::A => behind,
        Bank::B => behind + 1,
    }
}
