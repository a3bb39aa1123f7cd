//! Lines, as they are read off the sheets that were pulled, compared with a sample.

ghost use Rattle.std.specs.Prelude.{◌≡◌, ◌<◌, ◌≤◌, ◌↔◌, AllPairs, Contains, IfOk, IsTrue, MatchOption, count_by, length, not, slice_index};
ghost use Rattle.body_store.specs.Contents.{ballots_of};
ghost use Rattle.ballot_record.specs.Record.{ballot};
ghost use Rattle.store_spec.specs.Ballot.{numbers_of};
ghost use Rattle.store_spec.specs.Election.{most_ballots};
ghost use Rattle.ticket_sample.specs.Compared.{IsReplyTo};
ghost use Rattle.ticket_sample.specs.Comparing.{IsLook, IsNoneOfRest, Takes, TakesOut, unset};

use ballot_record::{Election, LineFault, Record, read_line_into};
use outside_io::Memory;
use std::alloc::Global;
use std::marker::Model;

/// What is said of a line.
#[derive(Clone, Copy, Debug, PartialEq, Eq)]
pub enum CompareReply {
    /// It is no record line.
    Malformed,
    /// It is a record line, and that of no ballot of the election.
    Invalid,
    /// Its number is not in the sample.
    Outside,
    /// A line with its number was compared before.
    Repeated,
    /// Its ballot is the sample's.
    Match,
    /// The sample has another ballot of this number.
    Differs,
}

/// A sample that lines are compared with: its ballots in ascending order of number, and with which of them a line was
/// compared.
#[derive(Drop)]
pub struct Compare {
    sample: Vec<Record>,
    compared: Vec<bool>,
}

impl Model for Compare {
    ghost use Rattle.ticket_sample.specs.Comparing.{Comparison, comparison_of, IsComparing};

    ghost Value = { Comparison };

    ghost view = { comparison_of };

    ghost invariant = { IsComparing };
}

impl Compare {
    /// Compares lines with these ballots. None was compared so far.
    pub fn new(alloc: Global, sample: Vec<Record>) -> Result<Compare, Memory>
        requires ascending { AllPairs (λ a b. a.number < b.number) (ballots_of sample.items) }
        requires few { length sample.items ≤ most_ballots }
        ensures sample { IfOk result (λ compare. compare.sample ≡ ballots_of sample.items) }
        ensures rest { IfOk result (λ compare. compare.rest ≡ ballots_of sample.items) }
    {
        let compared = vec![in alloc; false; sample.len()]?;
        Ok(Compare { sample, compared })
    }

    /// Compares a line, and says what came of it. It takes no memory.
    pub fn line(&mut self, line: &[u8], election: &Election) -> CompareReply
        ensures reply { IsReplyTo election.now self.old.sample (IsNoneOfRest self.old.rest) line.now result }
        ensures sample { self.new.sample ≡ self.old.sample }
        ensures rest { Takes election.now line.now result self.old.rest self.new.rest }
    {
        let mut read = Record::blank();
        match read_line_into(line, election, &mut read) {
            Ok(()) => look(&self.sample, &mut self.compared, &read),
            Err(LineFault::Malformed) => CompareReply::Malformed,
            Err(LineFault::Invalid) => CompareReply::Invalid,
        }
    }

    /// How many ballots of the sample no line was compared with.
    pub fn missing(&self) -> u32
        ensures { result ≡ length self.now.rest }
    {
        count_unset(&self.compared) as u32
    }
}

/// How many of these flags are not set.
fn count_unset(flags: &[bool]) -> usize
    ensures { result ≡ count_by (λ flag. not flag) flags.now }
{
    flags.iter().filter(|flag| !**flag).count()
}

/// Where the ballot with this number stands. `None` where the sample has none.
fn place_of(sample: &[Record], number: u64) -> Option<usize>
    requires { AllPairs (λ a b. a.number < b.number) (ballots_of sample.now) }
    ensures { MatchOption result (¬ Contains (numbers_of (ballots_of sample.now)) number)
        (λ place. (place < length sample.now) × (slice_index (numbers_of (ballots_of sample.now)) place ≡ number)) }
{
    match sample.binary_search_by_key(&number, |record| record.number) {
        Ok(place) => Some(place),
        Err(_) => None,
    }
}

fn are_same(one: &Record, other: &Record) -> bool
    ensures { IsTrue result ↔ (ballot one.now ≡ ballot other.now) }
{
    *one == *other
}

/// What is said of a ballot that was read. One that is compared is noted.
fn look(sample: &[Record], compared: &mut Vec<bool>, read: &Record) -> CompareReply
    requires ascending { AllPairs (λ a b. a.number < b.number) (ballots_of sample.now) }
    requires flags { length compared.old.items ≡ length sample.now }
    ensures reply { IsLook (ballots_of sample.now)
        (IsNoneOfRest (unset (ballots_of sample.now) compared.old.items)) (ballot read.now) result }
    ensures rest { TakesOut (ballot read.now) result
        (unset (ballots_of sample.now) compared.old.items) (unset (ballots_of sample.now) compared.new.items) }
    ensures flags { length compared.new.items ≡ length compared.old.items }
{
    let Some(place) = place_of(sample, read.number) else {
        return CompareReply::Outside;
    };
    if compared[place] {
        return CompareReply::Repeated;
    }
    compared[place] = true;
    if are_same(&sample[place], read) {
        CompareReply::Match
    } else {
        CompareReply::Differs
    }
}
