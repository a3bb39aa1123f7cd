//! One ballot while it is handled.

ghost use Rattle.std.specs.Prelude.{◌≡◌, ℕ, ◌+◌, ◌-◌, ◌^◌, ◌<◌, ◌≤◌, ◌↔◌, length, replicate, IsTrue, slice_index};
ghost use Rattle.store_spec.specs.Election.{choices_on};
ghost use Rattle.store_spec.specs.Ballot.{IsValid, HasMarks};
ghost use Rattle.ballot_record.specs.OnStyle.{AreOnStyle};

use crate::{Election, MAX_CONTESTS};

/// How many mark sets a record has room for, however many contests its election has.
pub const MAX_MARK_SETS: usize = MAX_CONTESTS;

/// A cast ballot: its number, its style, and its mark sets: in that of contest k bit c - 1 stands for choice c.
#[derive(Clone, Copy, Debug, PartialEq, Eq)]
pub struct Record {
    pub number: u64,
    pub style: u8,
    pub marks: [u64; MAX_MARK_SETS],
}

/// What a mark set has behind the first so many choices: 0 where it has none of those.
fn marked_behind(set: u64, choices: u8) -> u64
    requires some { 1 ≤ choices }
    requires few { choices ≤ 64 }
    ensures { result ≡ 0 ↔ set < 2 ^ choices }
{
    set >> (choices - 1) >> 1
}

/// What a mark set has that its contest, which is at a place, does not offer, where these are the contests on the style:
/// 0 where it has only what is offered. It is found without a branch, so that several are judged at once.
fn not_offered(set: u64, election: &Election, contests: u32, place: usize) -> u64
    requires known { place < length election.now.contests }
    requires within { place < MAX_CONTESTS }
    ensures { (style : ℕ) → AreOnStyle election.now style contests
        → result ≡ 0 ↔ set < 2 ^ choices_on election.now style (place + 1) }
{
    let behind = marked_behind(set, election.contest(place + 1).choices);
    if contests >> place & 1 == 1 {
        behind
    } else {
        set
    }
}

impl Record {
    ghost use Rattle.ballot_record.specs.Record.{ballot};

    /// That of no ballot: no number, no style and no marks.
    pub fn blank() -> Record
        ensures number { result.number ≡ 0 }
        ensures style { result.style ≡ 0 }
        ensures marks { result.marks ≡ replicate MAX_MARK_SETS 0 }
    {
        Record {
            number: 0,
            style: 0,
            marks: [0; MAX_MARK_SETS],
        }
    }

    /// Whether the election knows its style, and its marks are choices of contests on it. A record that marks more than
    /// a contest allows is valid: an overvote.
    pub fn valid(&self, election: &Election) -> bool
        ensures { IsTrue result ↔ IsValid election.now (ballot self.now) }
    {
        self.valid_up_to(election, MAX_MARK_SETS)
    }

    /// Whether it is valid, where no choice is marked behind so many sets.
    pub(crate) fn valid_up_to(&self, election: &Election, sets: usize) -> bool
        requires few { sets ≤ MAX_MARK_SETS }
        requires behind { (k : ℕ) → sets ≤ k → slice_index self.now.marks k ≡ 0 }
        ensures { IsTrue result ↔ IsValid election.now (ballot self.now) }
    {
        self.number != 0
            && self.style != 0
            && usize::from(self.style) <= election.styles()
            && self.has_marks(election, sets)
    }

    fn has_marks(&self, election: &Election, sets: usize) -> bool
        requires few { sets ≤ MAX_MARK_SETS }
        requires behind { (k : ℕ) → sets ≤ k → slice_index self.now.marks k ≡ 0 }
        ensures { IsTrue result ↔ HasMarks election.now self.now.style self.now.marks }
    {
        let contests = election.contests_on(self.style);
        let known = election.contests().min(sets);
        let mut marked = 0;
        'known: for place in 0..known {
            marked |= not_offered(self.marks[place], election, contests, place);
        }
        'others: for place in known..sets {
            marked |= self.marks[place];
        }
        marked == 0
    }
}
