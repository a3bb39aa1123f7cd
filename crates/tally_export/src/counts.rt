//! The counts of a tally.

ghost use Rattle.std.specs.Prelude.{◌≡◌, ℕ, ◌+◌, ◌^◌, ◌<◌, ◌≤◌, length, slice_index};
ghost use Rattle.std.specs.Int.{bit_at};

use ballot_record::{MAX_CHOICES, MAX_CONTESTS};

/// The most choices of a contest.
pub const CHOICES: usize = MAX_CHOICES as usize;

/// What the ballots of a store add up to. Choice c + 1 of contest k + 1 stands at place c of place k, and 0 stands
/// where the election has no such choice.
#[derive(Clone, Copy, Debug, PartialEq, Eq)]
pub struct Tally {
    /// How many ballots mark each choice, without those that mark more choices of its contest than it allows.
    pub choices: [[u64; CHOICES]; MAX_CONTESTS],
    /// How many marks fewer than each contest allows its ballots have.
    pub under: [u64; MAX_CONTESTS],
    /// How many ballots mark more choices than each contest allows.
    pub over: [u64; MAX_CONTESTS],
}

/// Counts one choice, the only mark of its set.
fn add_choice(counts: &mut [u64], choice: usize)
    requires each { length counts.old ≡ CHOICES }
    requires known { choice < CHOICES }
    requires room { slice_index counts.old choice ≤ 2 ^ 63 }
    ensures { (c : ℕ) → c < length counts.old
        → slice_index counts.new c ≡ slice_index counts.old c + bit_at (2 ^ choice) c }
{
    counts[choice] += 1;
}

/// Counts each choice of a mark set, in one step a mark.
fn add_choices(counts: &mut [u64], set: u64)
    requires each { length counts.old ≡ CHOICES }
    requires room { (c : ℕ) → c < length counts.old → slice_index counts.old c ≤ 2 ^ 63 }
    ensures { (c : ℕ) → c < length counts.old
        → slice_index counts.new c ≡ slice_index counts.old c + bit_at set c }
{
    let mut rest = set;
    while rest != 0 {
        let choice = rest.trailing_zeros();
        counts[choice as usize] += 1;
        rest &= !(1 << choice);
    }
}

/// Adds counts, each to the one at its place.
fn add_counts(counts: &mut [u64], more: &[u64])
    requires as_many { length counts.old ≡ length more.now }
    requires room { (c : ℕ) → c < length counts.old
        → slice_index counts.old c + slice_index more.now c < 2 ^ 64 }
    ensures { (c : ℕ) → c < length counts.old
        → slice_index counts.new c ≡ slice_index counts.old c + slice_index more.now c }
{
    for (place, count) in counts.iter_mut().enumerate() {
        *count += more[place];
    }
}

impl Tally {
    ghost use Rattle.std.specs.Prelude.{[]};
    ghost use Rattle.store_spec.specs.Election.{Election};
    ghost use Rattle.tally_export.specs.Counted.{AddsUp, CountsSet, IsTallyOf, IsUpTo, SumsFit};

    /// What no ballots add up to.
    pub fn of_none() -> Tally
        ensures { (e : Election) → IsTallyOf e [] result }
    {
        Tally {
            choices: [[0; CHOICES]; MAX_CONTESTS],
            under: [0; MAX_CONTESTS],
            over: [0; MAX_CONTESTS],
        }
    }

    /// Counts the mark set of a ballot in the contest at a place, where so many marks are allowed. Most sets have one mark
    /// or none.
    pub fn count_set(&mut self, place: usize, set: u64, allowed: u32)
        requires within { place < MAX_CONTESTS }
        requires some { 1 ≤ allowed }
        requires room { IsUpTo (2 ^ 63) self.old }
        ensures { CountsSet place allowed set self.old self.new }
    {
        if set == 0 {
            self.under[place] += u64::from(allowed);
        } else if set & (set - 1) == 0 {
            self.count_mark(place, set.trailing_zeros() as usize, allowed);
        } else {
            self.count_marks(place, set, allowed);
        }
    }

    /// Counts a mark set with one mark, that of the choice at a place of its own.
    fn count_mark(&mut self, place: usize, choice: usize, allowed: u32)
        requires within { place < MAX_CONTESTS }
        requires known { choice < CHOICES }
        requires some { 1 ≤ allowed }
        requires room { IsUpTo (2 ^ 63) self.old }
        ensures { CountsSet place allowed (2 ^ choice) self.old self.new }
    {
        self.under[place] += u64::from(allowed - 1);
        add_choice(&mut self.choices[place], choice);
    }

    /// Counts a mark set, however many marks it has.
    #[inline(never)]
    fn count_marks(&mut self, place: usize, set: u64, allowed: u32)
        requires within { place < MAX_CONTESTS }
        requires room { IsUpTo (2 ^ 63) self.old }
        ensures { CountsSet place allowed set self.old self.new }
    {
        let marks = set.count_ones();
        if marks > allowed {
            self.over[place] += 1;
            return;
        }
        self.under[place] += u64::from(allowed - marks);
        add_choices(&mut self.choices[place], set);
    }

    /// Adds what other ballots add up to.
    pub fn add(&mut self, more: &Tally)
        requires { SumsFit self.old more.now }
        ensures { AddsUp self.old more.now self.new }
    {
        'contests: for place in 0..MAX_CONTESTS {
            add_counts(&mut self.choices[place], &more.choices[place]);
        }
        add_counts(&mut self.under, &more.under);
        add_counts(&mut self.over, &more.over);
    }
}
