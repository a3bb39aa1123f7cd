//! What a contest of an election is.

ghost use Rattle.std.specs.Prelude.{◌↔◌, IsTrue};
ghost use Rattle.store_spec.specs.Election.{IsContestUpTo};

/// A contest of an election.
#[derive(Clone, Copy, Debug, PartialEq, Eq)]
pub struct Contest {
    /// How many choices it offers, from 1 to 32 in version 1, to 64 in version 2.
    pub choices: u8,
    /// How many of them a voter may mark, from 1 to all.
    pub allowed: u8,
}

impl Contest {
    ghost use Rattle.ballot_record.specs.Contest.{contest_of};

    /// Whether its numbers are within the limits, where it may have so many choices.
    pub fn is_valid(&self, most: u8) -> bool
        ensures { IsTrue result ↔ IsContestUpTo most (contest_of self.now) }
    {
        1 <= self.choices
            && self.choices <= most
            && 1 <= self.allowed
            && self.allowed <= self.choices
    }
}
