//! Laws of samples. Each function here states a law and does nothing.

ghost use Rattle.std.specs.Prelude.{◌≡◌, ◌↔◌, ◌<◌, ℕ, ◌+◌, List, ◌∷◌, ◌++◌, Contains, length, min, true};
ghost use Rattle.std.specs.Ordering.{is_lt};
ghost use Rattle.store_spec.specs.Ballot.{Ballot, IsBallotSet, numbers_of};
ghost use Rattle.store_spec.specs.Election.{Election};
ghost use Rattle.ticket_sample.specs.Sample.{sample_of};
ghost use Rattle.ticket_sample.specs.Ticket.{lot_cmp};

/// A sample has as many ballots as were asked for, or all where the set has fewer.
pub fn size()
    ensures { (e : Election) (set : List Ballot) (dice : List ℕ) (k : ℕ) → IsBallotSet e set
        → length (sample_of set dice k) ≡ min k (length set) }
{}

/// A sample is a set, and each of its ballots is one of the set and of the sample with one ballot more.
pub fn growing()
    ensures set { (e : Election) (set : List Ballot) (dice : List ℕ) (k : ℕ) → IsBallotSet e set
        → IsBallotSet e (sample_of set dice k) }
    ensures among { (set : List Ballot) (dice : List ℕ) (k : ℕ) (b : Ballot)
        → Contains (sample_of set dice k) b → Contains set b }
    ensures more { (set : List Ballot) (dice : List ℕ) (k : ℕ) (b : Ballot)
        → Contains (sample_of set dice k) b → Contains (sample_of set dice (k + 1)) b }
{}

/// A ballot that is not in the sample can be taken out of the set, and the sample stays as it is.
pub fn unsampled_ballots_do_not_matter()
    ensures { (before behind : List Ballot) (b : Ballot) (dice : List ℕ) (k : ℕ)
        → ¬ Contains (sample_of (before ++ b ∷ behind) dice k) b
        → sample_of (before ++ behind) dice k ≡ sample_of (before ++ b ∷ behind) dice k }
{}

/// Sets with the same ballots have the same sample.
pub fn one_sample()
    ensures { (e : Election) (xs ys : List Ballot) (dice : List ℕ) (k : ℕ)
        → IsBallotSet e xs → IsBallotSet e ys → ((b : Ballot) → Contains xs b ↔ Contains ys b)
        → sample_of xs dice k ≡ sample_of ys dice k }
{}

/// Of two numbers with one ticket the lesser is drawn first.
pub fn equal_tickets()
    ensures { (ticket : List ℕ) (a b : ℕ) → a < b → is_lt (lot_cmp (ticket, a) (ticket, b)) ≡ true }
{}
