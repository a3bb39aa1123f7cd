//! What is always so of the outcome of a casting phase. The function here states a law and does nothing.

ghost use Rattle.phase_insert.specs.Union.{GoTogether, all_ballots};
ghost use Rattle.std.specs.Prelude.{◌≡◌, ◌↔◌, Contains, List};
ghost use Rattle.store_spec.specs.Ballot.{Ballot};
ghost use Rattle.store_spec.specs.BallotPhase.{BallotOutcome, CastLine};
ghost use Rattle.store_spec.specs.Election.{Election};

/// Where no two ballots of one number differ over the base and the lists, and there is room for all their numbers, the set
/// after the phase is the union of base and lists, whoever cast them and in whatever order.
pub fn the_set_is_the_union()
    ensures union { (e : Election) (base after : List Ballot) (lists : List (List CastLine))
        → BallotOutcome e base lists after → GoTogether e (all_ballots base lists)
        → (b : Ballot) → Contains after b ↔ Contains (all_ballots base lists) b }
    ensures same_set { (e : Election) (base x y : List Ballot) (lists others : List (List CastLine))
        → BallotOutcome e base lists x → BallotOutcome e base others y
        → GoTogether e (all_ballots base lists)
        → ((b : Ballot) → Contains (all_ballots base lists) b ↔ Contains (all_ballots base others) b)
        → x ≡ y }
{}
