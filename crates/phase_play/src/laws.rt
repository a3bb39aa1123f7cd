//! What is always so of the outcomes that a phase promises. Each function states a law and does nothing.

ghost use Rattle.phase_play.specs.Plays.{PlaysCasting, PlaysFinding, PlaysWithdrawing};
ghost use Rattle.std.specs.Prelude.{◌≡◌, ℕ, All, Bool, List, map};
ghost use Rattle.store_spec.specs.Ballot.{Ballot, IsBallotSet, IsValid, IsWithinLimit};
ghost use Rattle.store_spec.specs.BallotPhase.{BallotOutcome, CastLine, CastReply};
ghost use Rattle.store_spec.specs.Election.{Election};
ghost use Rattle.store_spec.specs.Session.{ClosesCasting, ClosesFinding, ClosesWithdrawing, Effect, cast_text, closing, find_text, withdraw_text};
ghost use Rattle.store_spec.specs.WithdrawPhase.{WithdrawReply};

/// Whatever waits in the lists, there are replies and a set after the phase that have its outcome.
pub fn an_outcome_exists()
    ensures casting { (e : Election) (base : List Ballot) (work : List (List Ballot))
        → IsBallotSet e base → IsWithinLimit e base → All (All (IsValid e)) work
        → (replies : List (List CastReply)) × (after : List Ballot)
        × PlaysCasting e base work replies after }
    ensures withdrawing { (e : Election) (base : List Ballot) (work : List (List ℕ))
        → IsBallotSet e base
        → (replies : List (List WithdrawReply)) × (after : List Ballot)
        × PlaysWithdrawing base work replies after }
    ensures finding { (held : List Ballot) (work : List (List ℕ))
        → (present : List (List Bool)) × PlaysFinding held work present }
{}

/// What a phase leads to is what a session asks of its close.
pub fn a_phase_closes()
    ensures casting { (e : Election) (set : List Ballot) (lists : List (List Ballot))
        (replies : List (List CastReply)) (after : List Ballot) (effect : Effect)
        → PlaysCasting e set lists replies after
        → effect ≡ closing (map (map cast_text) replies) after → ClosesCasting e set lists effect }
    ensures withdrawing { (set : List Ballot) (lists : List (List ℕ))
        (replies : List (List WithdrawReply)) (after : List Ballot) (effect : Effect)
        → PlaysWithdrawing set lists replies after
        → effect ≡ closing (map (map withdraw_text) replies) after
        → ClosesWithdrawing set lists effect }
    ensures finding { (set : List Ballot) (lists : List (List ℕ)) (present : List (List Bool))
        (effect : Effect)
        → PlaysFinding set lists present
        → effect ≡ closing (map (map find_text) present) set → ClosesFinding set lists effect }
{}

/// The set before a casting phase and its lines leave no choice of the set after it.
pub fn replies_fix_the_set()
    ensures { (e : Election) (base a b : List Ballot) (lines : List (List CastLine))
        → BallotOutcome e base lines a → BallotOutcome e base lines b → a ≡ b }
{}
