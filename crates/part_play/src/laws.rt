//! What is always so of the outcomes that a phase of a store in parts promises. Each function states a law
//! and does nothing.

ghost use Rattle.part_play.specs.Plays.{AreSharesOf, HoldTheirOwn, PlaysCastingInParts, PlaysFindingInParts, PlaysWithdrawingInParts};
ghost use Rattle.std.specs.Prelude.{◌≡◌, ◌^◌, ◌<◌, ◌≤◌, ℕ, All, Bool, List, map};
ghost use Rattle.store_spec.specs.Ballot.{Ballot, IsBallotSet};
ghost use Rattle.store_spec.specs.BallotPhase.{CastReply};
ghost use Rattle.store_spec.specs.Election.{Election};
ghost use Rattle.store_spec.specs.Parts.{ClosesCastingInParts, ClosesWithdrawingInParts};
ghost use Rattle.store_spec.specs.Session.{ClosesFinding, Effect, cast_text, closing, find_text, withdraw_text};
ghost use Rattle.store_spec.specs.WithdrawPhase.{WithdrawReply};

/// Where the sets of the parts are the shares of a set, before a phase and after it, what the phase leads to
/// is what a session asks of the close of a store in parts.
pub fn a_phase_closes()
    ensures casting { (bits : ℕ) (e : Election) (set after : List Ballot)
        (parts parts_after : List (List Ballot)) (lists : List (List Ballot))
        (replies : List (List CastReply)) (effect : Effect)
        → AreSharesOf bits set parts → AreSharesOf bits after parts_after → IsBallotSet e after
        → PlaysCastingInParts bits e parts lists replies parts_after
        → effect ≡ closing (map (map cast_text) replies) after
        → ClosesCastingInParts bits e set lists effect }
    ensures withdrawing { (bits : ℕ) (e : Election) (set after : List Ballot)
        (parts parts_after : List (List Ballot)) (lists : List (List ℕ))
        (replies : List (List WithdrawReply)) (effect : Effect)
        → 1 ≤ bits → bits ≤ 3 → AreSharesOf bits set parts → AreSharesOf bits after parts_after
        → IsBallotSet e set → IsBallotSet e after
        → PlaysWithdrawingInParts bits parts lists replies parts_after
        → effect ≡ closing (map (map withdraw_text) replies) after
        → ClosesWithdrawingInParts bits set lists effect }
    ensures finding { (bits : ℕ) (set : List Ballot) (parts : List (List Ballot)) (lists : List (List ℕ))
        (present : List (List Bool)) (effect : Effect)
        → 1 ≤ bits → bits ≤ 3 → AreSharesOf bits set parts
        → All (All (λ number. number < 2 ^ 64)) lists
        → PlaysFindingInParts bits parts lists present
        → effect ≡ closing (map (map find_text) present) set → ClosesFinding set lists effect }
{}

/// Where each ballot is in the part of its number, it still is after a phase.
pub fn parts_keep_their_own()
    ensures casting { (bits : ℕ) (e : Election) (base : List (List Ballot)) (work : List (List Ballot))
        (replies : List (List CastReply)) (after : List (List Ballot))
        → PlaysCastingInParts bits e base work replies after → HoldTheirOwn bits base
        → HoldTheirOwn bits after }
    ensures withdrawing { (bits : ℕ) (base : List (List Ballot)) (work : List (List ℕ))
        (replies : List (List WithdrawReply)) (after : List (List Ballot))
        → PlaysWithdrawingInParts bits base work replies after → HoldTheirOwn bits base
        → HoldTheirOwn bits after }
{}
