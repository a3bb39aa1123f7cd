//! Laws of a large run. Each function here states a law and does nothing.

ghost use Rattle.script_lines.specs.Generated.{cast_ballots, generated, generated_text, withdrawn_numbers};
ghost use Rattle.session_laws.specs.LargeRun.{IsLargeRun, IsLargeSet, count_with, new_to};
ghost use Rattle.std.specs.Prelude.{◌≡◌, ◌↔◌, ℕ, ◌+◌, ◌^◌, ◌<◌, ◌≤◌, List, ◌++◌, length, flat_map, All, Contains, Option};
ghost use Rattle.store_spec.specs.Ballot.{Ballot, IsBallotSet, IsWithinLimit};
ghost use Rattle.store_spec.specs.Election.{Election, IsElection};
ghost use Rattle.store_spec.specs.Input.{lines_of, taken_lines};
ghost use Rattle.store_spec.specs.ScriptLine.{IsTab};
ghost use Rattle.store_spec.specs.Session.{Effect, Plays, State, ballots_without, begun, written};
ghost use Rattle.store_spec.specs.Summary.{summary_of};

/// A large run ends closed, with its result acknowledged, and no other set, and the summary of its replies is that of
/// the result.
pub fn large_run_ends()
    ensures script { (e : Election) (seed count tabs : ℕ) (before : List Ballot) (effects : List Effect) (end : State)
        → IsElection e → seed < 2 ^ 32 → IsTab tabs → IsBallotSet e before
        → Plays e 1 (begun before) (taken_lines (generated e seed count tabs)) effects end
        → IsLargeRun e seed count before effects end }
    ensures text { (e : Election) (seed count tabs : ℕ) (before : List Ballot) (effects : List Effect) (end : State)
        → IsElection e → seed < 2 ^ 32 → IsTab tabs → IsBallotSet e before
        → Plays e 1 (begun before) (taken_lines (lines_of (generated_text e seed count tabs))) effects end
        → IsLargeRun e seed count before effects end }
{}

/// The result of a large run is a set that the store may hold.
pub fn results_are_sets()
    ensures set { (e : Election) (seed count : ℕ) (before after : List Ballot)
        → IsLargeSet e seed count before after → IsBallotSet e after }
    ensures within_limit { (e : Election) (seed count : ℕ) (before after : List Ballot)
        → IsLargeSet e seed count before after → IsWithinLimit e after }
{}

/// Where there is room for all ballots that are cast, there is one result: the set with the new ones, without the
/// numbers that are withdrawn.
pub fn one_result_with_room()
    ensures members { (e : Election) (seed count : ℕ) (before after : List Ballot)
        → length before + length (new_to before (cast_ballots e seed count)) ≤ e.limit
        → IsLargeSet e seed count before after
        → (b : Ballot) → Contains after b ↔ Contains (ballots_without
        (before ++ new_to before (cast_ballots e seed count)) (withdrawn_numbers e seed count)) b }
    ensures one { (e : Election) (seed count : ℕ) (before x y : List Ballot)
        → length before + length (new_to before (cast_ballots e seed count)) ≤ e.limit
        → IsLargeSet e seed count before x → IsLargeSet e seed count before y → x ≡ y }
{}

/// In any case the result lies between the set and the set with all ballots that are cast, each without the numbers
/// that are withdrawn. Where there is no room for all, the store was full once they were cast.
pub fn results_lie_between()
    ensures full { (e : Election) (seed count : ℕ) (before : List Ballot)
        → e.limit < length before + length (new_to before (cast_ballots e seed count))
        → count_with e before (cast_ballots e seed count) ≡ e.limit }
    ensures least { (e : Election) (seed count : ℕ) (before after : List Ballot)
        → IsLargeSet e seed count before after
        → All (Contains after) (ballots_without before (withdrawn_numbers e seed count)) }
    ensures most { (e : Election) (seed count : ℕ) (before after : List Ballot)
        → IsLargeSet e seed count before after
        → All (Contains (ballots_without
        (before ++ cast_ballots e seed count) (withdrawn_numbers e seed count))) after }
{}

/// The summary of what is replied to a script is the summaries of the replies, one behind the other. So a script that
/// was played in part has the first part of it.
pub fn summaries_join()
    ensures each { (e : Election) (n : ℕ) (s end : State) (lines : List (Option (List ℕ))) (effects : List Effect)
        → Plays e n s lines effects end
        → summary_of (written effects) ≡ flat_map (λ effect. summary_of effect.reply) effects }
    ensures behind { (e : Election) (n : ℕ) (s end : State) (lines : List (Option (List ℕ))) (xs ys : List Effect)
        → Plays e n s lines xs end
        → summary_of (written (xs ++ ys)) ≡ summary_of (written xs) ++ summary_of (written ys) }
{}
