//! Laws of script lines. Each function here states a law and does nothing.

ghost use Rattle.std.specs.Prelude.{◌≡◌, ◌≢◌, ℕ, ◌^◌, ◌<◌, ◌≤◌, List, [], length, map, All, AllPairs, Contains, Some};
ghost use Rattle.std.specs.List.{AllZip};
ghost use Rattle.script_lines.specs.Generated.{cast_ballots, generated, generated_script, generated_text, withdrawn_numbers};
ghost use Rattle.store_spec.specs.Ballot.{IsValid, IsWithinLimit, numbers_of};
ghost use Rattle.store_spec.specs.Election.{Election, IsElection};
ghost use Rattle.store_spec.specs.Input.{line_limit, lines_of, script_limit, taken_within};
ghost use Rattle.store_spec.specs.ScriptLine.{IsMalformed, IsTab, Says, ScriptLine};

/// A line says one thing at most.
pub fn one_meaning()
    ensures { (e : Election) (bytes : List ℕ) (a b : ScriptLine)
        → Says e bytes a → Says e bytes b → a ≡ b }
{}

/// A line that says something is within the limit of a line.
pub fn lines_are_short()
    ensures { (e : Election) (bytes : List ℕ) (line : ScriptLine)
        → Says e bytes line → length bytes ≤ line_limit }
{}

/// The empty line is malformed.
pub fn empty_line_is_malformed()
    ensures { (e : Election) → IsMalformed e [] }
{}

/// The ballots of the generated script are valid, and no more than the store may hold.
pub fn generated_ballots_are_valid()
    ensures valid { (e : Election) (seed count : ℕ) → IsElection e → seed < 2 ^ 32
        → All (IsValid e) (cast_ballots e seed count) }
    ensures within_limit { (e : Election) (seed count : ℕ)
        → IsWithinLimit e (cast_ballots e seed count) }
{}

/// No two ballots of the generated script have one number, and none has the number 0. The numbers that are withdrawn
/// are among those that are cast.
pub fn generated_numbers_are_distinct()
    ensures distinct { (e : Election) (seed count : ℕ) → IsElection e → seed < 2 ^ 32
        → AllPairs (λ a b. a.number ≢ b.number) (cast_ballots e seed count) }
    ensures some { (e : Election) (seed count : ℕ) → IsElection e → seed < 2 ^ 32
        → All (λ b. 1 ≤ b.number) (cast_ballots e seed count) }
    ensures withdrawn { (e : Election) (seed count : ℕ)
        → All (Contains (numbers_of (cast_ballots e seed count))) (withdrawn_numbers e seed count) }
{}

/// What the lines of the generated script say.
pub fn generated_lines_say()
    ensures { (e : Election) (seed count tabs : ℕ) → IsElection e → seed < 2 ^ 32 → IsTab tabs
        → AllZip (Says e) (generated e seed count tabs) (generated_script e seed count tabs) }
{}

/// The lines of the text of the generated script are the script. A session takes all of them, and none is too wide.
pub fn generated_lines_are_read()
    ensures lines { (e : Election) (seed count tabs : ℕ)
        → IsElection e → seed < 2 ^ 32 → IsTab tabs
        → lines_of (generated_text e seed count tabs) ≡ generated e seed count tabs }
    ensures within_limit { (e : Election) (seed count tabs : ℕ)
        → IsElection e → seed < 2 ^ 32 → IsTab tabs
        → length (generated_text e seed count tabs) ≤ script_limit }
    ensures taken { (e : Election) (seed count tabs : ℕ)
        → IsElection e → seed < 2 ^ 32 → IsTab tabs
        → taken_within script_limit (generated_text e seed count tabs)
        ≡ map (λ line. Some line) (generated e seed count tabs) }
{}
