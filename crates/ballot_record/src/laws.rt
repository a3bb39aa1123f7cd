//! Laws of record lines, of what they build, and of sets. Each function here states a law and does nothing.

ghost use Rattle.std.specs.Prelude.{◌≡◌, ℕ, ◌^◌, ◌<◌, ◌≤◌, ◌↔◌, List, [], ◌∷◌, length, All, Contains, IsPermutation, Result, codes};
ghost use Rattle.store_spec.specs.Ballot.{Ballot, IsBallotSet, IsListing, IsValid};
ghost use Rattle.store_spec.specs.BallotLine.{IsGroup, IsRecordLine, ReadsAs, RecordLine, Spells, choices_in, longest_line, mark_set, record_line};
ghost use Rattle.store_spec.specs.Build.{BuiltFrom, Builds, Reason};
ghost use Rattle.store_spec.specs.Election.{Election, IsElection, example, most_choices};
ghost use Rattle.store_spec.specs.Figures.{example_ballot};
ghost use Rattle.store_spec.specs.Input.{line_limit};

/// No line has two readings.
pub fn one_reading()
    ensures { (e : Election) (bytes : List ℕ) (x y : RecordLine)
        → ReadsAs e bytes x → ReadsAs e bytes y → x ≡ y }
{}

/// No record line is longer than the longest, so that a line above the limit of a line is none.
pub fn short_lines()
    ensures longest { (e : Election) (bytes : List ℕ)
        → IsRecordLine e bytes → length bytes ≤ longest_line e }
    ensures within_limit { (e : Election) (bytes : List ℕ)
        → line_limit < length bytes → ¬ IsRecordLine e bytes }
{}

/// No line spells two ballots of an election.
pub fn one_ballot()
    ensures { (e : Election) (bytes : List ℕ) (x y : Ballot)
        → Spells e bytes x → Spells e bytes y → x ≡ y }
{}

/// No ballot of an election has two spellings.
pub fn one_spelling()
    ensures { (e : Election) (a b : List ℕ) (x : Ballot) → Spells e a x → Spells e b x → a ≡ b }
{}

/// The line of a valid ballot of an election spells it.
pub fn line_of_each_ballot()
    ensures { (e : Election) (b : Ballot)
        → IsElection e → IsValid e b → Spells e (record_line e b) b }
{}

/// Each line of an election is the line of its ballot.
pub fn line_of_its_ballot()
    ensures { (e : Election) (bytes : List ℕ) (b : Ballot)
        → IsElection e → Spells e bytes b → bytes ≡ record_line e b }
{}

/// A group and its mark set determine each other. The set fits a contest of so many choices exactly where each choice
/// of the group is one of them.
pub fn mark_sets()
    ensures one_group { (e : Election) (a b : List ℕ)
        → IsGroup e a → IsGroup e b → mark_set a ≡ mark_set b → a ≡ b }
    ensures group { (e : Election) (set : ℕ) → IsGroup e (choices_in e set) }
    ensures set { (e : Election) (set : ℕ)
        → set < 2 ^ most_choices e → mark_set (choices_in e set) ≡ set }
    ensures offered { (e : Election) (choices : List ℕ) (n : ℕ) → IsGroup e choices
        → (mark_set choices < 2 ^ n) ↔ All (λ choice. choice ≤ n) choices }
{}

/// A set of ballots is one list, and each listing is that of a set.
pub fn one_list()
    ensures one { (e : Election) (xs ys : List Ballot)
        → IsBallotSet e xs → IsBallotSet e ys → IsPermutation xs ys → xs ≡ ys }
    ensures some { (e : Election) (listing : List Ballot) → IsListing e listing
        → (set : List Ballot) × IsPermutation listing set × IsBallotSet e set }
{}

/// Lines build one set of ballots, or have one first bad line with one reason.
pub fn one_outcome()
    ensures { (e : Election) (lines : List (List ℕ)) (a b : Result (List Ballot) (ℕ × Reason))
        → BuiltFrom e lines a → BuiltFrom e lines b → a ≡ b }
{}

/// Lines that build a set in one order build the same set in every order. Lines that build sets build the same set
/// where each of either is among the others.
pub fn any_order()
    ensures builds { (e : Election) (lines others : List (List ℕ)) (set : List Ballot)
        → IsPermutation lines others → Builds e lines set → Builds e others set }
    ensures same { (e : Election) (lines others : List (List ℕ)) (xs ys : List Ballot)
        → ((line : List ℕ) → Contains lines line ↔ Contains others line)
        → Builds e lines xs → Builds e others ys → xs ≡ ys }
{}

/// Some lines of the example election with their parts, the lines of some ballots, and some that are no line.
pub fn example_record_lines()
    ensures one_mark { ReadsAs example (codes "9 1 1/-")
        (record { number = 9; style = 1; groups = (1 ∷ []) ∷ [] ∷ [] }) }
    ensures three_marks { ReadsAs example (codes "1 1 2/1,3")
        (record { number = 1; style = 1; groups = (2 ∷ []) ∷ (1 ∷ 3 ∷ []) ∷ [] }) }
    ensures of_9 { record_line example (example_ballot 9 1 0) ≡ codes "9 1 1/-" }
    ensures of_1 { record_line example (example_ballot 1 2 5) ≡ codes "1 1 2/1,3" }
    ensures leading_zero { ¬ IsRecordLine example (codes "07 1 1/-") }
    ensures descending { ¬ IsRecordLine example (codes "7 1 3,1/-") }
    ensures too_great { ¬ IsRecordLine example (codes "18446744073709551616 1 1/-") }
{}
