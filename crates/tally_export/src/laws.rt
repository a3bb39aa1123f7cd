//! What a tally does not depend on, when tallies can be added, and of what an export is made. Each function here states a
//! law and does nothing.

ghost use Rattle.std.specs.Prelude.{◌≡◌, ◌+◌, ◌^◌, ◌<◌, ◌++◌, IsPermutation, List, length};
ghost use Rattle.store_spec.specs.Ballot.{Ballot};
ghost use Rattle.store_spec.specs.Election.{Election, IsElection};
ghost use Rattle.store_spec.specs.Report.{export_text};
ghost use Rattle.tally_export.specs.Counted.{IsTallyOf, SumsFit};
ghost use Rattle.tally_export.specs.Exported.{count_text, records_text};
ghost use Rattle.tally_export.specs.declared.counts.Tally as counted;

/// The tally of ballots does not depend on the order in which they are listed.
pub fn any_order()
    ensures { (e : Election) (xs ys : List Ballot) (tally : counted.Tally)
        → IsPermutation xs ys → IsTallyOf e xs tally → IsTallyOf e ys tally }
{}

/// The tallies of fewer than 2^58 ballots in all can be added.
pub fn sums_fit()
    ensures { (e : Election) (xs ys : List Ballot) (left right : counted.Tally)
        → IsElection e → length xs + length ys < 2 ^ 58
        → IsTallyOf e xs left → IsTallyOf e ys right → SumsFit left right }
{}

/// An export is the line that counts its ballots, and then their lines.
pub fn count_and_records()
    ensures { (e : Election) (ballots : List Ballot)
        → export_text e ballots ≡ count_text (length ballots) ++ records_text e ballots }
{}

/// The lines of two lists of ballots, one after the other, are those of the one and then those of the other.
pub fn records_of_both()
    ensures { (e : Election) (xs ys : List Ballot)
        → records_text e (xs ++ ys) ≡ records_text e xs ++ records_text e ys }
{}
