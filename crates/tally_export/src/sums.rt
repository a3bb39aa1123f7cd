//! The tally of two sets, from a tally of each.

ghost use Rattle.std.specs.Prelude.{◌++◌, List};
ghost use Rattle.store_spec.specs.Ballot.{Ballot};
ghost use Rattle.store_spec.specs.Election.{Election};
ghost use Rattle.tally_export.specs.Counted.{AddsUp, IsTallyOf, SumsFit};

use crate::counts::Tally;

/// The sums of two tallies, count by count: the tally of both sets. It is some thousands of bytes, for which callers make
/// no room.
#[inline(never)]
pub fn add_tally(left: &Tally, right: &Tally) -> Tally
    requires { SumsFit left.now right.now }
    ensures sums { AddsUp left.now right.now result }
    ensures both { (e : Election) (xs ys : List Ballot) → IsTallyOf e xs left.now
        → IsTallyOf e ys right.now → IsTallyOf e (xs ++ ys) result }
{
    let mut both = *left;
    both.add(right);
    both
}
