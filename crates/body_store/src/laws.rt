//! That the cells are those of a set. The function here states a law and does nothing.

ghost use Rattle.std.specs.Prelude.{◌≡◌, IsPermutation, List};
ghost use Rattle.store_spec.specs.Ballot.{Ballot};
ghost use Rattle.store_spec.specs.Election.{Election};
ghost use Rattle.store_spec.specs.Image.{cells_of};

/// The cells of ballots do not depend on the order in which they are listed.
pub fn any_listing()
    ensures { (e : Election) (xs ys : List Ballot)
        → IsPermutation xs ys → cells_of e xs ≡ cells_of e ys }
{}
