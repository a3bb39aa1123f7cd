//! Laws of unions. Each function here states a law and does nothing.

ghost use Rattle.std.specs.Prelude.{◌≡◌, ◌↔◌, ◌∷◌, ℕ, List, AllPairs, Contains, IsPermutation, ◌<◌};
ghost use Rattle.merge_media.specs.Union.{Agree, IsDisputed, IsUnion, StandsInOne};
ghost use Rattle.store_spec.specs.Ballot.{Ballot};

/// The order in which sets are listed changes neither their union nor what is in dispute.
pub fn any_order()
    ensures union { (xs ys : List (List Ballot)) (union : List Ballot)
        → IsPermutation xs ys → IsUnion xs union → IsUnion ys union }
    ensures disputed { (xs ys : List (List Ballot)) (number : ℕ)
        → IsPermutation xs ys → IsDisputed xs number → IsDisputed ys number }
{}

/// Nor does it to list a set once more.
pub fn once_more()
    ensures union { (sets : List (List Ballot)) (set union : List Ballot)
        → Contains sets set → IsUnion sets union ↔ IsUnion (set ∷ sets) union }
    ensures disputed { (sets : List (List Ballot)) (set : List Ballot) (number : ℕ)
        → Contains sets set → IsDisputed sets number ↔ IsDisputed (set ∷ sets) number }
{}

/// Whatever the parts into which a set is split, and where they overlap too, their union is the set, and no number is in
/// dispute.
pub fn any_split()
    ensures union { (parts : List (List Ballot)) (set : List Ballot)
        → AllPairs (λ a b. a.number < b.number) set
        → ((b : Ballot) → StandsInOne parts b ↔ Contains set b) → IsUnion parts set }
    ensures agree { (parts : List (List Ballot)) (set : List Ballot)
        → AllPairs (λ a b. a.number < b.number) set
        → ((b : Ballot) → StandsInOne parts b ↔ Contains set b) → Agree parts }
{}

/// Sets have one union at most, and none where a number is in dispute.
pub fn one_union()
    ensures one { (sets : List (List Ballot)) (a b : List Ballot)
        → IsUnion sets a → IsUnion sets b → a ≡ b }
    ensures agree { (sets : List (List Ballot)) (union : List Ballot) → IsUnion sets union → Agree sets }
{}
