//! Laws of images: that they show the set and nothing of an order. Each function here states a law and does nothing.

ghost use Rattle.std.specs.Prelude.{◌≡◌, ℕ, ◌<◌, ◌↔◌, Contains, IsPermutation, List, Option, Some, length, take};
ghost use Rattle.store_spec.specs.Ballot.{Ballot, IsBallotSet, IsListing, IsWithinLimit};
ghost use Rattle.store_spec.specs.Build.{Builds};
ghost use Rattle.store_spec.specs.Damage.{IsFirstFailing, IsFirstWrong, IsWrongCell};
ghost use Rattle.store_spec.specs.Election.{Election, IsElection, bank_size, cell_count, header_size};
ghost use Rattle.store_spec.specs.Image.{IsImageOf, header_of, image_of};
ghost use Rattle.store_spec.specs.Medium.{Holds, IsMediumOf};

/// A set of ballots has one image, in whatever order the ballots are listed.
pub fn one_image()
    ensures { (e : Election) (xs ys : List Ballot) → IsListing e xs → IsListing e ys
        → ((b : Ballot) → Contains xs b ↔ Contains ys b) → image_of e xs ≡ image_of e ys }
{}

/// Equal images have equal sets: a bank is the image of one.
pub fn one_set()
    ensures sets { (e : Election) (xs ys : List Ballot) → IsElection e
        → IsBallotSet e xs → IsWithinLimit e xs → IsBallotSet e ys → IsWithinLimit e ys
        → image_of e xs ≡ image_of e ys → xs ≡ ys }
    ensures bank { (e : Election) (bank : List ℕ) (xs ys : List Ballot) → IsElection e
        → IsImageOf e bank xs → IsImageOf e bank ys → xs ≡ ys }
{}

/// Bytes hold one thing: one set, or nothing. The medium of a set holds that set.
pub fn one_held()
    ensures held { (e : Election) (bytes : List ℕ) (a b : Option (List Ballot)) → IsElection e
        → Holds e bytes a → Holds e bytes b → a ≡ b }
    ensures medium { (e : Election) (bytes : List ℕ) (ballots : List Ballot) → IsElection e
        → IsMediumOf e bytes ballots → Holds e bytes (Some ballots) }
{}

/// The first wrong cell is the first that fails one of the four tests, and no other cell is. Where the header is the
/// election's, there is none exactly where the bank is an image.
pub fn first_wrong_cell()
    ensures fails { (e : Election) (bank : List ℕ) (cell : ℕ) → IsElection e
        → IsFirstWrong e bank cell ↔ IsFirstFailing e bank cell }
    ensures one { (e : Election) (bank : List ℕ) (a b : ℕ)
        → IsFirstWrong e bank a → IsFirstWrong e bank b → a ≡ b }
    ensures none { (e : Election) (bank : List ℕ) → IsElection e
        → length bank ≡ bank_size e → take header_size bank ≡ header_of e
        → ((ballots : List Ballot) × IsImageOf e bank ballots)
        ↔ ((cell : ℕ) → cell < cell_count e → ¬ IsWrongCell e bank cell) }
{}

/// Lines that build a set build one image in every order. Where each line of either is among the others, two
/// lists of lines that build sets build one image.
pub fn one_image_of_lines()
    ensures any_order { (e : Election) (lines others : List (List ℕ)) (xs ys : List Ballot)
        → IsPermutation lines others → Builds e lines xs → Builds e others ys
        → image_of e xs ≡ image_of e ys }
    ensures same_lines { (e : Election) (lines others : List (List ℕ)) (xs ys : List Ballot)
        → ((line : List ℕ) → Contains lines line ↔ Contains others line)
        → Builds e lines xs → Builds e others ys → image_of e xs ≡ image_of e ys }
{}
