//! What the steps of a seat come to, by their rows alone. Each function states a law and does nothing.

ghost use Rattle.std.specs.Prelude.{◌≡◌, ◌≢◌, ℕ, ◌⊎◌};
ghost use Rattle.store_spec.specs.WithdrawStep.{WithdrawNote, WithdrawView};
ghost use Rattle.store_spec.specs.WithdrawStep.WithdrawNote.{Gone, Quiet};
ghost use Rattle.store_spec.specs.WithdrawStep.WithdrawState.{Rest};
ghost use Rattle.word_rule.specs.WithdrawRemoval.{HasFoundGone, HasRemoved, IsRemoving};
ghost use Rattle.word_rule.specs.WithdrawWords.{MakesFirstRow, MakesRow};

/// A seat that begins with a number finds it gone, or removes it from then on. Each later step goes on with that, and
/// at rest the number is removed.
pub fn a_number_is_removed()
    ensures begins { (home : ℕ → ℕ) (x : ℕ) (before : WithdrawView) (note : WithdrawNote)
        (now : WithdrawView) → MakesFirstRow home x before note now
        → ((note ≡ Gone) × HasFoundGone x before now)
        ⊎ ((note ≡ Quiet) × (now.state ≢ Rest) × IsRemoving x before now) }
    ensures goes_on { (home : ℕ → ℕ) (x : ℕ) (before old : WithdrawView) (note : WithdrawNote)
        (now : WithdrawView) → old.state ≢ Rest → IsRemoving x before old
        → MakesRow home old note now → IsRemoving x before now }
    ensures ends { (x : ℕ) (before now : WithdrawView) → IsRemoving x before now
        → now.state ≡ Rest → HasRemoved x before now }
{}
