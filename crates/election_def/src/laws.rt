//! That a text has one meaning. The function here states a law and does nothing.

ghost use Rattle.std.specs.Prelude.{◌≡◌, ℕ, List};
ghost use Rattle.election_def.specs.Text.{Describes};
ghost use Rattle.store_spec.specs.Election.{Election};

/// No bytes describe two elections.
pub fn one_election()
    ensures { (bytes : List ℕ) (e f : Election) → Describes bytes e → Describes bytes f → e ≡ f }
{}
