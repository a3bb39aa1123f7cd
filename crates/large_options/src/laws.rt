//! Laws of the options. Each function here states a law and does nothing.

ghost use Rattle.std.specs.Prelude.{◌≡◌, ℕ, List};
ghost use Rattle.large_options.specs.Options.{IsOptions};

/// Words are the options of one seed, one count and one number of tabulators at most.
pub fn one_reading()
    ensures { (words : List (List ℕ)) (seed count tabs other_seed other_count other_tabs : ℕ)
        → IsOptions words seed count tabs → IsOptions words other_seed other_count other_tabs
        → (seed ≡ other_seed) × (count ≡ other_count) × (tabs ≡ other_tabs) }
{}
