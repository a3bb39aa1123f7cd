//! Laws of the claim order. The function here states a law and does nothing.

ghost use Rattle.std.specs.Prelude.{◌≡◌, ◌<◌, ℕ};
ghost use Rattle.store_spec.specs.CastStep.{claim_place};

/// The claim order of a number reaches each claim word once.
pub fn claim_order_reaches_each_once()
    ensures within { (number tries length : ℕ) → 0 < length → claim_place number tries length < length }
    ensures reached { (number length place : ℕ) → place < length
        → (tries : ℕ) × (tries < length) × (claim_place number tries length ≡ place) }
    ensures once { (number a b length : ℕ) → a < length → b < length
        → claim_place number a length ≡ claim_place number b length → a ≡ b }
{}
