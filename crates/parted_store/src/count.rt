//! How many parts there are, as a type.

ghost use Rattle.std.specs.Prelude.{◌≡◌, ℕ};

/// How many parts a store has, 2^`bits`, as a type: what a close asks of a store belongs to the store's type.
pub trait PartCount {
    /// How many top bits of a number tell its part.
    ghost bits: { ℕ };

    /// How many top bits of a number tell its part.
    fn bits() -> u8
        ensures { result ≡ bits };
}

/// Two parts.
pub struct Two;

/// Four parts.
pub struct Four;

/// Eight parts.
pub struct Eight;

impl PartCount for Two {
    ghost bits = { 1 };

    fn bits() -> u8 {
        1
    }
}

impl PartCount for Four {
    ghost bits = { 2 };

    fn bits() -> u8 {
        2
    }
}

impl PartCount for Eight {
    ghost bits = { 3 };

    fn bits() -> u8 {
        3
    }
}
