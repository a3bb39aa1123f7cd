//! To which part a number belongs.

ghost use Rattle.std.specs.Prelude.{◌≡◌, ◌≤◌};
ghost use Rattle.store_spec.specs.Parts as parts;

/// The part, counted from 0, to which the ballot with this number belongs in a store of 2^`bits` parts: the number's
/// top bits.
pub fn part_of(bits: u8, number: u64) -> usize
    requires some { 1 ≤ bits }
    requires few { bits ≤ 3 }
    ensures { result ≡ parts.part_of bits number }
{
    (number >> (64 - bits)) as usize
}
