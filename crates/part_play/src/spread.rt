//! Where the items of a store in parts go.

ghost use Rattle.phase_kind.specs.Team.{GoesWithin};
ghost use Rattle.std.specs.Prelude.{◌≡◌, ◌≤◌, ◌<◌, ◌^◌, All, length};
ghost use Rattle.store_spec.specs.Parts as parts;

use partition_store::part_of;
use phase_kind::{Kind, Spread};
use std::marker::Model;

/// Each item goes to the part that the top bits of its number tell. There are 2, 4 or 8 parts.
#[derive(Drop)]
pub struct ByParts {
    bits: u8,
}

impl Model for ByParts {
    ghost use Rattle.std.specs.Prelude.{ℕ, ◌≤◌};

    ghost Value = { ℕ };

    ghost view = { λ p. p.bits };

    ghost invariant = { λ p. (1 ≤ p.bits) × (p.bits ≤ 3) };
}

impl ByParts {
    /// By so many top bits.
    pub fn new(bits: u8) -> ByParts
        requires some { 1 ≤ bits }
        requires few { bits ≤ 3 }
        ensures { result ≡ bits }
    {
        ByParts { bits }
    }

    /// How many top bits tell a part.
    pub fn bits(&self) -> u8
        ensures bits { result ≡ self.now }
        ensures some { 1 ≤ self.now }
        ensures few { self.now ≤ 3 }
    {
        self.bits
    }
}

impl Spread for ByParts {
    ghost use Rattle.store_spec.specs.Parts.{part_of};

    ghost to = { λ bits number. part_of bits number };

    fn place(&self, number: u64) -> usize {
        part_of(self.bits, number)
    }
}

/// Numbers have 64 bits.
fn short_numbers<K: Kind>(list: &K::List)
    ensures { All (λ x. K.number x < 2 ^ 64) (K.items list.now) }
{
    for index in 0..K::len(list) {
        K::number(list, index);
    }
}

/// So each item of each list goes to one of the parts.
pub(crate) fn all_go_within<K: Kind>(spread: &ByParts, work: &[K::List])
    ensures { All (λ list. GoesWithin (λ x. parts.part_of spread.now (K.number x)) (2 ^ spread.now)
        (K.items list)) work.now }
{
    spread.bits();
    for list in work {
        short_numbers::<K>(list);
    }
}
