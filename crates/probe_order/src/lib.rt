//! Where the search for a ballot number begins.
#![tactic(auto)]

mod claim;
pub mod laws;

ghost use Rattle.std.specs.Prelude.{◌≡◌, ℕ, ◌^◌, ◌<◌, ◌≤◌};
ghost use Rattle.store_spec.specs.Election.{most_bits};
ghost use Rattle.store_spec.specs.Home.{home_of};
ghost use Rattle.probe_order.specs.Below.{home_of-lt};

pub use claim::{claim_place, claim_place_from, first_claim_place};

/// 2 ^ 64 divided by the golden ratio, the multiplier of a Fibonacci hash.
const MULTIPLIER: u64 = 0x9E37_79B9_7F4A_7C15;

/// A home for each ballot number: the cell at which the search for it begins.
pub trait Order {
    /// How many homes there are.
    ghost homes: { Self → ℕ };

    /// The home of a number.
    ghost home: { Self → ℕ → ℕ };

    /// How many homes there are.
    fn homes(&self) -> usize
        ensures { result ≡ homes self.now };

    /// The home of a number.
    fn home(&self, v: u64) -> usize
        ensures { result ≡ home self.now v };

    /// Each number has one of the homes.
    ghost below: { (order : Self) (v : ℕ) → v < 2 ^ 64 → home order v < homes order };
}

/// Homes spread by an election's salt: the top `bits` bits of a multiplicative hash.
#[derive(Clone, Copy, Debug, PartialEq, Eq)]
pub struct Salted {
    /// How many bits a home has, at most 16.
    pub bits: u8,
    pub salt: u64,
    ghost few_bits: { bits ≤ most_bits },
}

impl Order for Salted {
    ghost homes = { λ order. 2 ^ order.bits };

    ghost home = { λ order v. home_of order.bits order.salt v };

    ghost below = { λ order v fits. home_of-lt order.bits order.salt v order.few_bits };

    fn homes(&self) -> usize {
        1 << self.bits
    }

    fn home(&self, v: u64) -> usize {
        if self.bits == 0 {
            return 0;
        }
        let hash = (v ^ self.salt).wrapping_mul(MULTIPLIER);
        (hash >> (64 - self.bits)) as usize
    }
}

#[cfg(test)]
mod tests {
    use super::{Order, Salted, claim_place};
    use std::test::Fail;

    #[test]
    fn homes_of_the_example(rt: HostRuntime) -> Result<(), Fail> {
        let order = Salted { bits: 3, salt: 0 };
        assert_eq!(rt; order.homes(), 8);
        let rows = [
            (5, 0),
            (2, 1),
            (u64::MAX, 3),
            (1, 4),
            (9, 4),
            (17, 4),
            (22, 4),
            (6, 5),
            (14, 5),
        ];
        for (number, home) in rows {
            assert_eq!(rt; order.home(number), home, "the home of {number}");
        }
        Ok(())
    }

    #[test]
    fn claim_words_of_the_example(rt: HostRuntime) -> Result<(), Fail> {
        let rows = [
            (1, 0, 8, 1),
            (9, 0, 8, 1),
            (9, 1, 8, 2),
            (14, 1, 8, 7),
            (14, 2, 8, 0),
            (14, 7, 8, 5),
            (u64::MAX, 0, 1, 0),
            (u64::MAX, 5, 6, 2),
        ];
        for (number, tries, length, place) in rows {
            assert_eq!(rt;
                claim_place(number, tries, length),
                place,
                "try {tries} of {number}"
            );
        }
        Ok(())
    }

    #[test]
    fn one_home_and_the_most(rt: HostRuntime) -> Result<(), Fail> {
        let one = Salted { bits: 0, salt: 7 };
        assert_eq!(rt; one.homes(), 1);
        assert_eq!(rt; one.home(1), 0);
        assert_eq!(rt; one.home(u64::MAX), 0);
        let most = Salted { bits: 16, salt: 0 };
        assert_eq!(rt; most.homes(), 65536);
        assert_eq!(rt; most.home(1), 0x9E37);
        let salted = Salted { bits: 3, salt: 8 };
        assert_eq!(rt; salted.home(9), 4, "9 under the salt 8 is hashed as 1");
        Ok(())
    }
}
