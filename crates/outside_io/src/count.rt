//! A count that never falls.

ghost use Rattle.std.specs.Prelude.{◌≤◌};
ghost use Rattle.store_spec.specs.Fault.{last_count};

use crate::Failed;

/// A count, of faults or of calls. It never falls, and stays at 2^64 - 1.
#[derive(Clone, Copy, Debug, PartialEq, Eq)]
pub struct Count {
    value: u64,
    ghost within: { value ≤ last_count },
}

impl Count {
    ghost use Rattle.std.specs.Prelude.{◌≡◌, MatchResult, is_err, if◌then◌else◌, Ok, IsErr};
    ghost use Rattle.store_spec.specs.Fault.{next_count, CountsFault};
    ghost use Rattle.outside_io.specs.Count.{count_value};

    /// A count of nothing yet.
    pub fn zero() -> Count
        ensures { count_value result ≡ 0 }
    {
        Count { value: 0 }
    }

    /// How many there were.
    pub fn value(&self) -> u64
        ensures { result ≡ count_value self.now }
    {
        self.value
    }

    /// Counts one more.
    pub fn add_one(&mut self)
        ensures { count_value self.new ≡ next_count (count_value self.old) }
    {
        self.value = self.value.saturating_add(1);
    }

    /// Hands on what came of a call, and counts it where the call failed.
    pub fn counted<T: Drop, E: Drop>(&mut self, outcome: Result<T, E>) -> Result<T, Failed>
        ensures outcome { MatchResult outcome (λ value. result ≡ Ok value) (λ error. IsErr result) }
        ensures count { count_value self.new
            ≡ (if is_err outcome then next_count (count_value self.old) else count_value self.old) }
        ensures fault { CountsFault result (count_value self.old) (count_value self.new) }
    {
        match outcome {
            Ok(value) => Ok(value),
            Err(_) => {
                self.add_one();
                Err(Failed)
            }
        }
    }
}
