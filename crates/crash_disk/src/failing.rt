//! Which calls of a disk in memory are to fail.

ghost use Rattle.std.specs.Prelude.{◌≡◌, ◌==◌, ℕ, Bool, nat_lt};
ghost use Rattle.std.specs.List.{list_any};

/// Which calls are to fail, by their numbers, counted from 1.
pub trait Failing {
    /// Whether the call with this number fails.
    ghost fails: { Self → ℕ → Bool };

    /// Whether the call with this number fails.
    fn fails(&self, call: u64) -> bool
        ensures { result ≡ fails self.now call };
}

/// The calls with these numbers fail.
#[derive(Drop)]
pub struct ListedCalls {
    pub(crate) numbers: Vec<u64>,
}

impl Failing for ListedCalls {
    ghost fails = { λ listed call. list_any (λ number. number == call) listed.numbers.items };

    fn fails(&self, call: u64) -> bool {
        self.numbers.contains(&call)
    }
}

/// Each call behind so many fails.
#[derive(Clone, Copy, Debug, PartialEq, Eq)]
pub struct LaterCalls {
    pub(crate) passes: u64,
}

impl Failing for LaterCalls {
    ghost fails = { λ later call. nat_lt later.passes call };

    fn fails(&self, call: u64) -> bool {
        self.passes < call
    }
}
