//! What a sink of bytes is.

ghost use Rattle.std.specs.Prelude.{ℕ, ◌≤◌, List, Option, OnOk, OnErr};
ghost use Rattle.store_spec.specs.Fault.{last_count, CountsFault};
ghost use Rattle.outside_io.specs.Stream.{TakesAll, TakesSome};

use crate::Failed;

/// Where bytes go to.
pub trait Sink {
    /// The bytes that it has taken, where it tells them. Whether it does never changes.
    ghost taken: { Self → Option (List ℕ) };

    /// How often it has failed: a count that rises at each failure and at nothing else, and stays at 2^64 - 1.
    ghost faults: { Self → ℕ };

    /// Takes all the bytes. After a failure it has taken some of the first of them, or none.
    fn write_all(&mut self, bytes: &[u8]) -> Result<(), Failed>
        ensures all { OnOk result (TakesAll (taken self.old) bytes.now (taken self.new)) }
        ensures some { OnErr result (TakesSome (taken self.old) bytes.now (taken self.new)) }
        ensures fault { CountsFault result (faults self.old) (faults self.new) };

    /// The count is one.
    ghost counted: { (sink : Self) → faults sink ≤ last_count };
}
