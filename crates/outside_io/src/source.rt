//! What a source of bytes is.

ghost use Rattle.std.specs.Prelude.{◌≡◌, ℕ, ◌+◌, ◌<◌, ◌≤◌, List, [], length, take, drop, slice_range, Option, IfOk, IfSome, OnErr};
ghost use Rattle.store_spec.specs.Fault.{last_count, CountsFault};
ghost use Rattle.outside_io.specs.Stream.{Gives};

use crate::Failed;

/// Where bytes come from.
pub trait Source {
    /// The bytes that it has left, where it tells them. Whether it does never changes.
    ghost left: { Self → Option (List ℕ) };

    /// How often it has failed: a count that rises at each failure and at nothing else, and stays at 2^64 - 1.
    ghost faults: { Self → ℕ };

    /// Puts the next bytes at the front of `buf`, and answers how many. None, where there is room for one, is the end.
    /// After a failure no byte is lost.
    fn read(&mut self, buf: &mut [u8]) -> Result<usize, Failed>
        ensures within { IfOk result (λ n. n ≤ length buf.old) }
        ensures gives { IfOk result (λ n. Gives (left self.old) (take n buf.new) (left self.new)) }
        ensures end { IfOk result
            (λ n. n ≡ 0 → 0 < length buf.old → IfSome (left self.old) (λ rest. rest ≡ [])) }
        ensures unmoved { OnErr result (left self.new ≡ left self.old) }
        ensures fault { CountsFault result (faults self.old) (faults self.new) };

    /// The count is one.
    ghost counted: { (source : Self) → faults source ≤ last_count };
}

/// Reads at most so many bytes into a buffer, from a place on.
pub fn read_piece<S: Source>(
    source: &mut S,
    buffer: &mut [u8],
    at: usize,
    asked: usize,
) -> Result<usize, Failed>
    requires { at + asked ≤ length buffer.old }
    ensures before { take at buffer.new ≡ take at buffer.old }
    ensures within { IfOk result (λ count. count ≤ asked) }
    ensures gives { IfOk result (λ count. Gives (S.left source.old)
        (slice_range buffer.new at (at + count)) (S.left source.new)) }
    ensures end { IfOk result
        (λ count. count ≡ 0 → 0 < asked → IfSome (S.left source.old) (λ left. left ≡ [])) }
    ensures unmoved { OnErr result (S.left source.new ≡ S.left source.old) }
    ensures behind { drop (at + asked) buffer.new ≡ drop (at + asked) buffer.old }
    ensures fault { CountsFault result (S.faults source.old) (S.faults source.new) }
{
    source.read(&mut buffer[at..at + asked])
}
