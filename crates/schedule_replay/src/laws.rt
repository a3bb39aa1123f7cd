//! Laws of what a replay promises.

ghost use Rattle.std.specs.Prelude.{◌≡◌, ℕ, List, Result, Some};
ghost use Rattle.outside_io.specs.Outside.{Outside};
ghost use Rattle.schedule_replay.specs.Ends.{IsDecided, ReplayEnds};
ghost use Rattle.schedule_replay.specs.declared.fault.ReplayFault.{ReplayFault};
ghost use Rattle.store_spec.specs.Election.{Election};

use outside_io::{Sink, Source};

/// Where the script tells its bytes, they decide what a replay answers, but for faults and want of memory.
pub fn one_answer<S: Source, K: Sink>()
    ensures { (e : Election) (a b : Result (Unit {0}) ReplayFault) (before a_after b_after : Outside S K)
        (text : List ℕ) → before.script.left ≡ Some text
        → ReplayEnds e a before a_after → ReplayEnds e b before b_after
        → IsDecided a → IsDecided b → a ≡ b }
{}
