//! What the cores of casting and withdrawing have in common for a replay, as a trait.

ghost use Rattle.std.specs.Prelude.{◌≡◌, ◌≢◌, ◌++◌, ◌-◌, ◌<◌, ◌≤◌, ℕ, List, IfOk, length, string_bytes, slice_get, Some};
ghost use Rattle.schedule_replay.specs.Replayed.{cast_words, withdraw_words};
ghost use Rattle.store_spec.specs.Session.{reply_lines};
ghost use Rattle.schedule_replay.specs.Machine.{IsShortCasting, IsShortWithdrawing, cast_work, withdraw_work};

use outside_io::Memory;
use reply_lines::push_replies;
use step_core::{CastCore, Stepped, WithdrawCore};

/// Some that step on shared words, each with a list of its own.
pub trait Machine {
    /// One of them makes a step.
    ghost steps: { Self → ℕ → Self → Type 0 };

    /// One of them has nothing left to do.
    ghost done: { Self → ℕ → Type 0 };

    /// What holds between any two steps.
    ghost sound: { Self → Type 0 };

    /// How much one of them has left to do.
    ghost work: { Self → ℕ → ℕ };

    /// How many there are.
    ghost tabs: { Self → ℕ };

    /// The cells.
    ghost cells: { Self → List ℕ };

    /// The replies to the first numbers of each list, as words.
    ghost words: { Self → List (List (List ℕ)) };

    /// One step of one of them, where it has anything left to do.
    fn step(&mut self, tab: usize) -> Stepped
        requires within { tab < tabs self.old }
        requires sound { sound self.old }
        ensures at_rest { result ≡ Stepped.AtRest → done self.old tab }
        ensures unchanged { result ≡ Stepped.AtRest → self.new ≡ self.old }
        ensures row { result ≡ Stepped.Step → steps self.old tab self.new }
        ensures falls { result ≡ Stepped.Step → work self.new tab < work self.old tab }
        ensures others { (id : ℕ) → id ≢ tab → done self.old id → done self.new id }
        ensures tabs { tabs self.new ≡ tabs self.old }
        ensures sound { sound self.new };

    /// The cells, each with a number, or 0 where it is empty.
    fn cells(&self) -> &[u64]
        ensures { result.now ≡ cells self.now };

    /// Appends a line for each reply of one of the lists, which are counted from 1.
    fn push_replies(&self, text: &mut String, list: usize) -> Result<(), Memory>
        requires some { 1 ≤ list }
        requires within { list ≤ tabs self.now }
        ensures { IfOk result
            (λ _. (ws : List (List ℕ)) → slice_get (words self.now) (list - 1) ≡ Some ws
            → string_bytes text.new ≡ string_bytes text.old ++ reply_lines list 1 ws) };

    /// There is a list of replies for each.
    ghost counted: { (machine : Self) → length (words machine) ≡ tabs machine };
}

impl Machine for CastCore {
    ghost use Rattle.step_core.specs.Casting as casting;

    ghost steps = { casting.Steps };

    ghost done = { casting.IsDoneAt };

    ghost sound = { IsShortCasting };

    ghost work = { cast_work };

    ghost tabs = { λ core. length core.tabs };

    ghost cells = { casting.cells_in };

    ghost words = { cast_words };

    ghost use Rattle.schedule_replay.specs.Counted.{cast_counted};

    ghost counted = { cast_counted };

    fn step(&mut self, tab: usize) -> Stepped {
        self.step(tab)
    }

    fn cells(&self) -> &[u64] {
        self.cells()
    }

    fn push_replies(&self, text: &mut String, list: usize) -> Result<(), Memory> {
        push_replies(text, list, self.replies(list - 1))
    }
}

impl Machine for WithdrawCore {
    ghost use Rattle.step_core.specs.Withdrawing as withdrawing;

    ghost tabs = { λ core. length core.tabs };

    ghost steps = { withdrawing.Steps };

    ghost cells = { withdrawing.cells_in };

    ghost done = { withdrawing.IsDoneAt };

    ghost words = { withdraw_words };

    ghost sound = { IsShortWithdrawing };

    ghost work = { withdraw_work };

    ghost use Rattle.schedule_replay.specs.Counted.{withdraw_counted};

    ghost counted = { withdraw_counted };

    fn cells(&self) -> &[u64] {
        self.cells()
    }

    fn push_replies(&self, text: &mut String, list: usize) -> Result<(), Memory> {
        push_replies(text, list, self.replies(list - 1))
    }

    fn step(&mut self, tab: usize) -> Stepped {
        self.step(tab)
    }
}
