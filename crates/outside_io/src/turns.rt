//! The turns of workers, which tests may watch.

/// What a worker of a phase calls before it handles an item. Nothing is promised of what it is handed: tests use it to
/// see the workers at work.
pub trait Turns: Sync {
    /// The worker of list `tab` comes to item `index` of that list, both counted from 0. `seen` is the word that it found
    /// just before in the home cell of the item's number.
    fn turn(&self, tab: usize, index: usize, seen: u64);
}

/// Nothing is done at a turn.
#[derive(Clone, Copy, Debug, PartialEq, Eq)]
pub struct NoTurns;

impl Turns for NoTurns {
    fn turn(&self, _tab: usize, _index: usize, _seen: u64) {}
}
