//! The cells of a store, with words behind them that are 0.

ghost use Rattle.layout_def.specs.Changes.{AreChanges};
ghost use Rattle.std.specs.Prelude.{◌≡◌, ◌+◌, ◌-◌, ◌≤◌, ◌++◌, List, ℕ, drop, length, replicate, take, vec_capacity, vec_len};

use layout_def::{CellChange, exchange, put_zeros};
use outside_io::Memory;
use std::marker::Model;

/// The numbers in the cells of a store, and behind these the words of a next casting phase, all 0, if there is room for
/// them: the phase then begins with this list, and copies none.
#[derive(Drop)]
pub struct Cells {
    words: Vec<u64>,
    count: usize,
}

impl Model for Cells {
    ghost use Rattle.std.specs.Prelude.{List, ℕ, take};

    ghost Value = { List ℕ };

    ghost use Rattle.body_store.specs.Cells.{HasZeros};

    ghost view = { λ cells. take cells.count cells.words.items };

    ghost invariant = { λ cells. HasZeros cells.count cells.words.items };
}

impl Cells {
    /// These cells, with no word behind them.
    pub fn new(cells: Vec<u64>) -> Cells
        ensures { result ≡ cells.items }
    {
        let count = cells.len();
        Cells {
            words: cells,
            count,
        }
    }

    /// The cells.
    pub fn numbers(&self) -> &[u64]
        ensures value { result.now ≡ self.now }
    {
        &self.words[..self.count]
    }

    /// The cells and the words behind them.
    pub fn words(&self) -> &Vec<u64>
        ensures { result.now.items ≡ self.now ++ replicate (length result.now.items - length self.now) 0 }
    {
        &self.words
    }

    /// Puts the number of each change into its cell, and keeps in its place the one that stood there.
    pub fn exchange(&mut self, changes: &mut [CellChange])
        requires { (after : List ℕ) × AreChanges self.old after changes.old }
        ensures { (after : List ℕ) → AreChanges self.old after changes.old
            → (self.new ≡ after) × AreChanges after self.old changes.new }
    {
        let count = self.count;
        exchange_first(&mut self.words, count, changes);
    }

    /// Puts so many words behind the cells.
    pub fn put_behind(&mut self, behind: usize) -> Result<(), Memory>
        ensures { self.new ≡ self.old }
    {
        let more = self
            .count
            .saturating_add(behind)
            .saturating_sub(self.words.len());
        self.words.reserve_exact(more)?;
        put_zeros(&mut self.words, more)
    }

    /// Leaves no more than so many words behind the cells.
    pub fn leave_behind(&mut self, behind: usize)
        ensures { self.new ≡ self.old }
    {
        self.words.truncate(self.count.saturating_add(behind));
    }
}

/// The same of so many first words.
fn exchange_first(words: &mut [u64], count: usize, changes: &mut [CellChange])
    requires within { count ≤ length words.old }
    requires changes { (after : List ℕ) × AreChanges (take count words.old) after changes.old }
    ensures first { (after : List ℕ) → AreChanges (take count words.old) after changes.old
        → (take count words.new ≡ after) × AreChanges after (take count words.old) changes.new }
    ensures rest { drop count words.new ≡ drop count words.old }
    ensures long { length words.new ≡ length words.old }
{
    exchange(&mut words[..count], changes);
}
