//! Shared words, whatever the phase: how they are made, and how they end.

ghost use Rattle.layout_def.specs.Changes.{AreChanges};
ghost use Rattle.std.specs.Mem.Slots.{IsFull, slots_items, slots_len};
ghost use Rattle.std.specs.Prelude.{◌≡◌, ◌+◌, ◌^◌, ◌<◌, ◌≤◌, ◌++◌, ℕ, [], IfOk};
ghost use Rattle.std.specs.Prelude.{List, OnOk, drop, length, replicate, slice_index, take, true};
ghost use Rattle.word_rule.specs.Places.{AreAll, AreMadeOf, AreWhole};
ghost use Rattle.word_rule.specs.Seats.{HasEnded};

use crate::seats::{Known, Opening, PhaseRule, SeatOf, Seated, deal_seats, join_seats};
use atomic_table::{Closed, Seat, Table};
use layout_def::{BLOCK, CellChange, note_changes, put_zeros};
use outside_io::Memory;
use std::alloc::Global;
use std::marker::Model;
use std::snapshot::Snapshot;
use step_core::Shape;

/// Shared words of a phase: the cells, and behind them the words that the phase has beside them.
#[derive(Drop)]
pub struct WordsOf<V, Q: PhaseRule<V>> {
    pub(crate) shape: Shape,
    pub(crate) table: Table<(), Known<V>, Opening, Seated<Q>, Global>,
}

impl<V, Q: PhaseRule<V>> Model for WordsOf<V, Q> {
    ghost use Rattle.word_rule.specs.Places.{AreWords, words_seen};
    ghost use Rattle.word_rule.specs.Seats.{SharedWords};

    ghost Value = { SharedWords };

    ghost view = { λ w. words_seen w.table.shared };

    ghost invariant = { λ w. AreWords Q.may_open Q.behind w.shape w.table.shared };
}

impl<V, Q: PhaseRule<V>> WordsOf<V, Q> {
    /// Words over cells of which they may be made, with 0 in each word behind these, and so many new seats. Each seat
    /// but one costs a step on word 0.
    pub fn new(
        alloc: Global,
        shape: Shape,
        cells: &[u64],
        seats: usize,
    ) -> Result<(WordsOf<V, Q>, Vec<SeatOf<V, Q>>), Memory>
        requires some_seat { 1 ≤ seats }
        requires may_open { Q.may_open shape cells.now }
        ensures words { IfOk result (λ made. AreMadeOf shape cells.now seats made.0) }
        ensures seats { IfOk result (λ made. AreAll Q.fresh made.0 made.1.items) }
    {
        Q::laws();
        let words = lay_out(alloc, cells, Q::words_behind(&shape))?;
        Self::of_words(alloc, shape, &words, seats)
    }

    /// The same over a list that has these words behind the cells.
    pub fn of_words(
        alloc: Global,
        shape: Shape,
        words: &Vec<u64>,
        seats: usize,
    ) -> Result<(WordsOf<V, Q>, Vec<SeatOf<V, Q>>), Memory>
        requires some_seat { 1 ≤ seats }
        requires may_open { Q.may_open shape (take shape.cells words.now.items) }
        requires zeros { words.now.items ≡ take shape.cells words.now.items ++ replicate (Q.behind shape) 0 }
        ensures words { IfOk result (λ made. AreMadeOf shape (take shape.cells words.now.items) seats made.0) }
        ensures seats { IfOk result (λ made. AreAll Q.fresh made.0 made.1.items) }
    {
        Q::laws();
        let opening = Opening {
            shape,
            seats,
            words: Snapshot::of(words),
        };
        let (table, first) = Table::of_words(alloc, words, &opening)?;
        let seats = deal_seats(alloc, &table.shared, first, seats)?;
        Ok((WordsOf { shape, table }, seats))
    }

    /// One look at a cell, without a seat. It promises nothing of the answer.
    pub fn peek(&self, cell: usize) -> u64
        requires { cell < self.now.shape.cells }
    {
        self.table.shared.peek(cell)
    }

    /// What changes from the cells of before to those at the end, from all seats. It has room for so many changes at
    /// first. Each seat but one costs one step on word 0.
    pub fn close(
        self,
        alloc: Global,
        seats: Vec<SeatOf<V, Q>>,
        before: &[u64],
        room: usize,
    ) -> Result<Vec<CellChange>, Memory>
        requires whole { AreWhole Q.rests self seats.items }
        requires as_many { length before.now ≡ self.shape.cells }
        ensures changes { IfOk result (λ changes. AreChanges before.now
            (Q.cells_after self seats.items) changes.items) }
        ensures lists { IfOk result (λ _. Q.agree_on self seats.items) }
    {
        Q::laws();
        let mut changes = Vec::with_capacity(alloc, room.saturating_add(BLOCK))?;
        let Self { shape: _, table } = self;
        let whole = join_seats(&table.shared, seats);
        close_table(table, whole, before, &mut changes)?;
        Ok(changes)
    }
}

/// How many cells are copied at once. A block of this size is copied in the widest steps that the processor has.
const COPIED: usize = 250;

/// The cells, and behind them so many words that are 0.
fn lay_out(alloc: Global, cells: &[u64], more: usize) -> Result<Vec<u64>, Memory>
    requires { length cells.now + more < 2 ^ 32 }
    ensures { IfOk result (λ v. v.items ≡ cells.now ++ replicate more 0) }
{
    let mut words = Vec::with_capacity(alloc, cells.len() + more)?;
    while words.len() < cells.len() {
        let at = words.len();
        let count = COPIED.min(cells.len() - at);
        words.extend_from_slice(&cells[at..at + count])?;
    }
    put_zeros(&mut words, more)?;
    Ok(words)
}

/// Notes what changes from the cells of before to the first words of a table at its end, which a seat saw.
fn close_table<V, Q: PhaseRule<V>>(
    table: Table<(), Known<V>, Opening, Seated<Q>, Global>,
    seat: Seat<(), Known<V>>,
    before: &[u64],
    changes: &mut Vec<CellChange>,
) -> Result<(), Memory>
    requires table { seat.table_id ≡ table.shared.table_id }
    requires no_slots { table.shared.table_id.slots ≡ 0 }
    requires within { length before.now ≤ table.shared.table_id.words }
    requires few { length before.now < 2 ^ 32 }
    requires none { changes.old.items ≡ [] }
    ensures { OnOk result ((cells : List ℕ) × HasEnded Q.holds Q.fresh table.shared.key seat.id seat.me.0 cells
        × AreChanges before.now cells changes.new.items) }
{
    let closed = table.close_with(seat);
    let noted = note_words(&closed, before, changes);
    closed.free();
    noted
}

/// Notes what changes from some cells to the first words of a closed table. Many are compared at once: where none changed,
/// and behind these, without a copy.
fn note_words(
    closed: &Closed<(), Global>,
    before: &[u64],
    changes: &mut Vec<CellChange>,
) -> Result<(), Memory>
    requires full { IsFull closed.now.words }
    requires within { length before.now ≤ slots_len closed.now.words }
    requires few { length before.now < 2 ^ 32 }
    requires none { changes.old.items ≡ [] }
    ensures { OnOk result (AreChanges before.now
        (take (length before.now) (slots_items closed.now.words)) changes.new.items) }
{
    let mut block = [0; BLOCK];
    let mut many = false;
    let mut at = 0;
    while at < before.len() {
        let end = before.len().min(at + BLOCK);
        let cells = &before[at..end];
        if many || !are_same(closed, at, cells) {
            let noted = changes.len();
            let now = &mut block[..end - at];
            take_words(closed, at, now);
            note_changes(changes, at, cells, now)?;
            many = changes.len() > noted;
        }
        at = end;
    }
    Ok(())
}

/// Words of a closed table, from one on, are the same as some cells. It does not stop at the first that differs, so that
/// many are compared at once.
fn are_same(closed: &Closed<(), Global>, first: usize, cells: &[u64]) -> bool
    requires full { IsFull closed.now.words }
    requires within { first + length cells.now ≤ slots_len closed.now.words }
    ensures { result ≡ true → ((k : ℕ) → k < length cells.now
        → slice_index cells.now k ≡ slice_index (slots_items closed.now.words) (first + k)) }
{
    let mut same = true;
    for place in 0..cells.len() {
        same &= closed.word(first + place) == cells[place];
    }
    same
}

/// Puts words of a closed table, from one on, in place of others.
fn take_words(closed: &Closed<(), Global>, first: usize, words: &mut [u64])
    requires full { IsFull closed.now.words }
    requires within { first + length words.old ≤ slots_len closed.now.words }
    ensures { words.new ≡ take (length words.old) (drop first (slots_items closed.now.words)) }
{
    for place in 0..words.len() {
        words[place] = closed.word(first + place);
    }
}
