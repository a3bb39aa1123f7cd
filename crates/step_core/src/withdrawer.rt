//! One withdrawer of a core: its list, the replies to the first numbers of it, and its steps.

ghost use Rattle.std.specs.Prelude.{◌≡◌, ◌≢◌, ◌↔◌, ◌+◌, ◌^◌, ◌<◌, ◌≤◌, ◌==◌, ℕ, List, [], Contains, IfOk, IsTrue, length, slice_get, slice_index};
ghost use Rattle.step_core.specs.CellIndex.{IsCellIndex};
ghost use Rattle.step_core.specs.Shape.{homes_of};
ghost use Rattle.step_core.specs.WithdrawCore.{HasReplyRoom, IsShape, KeepsList, MayStep, MayTell, Moves, TabSteps, base_of, reply_of, tab_of};
ghost use Rattle.step_core.specs.WithdrawTables.{FitsIn, MayFind, note_of, state_of};
ghost use Rattle.step_core.specs.Withdrawing.{IsDone, after_step, answered, next_number, opened_tab, caught_up};
ghost use Rattle.store_spec.specs.Act.{word_of};
ghost use Rattle.store_spec.specs.WithdrawStep.{withdraw_number, withdraw_act};
ghost use Rattle.store_spec.specs.WithdrawStep.WithdrawState.{Rest};

use crate::act::perform;
use crate::index::CellIndex;
use crate::{
    Act, Shape, WithdrawNote, WithdrawState, withdraw_act, withdraw_after, withdraw_first,
};
use outside_io::Memory;
use std::alloc::Global;

/// What a number of a list is answered.
#[derive(Clone, Copy, Debug, PartialEq, Eq)]
pub enum WithdrawReply {
    /// It was held, and is removed by this withdrawer.
    Withdrawn,
    /// It was held, and was removed before, or by another withdrawer.
    Gone,
    /// It was not held.
    Absent,
}

/// A withdrawer: what it is about, its list, and the replies to the first numbers of it.
#[derive(Drop)]
pub struct Withdrawer {
    state: WithdrawState,
    list: Vec<u64>,
    replies: Vec<WithdrawReply>,
}

impl Withdrawer {
    /// One at rest, which has answered the numbers that need no step.
    pub fn new(alloc: Global, list: Vec<u64>, index: &CellIndex) -> Result<Withdrawer, Memory>
        ensures opened { IfOk result
            (λ tab. tab_of tab ≡ opened_tab index.now.numbers.items list.items) }
        ensures room { IfOk result HasReplyRoom }
    {
        let replies = Vec::with_capacity(alloc, list.len())?;
        let mut tab = Withdrawer {
            state: WithdrawState::Rest,
            list,
            replies,
        };
        tab.catch_up(index);
        Ok(tab)
    }

    /// The replies to the first numbers of its list.
    pub fn replies(&self) -> &[WithdrawReply]
        ensures { result.now ≡ self.now.replies.items }
    {
        &self.replies
    }

    /// Whether it is at rest with its list used up.
    pub fn is_done(&self) -> bool
        ensures { IsTrue result ↔ IsDone (tab_of self.now) }
    {
        self.state == WithdrawState::Rest && self.first().is_none()
    }

    /// The number that stands first of those that are not answered.
    fn first(&self) -> Option<u64>
        ensures { result ≡ slice_get (tab_of self.now).left 0 }
    {
        self.list.get(self.replies.len()).copied()
    }

    /// Answers the number that stands first.
    fn answer(&mut self, reply: WithdrawReply)
        requires room { HasReplyRoom self.old }
        requires left { 0 < length (tab_of self.old).left }
        ensures answered { tab_of self.new ≡ answered (reply_of reply) (tab_of self.old) }
        ensures kept { KeepsList self.old self.new }
    {
        self.replies.push_reserved(reply);
    }

    /// Answers the numbers that stand first and are not held.
    fn catch_up(&mut self, index: &CellIndex)
        requires room { HasReplyRoom self.old }
        ensures caught_up { tab_of self.new ≡ caught_up index.now.numbers.items (tab_of self.old) }
        ensures kept { KeepsList self.old self.new }
    {
        'answers: while let Some(number) = self.first() {
            if index.holds(number) {
                return;
            }
            self.answer(WithdrawReply::Absent);
        }
    }

    /// Goes to a new state, and gives the reply that the note tells.
    fn go_to(&mut self, state: WithdrawState, note: WithdrawNote, index: &CellIndex)
        requires room { HasReplyRoom self.old }
        requires left { MayTell (note_of note) (tab_of self.old).left }
        ensures stepped { tab_of self.new
            ≡ after_step index.now.numbers.items (tab_of self.old) (state_of state) (note_of note) }
        ensures kept { KeepsList self.old self.new }
    {
        self.state = state;
        match note {
            WithdrawNote::Quiet | WithdrawNote::Begun => return,
            WithdrawNote::Gone => self.answer(WithdrawReply::Gone),
            WithdrawNote::Done => self.answer(WithdrawReply::Withdrawn),
        }
        self.catch_up(index);
    }

    /// Acts once on the words. It tells where that leads.
    fn act(
        &self,
        shape: &Shape,
        index: &CellIndex,
        words: &mut [u64],
    ) -> (WithdrawState, WithdrawNote)
        requires more { ¬ IsDone (tab_of self.now) }
        requires shape { IsShape shape.now (base_of shape.now index.now.numbers.items) }
        requires index { IsCellIndex (base_of shape.now index.now.numbers.items)
            index.now.numbers.items index.now.places.items }
        requires size { length words.old ≡ shape.now.cells + shape.now.cells }
        requires may_step { MayStep (base_of shape.now index.now.numbers.items)
            index.now.numbers.items words.old (tab_of self.now) }
        ensures { let tab = tab_of self.now in
            Moves (homes_of shape.now)
            (base_of shape.now index.now.numbers.items) words.old
            tab.state (next_number tab.state tab.left)
            words.new (state_of result.0) (note_of result.1) }
    {
        match self.state {
            WithdrawState::Rest => match self.first() {
                Some(number) => first_act(shape, index, words, number),
                None => unreachable!(),
            },
            state => next_act(shape, words, state),
        }
    }
}

/// The first act for a number, on the flag of its cell.
fn first_act(
    shape: &Shape,
    index: &CellIndex,
    words: &mut [u64],
    number: u64,
) -> (WithdrawState, WithdrawNote)
    requires some { number ≢ 0 }
    requires held { Contains index.now.numbers.items number }
    requires shape { IsShape shape.now (base_of shape.now index.now.numbers.items) }
    requires index { IsCellIndex (base_of shape.now index.now.numbers.items)
        index.now.numbers.items index.now.places.items }
    requires size { length words.old ≡ shape.now.cells + shape.now.cells }
    requires flags { (cell : ℕ) → slice_index words.old (shape.now.cells + cell) ≤ 1 }
    ensures { Moves (homes_of shape.now)
        (base_of shape.now index.now.numbers.items) words.old
        Rest number
        words.new (state_of result.0) (note_of result.1) }
{
    match index.cell_of(number) {
        Some(cell) => {
            let word = shape.cells + cell;
            let found = perform(words, Act::Swap { word, put: 1 });
            withdraw_first(shape, number, found)
        }
        None => unreachable!(),
    }
}

/// The next act of a withdrawer that is not at rest.
fn next_act(shape: &Shape, words: &mut [u64], state: WithdrawState) -> (WithdrawState, WithdrawNote)
    requires small { shape.now.cells + shape.now.claims < 2 ^ 32 }
    requires size { length words.old ≡ shape.now.cells + shape.now.cells }
    requires moves { state_of state ≢ Rest }
    requires fits { FitsIn shape.now.cells (state_of state) }
    requires finds { MayFind (state_of state)
        (slice_index words.old (word_of (withdraw_act (state_of state)))) }
    ensures { (base : List ℕ) → Moves (homes_of shape.now) base words.old
        (state_of state) (withdraw_number (state_of state))
        words.new (state_of result.0) (note_of result.1) }
{
    let found = perform(words, withdraw_act(shape, state));
    withdraw_after(shape, state, found)
}

/// One step of a withdrawer on the shared words.
pub fn make_step(shape: &Shape, index: &CellIndex, words: &mut [u64], tab: &mut Withdrawer)
    requires more { ¬ IsDone (tab_of tab.old) }
    requires room { HasReplyRoom tab.old }
    requires shape { IsShape shape.now (base_of shape.now index.now.numbers.items) }
    requires index { IsCellIndex (base_of shape.now index.now.numbers.items)
        index.now.numbers.items index.now.places.items }
    requires size { length words.old ≡ shape.now.cells + shape.now.cells }
    requires may_step { MayStep (base_of shape.now index.now.numbers.items)
        index.now.numbers.items words.old (tab_of tab.old) }
    ensures row { TabSteps shape.now index.now.numbers.items
        words.old (tab_of tab.old) words.new (tab_of tab.new) }
    ensures kept { HasReplyRoom tab.new }
{
    let (state, note) = tab.act(shape, index, words);
    tab.go_to(state, note, index);
}
