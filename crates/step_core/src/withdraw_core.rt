//! A core of withdrawing: withdrawers that make their steps one by one, in any order.

ghost use Rattle.std.specs.Prelude.{◌≡◌, ◌≢◌, ◌↔◌, ◌+◌, ◌^◌, ◌<◌, ◌≤◌, All, AllPairs, IfOk, IsTrue, length, map, vec_len};
ghost use Rattle.store_spec.specs.Election.{most_ballots};
ghost use Rattle.step_core.specs.CellIndex.{IsCellIndex};
ghost use Rattle.step_core.specs.WithdrawCore.{HasReplyRoom, reply_of, tab_of};
ghost use Rattle.step_core.specs.Withdrawing.{HasEnded, IsDone, IsDoneAt, Steps, answered_in, cells_in, lists_in, opened, opened_tab, replies_at};
ghost use Rattle.step_core.specs.WithdrawingInvariant.{FallsAt, IsWithdrawing};

use crate::index::CellIndex;
use crate::withdrawer::{WithdrawReply, Withdrawer, make_step};
use crate::{Shape, Stepped};
use layout_def::build;
use outside_io::Memory;
use probe_order::{Order, Salted};
use std::alloc::Global;
use std::marker::Model;

/// A core of withdrawing: withdrawers, each with a list of numbers, on shared words.
#[derive(Drop)]
pub struct WithdrawCore {
    shape: Shape,
    limit: u32,
    index: CellIndex,
    words: Vec<u64>,
    tabs: Vec<Withdrawer>,
}

impl Model for WithdrawCore {
    ghost use Rattle.step_core.specs.Withdrawing.{Withdrawing};

    ghost Value = { Withdrawing };

    ghost use Rattle.step_core.specs.WithdrawCoreKept.{withdrawing_of, IsCoreKept};

    ghost view = { withdrawing_of };

    ghost invariant = { IsCoreKept };
}

impl WithdrawCore {
    /// A core over the layout of a set, with a withdrawer for each list. Numbers that are not held are answered as soon
    /// as they stand first.
    pub fn new(
        alloc: Global,
        order: Salted,
        limit: u32,
        start: &[u64],
        lists: Vec<Vec<u64>>,
    ) -> Result<WithdrawCore, Memory>
        requires some_limit { 1 ≤ limit }
        requires few_numbers { limit ≤ most_ballots }
        requires distinct { AllPairs (λ a b. a ≢ b) start.now }
        requires some { All (λ x. x ≢ 0) start.now }
        requires within_limit { length start.now ≤ limit }
        requires some_list { 1 ≤ length lists.items }
        requires few_lists { length lists.items ≤ 64 }
        ensures opened { IfOk result
            (λ core. core ≡ opened order.bits order.salt limit start.now
            (map (λ list. list.items) lists.items)) }
        ensures lists { IfOk result
            (λ core. lists_in core ≡ map (λ list. list.items) lists.items) }
        ensures invariant { IfOk result IsWithdrawing }
    {
        let cells = order.homes() + limit as usize;
        let mut words = build(alloc, &order, cells, start)?;
        let index = CellIndex::new(alloc, start, &words)?;
        words.resize(cells + cells, 0)?;
        let tabs = withdrawers(alloc, lists, &index)?;
        let shape = Shape {
            order,
            cells,
            claims: 0,
        };
        Ok(WithdrawCore {
            shape,
            limit,
            index,
            words,
            tabs,
        })
    }

    /// One step of a withdrawer, by its row of the table of withdrawing. Where it comes to rest, it answers the numbers
    /// that stand first and are not held. `AtRest` where it is at rest with its list used up.
    pub fn step(&mut self, tab: usize) -> Stepped
        requires { tab < length self.old.tabs }
        ensures at_rest { (result ≡ Stepped.AtRest) ↔ IsDoneAt self.old tab }
        ensures unchanged { result ≡ Stepped.AtRest → self.new ≡ self.old }
        ensures row { result ≡ Stepped.Step → Steps self.old tab self.new }
        ensures falls { result ≡ Stepped.Step → FallsAt self.old tab self.new }

        // What is answered and what is left of each list stay that list.
        ensures lists { lists_in self.new ≡ lists_in self.old }

        // One withdrawer by itself, stepped until it is at rest, ends the phase.
        ensures alone { length self.old.tabs ≡ 1 → result ≡ Stepped.AtRest → HasEnded self.new }
        ensures invariant { IsWithdrawing self.new }
    {
        if self.tabs[tab].is_done() {
            return Stepped::AtRest;
        }
        make_step(
            &self.shape,
            &self.index,
            &mut self.words,
            &mut self.tabs[tab],
        );
        Stepped::Step
    }

    /// The replies to the first numbers of a withdrawer's list, as many as are answered.
    pub fn replies(&self, tab: usize) -> &[WithdrawReply]
        requires { tab < length self.now.tabs }
        ensures replies { map reply_of result.now ≡ replies_at self.now tab }
        ensures invariant { IsWithdrawing self.now }
    {
        self.tabs[tab].replies()
    }

    /// The cells, each with a number, or 0 where it is empty.
    pub fn cells(&self) -> &[u64]
        ensures cells { result.now ≡ cells_in self.now }
        ensures invariant { IsWithdrawing self.now }
    {
        &self.words[..self.shape.cells]
    }

    /// Whether every withdrawer is at rest with its list used up. Then the phase has its outcome, and the cells are the
    /// layout of the set after it.
    pub fn at_rest(&self) -> bool
        ensures done { IsTrue result ↔ All IsDone self.now.tabs }
        ensures outcome { IsTrue result → HasEnded self.now }
        ensures answered { IsTrue result → answered_in self.now ≡ lists_in self.now }
        ensures invariant { IsWithdrawing self.now }
    {
        all_done(&self.tabs)
    }
}

/// Whether each withdrawer is at rest with its list used up.
fn all_done(tabs: &[Withdrawer]) -> bool
    ensures { IsTrue result ↔ All (λ tab. IsDone (tab_of tab)) tabs.now }
{
    tabs.iter().all(|tab| tab.is_done())
}

/// A withdrawer for each list, which has answered the numbers that stand first and are not held.
fn withdrawers(
    alloc: Global,
    lists: Vec<Vec<u64>>,
    index: &CellIndex,
) -> Result<Vec<Withdrawer>, Memory>
    ensures tabs { IfOk result
        (λ tabs. map tab_of tabs.items
        ≡ map (opened_tab index.now.numbers.items) (map (λ list. list.items) lists.items)) }
    ensures room { IfOk result (λ tabs. All HasReplyRoom tabs.items) }
{
    let mut tabs = Vec::with_capacity(alloc, lists.len())?;
    for list in lists {
        tabs.push(Withdrawer::new(alloc, list, index)?)?;
    }
    Ok(tabs)
}
