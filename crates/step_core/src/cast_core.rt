//! A core of casting: tabulators that make their steps one by one, in any order.

ghost use Rattle.std.specs.Prelude.{◌≡◌, ◌≢◌, ◌↔◌, ◌+◌, ◌^◌, ◌<◌, ◌≤◌, All, AllPairs, IfOk, IsTrue, length, map};
ghost use Rattle.std.specs.List.Sorted.{IsNonDecreasing};
ghost use Rattle.store_spec.specs.Election.{most_ballots};
ghost use Rattle.step_core.specs.CastCore.{HasReplyRoom, met_of, tab_of};
ghost use Rattle.step_core.specs.Casting.{HasEnded, IsDone, IsDoneAt, Steps, answered_in, cells_in, lists_in, mets_at, opened, opened_tabs};
ghost use Rattle.step_core.specs.CastingInvariant.{FallsAt, IsCasting};

use crate::tabulator::{CastMet, Tabulator, make_step};
use crate::{Shape, Stepped};
use layout_def::build;
use outside_io::Memory;
use probe_order::{Order, Salted};
use std::alloc::Global;
use std::marker::Model;

/// A core of casting: tabulators, each with a list of numbers, on shared words.
#[derive(Drop)]
pub struct CastCore {
    shape: Shape,
    base: Vec<u64>,
    words: Vec<u64>,
    tabs: Vec<Tabulator>,
}

impl CastCore {
    /// A core over the layout of a set, with a tabulator for each list. Numbers that need no step are answered.
    pub fn new(
        alloc: Global,
        order: Salted,
        limit: u32,
        start: &[u64],
        lists: Vec<Vec<u64>>,
    ) -> Result<CastCore, Memory>
        requires some_list { 1 ≤ length lists.items }
        requires few_lists { length lists.items ≤ 64 }
        requires listed { All (λ list. All (λ x. x ≢ 0) list.items) lists.items }
        requires some_limit { 1 ≤ limit }
        requires few_numbers { limit ≤ most_ballots }
        requires within_limit { length start.now ≤ limit }
        requires distinct { AllPairs (λ a b. a ≢ b) start.now }
        requires some { All (λ v. v ≢ 0) start.now }
        ensures opened { IfOk result
            (λ core. core ≡ opened order.bits order.salt limit start.now (map
            (λ list. list.items) lists.items)) }
        ensures lists { IfOk result
            (λ core. lists_in core ≡ map (λ list. list.items) lists.items) }
        ensures invariant { IfOk result IsCasting }
    {
        let cells = order.homes() + limit as usize;
        let claims = limit as usize - start.len();
        let mut base = Vec::from_slice(alloc, start)?;
        base.sort_unstable();
        let mut words = build(alloc, &order, cells, start)?;
        words.resize(cells + claims, 0)?;
        let tabs = tabulators(alloc, lists, &base, claims)?;
        Ok(CastCore {
            shape: Shape {
                order,
                cells,
                claims,
            },
            base,
            words,
            tabs,
        })
    }

    /// Whether every tabulator is at rest with its list used up. Then the phase has its outcome, and the cells are the
    /// layout of the set after it.
    pub fn at_rest(&self) -> bool
        ensures done { IsTrue result ↔ All IsDone self.now.tabs }
        ensures outcome { IsTrue result → HasEnded self.now }
        ensures answered { IsTrue result → answered_in self.now ≡ lists_in self.now }
        ensures invariant { IsCasting self.now }
    {
        all_done(&self.tabs)
    }

    /// One step of a tabulator, by its row of the table of casting. Where it comes to rest, it answers the numbers that
    /// stand first and need no step. `AtRest` where it is at rest with its list used up.
    pub fn step(&mut self, tab: usize) -> Stepped
        requires { tab < length self.old.tabs }
        ensures at_rest { (result ≡ Stepped.AtRest) ↔ IsDoneAt self.old tab }
        ensures unchanged { result ≡ Stepped.AtRest → self.new ≡ self.old }
        ensures row { result ≡ Stepped.Step → Steps self.old tab self.new }
        ensures falls { result ≡ Stepped.Step → FallsAt self.old tab self.new }

        // What is answered and what is left of each list stay that list.
        ensures lists { lists_in self.new ≡ lists_in self.old }

        // One tabulator by itself, stepped until it is at rest, ends the phase.
        ensures alone { length self.old.tabs ≡ 1 → result ≡ Stepped.AtRest → HasEnded self.new }
        ensures invariant { IsCasting self.new }
    {
        make_step(
            &self.shape,
            &self.base,
            &mut self.words,
            &mut self.tabs[tab],
        )
    }

    /// What the first numbers of a tabulator's list met, as many as are answered.
    pub fn replies(&self, tab: usize) -> &[CastMet]
        requires { tab < length self.now.tabs }
        ensures mets { map met_of result.now ≡ mets_at self.now tab }
        ensures invariant { IsCasting self.now }
    {
        self.tabs[tab].replies()
    }

    /// The cells, each with a number, or 0 where it is empty.
    pub fn cells(&self) -> &[u64]
        ensures cells { result.now ≡ cells_in self.now }
        ensures invariant { IsCasting self.now }
    {
        &self.words[..self.shape.cells]
    }
}

impl Model for CastCore {
    ghost use Rattle.step_core.specs.Casting.{Casting};

    ghost Value = { Casting };

    ghost use Rattle.step_core.specs.CastCoreKept.{casting_of, IsCoreKept};

    ghost view = { casting_of };

    ghost invariant = { IsCoreKept };
}

/// A tabulator for each list, which has answered the numbers that need no step.
fn tabulators(
    alloc: Global,
    lists: Vec<Vec<u64>>,
    base: &[u64],
    claims: usize,
) -> Result<Vec<Tabulator>, Memory>
    requires { IsNonDecreasing base.now }
    ensures tabs { IfOk result
        (λ tabs. map tab_of tabs.items ≡ opened_tabs base.now claims (map
        (λ list. list.items) lists.items)) }
    ensures room { IfOk result (λ tabs. All HasReplyRoom tabs.items) }
{
    let mut tabs = Vec::with_capacity(alloc, lists.len())?;
    for list in lists {
        tabs.push(Tabulator::new(alloc, list, base, claims)?)?;
    }
    Ok(tabs)
}

fn all_done(tabs: &[Tabulator]) -> bool
    ensures { IsTrue result ↔ All (λ tab. IsDone (tab_of tab)) tabs.now }
{
    tabs.iter().all(|tab| tab.is_done())
}
