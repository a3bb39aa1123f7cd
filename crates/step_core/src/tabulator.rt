//! One tabulator of a core: its list, the replies to the first numbers of it, and its steps.

ghost use Rattle.std.specs.Prelude.{◌≡◌, ◌≢◌, ◌↔◌, ◌+◌, ◌^◌, ◌<◌, ◌≤◌, Contains, IfOk, IsTrue, MatchOption, length, slice_get};
ghost use Rattle.std.specs.List.Sorted.{IsNonDecreasing};
ghost use Rattle.step_core.specs.CastCore.{AnswersAtOnce, HasReplyRoom, KeepsList, MayStep, MayTell, NeedsStep, TabSteps, met_of, tab_of};
ghost use Rattle.step_core.specs.CastTables.{note_of, state_of};
ghost use Rattle.step_core.specs.Casting.{IsDone, answered, next_from, opened_tab, caught_up, told};
ghost use Rattle.step_core.specs.Shape.{table_of};
ghost use Rattle.store_spec.specs.CastStep.CastState.{Rest};

use crate::act::perform;
use crate::{CastNote, CastState, Shape, Stepped, cast_act, cast_after};
use outside_io::Memory;
use std::alloc::Global;

/// What a number of a list met.
#[derive(Clone, Copy, Debug, PartialEq, Eq)]
pub enum CastMet {
    /// It is of the set that was held at the opening.
    Held,
    /// It was accepted by this tabulator.
    Accepted,
    /// It was accepted before, or by another tabulator.
    Taken,
    /// There was no room for it.
    Full,
}

/// A tabulator: what it is about, its list, and the replies to the first numbers of it.
#[derive(Drop)]
pub struct Tabulator {
    state: CastState,
    list: Vec<u64>,
    replies: Vec<CastMet>,
}

impl Tabulator {
    /// One at rest, which has answered the numbers that need no step.
    pub fn new(
        alloc: Global,
        list: Vec<u64>,
        base: &[u64],
        claims: usize,
    ) -> Result<Tabulator, Memory>
        requires in_order { IsNonDecreasing base.now }
        ensures opened { IfOk result (λ tab. tab_of tab ≡ opened_tab base.now claims list.items) }
        ensures room { IfOk result HasReplyRoom }
    {
        let replies = Vec::with_capacity(alloc, list.len())?;
        let mut tab = Tabulator {
            state: CastState::Rest,
            list,
            replies,
        };
        tab.catch_up(base, claims);
        Ok(tab)
    }

    /// What the first numbers of its list met.
    pub fn replies(&self) -> &[CastMet]
        ensures { result.now ≡ self.now.replies.items }
    {
        &self.replies
    }

    /// Whether it is at rest with its list used up.
    pub fn is_done(&self) -> bool
        ensures { IsTrue result ↔ IsDone (tab_of self.now) }
    {
        self.next_from().is_none()
    }

    /// The number that stands first of those that are not answered.
    fn first(&self) -> Option<u64>
        ensures { result ≡ slice_get (tab_of self.now).left 0 }
    {
        self.list.get(self.replies.len()).copied()
    }

    /// The state from which the next step goes. `None` where nothing is left to do.
    fn next_from(&self) -> Option<CastState>
        ensures { MatchOption result (IsDone (tab_of self.now))
            (λ from. (state_of from ≡ next_from (tab_of self.now).state (tab_of self.now).left)
            × (state_of from ≢ Rest)) }
    {
        match self.state {
            CastState::Rest => {
                let number = self.first()?;
                Some(CastState::Probing { number, tries: 0 })
            }
            state => Some(state),
        }
    }

    /// Answers the number that stands first, where the note tells what it met.
    fn tell(&mut self, note: CastNote)
        requires room { HasReplyRoom self.old }
        requires left { MayTell (note_of note) (tab_of self.old).left }
        ensures told { tab_of self.new ≡ told (note_of note) (tab_of self.old) }
        ensures kept { KeepsList self.old self.new }
    {
        match note {
            CastNote::Claimed => self.answer(CastMet::Accepted),
            CastNote::Taken => self.answer(CastMet::Taken),
            CastNote::Full => self.answer(CastMet::Full),
            CastNote::Quiet | CastNote::Placed => {}
        }
    }

    /// Answers the number that stands first.
    fn answer(&mut self, met: CastMet)
        requires room { HasReplyRoom self.old }
        requires left { 0 < length (tab_of self.old).left }
        ensures answered { tab_of self.new ≡ answered (met_of met) (tab_of self.old) }
        ensures kept { KeepsList self.old self.new }
    {
        self.replies.push_reserved(met);
    }

    /// Answers the numbers that stand first and need no step.
    fn catch_up(&mut self, base: &[u64], claims: usize)
        requires in_order { IsNonDecreasing base.now }
        requires room { HasReplyRoom self.old }
        ensures caught_up { tab_of self.new ≡ caught_up base.now claims (tab_of self.old) }
        ensures kept { KeepsList self.old self.new }
    {
        'answers: while let Some(number) = self.first() {
            match met_at_once(base, claims, number) {
                Some(met) => self.answer(met),
                None => return,
            }
        }
    }
}

/// What a number meets that needs no step.
fn met_at_once(base: &[u64], claims: usize, number: u64) -> Option<CastMet>
    requires { IsNonDecreasing base.now }
    ensures { MatchOption result (NeedsStep base.now claims number)
        (λ met. AnswersAtOnce base.now claims number (met_of met)) }
{
    if contains(base, number) {
        Some(CastMet::Held)
    } else if claims == 0 {
        Some(CastMet::Full)
    } else {
        None
    }
}

/// Whether a number is one of these, which are in order.
fn contains(sorted: &[u64], number: u64) -> bool
    requires { IsNonDecreasing sorted.now }
    ensures { IsTrue result ↔ Contains sorted.now number }
{
    sorted.binary_search(&number).is_ok()
}

/// One step of a tabulator on the shared words.
pub fn make_step(shape: &Shape, base: &[u64], words: &mut [u64], tab: &mut Tabulator) -> Stepped
    requires small { shape.now.cells + shape.now.claims < 2 ^ 32 }
    requires in_order { IsNonDecreasing base.now }
    requires room { HasReplyRoom tab.old }
    requires may_step { MayStep (table_of shape.now) words.old (tab_of tab.old) }
    ensures at_rest { (result ≡ Stepped.AtRest) ↔ IsDone (tab_of tab.old) }
    ensures unchanged { result ≡ Stepped.AtRest → (words.new ≡ words.old) × (tab.new ≡ tab.old) }
    ensures row { result ≡ Stepped.Step
        → TabSteps (table_of shape.now) base.now words.old (tab_of tab.old) words.new
        (tab_of tab.new) }
    ensures kept { HasReplyRoom tab.new }
{
    let Some(from) = tab.next_from() else {
        return Stepped::AtRest;
    };
    let found = perform(words, cast_act(shape, from));
    let (state, note) = cast_after(shape, from, found);
    tab.state = state;
    tab.tell(note);
    if let CastState::Rest = state {
        tab.catch_up(base, shape.claims);
    }
    Stepped::Step
}
