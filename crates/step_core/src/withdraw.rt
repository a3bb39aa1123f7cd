//! The table of withdrawing: what a withdrawer does next, and what becomes of it by the word that it finds.

ghost use Rattle.std.specs.Prelude.{◌≡◌, ◌≢◌, ℕ, ◌+◌, ◌^◌, ◌<◌, ◌≤◌, ◌↔◌, IsTrue};
ghost use Rattle.step_core.specs.Act.{act_of};
ghost use Rattle.step_core.specs.Shape.{homes_of};
ghost use Rattle.step_core.specs.WithdrawTables.{FitsIn, LeadsTo, MayFind, note_of, state_of};
ghost use Rattle.store_spec.specs.WithdrawStep.{FirstRow, Fits, withdraw_act};
ghost use Rattle.store_spec.specs.WithdrawStep.WithdrawState.{Chosen, Owing, Up, Down};

use crate::{Act, Shape};
use probe_order::Order;

/// What a withdrawer is about.
#[derive(Clone, Copy, Debug, PartialEq, Eq)]
pub enum WithdrawState {
    /// Nothing.
    Rest,
    /// A number is chosen, and its place is looked for from its home on.
    Chosen {
        number: u64,
        place: usize,
    },
    /// One removal of a number is owed, from the cell at the bound or one below.
    Owing {
        number: u64,
        bound: usize,
    },
    /// Something to fill the hole at the bound is looked for upwards.
    Up {
        number: u64,
        bound: usize,
        place: usize,
    },
    /// A candidate was seen in the cell `source`, and a lower one is looked for on the way down to the hole.
    Down {
        number: u64,
        bound: usize,
        place: usize,
        candidate: u64,
        source: usize,
    },
}

/// What a step tells.
#[derive(Clone, Copy, Debug, PartialEq, Eq)]
pub enum WithdrawNote {
    /// Nothing.
    Quiet,
    /// The number was taken before.
    Gone,
    /// The removal of the number is begun here.
    Begun,
    /// The last removal that was owed is made.
    Done,
}

/// What a withdrawer does next.
pub fn withdraw_act(shape: &Shape, state: WithdrawState) -> Act
    requires small { shape.now.cells + shape.now.claims < 2 ^ 32 }
    requires fits { FitsIn shape.now.cells (state_of state) }
    ensures { act_of result ≡ withdraw_act (state_of state) }
{
    match state {
        WithdrawState::Rest => Act::Nothing,
        WithdrawState::Chosen { place, .. } => Act::Load { word: place },
        WithdrawState::Owing { bound, .. } => Act::Load { word: bound },
        WithdrawState::Up { place, .. } => Act::Load { word: place },
        WithdrawState::Down {
            number,
            bound,
            place,
            candidate,
            ..
        } => {
            if place == bound {
                Act::Trade {
                    word: bound,
                    want: number,
                    put: candidate,
                }
            } else {
                Act::Load { word: place }
            }
        }
    }
}

/// What becomes of a withdrawer whose act found this word.
pub fn withdraw_after(
    shape: &Shape,
    state: WithdrawState,
    found: u64,
) -> (WithdrawState, WithdrawNote)
    requires small { shape.now.cells + shape.now.claims < 2 ^ 32 }
    requires fits { FitsIn shape.now.cells (state_of state) }
    requires may_find { MayFind (state_of state) found }
    ensures { LeadsTo (homes_of shape.now) (state_of state) found
        (state_of result.0) (note_of result.1) }
{
    match state {
        WithdrawState::Rest => unreachable!(),
        WithdrawState::Chosen { number, place } => after_walk(number, place, found),
        WithdrawState::Owing { number, bound } => after_owed(number, bound, found),
        WithdrawState::Up {
            number,
            bound,
            place,
        } => after_up(shape, number, bound, place, found),
        WithdrawState::Down {
            number,
            bound,
            place,
            candidate,
            source,
        } => {
            if place == bound {
                after_exchange(number, bound, candidate, source, found)
            } else {
                after_down(shape, number, bound, place, candidate, source, found)
            }
        }
    }
}

/// On the walk a greater word is passed. Before another one the walk ends, and a removal is owed from here on down.
fn after_walk(number: u64, place: usize, found: u64) -> (WithdrawState, WithdrawNote)
    requires { place < 2 ^ 32 }
    ensures { (home : ℕ → ℕ) → LeadsTo home (Chosen number place) found
        (state_of result.0) (note_of result.1) }
{
    if found > number {
        let place = place + 1;
        (WithdrawState::Chosen { number, place }, WithdrawNote::Quiet)
    } else {
        let bound = place;
        (WithdrawState::Owing { number, bound }, WithdrawNote::Begun)
    }
}

/// The owed number is at its bound, and leaves a hole there, or is lower.
fn after_owed(number: u64, bound: usize, found: u64) -> (WithdrawState, WithdrawNote)
    requires small { bound < 2 ^ 32 }
    requires lower { found ≢ number → 0 < bound }
    ensures { (home : ℕ → ℕ) → LeadsTo home (Owing number bound) found
        (state_of result.0) (note_of result.1) }
{
    let state = if found == number {
        let place = bound + 1;
        WithdrawState::Up {
            number,
            bound,
            place,
        }
    } else {
        let bound = bound - 1;
        WithdrawState::Owing { number, bound }
    };
    (state, WithdrawNote::Quiet)
}

/// A word that fits the hole is a candidate, and the way goes down again. Any other is passed.
fn after_up(
    shape: &Shape,
    number: u64,
    bound: usize,
    place: usize,
    found: u64,
) -> (WithdrawState, WithdrawNote)
    requires small { place < 2 ^ 32 }
    requires above { bound < place }
    ensures { LeadsTo (homes_of shape.now) (Up number bound place) found
        (state_of result.0) (note_of result.1) }
{
    let state = if fits(shape, number, bound, found) {
        WithdrawState::Down {
            number,
            bound,
            place: place - 1,
            candidate: found,
            source: place,
        }
    } else {
        let place = place + 1;
        WithdrawState::Up {
            number,
            bound,
            place,
        }
    };
    (state, WithdrawNote::Quiet)
}

/// Above the hole, on the way down to it: a word that fits is the candidate from here on.
fn after_down(
    shape: &Shape,
    number: u64,
    bound: usize,
    place: usize,
    candidate: u64,
    source: usize,
    found: u64,
) -> (WithdrawState, WithdrawNote)
    requires { bound < place }
    ensures { LeadsTo (homes_of shape.now) (Down number bound place candidate source) found
        (state_of result.0) (note_of result.1) }
{
    let below = place - 1;
    let state = if fits(shape, number, bound, found) {
        WithdrawState::Down {
            number,
            bound,
            place: below,
            candidate: found,
            source: place,
        }
    } else {
        WithdrawState::Down {
            number,
            bound,
            place: below,
            candidate,
            source,
        }
    };
    (state, WithdrawNote::Quiet)
}

/// At the hole: where the number stood there still, the candidate stands there now, and its other copy is owed. Where it
/// did not, the removal is owed from a cell below.
fn after_exchange(
    number: u64,
    bound: usize,
    candidate: u64,
    source: usize,
    found: u64,
) -> (WithdrawState, WithdrawNote)
    requires { found ≢ number → 0 < bound }
    ensures { (home : ℕ → ℕ) → LeadsTo home (Down number bound bound candidate source) found
        (state_of result.0) (note_of result.1) }
{
    if found != number {
        let bound = bound - 1;
        (WithdrawState::Owing { number, bound }, WithdrawNote::Quiet)
    } else if candidate == 0 {
        (WithdrawState::Rest, WithdrawNote::Done)
    } else {
        let owed = WithdrawState::Owing {
            number: candidate,
            bound: source,
        };
        (owed, WithdrawNote::Quiet)
    }
}

/// What becomes of a withdrawer at rest whose first step for a number found this flag.
pub fn withdraw_first(shape: &Shape, number: u64, found: u64) -> (WithdrawState, WithdrawNote)
    requires some { number ≢ 0 }
    requires flag { found ≤ 1 }
    ensures { FirstRow (homes_of shape.now) number found (state_of result.0) (note_of result.1) }
{
    if found == 1 {
        return (WithdrawState::Rest, WithdrawNote::Gone);
    }
    let place = shape.order.home(number);
    (WithdrawState::Chosen { number, place }, WithdrawNote::Quiet)
}

/// Whether a word fits the hole that a number leaves.
fn fits(shape: &Shape, number: u64, hole: usize, word: u64) -> bool
    ensures { IsTrue result ↔ Fits (homes_of shape.now) number hole word }
{
    word == 0 || (word < number && shape.order.home(word) <= hole)
}
