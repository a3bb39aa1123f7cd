//! The table of casting: what a tabulator does next, and what becomes of it by the word that it finds.

ghost use Rattle.std.specs.Prelude.{◌≡◌, ◌≢◌, ◌+◌, ◌^◌, ◌<◌, ◌≤◌};
ghost use Rattle.step_core.specs.Act.{act_of};
ghost use Rattle.step_core.specs.CastTables.{BeginsAt, FitsIn, LeadsTo, MayFind, note_of, state_of};
ghost use Rattle.step_core.specs.Shape.{table_of};
ghost use Rattle.store_spec.specs.CastStep.{cast_act};
ghost use Rattle.store_spec.specs.CastStep.CastState.{Carrying, Probing, Ready};

use crate::{Act, Shape};
use probe_order::{Order, claim_place_from, first_claim_place};

/// What a step tells.
#[derive(Clone, Copy, Debug, PartialEq, Eq)]
pub enum CastNote {
    /// Nothing.
    Quiet,
    /// The number was claimed here.
    Claimed,
    /// The number was claimed before.
    Taken,
    /// Each claim word holds another number.
    Full,
    /// The last number in hand was put into an empty cell.
    Placed,
}

/// What a tabulator is about.
#[derive(Clone, Copy, Debug, PartialEq, Eq)]
pub enum CastState {
    /// A number looks for a claim word, and so many were tried in vain.
    Probing {
        number: u64,
        tries: usize,
    },
    /// A number is in hand, before a cell.
    Carrying {
        number: u64,
        place: usize,
    },
    /// A number in hand is to take a cell from the lower word that was seen there.
    Ready {
        number: u64,
        place: usize,
        seen: u64,
    },
    /// Nothing.
    Rest,
}

/// What a tabulator does next.
pub fn cast_act(shape: &Shape, state: CastState) -> Act
    requires small { shape.now.cells + shape.now.claims < 2 ^ 32 }
    requires fits { FitsIn (table_of shape.now) (state_of state) }
    ensures { act_of result ≡ cast_act (table_of shape.now) (state_of state) }
{
    cast_act_from(shape, state, first_claim(shape, state))
}

/// What a tabulator does next, where it is known at which claim word its number began.
pub fn cast_act_from(shape: &Shape, state: CastState, first: usize) -> Act
    requires small { shape.now.cells + shape.now.claims < 2 ^ 32 }
    requires fits { FitsIn (table_of shape.now) (state_of state) }
    requires begins { BeginsAt (table_of shape.now) (state_of state) first }
    ensures { act_of result ≡ cast_act (table_of shape.now) (state_of state) }
{
    match state {
        CastState::Rest => Act::Nothing,
        CastState::Probing { number, tries } => Act::Trade {
            word: shape.cells + claim_place_from(first, tries, shape.claims),
            want: 0,
            put: number,
        },
        CastState::Carrying { place, .. } => Act::Load { word: place },
        CastState::Ready {
            number,
            place,
            seen,
        } => Act::Trade {
            word: place,
            want: seen,
            put: number,
        },
    }
}

/// The claim word at which the number of a state begins, while it looks for one.
fn first_claim(shape: &Shape, state: CastState) -> usize
    requires fits { FitsIn (table_of shape.now) (state_of state) }
    ensures { BeginsAt (table_of shape.now) (state_of state) result }
{
    match state {
        CastState::Probing { number, .. } => first_claim_place(number, shape.claims),
        _ => 0,
    }
}

/// What becomes of a tabulator whose act found this word.
pub fn cast_after(shape: &Shape, state: CastState, found: u64) -> (CastState, CastNote)
    requires small { shape.now.cells + shape.now.claims < 2 ^ 32 }
    requires fits { FitsIn (table_of shape.now) (state_of state) }
    requires may_find { MayFind (state_of state) found }
    ensures { LeadsTo (table_of shape.now) (state_of state) found (state_of result.0)
        (note_of result.1) }
{
    match state {
        CastState::Rest => unreachable!(),
        CastState::Probing { number, tries } => after_probe(shape, number, tries, found),
        CastState::Carrying { number, place } => {
            (after_look(number, place, found), CastNote::Quiet)
        }
        CastState::Ready {
            number,
            place,
            seen,
        } => {
            if found != seen {
                (after_look(number, place, found), CastNote::Quiet)
            } else if seen == 0 {
                (CastState::Rest, CastNote::Placed)
            } else {
                let displaced = CastState::Carrying {
                    number: seen,
                    place: place + 1,
                };
                (displaced, CastNote::Quiet)
            }
        }
    }
}

/// What becomes of a tabulator at rest whose first step for a number found this claim word.
pub fn cast_first(shape: &Shape, number: u64, found: u64) -> (CastState, CastNote)
    requires some { number ≢ 0 }
    requires claims { shape.now.claims ≢ 0 }
    ensures { LeadsTo (table_of shape.now) (Probing number 0) found (state_of result.0)
        (note_of result.1) }
{
    after_probe(shape, number, 0, found)
}

fn after_probe(shape: &Shape, number: u64, tries: usize, found: u64) -> (CastState, CastNote)
    requires { FitsIn (table_of shape.now) (Probing number tries) }
    ensures { LeadsTo (table_of shape.now) (Probing number tries) found (state_of result.0)
        (note_of result.1) }
{
    let claims = shape.claims;
    if found == 0 {
        let carrying = CastState::Carrying {
            number,
            place: shape.order.home(number),
        };
        (carrying, CastNote::Claimed)
    } else if found == number {
        (CastState::Rest, CastNote::Taken)
    } else if tries + 1 < claims {
        let probing = CastState::Probing {
            number,
            tries: tries + 1,
        };
        (probing, CastNote::Quiet)
    } else {
        (CastState::Rest, CastNote::Full)
    }
}

// A number in hand passes a greater word, and is ready to take the place of a lower one.
fn after_look(number: u64, place: usize, found: u64) -> CastState
    requires fits { place + 1 < 2 ^ 64 }
    ensures passes { number < found → state_of result ≡ Carrying number (place + 1) }
    ensures ready { found ≤ number → state_of result ≡ Ready number place found }
{
    if found > number {
        CastState::Carrying {
            number,
            place: place + 1,
        }
    } else {
        CastState::Ready {
            number,
            place,
            seen: found,
        }
    }
}
