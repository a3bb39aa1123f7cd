//! Shared words of casting, and seats at which threads make its steps.

ghost use Rattle.std.specs.Prelude.{◌≡◌, ◌≢◌, ℕ, ◌+◌, ◌^◌, ◌<◌};
ghost use Rattle.step_core.specs.CastTables.{BeginsAt, note_of, state_of};
ghost use Rattle.step_core.specs.Shape.{table_of};
ghost use Rattle.store_spec.specs.CastStep.{cast_measure, cast_number, cast_view_after};
ghost use Rattle.store_spec.specs.CastStep.CastNote.{Quiet};
ghost use Rattle.store_spec.specs.CastStep.CastState.{Carrying, Probing, Rest};
ghost use Rattle.store_spec.specs.Measure.{Falls};
ghost use Rattle.word_rule.specs.CastSeats.{CastsByRows, IsAnswerNote, IsToldAlike, MakesNextRow, MakesRow, Probes};
ghost use Rattle.word_rule.specs.CastWords.{IsAbout, MayBeginWith};
ghost use Rattle.word_rule.specs.Chain.{Rows};

use crate::seats::{Known, PhaseRule, SeatOf};
use crate::steps::perform;
use crate::words::WordsOf;
use atomic_table::{Play, Seat};
use probe_order::first_claim_place;
use std::collections::LinkedList;
use std::marker::Model;
use step_core::{CastNote, CastState, Shape, cast_act_from, cast_after, cast_first};

/// What a seat of casting knows in its phase: its state, and the numbers that it has accepted, has found taken, and has
/// met full claim words for. No value of it is made.
pub struct CastSight {
    state: CastState,
    accepted: LinkedList<u64>,
    taken: LinkedList<u64>,
    full: LinkedList<u64>,
}

impl Model for CastSight {
    ghost use Rattle.step_core.specs.CastTables.{state_of};
    ghost use Rattle.store_spec.specs.CastStep.{CastView};

    ghost Value = { CastView };

    ghost view = { λ s. record {
      state = state_of s.state;
      accepted = s.accepted;
      taken = s.taken;
      full = s.full;
    } };
}

/// The casting invariant.
pub struct Casting;

impl PhaseRule<CastSight> for Casting {
    ghost use Rattle.store_spec.specs.CastStep.{fresh_cast_view, joined_cast_view};
    ghost use Rattle.word_rule.specs.CastSeats.{IsAtRest, IsCast};
    ghost use Rattle.word_rule.specs.CastWords.{AgreeOn, MayHold, StandsFor, cells_after};

    type Standing = Standing;

    ghost holds = { IsCast };

    ghost fresh = { fresh_cast_view };

    ghost both = { joined_cast_view };

    ghost rests = { IsAtRest };

    ghost may_open = { MayHold };

    ghost behind = { λ shape. shape.claims };

    ghost stands = { StandsFor };

    ghost cells_after = { cells_after };

    ghost agree_on = { AgreeOn };

    fn words_behind(shape: &Shape) -> usize {
        shape.claims
    }

    fn at_rest() -> Standing {
        Standing {
            state: CastState::Rest,
            first: 0,
        }
    }

    fn laws() {}
}

/// The first step of a number.
struct Begins;

impl Play<(), Known<CastSight>> for Begins {
    ghost use Rattle.word_rule.specs.CastSeats.{begins};

    ghost then = { begins };
}

/// A later step.
struct GoesOn;

impl Play<(), Known<CastSight>> for GoesOn {
    ghost use Rattle.word_rule.specs.CastSeats.{goes_on};

    ghost then = { goes_on };
}

/// Shared words of a casting phase: the cells, and behind them the claim words.
pub type CastWords = WordsOf<CastSight, Casting>;

/// What a seat is about, and the claim word at which the number that it probes for began.
#[derive(Clone, Copy, Drop)]
pub struct Standing {
    state: CastState,
    first: usize,
}

/// A seat at shared words of casting.
pub type CastSeat = SeatOf<CastSight, Casting>;

impl CastSeat {
    /// What it is about.
    pub fn state(&self) -> CastState
        ensures { state_of result ≡ self.now.view.state }
    {
        self.standing.state
    }
}

impl CastWords {
    /// The first step of a number, by a seat at rest: its first claim word is tried.
    pub fn first(&self, seat: &mut CastSeat, number: u64) -> CastNote
        requires belongs { seat.old.words ≡ self.now }
        requires at_rest { seat.old.view.state ≡ Rest }
        requires may_begin { MayBeginWith self.now number }
        ensures words { seat.new.words ≡ seat.old.words }
        ensures row { MakesRow (table_of self.now.shape) (Probing number 0) seat.old.view
            (note_of result) seat.new.view }
        ensures told_alike { IsToldAlike seat.old.view number (note_of result) }
    {
        let first = first_claim_place(number, self.shape.claims);
        let (state, note) = self.begin(self.shape, &mut seat.seat, number, first);
        *seat.standing = Standing { state, first };
        note
    }

    /// The next step of a seat that is not at rest.
    pub fn next(&self, seat: &mut CastSeat) -> CastNote
        requires belongs { seat.old.words ≡ self.now }
        requires moving { seat.old.view.state ≢ Rest }
        ensures words { seat.new.words ≡ seat.old.words }
        ensures row { MakesRow (table_of self.now.shape) seat.old.view.state seat.old.view
            (note_of result) seat.new.view }
        ensures told_alike { IsToldAlike seat.old.view (cast_number seat.old.view.state)
            (note_of result) }
        ensures falls { Falls (cast_measure (table_of self.now.shape) seat.new.view.state)
            (cast_measure (table_of self.now.shape) seat.old.view.state) }
    {
        let Standing { state, first } = *seat.standing;
        let (after, told) = self.step(self.shape, &mut seat.seat, state, first);
        seat.standing.state = after;
        told
    }

    /// All steps of a number, by a seat at rest: it is claimed, and then it and each number that it displaces is placed.
    /// `Claimed`, `Taken` or `Full` is told of it. The seat is at rest again, and no state of it is written meanwhile.
    pub fn cast(&self, seat: &mut CastSeat, number: u64) -> CastNote
        requires belongs { seat.old.words ≡ self.now }
        requires at_rest { seat.old.view.state ≡ Rest }
        requires may_begin { MayBeginWith self.now number }
        ensures words { seat.new.words ≡ seat.old.words }
        ensures answers { IsAnswerNote (note_of result) }
        ensures view { seat.new.view ≡ cast_view_after seat.old.view number Rest (note_of result) }
        ensures told_alike { IsToldAlike seat.old.view number (note_of result) }

        // The first step of the number led from the view of before to another, and so on by rows to the view after it.
        ensures chain { CastsByRows (table_of self.now.shape) number seat.old.view seat.new.view }
    {
        let (state, note) = self.claim(&mut seat.seat, number);
        if let CastState::Carrying { .. } = state {
            self.place(&mut seat.seat, state);
        }
        note
    }

    /// Tries one claim word after another, until one is won or holds the number, or none is left.
    #[inline(always)]
    fn claim(&self, seat: &mut Seat<(), Known<CastSight>>, number: u64) -> (CastState, CastNote)
        requires at_rest { IsAbout self.now Rest seat.old }
        requires may_begin { MayBeginWith self.now number }
        ensures about { IsAbout self.now (state_of result.0) seat.new }
        ensures probes { Probes (table_of self.now.shape) number seat.old.me.0.view
            (note_of result.1) seat.new.me.0.view }
        ensures chain { CastsByRows (table_of self.now.shape) number seat.old.me.0.view
            seat.new.me.0.view }
        ensures told { note_of result.1 ≢ Quiet }
        ensures told_alike { IsToldAlike seat.old.me.0.view number (note_of result.1) }
    {
        let shape = self.shape;
        let first = first_claim_place(number, shape.claims);
        let (state, note) = self.begin(shape, seat, number, first);
        let CastState::Probing { mut tries, .. } = state else {
            return (state, note);
        };
        'tries: loop {
            let probing = CastState::Probing { number, tries };
            let (after, told) = self.step(shape, seat, probing, first);
            let CastState::Probing { tries: more, .. } = after else {
                return (after, told);
            };
            tries = more;
        }
    }

    /// Places the number in hand, and each number that it displaces. A look at a cell comes before the exchanges for it.
    #[inline(always)]
    fn place(&self, seat: &mut Seat<(), Known<CastSight>>, in_hand: CastState)
        requires about { IsAbout self.now (state_of in_hand) seat.old }
        requires in_hand { (number place : ℕ) × (state_of in_hand ≡ Carrying number place) }
        ensures at_rest { IsAbout self.now Rest seat.new }
        ensures placed { seat.new.me.0.view ≡ record seat.old.me.0.view { state = Rest } }
        ensures rows { Rows (MakesNextRow (table_of self.now.shape)) seat.old.me.0.view
            seat.new.me.0.view }
    {
        let mut state = in_hand;
        'cells: while let CastState::Carrying { .. } = state {
            (state, _) = self.step(self.shape, seat, state, 0);
            'exchanges: while let CastState::Ready { .. } = state {
                (state, _) = self.step(self.shape, seat, state, 0);
            }
        }
    }

    /// The first step of a number, by a seat at rest: its first claim word is tried. The shape is handed in, so that a
    /// loop of steps reads it once.
    #[inline(always)]
    fn begin(
        &self,
        shape: Shape,
        seat: &mut Seat<(), Known<CastSight>>,
        number: u64,
        first: usize,
    ) -> (CastState, CastNote)
        requires own { shape ≡ self.now.shape }
        requires small { shape.cells + shape.claims < 2 ^ 32 }
        requires at_rest { IsAbout self.now Rest seat.old }
        requires may_begin { MayBeginWith self.now number }
        requires begins { BeginsAt (table_of self.now.shape) (Probing number 0) first }
        ensures about { IsAbout self.now (state_of result.0) seat.new }
        ensures begins { BeginsAt (table_of self.now.shape) (state_of result.0) first }
        ensures row { MakesRow (table_of self.now.shape) (Probing number 0) seat.old.me.0.view
            (note_of result.1) seat.new.me.0.view }
        ensures told_alike { IsToldAlike seat.old.me.0.view number (note_of result.1) }
    {
        let probing = CastState::Probing { number, tries: 0 };
        let act = cast_act_from(&shape, probing, first);
        let found = perform::<_, _, _, Begins>(&self.table.shared, seat, act);
        cast_first(&shape, number, found)
    }

    /// The next step of a seat that is about a state. While a number looks for a claim word, `first` is the one at which
    /// it began.
    #[inline(always)]
    fn step(
        &self,
        shape: Shape,
        seat: &mut Seat<(), Known<CastSight>>,
        state: CastState,
        first: usize,
    ) -> (CastState, CastNote)
        requires own { shape ≡ self.now.shape }
        requires small { shape.cells + shape.claims < 2 ^ 32 }
        requires about { IsAbout self.now (state_of state) seat.old }
        requires moving { state_of state ≢ Rest }
        requires begins { BeginsAt (table_of self.now.shape) (state_of state) first }
        ensures about { IsAbout self.now (state_of result.0) seat.new }
        ensures begins { BeginsAt (table_of self.now.shape) (state_of result.0) first }
        ensures row { MakesRow (table_of self.now.shape) (state_of state) seat.old.me.0.view
            (note_of result.1) seat.new.me.0.view }
        ensures told_alike { IsToldAlike seat.old.me.0.view (cast_number (state_of state))
            (note_of result.1) }
        ensures falls { Falls (cast_measure (table_of self.now.shape) (state_of result.0))
            (cast_measure (table_of self.now.shape) (state_of state)) }
    {
        let act = cast_act_from(&shape, state, first);
        let found = perform::<_, _, _, GoesOn>(&self.table.shared, seat, act);
        cast_after(&shape, state, found)
    }
}
