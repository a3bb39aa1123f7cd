//! Shared words of withdrawing, and seats at which threads make its steps.

ghost use Rattle.std.specs.Prelude.{◌≡◌, ◌≢◌, ◌⊎◌, ℕ, ◌+◌, ◌^◌, ◌<◌, Contains};
ghost use Rattle.step_core.specs.Shape.{homes_of};
ghost use Rattle.step_core.specs.WithdrawTables.{note_of, state_of};
ghost use Rattle.store_spec.specs.Measure.{Falls};
ghost use Rattle.store_spec.specs.WithdrawStep.{StandsInBase, withdraw_number, withdraw_measure};
ghost use Rattle.store_spec.specs.WithdrawStep.WithdrawNote.{Gone};
ghost use Rattle.store_spec.specs.WithdrawStep.WithdrawState.{Chosen, Rest};
ghost use Rattle.word_rule.specs.Chain.{Rows};
ghost use Rattle.word_rule.specs.WithdrawRemoval.{HasRemoved, Removes};
ghost use Rattle.word_rule.specs.WithdrawWords.{IsAbout, MakesFirstRow, MakesRow, WithdrawsByRows};

use crate::seats::{Known, PhaseRule, SeatOf};
use crate::steps::perform;
use crate::words::WordsOf;
use atomic_table::{Play, Seat};
use std::collections::LinkedList;
use std::marker::Model;
use step_core::{
    Act, Shape, WithdrawNote, WithdrawState, withdraw_act, withdraw_after, withdraw_first,
};

/// What a seat of withdrawing knows in its phase: its state, and the numbers whose removal it has begun and that it has
/// found gone. No value of it is made.
pub struct WithdrawSight {
    state: WithdrawState,
    begun: LinkedList<u64>,
    gone: LinkedList<u64>,
}

impl Model for WithdrawSight {
    ghost use Rattle.step_core.specs.WithdrawTables.{state_of};
    ghost use Rattle.store_spec.specs.WithdrawStep.{WithdrawView};

    ghost Value = { WithdrawView };

    ghost view = { λ s. record { state = state_of s.state; begun = s.begun; gone = s.gone } };
}

/// The withdrawing invariant.
pub struct Withdrawing;

impl PhaseRule<WithdrawSight> for Withdrawing {
    ghost use Rattle.store_spec.specs.WithdrawStep.{fresh_withdraw_view};
    ghost use Rattle.word_rule.specs.WithdrawSeats.{IsAtRest, IsWithdrawn, joined_withdraw_view};
    ghost use Rattle.word_rule.specs.WithdrawWords.{AgreeOn, MayEmpty, StandsFor, cells_after};

    type Standing = WithdrawState;

    ghost holds = { IsWithdrawn };

    ghost fresh = { fresh_withdraw_view };

    ghost both = { joined_withdraw_view };

    ghost rests = { IsAtRest };

    ghost may_open = { MayEmpty };

    ghost behind = { λ shape. shape.cells };

    ghost stands = { StandsFor };

    ghost cells_after = { cells_after };

    ghost agree_on = { AgreeOn };

    fn words_behind(shape: &Shape) -> usize {
        shape.cells
    }

    fn at_rest() -> WithdrawState {
        WithdrawState::Rest
    }

    fn laws() {}
}

/// The first step for a number, on its flag.
struct Begins;

impl Play<(), Known<WithdrawSight>> for Begins {
    ghost use Rattle.word_rule.specs.WithdrawSeats.{Began};

    ghost then = { Began };
}

/// A later step.
struct GoesOn;

impl Play<(), Known<WithdrawSight>> for GoesOn {
    ghost use Rattle.word_rule.specs.WithdrawSeats.{TookNextRow};

    ghost then = { TookNextRow };
}

/// Shared words of a withdrawing phase: the cells, and behind them a flag for each.
pub type WithdrawWords = WordsOf<WithdrawSight, Withdrawing>;

/// A seat at shared words of withdrawing.
pub type WithdrawSeat = SeatOf<WithdrawSight, Withdrawing>;

impl WithdrawSeat {
    /// What it is about.
    pub fn state(&self) -> WithdrawState
        ensures { state_of result ≡ self.now.view.state }
    {
        *self.standing
    }
}

impl WithdrawWords {
    /// The first step for a number, by a seat at rest: a swap of the flag of the cell that held the number at the
    /// opening.
    pub fn first(&self, seat: &mut WithdrawSeat, number: u64, place: usize) -> WithdrawNote
        requires belongs { seat.old.words ≡ self.now }
        requires at_rest { seat.old.view.state ≡ Rest }
        requires seated { StandsInBase self.now.base number place }
        ensures words { seat.new.words ≡ seat.old.words }
        ensures row { MakesFirstRow (homes_of self.now.shape) number seat.old.view
            (note_of result) seat.new.view }

        // A number whose removal the seat has begun, or that it has found gone, is found gone.
        ensures again { Contains seat.old.view.begun number ⊎ Contains seat.old.view.gone number
            → note_of result ≡ Gone }
    {
        let (state, note) = self.begin(&mut seat.seat, number, place);
        *seat.standing = state;
        note
    }

    /// The next step of a seat that is not at rest.
    pub fn next(&self, seat: &mut WithdrawSeat) -> WithdrawNote
        requires belongs { seat.old.words ≡ self.now }
        requires moving { seat.old.view.state ≢ Rest }
        ensures words { seat.new.words ≡ seat.old.words }
        ensures row { MakesRow (homes_of self.now.shape) seat.old.view (note_of result)
            seat.new.view }
        ensures falls { Falls (withdraw_measure self.now.shape.cells seat.new.view.state)
            (withdraw_measure self.now.shape.cells seat.old.view.state) }
    {
        let state = *seat.standing;
        let (after, told) = self.step(self.shape, &mut seat.seat, state);
        *seat.standing = after;
        told
    }

    /// All steps for a number, by a seat at rest, which is at rest after them: `Begun` where it is removed, and each hole
    /// that this leaves is filled, `Gone` where its removal was begun before. Meanwhile the seat's state is in no memory.
    pub fn withdraw(&self, seat: &mut WithdrawSeat, number: u64, place: usize) -> WithdrawNote
        requires belongs { seat.old.words ≡ self.now }
        requires at_rest { seat.old.view.state ≡ Rest }
        requires seated { StandsInBase self.now.base number place }
        ensures words { seat.new.words ≡ seat.old.words }
        ensures removes { Removes number seat.old.view (note_of result) seat.new.view }

        // The first step for the number led from the view of before to another, and so on by rows to the view after it.
        ensures chain { WithdrawsByRows (homes_of self.now.shape) number seat.old.view
            seat.new.view }

        // A number whose removal the seat has begun, or that it has found gone, is found gone.
        ensures again { Contains seat.old.view.begun number ⊎ Contains seat.old.view.gone number
            → note_of result ≡ Gone }
    {
        let (state, note) = self.begin(&mut seat.seat, number, place);
        let WithdrawState::Chosen { .. } = state else {
            return note;
        };
        self.remove(&mut seat.seat, state);
        WithdrawNote::Begun
    }

    /// Walks to the number that is chosen, and removes it and each number that is to fill the hole of the one before.
    #[inline(always)]
    fn remove(&self, seat: &mut Seat<(), Known<WithdrawSight>>, chosen: WithdrawState)
        requires about { IsAbout self.now (state_of chosen) seat.old }
        requires chosen { (number place : ℕ) × (state_of chosen ≡ Chosen number place) }
        ensures at_rest { IsAbout self.now Rest seat.new }
        ensures removed { HasRemoved (withdraw_number (state_of chosen)) seat.old.me.0.view
            seat.new.me.0.view }
        ensures rows { Rows (MakesRow (homes_of self.now.shape)) seat.old.me.0.view
            seat.new.me.0.view }
    {
        let shape = self.shape;
        let mut state = chosen;
        'walk: while let WithdrawState::Chosen { .. } = state {
            (state, _) = self.step(shape, seat, state);
        }
        'owed: while let WithdrawState::Owing { .. } = state {
            (state, _) = self.step(shape, seat, state);
            'up: while let WithdrawState::Up { .. } = state {
                (state, _) = self.step(shape, seat, state);
            }
            'down: while let WithdrawState::Down { .. } = state {
                (state, _) = self.step(shape, seat, state);
            }
        }
    }

    /// The first step for a number, by a seat at rest: a swap of the flag of its cell.
    #[inline(always)]
    fn begin(
        &self,
        seat: &mut Seat<(), Known<WithdrawSight>>,
        number: u64,
        place: usize,
    ) -> (WithdrawState, WithdrawNote)
        requires at_rest { IsAbout self.now Rest seat.old }
        requires seated { StandsInBase self.now.base number place }
        ensures about { IsAbout self.now (state_of result.0) seat.new }
        ensures row { MakesFirstRow (homes_of self.now.shape) number seat.old.me.0.view
            (note_of result.1) seat.new.me.0.view }
        ensures again { Contains seat.old.me.0.view.begun number
            ⊎ Contains seat.old.me.0.view.gone number → note_of result.1 ≡ Gone }
    {
        let word = self.shape.cells + place;
        let act = Act::Swap { word, put: 1 };
        let found = perform::<_, _, _, Begins>(&self.table.shared, seat, act);
        withdraw_first(&self.shape, number, found)
    }

    /// The next step of a seat that is about a state. The shape is handed in, so that a loop of steps reads it once.
    #[inline(always)]
    fn step(
        &self,
        shape: Shape,
        seat: &mut Seat<(), Known<WithdrawSight>>,
        state: WithdrawState,
    ) -> (WithdrawState, WithdrawNote)
        requires own { shape ≡ self.now.shape }
        requires small { shape.cells + shape.claims < 2 ^ 32 }
        requires about { IsAbout self.now (state_of state) seat.old }
        requires moving { state_of state ≢ Rest }
        ensures about { IsAbout self.now (state_of result.0) seat.new }
        ensures row { MakesRow (homes_of self.now.shape) seat.old.me.0.view (note_of result.1)
            seat.new.me.0.view }
        ensures falls { Falls (withdraw_measure self.now.shape.cells (state_of result.0))
            (withdraw_measure self.now.shape.cells (state_of state)) }
    {
        let act = withdraw_act(&shape, state);
        let found = perform::<_, _, _, GoesOn>(&self.table.shared, seat, act);
        withdraw_after(&shape, state, found)
    }
}
