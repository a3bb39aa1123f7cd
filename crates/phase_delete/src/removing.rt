//! One number at shared words: its flag is set, and then it and each number that takes its place is removed.

ghost use Rattle.phase_delete.specs.Gains.{Gains, IsNewTo, IsRemoval, StepsFor};
ghost use Rattle.phase_delete.specs.Replies.{IsReply, claims_none};
ghost use Rattle.phase_kind.specs.Phase.{IsPhase};
ghost use Rattle.std.specs.Prelude.{◌≡◌};
ghost use Rattle.step_core.specs.Shape.{homes_of};
ghost use Rattle.store_spec.specs.WithdrawStep.{StandsInBase};
ghost use Rattle.store_spec.specs.WithdrawStep.WithdrawState.{Rest};

use body_store::Closed;
use layout_def::place_of;
use step_core::{Shape, WithdrawNote, WithdrawReply};
use word_rule::{WithdrawSeat, WithdrawWords};

/// Withdraws a number from a seat at the words of a phase of a store.
pub fn withdraw(
    closed: &Closed,
    shape: &Shape,
    words: &WithdrawWords,
    seat: &mut WithdrawSeat,
    number: u64,
) -> WithdrawReply
    requires phase { IsPhase claims_none closed.now words.now shape.now }
    requires belongs { seat.old.words ≡ words.now }
    requires at_rest { seat.old.view.state ≡ Rest }
    ensures words { seat.new.words ≡ seat.old.words }
    ensures reply { IsReply (record { base = closed.now; words = words.now }) seat.old.view number
        result seat.new.view }
{
    if number == 0 {
        return WithdrawReply::Absent;
    }
    match place_of(&shape.order, closed.cells(), number) {
        Some(cell) => remove(words, seat, number, cell),
        None => WithdrawReply::Absent,
    }
}

/// Removes a number that stood in this cell at the opening, unless another did so before.
fn remove(
    words: &WithdrawWords,
    seat: &mut WithdrawSeat,
    number: u64,
    place: usize,
) -> WithdrawReply
    requires belongs { seat.old.words ≡ words.now }
    requires at_rest { seat.old.view.state ≡ Rest }
    requires seated { StandsInBase words.now.base number place }
    ensures words { seat.new.words ≡ seat.old.words }
    ensures removal { IsRemoval result }
    ensures gains { Gains seat.old.view number result seat.new.view }
    ensures steps { StepsFor (homes_of words.now.shape) seat.old.view number result seat.new.view }
    ensures new { result ≡ WithdrawReply.Withdrawn → IsNewTo seat.old.view number }
{
    match words.withdraw(seat, number, place) {
        WithdrawNote::Begun => WithdrawReply::Withdrawn,
        _ => WithdrawReply::Gone,
    }
}
