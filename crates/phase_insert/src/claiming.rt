//! One number at shared words, and the reply that it gets there.

ghost use Rattle.phase_insert.specs.Gains.{Gains, IsMet, IsNewTo, StepsFor};
ghost use Rattle.std.specs.Prelude.{◌≡◌, ◌≢◌, Contains};
ghost use Rattle.step_core.specs.Shape.{table_of};
ghost use Rattle.store_spec.specs.CastStep.CastState.{Rest};
ghost use Rattle.store_spec.specs.Layout.{numbers_in};

use crate::CastReply;
use step_core::CastNote;
use word_rule::{CastSeat, CastWords};

/// Casts a number that was not held at the opening. `claims` is how many claim words there are.
pub fn claim(words: &CastWords, claims: usize, seat: &mut CastSeat, number: u64) -> CastReply
    requires claims { claims ≡ words.now.shape.claims }
    requires some { number ≢ 0 }
    requires not_held { ¬ Contains (numbers_in words.now.base) number }
    requires belongs { seat.old.words ≡ words.now }
    requires at_rest { seat.old.view.state ≡ Rest }
    ensures words { seat.new.words ≡ seat.old.words }
    ensures met { IsMet result }
    ensures gains { Gains claims seat.old.view number result seat.new.view }
    ensures steps { StepsFor (table_of words.now.shape) seat.old.view number result seat.new.view }
    ensures new { result ≡ CastReply.Accepted → IsNewTo claims seat.old.view number }
{
    if claims == 0 {
        return CastReply::Full;
    }
    match words.cast(seat, number) {
        CastNote::Claimed => CastReply::Accepted,
        CastNote::Taken => CastReply::Taken,
        CastNote::Full => CastReply::Full,
        CastNote::Quiet | CastNote::Placed => unreachable!(),
    }
}
