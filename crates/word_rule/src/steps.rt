//! One act of a table of steps, as one atomic step on a shared word.

ghost use Rattle.std.specs.Prelude.{◌≡◌, ◌<◌};
ghost use Rattle.atomic_table.specs.Table.{Allows};
ghost use Rattle.step_core.specs.Act.{act_of};
ghost use Rattle.store_spec.specs.Act.{left_by, word_of};
ghost use Rattle.word_rule.specs.Steps.{IsStep, step_of};

use atomic_table::{Play, Seat, Shared, TableRule};
use step_core::Act;

/// Makes an act, and gives the word that it found.
pub fn perform<V, K, P: TableRule<(), V, K>, M: Play<(), V>>(
    shared: &Shared<(), V, K, P>,
    seat: &mut Seat<(), V>,
    act: Act,
) -> u64
    requires acts { IsStep (act_of act) }
    requires table { seat.old.table_id ≡ shared.now.table_id }
    requires within { word_of (act_of act) < shared.now.table_id.words }
    requires rule { Allows (P.holds shared.now.key) shared.now.table_id.slots seat.old.id
        seat.old.me (word_of (act_of act)) (left_by (act_of act))
        (M.then (step_of shared.now.table_id.slots (act_of act)) seat.old.me) }
    ensures table { seat.new.table_id ≡ seat.old.table_id }
    ensures told { M.then (step_of shared.now.table_id.slots (act_of act)) seat.old.me result
        seat.new.me }
{
    match act {
        Act::Nothing => unreachable!(),
        Act::Load { word } => shared.load::<M>(seat, word),
        Act::Swap { word, put } => shared.swap::<M>(seat, word, put),
        Act::Trade { word, want, put } => shared.compare_exchange::<M>(seat, word, want, put),
    }
}
