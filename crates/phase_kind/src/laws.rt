//! What is always so of teams. The function here states a law and does nothing.

ghost use Rattle.phase_kind.specs.Team.{HaveFinished};
ghost use Rattle.phase_kind.specs.Worker.{HasFinished, WorkerView};
ghost use Rattle.std.specs.Prelude.{◌↔◌, ◌∷◌, []};

use crate::Kind;

/// Where there is one phase, a team is one worker, and has finished where that worker has.
pub fn one_worker_is_a_team<K: Kind>()
    ensures { (before after : WorkerView K.Sight K.Item K.Reply)
        → HaveFinished K.rests (before ∷ []) (after ∷ []) ↔ HasFinished K.rests before after }
{}
