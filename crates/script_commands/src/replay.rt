//! The command `replay`: what comes of a schedule of steps over a phase.

ghost use Rattle.outside_io.specs.Outside.{input, output, outside};
ghost use Rattle.run_outcome.specs.Status.{ended};
ghost use Rattle.script_commands.specs.Replay.{ReplayRunEnds, replay_status};
ghost use Rattle.std.specs.Prelude.{◌≡◌};

use ballot_record::Election;
use outside_io::{Sink, Source};
use run_outcome::{Status, Which};
use schedule_replay::ReplayFault;
use std::alloc::Global;

fn status_of(fault: ReplayFault) -> Status
    ensures { result ≡ replay_status fault }
{
    match fault {
        ReplayFault::BadLine { line, why } => Status::BadLine { line, why },
        ReplayFault::TooLong => Status::TooLong {
            which: Which::Script,
        },
        ReplayFault::ReadFault => Status::ReadFault {
            which: Which::Script,
        },
        ReplayFault::WriteFault => Status::WriteFault,
        ReplayFault::Memory => Status::Memory,
    }
}

/// Replays the schedule of a script over a phase, and writes what came of it.
pub fn replay<S: Source, K: Sink>(
    alloc: Global,
    election: &Election,
    script: &mut S,
    out: &mut K,
) -> Result<(), Status>
    ensures { ReplayRunEnds election.now (ended result)
        (outside (input S.left S.faults script.old) (output K.taken K.faults out.old))
        (outside (input S.left S.faults script.new) (output K.taken K.faults out.new)) }
{
    match schedule_replay::replay(alloc, election, script, out) {
        Ok(()) => Ok(()),
        Err(fault) => Err(status_of(fault)),
    }
}
