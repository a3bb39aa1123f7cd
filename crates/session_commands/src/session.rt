//! The command `session`: a medium is recovered, and a script is handled line by line.

ghost use Rattle.outside_io.specs.Outside.{input, output};
ghost use Rattle.run_outcome.specs.Status.{ended};
ghost use Rattle.run_outcome.specs.World.{IsAlone, nothing_reported};
ghost use Rattle.session_commands.specs.Session.{SessionRunEnds, reported, with_report};
ghost use Rattle.std.specs.Prelude.{◌≡◌};
ghost use Rattle.store_spec.specs.Disk.{disk_model};
ghost use Rattle.store_spec.specs.Election.{IsElection};

use crate::fault::status_of;
use ballot_record::Election;
use crash_disk::Disk;
use outside_io::{Sink, Source, Turns};
use phase_gate::{Report, Writing};
use run_outcome::Status;
use session_run::run_session;
use std::alloc::Global;
use std::thread::Threads;

/// Recovers a medium, and handles a script of ballots, withdrawals, finds and checkpoints.
pub fn session<R: Threads + Sync, S: Source, K: Sink, D: Disk, T: Turns>(
    rt: &R,
    alloc: Global,
    election: &Election,
    script: &mut S,
    out: &mut K,
    disk: &mut D,
    turns: &T,
    report: &mut Report,
) -> Result<(), Status>
    requires election { IsElection election.now }
    requires report { reported report.old ≡ nothing_reported }
    ensures ends { SessionRunEnds (disk_model D.seen D.calls D.may_leave D.faults) election.now (ended result)
        (input S.left S.faults script.old) (input S.left S.faults script.new)
        (with_report (output K.taken K.faults out.old) disk.old nothing_reported)
        (with_report (output K.taken K.faults out.new) disk.new (reported report.new)) }
    ensures alone { IsAlone (reported report.new) }
{
    match run_session(
        rt,
        alloc,
        election,
        script,
        out,
        disk,
        turns,
        Writing::All,
        report,
    ) {
        Ok(()) => Ok(()),
        Err(fault) => Err(status_of(fault)),
    }
}
