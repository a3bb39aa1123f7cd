//! The command `large`: a session on a generated script, which writes the summary of its replies.

ghost use Rattle.outside_io.specs.Outside.{output};
ghost use Rattle.run_outcome.specs.Status.{ended};
ghost use Rattle.run_outcome.specs.World.{nothing_reported};
ghost use Rattle.session_commands.specs.Large.{LargeEnds};
ghost use Rattle.session_commands.specs.Session.{reported};
ghost use Rattle.std.specs.Prelude.{◌≡◌};
ghost use Rattle.store_spec.specs.Disk.{disk_model};
ghost use Rattle.store_spec.specs.Election.{IsElection};
ghost use Rattle.store_spec.specs.ScriptLine.{IsTab};

use crate::fault::status_of;
use ballot_record::Election;
use crash_disk::Disk;
use large_options::Options;
use outside_io::{Sink, Turns};
use phase_gate::{Report, Writing};
use run_outcome::Status;
use script_lines::GeneratedScript;
use session_run::run_session;
use std::alloc::Global;
use std::thread::Threads;

/// Casts the ballots that the options generate on the medium, withdraws every tenth of them, makes a checkpoint, and
/// writes how many are held and their tally.
pub fn large<R: Threads + Sync, K: Sink, D: Disk, T: Turns>(
    rt: &R,
    alloc: Global,
    options: Options,
    election: &Election,
    out: &mut K,
    disk: &mut D,
    turns: &T,
    report: &mut Report,
) -> Result<(), Status>
    requires tabs { IsTab options.tabs }
    requires election { IsElection election.now }
    requires report { reported report.old ≡ nothing_reported }
    ensures { LargeEnds (disk_model D.seen D.calls D.may_leave D.faults)
        election.now options (ended result) (reported report.new)
        (output K.taken K.faults out.old) (output K.taken K.faults out.new) disk.old disk.new }
{
    let mut script = GeneratedScript::new(
        alloc,
        options.seed,
        options.count,
        options.tabs,
        election,
    )?;
    match run_session(
        rt,
        alloc,
        election,
        &mut script,
        out,
        disk,
        turns,
        Writing::Summary,
        report,
    ) {
        Ok(()) => Ok(()),
        Err(fault) => Err(status_of(fault)),
    }
}
