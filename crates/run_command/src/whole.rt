//! A whole run, from its words to its status.

ghost use Rattle.std.specs.Prelude.{◌≡◌, ◌-◌, ◌≤◌, All, is_some, length, map, string_bytes};
ghost use Rattle.run_command.specs.Command.{Forms, row};
ghost use Rattle.run_command.specs.Outcome.{Ends};
ghost use Rattle.large_options.specs.declared.options.Options.{Options};
ghost use Rattle.outside_io.specs.Outside.{input, output};
ghost use Rattle.partition_store.specs.Parted.{AreFurther};
ghost use Rattle.run_outcome.specs.Row.{CommandEnds};
ghost use Rattle.run_outcome.specs.Status.{ended};
ghost use Rattle.run_outcome.specs.World.{nothing_reported, world};
ghost use Rattle.session_commands.specs.Session.{reported};
ghost use Rattle.store_spec.specs.Disk.{disk_model};
ghost use Rattle.store_spec.specs.Election.{IsElection};
ghost use Rattle.store_spec.specs.ScriptLine.{IsTab};

use crate::command::{Command, command_of};
use crate::election::election_from;
use ballot_record::Election;
use crash_disk::Disk;
use medium_commands::audit::audit;
use medium_commands::init::init;
use merge_commands::merge::merge;
use migrate_commands::migrate::migrate;
use outside_io::{Sink, Source, Turns};
use part_commands::part::part;
use phase_gate::Report;
use run_outcome::Status;
use sample_commands::compare::compare;
use sample_commands::sample::sample;
use script_commands::build::build;
use script_commands::replay::replay;
use session_commands::large::large;
use session_commands::session::session;
use std::alloc::Global;
use std::thread::Threads;
use twin_commands::twin::twin;

/// Carries out the command that the words form, under the election that its source describes:
///
/// - `MEDIUM ELECTION build` writes the image of the set of the script's record lines to the sink;
/// - `MEDIUM ELECTION init` makes an unused disk the medium of the empty set;
/// - `MEDIUM ELECTION session` recovers the medium and handles a script of ballots, withdrawals, finds and checkpoints;
/// - `MEDIUM ELECTION audit` writes whether the medium is that of the set that it holds, or where it first differs;
/// - `MEDIUM ELECTION replay` replays the schedule of a script over a phase;
/// - `MEDIUM ELECTION large --seed S --count C --tabs T` handles the script that these options generate as a session does,
///   and writes the summary of its replies;
/// - `MEDIUM ELECTION sample DICE K` writes the K ballots of the medium whose tickets under the dice are the least;
/// - `MEDIUM ELECTION compare DICE K` compares the script's record lines with that sample;
/// - `MEDIUM ELECTION merge MORE ..` makes the medium that of the union of its own set and those of further media, one to
///   eight;
/// - `MEDIUM ELECTION migrate TARGET` makes an unused target, under an election of version 2, the medium of the ballots that
///   the medium holds in version 1;
/// - `MEDIUM ELECTION twin SECOND` makes two disks the medium of one set, and handles a script on both as a session does;
/// - `MEDIUM ELECTION part MORE ..` handles a script as a session does over the media of a store in parts, the medium and one,
///   three or seven more, of which each holds the numbers with its top bits.
///
/// The report has how many calls each disk had seen at each checkpoint that a session acknowledged, how many two disks had
/// seen when they were a pair, and how many ballots the last closed store held. `more` has a disk for each word after the
/// third. Of two disks that are to become a pair both have to tell their bytes, or neither.
#[tactic(auto, using(crate::proofs::Runs::not_usage))]
pub fn run<R: Threads + Sync, E: Source, S: Source, K: Sink, D: Disk, T: Turns>(
    rt: &R,
    alloc: Global,
    words: &[String],
    election: &mut E,
    script: &mut S,
    out: &mut K,
    disk: &mut D,
    more: &mut [D],
    turns: &T,
) -> (Status, Report)
    requires more { length more.old ≡ length words.now - 3 }
    requires told { Forms (map string_bytes words.now) Command.Twin
        → All (λ second. is_some (D.seen second) ≡ is_some (D.seen disk.old)) more.old }
    ensures ends { Ends (disk_model D.seen D.calls D.may_leave D.faults)
        (map string_bytes words.now) result.0 (reported result.1)
        (input E.left E.faults election.old) (input E.left E.faults election.new)
        (world (input S.left S.faults script.old) (output K.taken K.faults out.old) disk.old more.old)
        (world (input S.left S.faults script.new) (output K.taken K.faults out.new) disk.new more.new) }
{
    let mut report = Report::new(alloc);
    let command = match command_of(alloc, words) {
        Ok(Some(command)) => command,
        Ok(None) => return (Status::Usage, report),
        Err(_) => return (Status::Memory, report),
    };
    let election = match election_from(alloc, election) {
        Ok(election) => election,
        Err(status) => return (status, report),
    };
    match carry_out(
        rt,
        alloc,
        command,
        &election,
        script,
        out,
        disk,
        more,
        turns,
        &mut report,
    ) {
        Ok(()) => (Status::Ok, report),
        Err(status) => (status, report),
    }
}

/// Carries out a command under an election.
fn carry_out<R: Threads + Sync, S: Source, K: Sink, D: Disk, T: Turns>(
    rt: &R,
    alloc: Global,
    command: Command,
    election: &Election,
    script: &mut S,
    out: &mut K,
    disk: &mut D,
    more: &mut [D],
    turns: &T,
    report: &mut Report,
) -> Result<(), Status>
    requires options { (o : Options) → command ≡ Command.Large o → IsTab o.tabs }
    requires election { IsElection election.now }
    requires more { command ≡ Command.Merge → length more.old ≤ 8 }
    requires target { command ≡ Command.Migrate → length more.old ≡ 1 }
    requires second { command ≡ Command.Twin → length more.old ≡ 1 }
    requires told { command ≡ Command.Twin
        → All (λ second. is_some (D.seen second) ≡ is_some (D.seen disk.old)) more.old }
    requires parts { command ≡ Command.Part → AreFurther (length more.old) }
    requires report { reported report.old ≡ nothing_reported }
    ensures { CommandEnds (disk_model D.seen D.calls D.may_leave D.faults)
        (row command) election.now (ended result) (reported report.new)
        (world (input S.left S.faults script.old) (output K.taken K.faults out.old) disk.old more.old)
        (world (input S.left S.faults script.new) (output K.taken K.faults out.new) disk.new more.new) }
{
    match command {
        Command::Build => build(alloc, election, script, out),
        Command::Init => init(alloc, election, out, disk),
        Command::Session => session(rt, alloc, election, script, out, disk, turns, report),
        Command::Audit => audit(alloc, election, out, disk),
        Command::Replay => replay(alloc, election, script, out),
        Command::Sample(asked) => sample(alloc, election, &asked, out, disk),
        Command::Compare(asked) => compare(alloc, election, &asked, script, out, disk),
        Command::Merge => merge(alloc, election, out, disk, more),
        Command::Migrate => migrate(alloc, election, out, disk, more),
        Command::Twin => twin(rt, alloc, election, script, out, disk, more, turns, report),
        Command::Part => part(rt, alloc, election, script, out, disk, more, turns, report),
        Command::Large(options) => large(rt, alloc, options, election, out, disk, turns, report),
    }
}
