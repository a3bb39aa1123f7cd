//! A replay, from its script to its text.

ghost use Rattle.std.specs.Prelude.{◌≡◌, ◌≤◌, IfOk, string_bytes, vec_len};
ghost use Rattle.schedule_replay.specs.Ends.{ReplayEnds};
ghost use Rattle.outside_io.specs.Outside.{input, output, outside};
ghost use Rattle.schedule_replay.specs.Replayed.{ReplaysAs, ReplaysCast, ReplaysWithdraw};
ghost use Rattle.schedule_replay.specs.Script.{MayBeOpened, lists_of};

use crate::fault::ReplayFault;
use crate::line::Kind;
use crate::reader::read_script;
use crate::run::replay_text;
use crate::script::Script;
use ballot_record::Election;
use outside_io::{Memory, Sink, Source};
use std::alloc::Global;
use step_core::{CastCore, WithdrawCore};

/// The text of the replay of a casting phase.
fn text_of_casts(alloc: Global, election: &Election, script: Script) -> Result<String, Memory>
    requires ready { MayBeOpened election.now script }
    requires some_list { 1 ≤ vec_len script.lists }
    ensures { IfOk result (λ text. ReplaysCast election.now script.base.items (lists_of script)
        script.schedule.items (string_bytes text)) }
{
    let Script {
        base,
        lists,
        schedule,
        ..
    } = script;
    let tabs = lists.len();
    let order = election.order();
    let core = CastCore::new(alloc, order, election.limit(), &base, lists)?;
    replay_text(alloc, core, tabs, &schedule)
}

/// The text of the replay of a withdrawing phase.
fn text_of_withdrawals(alloc: Global, election: &Election, script: Script) -> Result<String, Memory>
    requires ready { MayBeOpened election.now script }
    requires some_list { 1 ≤ vec_len script.lists }
    ensures { IfOk result (λ text. ReplaysWithdraw election.now script.base.items (lists_of script)
        script.schedule.items (string_bytes text)) }
{
    let Script {
        base,
        lists,
        schedule,
        ..
    } = script;
    let tabs = lists.len();
    let order = election.order();
    let core = WithdrawCore::new(alloc, order, election.limit(), &base, lists)?;
    replay_text(alloc, core, tabs, &schedule)
}

/// The text of the replay of an input.
fn text_of(alloc: Global, election: &Election, script: Script) -> Result<String, Memory>
    requires ready { MayBeOpened election.now script }
    requires some_list { 1 ≤ vec_len script.lists }
    ensures { IfOk result (λ text. ReplaysAs script.kind election.now script.base.items
        (lists_of script) script.schedule.items (string_bytes text)) }
{
    match script.kind {
        Kind::Cast => text_of_casts(alloc, election, script),
        Kind::Withdraw => text_of_withdrawals(alloc, election, script),
    }
}

/// Replays the schedule of a script over a phase, and writes what comes of it. The first bad line ends the run, and
/// nothing is written.
pub fn replay<S: Source, K: Sink>(
    alloc: Global,
    election: &Election,
    script: &mut S,
    out: &mut K,
) -> Result<(), ReplayFault>
    ensures { ReplayEnds election.now result
        (outside (input S.left S.faults script.old) (output K.taken K.faults out.old))
        (outside (input S.left S.faults script.new) (output K.taken K.faults out.new)) }
{
    let input = read_script(alloc, election, script)?;
    let text = text_of(alloc, election, input)?;
    Ok(out.write_all(text.as_str().as_bytes())?)
}
