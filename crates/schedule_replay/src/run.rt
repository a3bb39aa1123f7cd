//! The steps of a replay, as scheduled and to their end.

ghost use Rattle.std.specs.Prelude.{◌≡◌, ◌≢◌, ◌++◌, ◌<◌, ℕ, IfOk, string_bytes};
ghost use Rattle.schedule_replay.specs.Machine.{InTurn, StepsOn};
ghost use Rattle.step_core.specs.Schedule.{Follows};
ghost use Rattle.schedule_replay.specs.Replayed.{places_of};
ghost use Rattle.store_spec.specs.Session.{all_reply_lines};
ghost use Rattle.schedule_replay.specs.Runs.{IsScheduled, TellsReplay};

use crate::machine::Machine;
use crate::text::{push_cells, push_count};
use outside_io::Memory;
use std::alloc::Global;
use step_core::Stepped;

/// Steps as scheduled.
fn follow<C: Machine>(core: &mut C, schedule: &[u8])
    requires scheduled { IsScheduled (C.tabs core.old) schedule.now }
    requires sound { C.sound core.old }
    ensures follows { Follows C.steps C.done core.old (places_of schedule.now) core.new }
    ensures tabs { C.tabs core.new ≡ C.tabs core.old }
    ensures sound { C.sound core.new }
{
    'turns: for tab in schedule {
        core.step(usize::from(*tab) - 1);
    }
}

/// Steps one of them until it has nothing left to do.
fn rest<C: Machine>(core: &mut C, tab: usize)
    requires within { tab < C.tabs core.old }
    requires sound { C.sound core.old }
    ensures follows { StepsOn C.steps C.done core.old tab core.new }
    ensures done { C.done core.new tab }
    ensures others { (id : ℕ) → id ≢ tab → C.done core.old id → C.done core.new id }
    ensures tabs { C.tabs core.new ≡ C.tabs core.old }
    ensures sound { C.sound core.new }
{
    'rounds: loop {
        match core.step(tab) {
            Stepped::Step => {}
            Stepped::AtRest => return,
        }
    }
}

/// Steps one after another until nobody has anything left to do.
pub fn rest_all<C: Machine>(core: &mut C, tabs: usize)
    requires counted { tabs ≡ C.tabs core.old }
    requires sound { C.sound core.old }
    ensures in_turn { InTurn C.steps C.done core.old core.new }
    ensures done { (id : ℕ) → id < tabs → C.done core.new id }
    ensures tabs { C.tabs core.new ≡ C.tabs core.old }
    ensures sound { C.sound core.new }
{
    'tabs: for tab in 0..tabs {
        rest(core, tab);
    }
}

/// Appends the replies of all.
fn push_all_replies<C: Machine>(text: &mut String, core: &C, tabs: usize) -> Result<(), Memory>
    requires { tabs ≡ C.tabs core.now }
    ensures { IfOk result
        (λ _. string_bytes text.new
        ≡ string_bytes text.old ++ all_reply_lines 1 (C.words core.now)) }
{
    'tabs: for tab in 0..tabs {
        core.push_replies(text, tab + 1)?;
    }
    Ok(())
}

/// The text of a replay: of so many that take part, from the opening on.
pub fn replay_text<C: Machine + Drop>(
    alloc: Global,
    mut core: C,
    tabs: usize,
    schedule: &[u8],
) -> Result<String, Memory>
    requires counted { tabs ≡ C.tabs core }
    requires scheduled { IsScheduled (C.tabs core) schedule.now }
    requires sound { C.sound core }
    ensures { IfOk result
        (λ text. TellsReplay C.steps C.done C.sound C.tabs C.cells C.words core
        schedule.now (string_bytes text)) }
{
    let mut text = String::new(alloc);
    push_count(&mut text, schedule.len())?;
    follow(&mut core, schedule);
    push_cells(&mut text, core.cells())?;
    text.push_str("rest\n")?;
    rest_all(&mut core, tabs);
    push_cells(&mut text, core.cells())?;
    push_all_replies(&mut text, &core, tabs)?;
    Ok(text)
}
