//! A whole finding phase, from its lists to its replies.

ghost use Rattle.phase_play.specs.Plays.{PlaysFinding};
ghost use Rattle.std.specs.Prelude.{◌≡◌, ◌≤◌, IfOk, length, map};

use body_store::Closed;
use outside_io::{Memory, Turns};
use phase_find::run_find;
use std::alloc::Global;
use std::thread::Threads;

/// Plays a finding phase: the numbers that wait in lists are looked up, one worker for each list, all at once. It tells of
/// each number whether it is held.
pub fn play_finding<R: Threads + Sync, T: Turns>(
    rt: &R,
    alloc: Global,
    closed: &Closed,
    work: &[Vec<u64>],
    turns: &T,
) -> Result<Vec<Vec<bool>>, Memory>
    requires some_list { 1 ≤ length work.now }
    requires few_lists { length work.now ≤ 64 }
    ensures { IfOk result (λ found. PlaysFinding closed.now.ballots
        (map (λ list. list.items) work.now) (map (λ list. list.items) found.items)) }
{
    let found = run_find(rt, alloc, closed, work, turns)?;
    Ok(found)
}
