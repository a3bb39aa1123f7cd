//! A whole withdrawing phase, from its lists to its replies.

ghost use Rattle.body_store.specs.Contents.{IsStored};
ghost use Rattle.phase_play.specs.Plays.{PlaysWithdrawing};
ghost use Rattle.std.specs.Prelude.{◌≡◌, ◌≤◌, IfOk, length, map};
ghost use Rattle.step_core.specs.WithdrawCore.{reply_of};

use body_store::Closed;
use outside_io::{Memory, Turns};
use phase_delete::WithdrawPhase;
use phase_kind::run_waiting;
use std::alloc::Global;
use std::thread::Threads;
use step_core::WithdrawReply;

/// Plays a withdrawing phase: the numbers that wait in lists are withdrawn, one withdrawer for each list, all at once. It
/// gives the store after the phase and a reply to each number.
pub fn play_withdrawing<R: Threads + Sync, T: Turns>(
    rt: &R,
    alloc: Global,
    closed: Closed,
    work: Vec<Vec<u64>>,
    turns: &T,
) -> Result<(Closed, Vec<Vec<WithdrawReply>>), Memory>
    requires some_list { 1 ≤ length work.items }
    requires few_lists { length work.items ≤ 64 }
    ensures election { IfOk result (λ played. played.0.election ≡ closed.election) }
    ensures stored { IfOk result (λ played. IsStored played.0) }
    ensures plays { IfOk result (λ played. PlaysWithdrawing closed.ballots
        (map (λ list. list.items) work.items)
        (map (λ list. map reply_of list.items) played.1.items) played.0.ballots) }
{
    let (phase, mut tabs) = match WithdrawPhase::begin_with(alloc, closed, work) {
        Ok(begun) => begun,
        Err((_, memory)) => return Err(memory),
    };
    run_waiting(rt, &phase, &mut tabs, turns);
    match phase.close(alloc, tabs) {
        Ok(ended) => Ok(ended),
        Err((_, memory)) => Err(memory),
    }
}
