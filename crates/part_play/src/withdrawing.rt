//! A withdrawing phase of a store in parts.

ghost use Rattle.body_store.specs.Contents.{IsStored};
ghost use Rattle.part_play.specs.Plays.{PlaysWithdrawingInParts};
ghost use Rattle.std.specs.Prelude.{◌≡◌, ◌≤◌, ◌^◌, All, IfOk, length, map};
ghost use Rattle.step_core.specs.WithdrawCore.{reply_of};

use crate::several::play_several;
use crate::spread::{ByParts, all_go_within};
use body_store::Closed;
use outside_io::{Memory, Turns};
use phase_delete::Withdrawing;
use std::alloc::Global;
use std::thread::Threads;
use step_core::WithdrawReply;

/// Plays a withdrawing phase of the stores of all parts: the numbers that wait in lists are withdrawn, each
/// in the phase of its own part, all lists at once. It gives the stores after the phase and a reply to each
/// number.
pub fn play_withdrawing<R: Threads + Sync, T: Turns>(
    rt: &R,
    alloc: Global,
    stores: Vec<Closed>,
    spread: &ByParts,
    work: Vec<Vec<u64>>,
    turns: &T,
) -> Result<(Vec<Closed>, Vec<Vec<WithdrawReply>>), Memory>
    requires some_list { 1 ≤ length work.items }
    requires few_lists { length work.items ≤ 64 }
    requires parts { length stores.items ≡ 2 ^ spread.now }
    ensures elections { IfOk result (λ played. map (λ store. store.election) played.0.items
        ≡ map (λ store. store.election) stores.items) }
    ensures stored { IfOk result (λ played. All IsStored played.0.items) }
    ensures plays { IfOk result (λ played. PlaysWithdrawingInParts spread.now
        (map (λ store. store.ballots) stores.items) (map (λ list. list.items) work.items)
        (map (λ list. map reply_of list.items) played.1.items)
        (map (λ store. store.ballots) played.0.items)) }
{
    all_go_within::<Withdrawing>(spread, &work);
    let (after, replies) = play_several::<R, ByParts, T, Withdrawing>(
        rt, alloc, stores, spread, work, turns,
    )?;
    Ok((after, replies))
}
