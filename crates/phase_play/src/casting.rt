//! A whole casting phase, from its lists to its replies.

ghost use Rattle.body_store.specs.Contents.{IsStored};
ghost use Rattle.phase_insert.specs.Closing.{reply_of};
ghost use Rattle.phase_play.specs.Plays.{PlaysCasting};
ghost use Rattle.std.specs.Prelude.{◌≡◌, ◌≤◌, All, IfOk, length, map};

use ballot_record::BallotList;
use body_store::Closed;
use outside_io::{Memory, Turns};
use phase_insert::{CastPhase, Final};
use phase_kind::run_waiting;
use std::alloc::Global;
use std::thread::Threads;

/// Plays a casting phase: the ballots that wait in lists are cast, one tabulator for each list, all at once. It gives the
/// store after the phase and a reply to each ballot. Each ballot stands once: its tabulator casts it from the list where it
/// waits.
pub fn play_casting<R: Threads + Sync, T: Turns>(
    rt: &R,
    alloc: Global,
    closed: Closed,
    work: Vec<BallotList>,
    turns: &T,
) -> Result<(Closed, Vec<Vec<Final>>), Memory>
    requires some_list { 1 ≤ length work.items }
    requires few_lists { length work.items ≤ 64 }
    requires elections { All (λ list. list.election ≡ closed.election) work.items }
    ensures election { IfOk result (λ played. played.0.election ≡ closed.election) }
    ensures stored { IfOk result (λ played. IsStored played.0) }
    ensures plays { IfOk result (λ played. PlaysCasting closed.election closed.ballots
        (map (λ list. list.ballots) work.items)
        (map (λ list. map reply_of list.items) played.1.items) played.0.ballots) }
{
    let (phase, mut tabs) = match CastPhase::begin_with(alloc, closed, work) {
        Ok(begun) => begun,
        Err((_, memory)) => return Err(memory),
    };
    run_waiting(rt, &phase, &mut tabs, turns);
    match phase.close(alloc, tabs) {
        Ok(ended) => Ok(ended),
        Err((_, memory)) => Err(memory),
    }
}
