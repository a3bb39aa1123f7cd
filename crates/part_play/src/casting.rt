//! A casting phase of a store in parts.

ghost use Rattle.body_store.specs.Contents.{IsStored};
ghost use Rattle.part_play.specs.Plays.{PlaysCastingInParts};
ghost use Rattle.phase_insert.specs.Closing.{reply_of};
ghost use Rattle.std.specs.Prelude.{◌≡◌, ◌≤◌, ◌^◌, All, IfOk, length, map};
ghost use Rattle.store_spec.specs.Election.{Election};

use crate::several::play_several;
use crate::spread::{ByParts, all_go_within};
use ballot_record::BallotList;
use body_store::Closed;
use outside_io::{Memory, Turns};
use phase_insert::{Casting, Final};
use std::alloc::Global;
use std::thread::Threads;

/// Plays a casting phase of the stores of all parts: the ballots that wait in lists are cast, each into the
/// phase of its own part, all lists at once. It gives the stores after the phase and a reply to each ballot.
/// Each part's store has room for as many ballots as its election says.
pub fn play_casting<R: Threads + Sync, T: Turns>(
    rt: &R,
    alloc: Global,
    stores: Vec<Closed>,
    spread: &ByParts,
    work: Vec<BallotList>,
    turns: &T,
) -> Result<(Vec<Closed>, Vec<Vec<Final>>), Memory>
    requires some_list { 1 ≤ length work.items }
    requires few_lists { length work.items ≤ 64 }
    requires parts { length stores.items ≡ 2 ^ spread.now }
    requires elections { All (λ list. All (λ store. list.election ≡ store.election) stores.items) work.items }
    ensures elections { IfOk result (λ played. map (λ store. store.election) played.0.items
        ≡ map (λ store. store.election) stores.items) }
    ensures stored { IfOk result (λ played. All IsStored played.0.items) }
    ensures plays { IfOk result (λ played. (e : Election) → All (λ store. store.election ≡ e) stores.items
        → PlaysCastingInParts spread.now e (map (λ store. store.ballots) stores.items)
        (map (λ list. list.ballots) work.items) (map (λ list. map reply_of list.items) played.1.items)
        (map (λ store. store.ballots) played.0.items)) }
{
    all_go_within::<Casting>(spread, &work);
    let (after, replies) = play_several::<R, ByParts, T, Casting>(
        rt, alloc, stores, spread, work, turns,
    )?;
    Ok((after, replies))
}
