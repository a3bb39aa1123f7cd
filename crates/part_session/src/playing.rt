//! A phase of a store in parts, played to its close.

ghost use Rattle.partition_store.specs.Parted.{joined};
ghost use Rattle.phase_gate.specs.Replies.{ClosesBy, words_of};
ghost use Rattle.phase_gate.specs.Standing.{MayWait};
ghost use Rattle.phase_gate.specs.Waiting.{AreListsOf, phase_of};
ghost use Rattle.phase_gate.specs.declared.replies.Replies.TheVariants as replies;
ghost use Rattle.std.specs.Prelude.{◌≡◌, ◌≤◌, All, IfOk, length, map};
ghost use Rattle.store_spec.specs.Parts.{of_parts};
ghost use Rattle.store_spec.specs.Session.{Phase as phases, closing};

use ballot_record::BallotList;
use outside_io::{Memory, Turns};
use part_play::laws::{a_phase_closes, parts_keep_their_own};
use part_play::{ByParts, Final, play_casting, play_finding, play_withdrawing};
use parted_store::{PartCount, PartsOf};
use partition_store::PartStore;
use phase_gate::{Replies, Waiting};
use std::alloc::Global;
use std::thread::Threads;
use step_core::WithdrawReply;

/// Casts what waits in lists, each ballot into the part of its number.
fn cast<R: Threads + Sync, T: Turns>(
    rt: &R,
    alloc: Global,
    store: PartStore,
    lists: Vec<BallotList>,
    turns: &T,
) -> Result<(PartStore, Vec<Vec<Final>>), Memory>
    requires some_list { 1 ≤ length lists.items }
    requires few_lists { length lists.items ≤ 64 }
    requires elections { All (λ list. list.election ≡ store.election) lists.items }
    ensures election { IfOk result (λ played. played.0.election ≡ store.election) }
    ensures bits { IfOk result (λ played. played.0.bits ≡ store.bits) }
    ensures closes { IfOk result (λ played. ClosesBy (of_parts store.bits store.election) (joined store.sets)
        (phases.Casts (map (λ list. list.ballots) lists.items))
        (closing (words_of (replies.Cast played.1)) (joined played.0.sets))) }
{
    let bits = store.bits();
    let spread = ByParts::new(bits);
    let stores = store.into_parts();
    let (after, finals) = play_casting(rt, alloc, stores, &spread, lists, turns)?;
    parts_keep_their_own();
    a_phase_closes();
    Ok((PartStore::of_parts(bits, after), finals))
}

/// Withdraws what waits in lists, each number from its part.
fn withdraw<R: Threads + Sync, T: Turns>(
    rt: &R,
    alloc: Global,
    store: PartStore,
    lists: Vec<Vec<u64>>,
    turns: &T,
) -> Result<(PartStore, Vec<Vec<WithdrawReply>>), Memory>
    requires some_list { 1 ≤ length lists.items }
    requires few_lists { length lists.items ≤ 64 }
    ensures election { IfOk result (λ played. played.0.election ≡ store.election) }
    ensures bits { IfOk result (λ played. played.0.bits ≡ store.bits) }
    ensures closes { IfOk result (λ played. ClosesBy (of_parts store.bits store.election) (joined store.sets)
        (phases.Withdraws (map (λ list. list.items) lists.items))
        (closing (words_of (replies.Withdrawn played.1)) (joined played.0.sets))) }
{
    let bits = store.bits();
    let spread = ByParts::new(bits);
    let stores = store.into_parts();
    let (after, answers) = play_withdrawing(rt, alloc, stores, &spread, lists, turns)?;
    parts_keep_their_own();
    a_phase_closes();
    Ok((PartStore::of_parts(bits, after), answers))
}

/// Looks up what waits in lists, each number in its part.
fn find<R: Threads + Sync, T: Turns>(
    rt: &R,
    alloc: Global,
    store: PartStore,
    lists: &[Vec<u64>],
    turns: &T,
) -> Result<(PartStore, Vec<Vec<bool>>), Memory>
    ensures store { IfOk result (λ found. found.0 ≡ store) }
    ensures closes { IfOk result (λ found. ClosesBy (of_parts store.bits store.election) (joined store.sets)
        (phases.Finds (map (λ list. list.items) lists.now))
        (closing (words_of (replies.Found found.1)) (joined store.sets))) }
{
    let bits = store.bits();
    let spread = ByParts::new(bits);
    let stores = store.into_parts();
    let found = play_finding(rt, alloc, &stores, &spread, lists, turns)?;
    Ok((PartStore::of_parts(bits, stores), found))
}

/// Plays a phase of a store in parts to its close. It gives the store after it, and a reply to each item that waited.
pub fn play_parts<P: PartCount, R: Threads + Sync, T: Turns>(
    rt: &R,
    alloc: Global,
    store: PartsOf<P>,
    waiting: Waiting,
    turns: &T,
) -> Result<(PartsOf<P>, Replies), Memory>
    requires waiting { MayWait store.store.election (phase_of waiting) }
    requires lists { AreListsOf store.store.election waiting }
    ensures election { IfOk result (λ played. played.0.store.election ≡ store.store.election) }
    ensures closes { IfOk result (λ played. ClosesBy (of_parts P.bits store.store.election)
        (joined store.store.sets) (phase_of waiting)
        (closing (words_of played.1) (joined played.0.store.sets))) }
{
    let store = store.into_store();
    match waiting {
        Waiting::Casting(lists) => {
            let (after, finals) = cast(rt, alloc, store, lists, turns)?;
            Ok((PartsOf::new(after), Replies::Cast(finals)))
        }
        Waiting::Withdrawing(lists) => {
            let (after, answers) = withdraw(rt, alloc, store, lists, turns)?;
            Ok((PartsOf::new(after), Replies::Withdrawn(answers)))
        }
        Waiting::Finding(lists) => {
            let (same, found) = find(rt, alloc, store, &lists, turns)?;
            Ok((PartsOf::new(same), Replies::Found(found)))
        }
    }
}
