//! What becomes of the trays of a phase: the ballots that were accepted, and the final replies.

ghost use Rattle.body_store.specs.Contents.{IsStored};
ghost use Rattle.layout_def.specs.Changes.{AreChanges};
ghost use Rattle.phase_insert.specs.Ends.{AreAllFinals, AreFinals, Decides, IsAnswer, all_accepted};
ghost use Rattle.phase_insert.specs.Tray.{Cast, IsAllAccepted, IsTrayPaired, ballots_that, casts_of, is_accepted};
ghost use Rattle.std.specs.Prelude.{◌≡◌, ◌^◌, ◌<◌, ◌≤◌, ◌++◌, [], ◌∷◌, false, true, All, IfOk, IsPermutation, OnErr, OnOk, Some, flat_map, length, map, slice_get, vec_capacity};
ghost use Rattle.store_spec.specs.Ballot.{Ballot, IsListing, IsWithinLimit};
ghost use Rattle.store_spec.specs.Image.{cells_of};

use crate::kind::CastTray;
use crate::{CastReply, Final};
use ballot_record::{BallotList, Election, MAX_LIMIT};
use body_store::Closed;
use layout_def::CellChange;
use outside_io::Memory;
use std::alloc::Global;
use std::slice::from_ref;

/// Adds to a store the ballots of trays that were accepted, and tells the final replies, for which there is room. Where all
/// were accepted, the store takes them from the lists of the trays; else what was accepted is copied. `changes` make the
/// store's cells those of all. After `Memory` the store is as it was.
pub fn add_accepted(
    alloc: Global,
    closed: &mut Closed,
    trays: Vec<CastTray>,
    changes: Vec<CellChange>,
    finals: &mut [Vec<Final>],
) -> Result<(), Memory>
    requires stored { IsStored closed.old }
    requires elections { All (λ tray. tray.items.election ≡ closed.old.election) trays.items }
    requires paired { All IsTrayPaired trays.items }
    requires listing { IsListing closed.old.election
        (closed.old.ballots ++ all_accepted (map casts_of trays.items)) }
    requires within_limit { IsWithinLimit closed.old.election
        (closed.old.ballots ++ all_accepted (map casts_of trays.items)) }
    requires changes { AreChanges (cells_of closed.old.election closed.old.ballots) (cells_of closed.old.election
        (closed.old.ballots ++ all_accepted (map casts_of trays.items))) changes.items }
    requires empty { All (λ list. list.items ≡ []) finals.old }
    requires room { map (λ list. vec_capacity list) finals.old
        ≡ map (λ tray. length tray.replies.items) trays.items }
    ensures election { closed.new.election ≡ closed.old.election }
    ensures union { OnOk result (IsPermutation
        (closed.old.ballots ++ all_accepted (map casts_of trays.items)) closed.new.ballots) }
    ensures finals { OnOk result (AreAllFinals closed.new.ballots (map casts_of trays.items)
        (map (λ list. list.items) finals.new)) }
    ensures unchanged { OnErr result (closed.new ≡ closed.old) }
    ensures stored { IsStored closed.new }
{
    if are_all_accepted(&trays) {
        all_finals(closed, &trays, finals);
        let lists = lists_of(alloc, trays)?;
        return closed.merge(alloc, &lists, changes);
    }
    let accepted = accepted(alloc, closed.election(), &trays)?;
    closed.merge(alloc, from_ref(&accepted), changes)?;
    all_finals(closed, &trays, finals);
    Ok(())
}

/// All ballots of these trays were accepted.
fn are_all_accepted(trays: &[CastTray]) -> bool
    ensures { result ≡ true → All IsAllAccepted trays.now }
{
    for tray in trays {
        if !is_all_accepted(&tray.replies) {
            return false;
        }
    }
    true
}

/// All ballots with these replies were accepted.
fn is_all_accepted(replies: &[CastReply]) -> bool
    ensures { result ≡ true → All (λ reply. reply ≡ CastReply.Accepted) replies.now }
{
    for reply in replies {
        if was_not_accepted(*reply) {
            return false;
        }
    }
    true
}

/// A ballot with this reply was not accepted.
fn was_not_accepted(reply: CastReply) -> bool
    ensures { result ≡ false → reply ≡ CastReply.Accepted }
{
    match reply {
        CastReply::Accepted => false,
        _ => true,
    }
}

/// The lists of trays.
fn lists_of(alloc: Global, trays: Vec<CastTray>) -> Result<Vec<BallotList>, Memory>
    ensures { IfOk result (λ lists. lists.items ≡ map (λ tray. tray.items) trays.items) }
{
    let mut lists = Vec::with_capacity(alloc, trays.len())?;
    for tray in trays {
        lists.push(tray.items)?;
    }
    Ok(lists)
}

/// The ballots that were accepted, tray by tray.
fn accepted(alloc: Global, election: &Election, trays: &[CastTray]) -> Result<BallotList, Memory>
    requires elections { All (λ tray. tray.items.election ≡ election.now) trays.now }
    requires paired { All IsTrayPaired trays.now }
    ensures election { IfOk result (λ accepted. accepted.election ≡ election.now) }
    ensures accepted { IfOk result
        (λ accepted. accepted.ballots ≡ all_accepted (map casts_of trays.now)) }
{
    let mut accepted = BallotList::with_room(alloc, election, accepted_in(trays))?;
    for tray in trays {
        push_accepted(&mut accepted, tray)?;
    }
    Ok(accepted)
}

/// For how many ballots room is taken, so that the list of those that were accepted is made as long at once.
fn accepted_in(trays: &[CastTray]) -> usize
    ensures { result < 2 ^ 33 }
{
    let mut count: usize = 0;
    for tray in trays {
        for reply in &tray.replies {
            if *reply == CastReply::Accepted {
                count = count.saturating_add(1);
            }
        }
    }
    count.min(MAX_LIMIT as usize)
}

/// How many ballots of trays were cast, or as many as a store may hold.
pub fn casts_in(trays: &[CastTray]) -> usize {
    let mut count: usize = 0;
    for tray in trays {
        count = count.saturating_add(tray.replies.len());
    }
    count.min(MAX_LIMIT as usize)
}

/// Appends the ballots of a tray that were accepted.
fn push_accepted(accepted: &mut BallotList, tray: &CastTray) -> Result<(), Memory>
    requires election { tray.now.items.election ≡ accepted.old.election }
    requires paired { IsTrayPaired tray.now }
    ensures election { IfOk result (λ _. accepted.new.election ≡ accepted.old.election) }
    ensures pushed { IfOk result (λ _. accepted.new.ballots
        ≡ accepted.old.ballots ++ ballots_that is_accepted (casts_of tray.now)) }
{
    for place in 0..tray.replies.len() {
        push_if_accepted(accepted, tray, place)?;
    }
    Ok(())
}

/// Appends the ballot at a place of a tray, if it was accepted.
fn push_if_accepted(accepted: &mut BallotList, tray: &CastTray, place: usize) -> Result<(), Memory>
    requires election { tray.now.items.election ≡ accepted.old.election }
    requires paired { IsTrayPaired tray.now }
    requires within { place < length tray.now.replies.items }
    ensures election { IfOk result (λ _. accepted.new.election ≡ accepted.old.election) }
    ensures pushed { IfOk result (λ _. (cast : Cast)
        → slice_get (casts_of tray.now) place ≡ Some cast
        → accepted.new.ballots ≡ accepted.old.ballots ++ ballots_that is_accepted (cast ∷ [])) }
{
    match tray.replies[place] {
        CastReply::Accepted => accepted.push_from(&tray.items, place)?,
        _ => (),
    }
    Ok(())
}

/// A list for each tray, with room for a final reply to each of its ballots.
pub fn room_for_finals(alloc: Global, trays: &[CastTray]) -> Result<Vec<Vec<Final>>, Memory>
    ensures empty { IfOk result (λ lists. All (λ list. list.items ≡ []) lists.items) }
    ensures room { IfOk result
        (λ lists. map (λ list. vec_capacity list) lists.items
        ≡ map (λ tray. length tray.replies.items) trays.now) }
{
    let mut lists = Vec::with_capacity(alloc, trays.len())?;
    for tray in trays {
        lists.push(Vec::with_capacity(alloc, tray.replies.len())?)?;
    }
    Ok(lists)
}

/// Tells the final replies to the ballots of all trays, for which there is room.
fn all_finals(after: &Closed, trays: &[CastTray], lists: &mut [Vec<Final>])
    requires elections { All (λ tray. tray.items.election ≡ after.now.election) trays.now }
    requires paired { All IsTrayPaired trays.now }
    requires empty { All (λ list. list.items ≡ []) lists.old }
    requires room { map (λ list. vec_capacity list) lists.old
        ≡ map (λ tray. length tray.replies.items) trays.now }
    ensures { AreAllFinals after.now.ballots (map casts_of trays.now)
        (map (λ list. list.items) lists.new) }
{
    for place in 0..trays.len() {
        tray_finals(after, &trays[place], &mut lists[place]);
    }
}

/// Tells the final replies to the ballots of a tray.
fn tray_finals(after: &Closed, tray: &CastTray, finals: &mut Vec<Final>)
    requires election { tray.now.items.election ≡ after.now.election }
    requires paired { IsTrayPaired tray.now }
    requires empty { finals.old.items ≡ [] }
    requires room { length tray.now.replies.items ≤ vec_capacity finals.old }
    ensures { AreFinals after.now.ballots (casts_of tray.now) finals.new.items }
{
    for place in 0..tray.replies.len() {
        finals.push_reserved(final_of(after, &tray.items, place, tray.replies[place]));
    }
}

/// The final reply to the ballot at a place of a list, which was answered so.
fn final_of(after: &Closed, list: &BallotList, place: usize, reply: CastReply) -> Final
    requires election { list.now.election ≡ after.now.election }
    requires within { place < length list.now.ballots }
    ensures { (b : Ballot) → slice_get list.now.ballots place ≡ Some b
        → IsAnswer after.now.ballots b reply result }
{
    match reply {
        CastReply::Accepted => Final::Accepted,
        CastReply::Duplicate => Final::Duplicate,
        CastReply::Conflict => Final::Conflict,
        CastReply::Taken => compared(after, list, place),
        CastReply::Full => Final::Full,
    }
}

/// The final reply to a ballot whose number was taken.
fn compared(after: &Closed, list: &BallotList, place: usize) -> Final
    requires election { list.now.election ≡ after.now.election }
    requires within { place < length list.now.ballots }
    ensures { (b : Ballot) → slice_get list.now.ballots place ≡ Some b
        → Decides after.now.ballots b result }
{
    let cell = list.cell(place);
    match after.cell_of(list.number(place)) {
        Some(held) if held == cell => Final::Duplicate,
        _ => Final::Conflict,
    }
}
