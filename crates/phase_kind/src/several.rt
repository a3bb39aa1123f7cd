//! Several phases of one kind, whose workers work in teams: a list is shared out to the workers of a team, so that
//! each item goes into the phase that its number names, and the team handles it in its order.

ghost use Rattle.phase_kind.specs.Team.{AreByPlace, AreFilled, AreInListOrder, AreEmptyLists, AreShares, AreSharedOut, GoesWithin, HasHandled, IsTeam};
ghost use Rattle.std.specs.Prelude.{◌≡◌, ◌^◌, ◌<◌, [], All, IfOk, Some, length, map, slice_get, slice_index_or, zip};

use crate::tray::is_short;
use crate::{Kind, PhaseOf, Team};
use body_store::Closed;
use outside_io::{Memory, Turns};
use std::alloc::Global;
use std::thread::{Threads, for_each_mut};

/// Where each item goes, by its number.
pub trait Spread: Sync {
    ghost use Rattle.std.specs.Prelude.{ℕ};

    /// The place where a number goes.
    ghost to: { Self → ℕ → ℕ };

    /// The same, as it is computed.
    fn place(&self, number: u64) -> usize
        ensures { result ≡ to self.now number };
}

/// A list shared out among stores: the items that go to each, as a list of its own, and the order, which names the
/// place of each item of the list. An order of 2^32 items and more, or of more than 256 places, counts as lack of
/// memory.
pub fn share_out<S: Spread, K: Kind>(
    alloc: Global,
    stores: &[Closed],
    spread: &S,
    list: &K::List,
) -> Result<(Vec<K::List>, Vec<u8>), Memory>
    requires within { GoesWithin (λ x. S.to spread.now (K.number x)) (length stores.now) (K.items list.now) }
    requires is_of { All (λ store. K.is_of store list.now) stores.now }
    ensures lists { IfOk result (λ out. AreSharedOut (λ x. S.to spread.now (K.number x)) (length stores.now)
        (K.items list.now) (map K.items out.0.items)) }
    ensures is_of { IfOk result (λ out. All (λ at. K.is_of at.0 at.1) (zip stores.now out.0.items)) }
    ensures order { IfOk result (λ out. out.1.items
        ≡ map (λ x. S.to spread.now (K.number x)) (K.items list.now)) }
{
    let order = order_of::<S, K>(alloc, spread, list)?;
    let mut lists = lists_for::<K>(alloc, stores, &order)?;
    dealt_out::<K>(stores, &order, list, &mut lists);
    Ok((lists, order))
}

/// The place where each item of a list goes.
fn order_of<S: Spread, K: Kind>(
    alloc: Global,
    spread: &S,
    list: &K::List,
) -> Result<Vec<u8>, Memory>
    ensures { IfOk result (λ order. order.items ≡ map (λ x. S.to spread.now (K.number x)) (K.items list.now)) }
{
    let mut order = Vec::with_capacity(alloc, K::len(list))?;
    for index in 0..K::len(list) {
        order.push(place_of::<S, K>(spread, list, index)?)?;
    }
    Ok(order)
}

/// The place where the item at a place of a list goes.
fn place_of<S: Spread, K: Kind>(spread: &S, list: &K::List, index: usize) -> Result<u8, Memory>
    requires { index < length (K.items list.now) }
    ensures { IfOk result (λ place. (x : K.Item) × (slice_get (K.items list.now) index ≡ Some x)
        × (place ≡ S.to spread.now (K.number x))) }
{
    let place = spread.place(K::number(list, index));
    if place > 255 {
        return Err(Memory);
    }
    Ok(place as u8)
}

/// How often an order names each of so many places.
fn shares(alloc: Global, places: usize, order: &[u8]) -> Result<Vec<usize>, Memory>
    requires within { GoesWithin (λ place. place) places order.now }
    ensures { IfOk result (λ shares. AreShares (λ place. place) places order.now shares.items) }
{
    let mut shares = vec![in alloc; 0; places]?;
    for place in order {
        shares[*place as usize] += 1;
    }
    Ok(shares)
}

/// An empty list for each store, with room for as many items as the order names it.
fn lists_for<K: Kind>(
    alloc: Global,
    stores: &[Closed],
    order: &[u8],
) -> Result<Vec<K::List>, Memory>
    requires within { GoesWithin (λ place. place) (length stores.now) order.now }
    ensures is_of { IfOk result (λ lists. All (λ at. K.is_of at.0 at.1) (zip stores.now lists.items)) }
    ensures filled { IfOk result (λ lists. AreFilled K.items K.room (length stores.now) order.now [] lists.items) }
{
    if !is_short(order.len()) {
        return Err(Memory);
    }
    let shares = shares(alloc, stores.len(), order)?;
    let lists = new_lists::<K>(alloc, stores, &shares)?;
    Ok(lists)
}

/// An empty list for each store, with room for its share.
fn new_lists<K: Kind>(
    alloc: Global,
    stores: &[Closed],
    shares: &[usize],
) -> Result<Vec<K::List>, Memory>
    requires as_many { length shares.now ≡ length stores.now }
    requires few { All (λ share. share < 2 ^ 33) shares.now }
    ensures as_many { IfOk result (λ lists. length lists.items ≡ length stores.now) }
    ensures new { IfOk result (λ lists. AreEmptyLists K.is_of K.items K.room stores.now shares.now lists.items) }
{
    let mut lists = Vec::with_capacity(alloc, stores.len())?;
    for place in 0..stores.len() {
        lists.push(K::new_list(alloc, &stores[place], shares[place])?)?;
    }
    Ok(lists)
}

/// Deals a list out to those of stores, in its order.
fn dealt_out<K: Kind>(stores: &[Closed], order: &[u8], list: &K::List, lists: &mut [K::List])
    requires as_many { length order.now ≡ length (K.items list.now) }
    requires within { GoesWithin (λ place. place) (length stores.now) order.now }
    requires is_of { All (λ store. K.is_of store list.now) stores.now }
    requires of_each { All (λ at. K.is_of at.0 at.1) (zip stores.now lists.old) }
    requires empty { AreFilled K.items K.room (length stores.now) order.now [] lists.old }
    ensures of_each { All (λ at. K.is_of at.0 at.1) (zip stores.now lists.new) }
    ensures filled { AreFilled K.items K.room (length stores.now) order.now (K.items list.now) lists.new }
{
    for index in 0..order.len() {
        K::push_from(&mut lists[order[index] as usize], list, index);
    }
}

/// Each team handles its order, and all of them work at once: each in a thread of its own, but for one, which works in
/// the caller's. Before each item its team's turn is told. No memory is taken.
pub fn run_several<R: Threads + Sync, T: Turns, K: Kind>(
    rt: &R,
    phases: &[PhaseOf<K>],
    teams: &mut [Team<'_, K>],
    turns: &T,
)
    requires belong { All (λ team. IsTeam phases.now team.workers) teams.old }
    ensures as_many { length teams.new ≡ length teams.old }
    ensures belong { All (λ team. IsTeam phases.now team.workers) teams.new }
    ensures idle { All (λ team. All (λ worker. worker.waiting ≡ []) team.workers) teams.new }
    ensures handled { All (λ at. HasHandled K.rests at.0 at.1) (zip teams.old teams.new) }
{
    let handle_its_order = |place: usize, team: &mut Team<'_, K>|
        requires belongs { IsTeam phases.now team.now.workers }
        ensures belongs { IsTeam phases.entry.now team.exit.now.workers }
        ensures handled { HasHandled K.rests team.entry.now team.exit.now }
    { answer_in_order(phases, team, place, turns) };
    for_each_mut(rt, teams, teams.len().max(1), &handle_its_order);
}

/// One team handles its order.
fn answer_in_order<T: Turns, K: Kind>(
    phases: &[PhaseOf<K>],
    team: &mut Team<'_, K>,
    place: usize,
    turns: &T,
)
    requires { IsTeam phases.now team.old.workers }
    ensures team { IsTeam phases.now team.new.workers }
    ensures handled { HasHandled K.rests team.old team.new }
{
    team.rests();
    for _ in 0..team.ahead() {
        team.answer_next(phases, place, turns);
    }
}

/// The replies to the items of a list in the order of the list, where they are kept by the places to which the items
/// went.
pub fn in_order<X: Copy + Drop>(
    alloc: Global,
    order: &[u8],
    replies: &[Vec<X>],
) -> Result<Vec<X>, Memory>
    requires within { GoesWithin (λ place. place) (length replies.now) order.now }
    requires by_place { AreByPlace (λ place. place) order.now (map (λ row. row.items) replies.now) }
    ensures { IfOk result (λ told. AreInListOrder (λ place. place) order.now (map (λ row. row.items) replies.now)
        told.items) }
{
    let mut next = vec![in alloc; 0; replies.len()]?;
    let mut told = Vec::with_capacity(alloc, order.len())?;
    for index in 0..order.len() {
        let to = order[index] as usize;
        told.push(replies[to][next[to]])?;
        next[to] += 1;
    }
    Ok(told)
}
