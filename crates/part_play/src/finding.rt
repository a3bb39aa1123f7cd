//! A finding phase of a store in parts: one worker for each list of numbers, all at once.

ghost use Rattle.part_play.specs.Plays.{PlaysFindingInParts, is_present_in};
ghost use Rattle.std.specs.Prelude.{◌≡◌, ◌≤◌, ◌<◌, ◌^◌, IfOk, Some, length, map, slice_get, slice_index_or, vec_len};
ghost use Rattle.store_spec.specs.Parts.{part_of};

use crate::spread::ByParts;
use body_store::Closed;
use outside_io::{Memory, Turns};
use phase_find::is_held;
use phase_kind::Spread;
use probe_order::Order;
use std::alloc::Global;
use std::thread::{Threads, for_each_mut};

/// No two threads write within so many bytes of each other.
const APART: usize = 64;

/// The word in the home cell of a number.
fn peek(store: &Closed, number: u64) -> u64 {
    let home = store.election().order().home(number);
    store.cells().get(home).copied().unwrap_or(0)
}

/// The store of the part of a number.
fn store_of<'a>(stores: &'a [Closed], spread: &ByParts, number: u64) -> &'a Closed
    requires { length stores.now ≡ 2 ^ spread.now }
    ensures { slice_get stores.now (part_of spread.now number) ≡ Some result.now }
{
    spread.bits();
    let part = spread.place(number);
    &stores[part]
}

/// What worker `tab` answers to the number at place `index` of its list: whether the number's part holds it.
fn held<T: Turns>(
    stores: &[Closed],
    spread: &ByParts,
    tab: usize,
    index: usize,
    number: u64,
    turns: &T,
) -> bool
    requires { length stores.now ≡ 2 ^ spread.now }
    ensures { result ≡ is_present_in spread.now (map (λ store. store.ballots) stores.now) number }
{
    let store = store_of(stores, spread, number);
    turns.turn(tab, index, peek(store, number));
    is_held(store, number)
}

/// A place for each of so many answers.
fn places_of(alloc: Global, count: usize) -> Result<Vec<bool>, Memory>
    ensures { IfOk result (λ answers. vec_len answers ≡ count) }
{
    let mut answers = Vec::with_capacity(alloc, count.saturating_add(APART))?;
    answers.resize(count, false)?;
    Ok(answers)
}

/// A place for the answer to each number of each list, so that no worker takes memory.
fn places(alloc: Global, work: &[Vec<u64>]) -> Result<Vec<Vec<bool>>, Memory>
    ensures { IfOk result
        (λ found. map (λ list. vec_len list) found.items ≡ map (λ list. vec_len list) work.now) }
{
    let mut found = Vec::with_capacity(alloc, work.len())?;
    for list in work {
        found.push(places_of(alloc, list.len())?)?;
    }
    Ok(found)
}

/// The worker of list `tab`: of each number of its list whether its part holds it.
fn look_up<T: Turns>(
    stores: &[Closed],
    spread: &ByParts,
    tab: usize,
    list: &[u64],
    found: &mut [bool],
    turns: &T,
)
    requires parts { length stores.now ≡ 2 ^ spread.now }
    requires as_many { length found.old ≡ length list.now }
    ensures { found.new ≡ map (is_present_in spread.now (map (λ store. store.ballots) stores.now)) list.now }
{
    for (index, answer) in found.iter_mut().enumerate() {
        *answer = held(stores, spread, tab, index, list[index], turns);
    }
}

/// The workers of all lists, each with the places of its own answers.
fn look_up_all<R: Threads + Sync, T: Turns>(
    rt: &R,
    stores: &[Closed],
    spread: &ByParts,
    work: &[Vec<u64>],
    found: &mut [Vec<bool>],
    turns: &T,
)
    requires parts { length stores.now ≡ 2 ^ spread.now }
    requires as_many { map (λ list. vec_len list) found.old ≡ map (λ list. vec_len list) work.now }
    ensures as_many { length found.new ≡ length found.old }
    ensures answers { map (λ list. list.items) found.new
        ≡ map (λ list. map (is_present_in spread.now (map (λ store. store.ballots) stores.now)) list.items)
        work.now }
{
    let worker = |tab: usize, answers: &mut Vec<bool>|
        requires listed { tab < length work.now }
        requires parts { length stores.now ≡ 2 ^ spread.now }
        requires as_many { (list : _) → vec_len answers.now ≡ vec_len (slice_index_or work.now tab list) }
        ensures { (list : _) → answers.exit.now.items
            ≡ map (is_present_in spread.entry.now (map (λ store. store.ballots) stores.entry.now))
            (slice_index_or work.entry.now tab list).items }
    { look_up(stores, spread, tab, &work[tab], answers, turns) };
    for_each_mut(rt, found, work.len().max(1), &worker);
}

/// Plays a finding phase of the stores of all parts: the numbers that wait in lists are looked up, each in
/// the store of its own part, one worker for each list, all at once. It tells of each number whether it is
/// held.
pub fn play_finding<R: Threads + Sync, T: Turns>(
    rt: &R,
    alloc: Global,
    stores: &[Closed],
    spread: &ByParts,
    work: &[Vec<u64>],
    turns: &T,
) -> Result<Vec<Vec<bool>>, Memory>
    requires parts { length stores.now ≡ 2 ^ spread.now }
    ensures { IfOk result (λ found. PlaysFindingInParts spread.now (map (λ store. store.ballots) stores.now)
        (map (λ list. list.items) work.now) (map (λ list. list.items) found.items)) }
{
    let mut found = places(alloc, work)?;
    look_up_all(rt, stores, spread, work, &mut found, turns);
    Ok(found)
}
