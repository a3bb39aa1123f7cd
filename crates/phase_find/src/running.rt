//! A finding phase at work: one worker for each list of numbers, all at once.

ghost use Rattle.phase_find.specs.Present.{is_present};
ghost use Rattle.std.specs.Prelude.{◌≡◌, ◌<◌, IfOk, length, map, slice_index_or, vec_len};

use body_store::Closed;
use layout_def::place_of;
use outside_io::{Memory, Turns};
use probe_order::{Order, Salted};
use std::alloc::Global;
use std::thread::{Threads, for_each_mut};

/// No two threads write within so many bytes of each other.
const APART: usize = 64;

/// The word in the home cell of a number.
fn peek(order: &Salted, cells: &[u64], number: u64) -> u64 {
    cells.get(order.home(number)).copied().unwrap_or(0)
}

/// Whether a store holds the ballot of this number. Its cells alone tell.
fn holds(closed: &Closed, order: &Salted, number: u64) -> bool
    requires bits { order.now.bits ≡ closed.now.election.bits }
    requires salt { order.now.salt ≡ closed.now.election.salt }
    ensures { result ≡ is_present closed.now.ballots number }
{
    let cells = closed.cells();
    if number == 0 {
        return false;
    }
    place_of(order, cells, number).is_some()
}

/// Whether a store holds the ballot of this number.
pub fn is_held(closed: &Closed, number: u64) -> bool
    ensures { result ≡ is_present closed.now.ballots number }
{
    let order = closed.election().order();
    holds(closed, &order, number)
}

/// A place for the answer to each number of each list, so that no worker takes memory.
fn places(alloc: Global, work: &[Vec<u64>]) -> Result<Vec<Vec<bool>>, Memory>
    ensures { IfOk result
        (λ found. map (λ list. vec_len list) found.items ≡ map (λ list. vec_len list) work.now) }
{
    let mut found = Vec::with_capacity(alloc, work.len())?;
    for list in work {
        let mut answers = Vec::with_capacity(alloc, list.len() + APART)?;
        answers.resize(list.len(), false)?;
        found.push(answers)?;
    }
    Ok(found)
}

/// The worker of list `tab`: of each number of its list whether it is held.
fn look_up<T: Turns>(closed: &Closed, tab: usize, list: &[u64], found: &mut [bool], turns: &T)
    requires { length found.old ≡ length list.now }
    ensures { found.new ≡ map (is_present closed.now.ballots) list.now }
{
    let order = closed.election().order();
    for (index, answer) in found.iter_mut().enumerate() {
        let number = list[index];
        turns.turn(tab, index, peek(&order, closed.cells(), number));
        *answer = holds(closed, &order, number);
    }
}

/// The workers of all lists, each with the places of its own answers.
fn look_up_all<R: Threads + Sync, T: Turns>(
    rt: &R,
    closed: &Closed,
    work: &[Vec<u64>],
    found: &mut [Vec<bool>],
    turns: &T,
)
    requires { map (λ list. vec_len list) found.old ≡ map (λ list. vec_len list) work.now }
    ensures as_many { length found.new ≡ length found.old }
    ensures answers { map (λ list. list.items) found.new
        ≡ map (λ list. map (is_present closed.now.ballots) list.items) work.now }
{
    let worker = |tab: usize, answers: &mut Vec<bool>|
        requires listed { tab < length work.now }
        requires as_many { (list : _) → vec_len answers.now ≡ vec_len (slice_index_or work.now tab list) }
        ensures { (list : _) → answers.exit.now.items
            ≡ map (is_present closed.entry.now.ballots) (slice_index_or work.entry.now tab list).items }
    { look_up(closed, tab, &work[tab], answers, turns) };
    for_each_mut(rt, found, work.len().max(1), &worker);
}

/// Looks up the numbers that wait in lists, of each list in order. It tells of each number whether it is held. With one
/// list no thread is started.
pub fn run_find<R: Threads + Sync, T: Turns>(
    rt: &R,
    alloc: Global,
    closed: &Closed,
    work: &[Vec<u64>],
    turns: &T,
) -> Result<Vec<Vec<bool>>, Memory>
    ensures { IfOk result (λ found. map (λ list. list.items) found.items
        ≡ map (map (is_present closed.now.ballots)) (map (λ list. list.items) work.now)) }
{
    let mut found = places(alloc, work)?;
    look_up_all(rt, closed, work, &mut found, turns);
    Ok(found)
}
