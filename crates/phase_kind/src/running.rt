//! A phase's workers, all at once.

ghost use Rattle.phase_kind.specs.Worker.{HasAnswered, HasFinished, HasQueued};
ghost use Rattle.std.specs.Prelude.{◌≡◌, ◌<◌, ◌≤◌, ◌++◌, [], ◌∷◌, ℕ, All, length, slice_index_or, zip};

use crate::{Kind, PhaseOf, Worker};
use outside_io::Turns;
use std::thread::{Threads, for_each_mut};

/// Each worker answers all that waits in its tray, in order, and all of them work at once: each in a thread of its
/// own, but for one, which works in the caller's. Before each item its turn is told. No memory is taken.
pub fn run_waiting<R: Threads + Sync, T: Turns, K: Kind>(
    rt: &R,
    phase: &PhaseOf<K>,
    workers: &mut [Worker<K>],
    turns: &T,
)
    requires belong { All (λ worker. worker.phase ≡ phase.now) workers.old }
    ensures as_many { length workers.new ≡ length workers.old }
    ensures belong { All (λ worker. worker.phase ≡ phase.now) workers.new }
    ensures idle { All (λ worker. worker.waiting ≡ []) workers.new }
    ensures finished { All (λ at. HasFinished K.rests at.0 at.1) (zip workers.old workers.new) }
{
    let answer_all = |place: usize, worker: &mut Worker<K>|
        requires belongs { worker.now.phase ≡ phase.now }
        ensures belongs { worker.exit.now.phase ≡ phase.entry.now }
        ensures finished { HasFinished K.rests worker.entry.now worker.exit.now }
    { answer_waiting(phase, worker, place, turns) };
    for_each_mut(rt, workers, workers.len().max(1), &answer_all);
}

/// One worker answers all that waits, in order.
fn answer_waiting<T: Turns, K: Kind>(
    phase: &PhaseOf<K>,
    worker: &mut Worker<K>,
    place: usize,
    turns: &T,
)
    requires belongs { worker.old.phase ≡ phase.now }
    ensures { HasFinished K.rests worker.old worker.new }
{
    K::trays_tell();
    let count = worker.waiting();
    for index in 0..count {
        answer_next(phase, worker, place, index, turns);
    }
}

/// The worker at a place comes to the first item that waits: its turn is told, and it answers the item.
pub(crate) fn answer_next<T: Turns, K: Kind>(
    phase: &PhaseOf<K>,
    worker: &mut Worker<K>,
    place: usize,
    index: usize,
    turns: &T,
)
    requires belongs { worker.old.phase ≡ phase.now }
    requires waits { 0 < length worker.old.waiting }
    ensures phase { worker.new.phase ≡ worker.old.phase }
    ensures room { worker.new.room ≡ worker.old.room }
    ensures answers { (x : K.Item) × (reply : K.Reply)
        × (worker.old.waiting ≡ x ∷ worker.new.waiting)
        × (worker.new.tray ≡ worker.old.tray ++ record { item = x; reply = reply } ∷ [])
        × K.answers phase.now worker.old.seat x reply worker.new.seat }
    ensures at_rest { K.rests worker.new.seat }
{
    turns.turn(place, index, phase.peek(worker.next_number()));
    worker.answer_next(phase);
}

/// Each worker, for which nothing waits, answers the list at its place, in order. First each item is copied into its
/// tray; then all of them work at once, as above.
pub fn run<R: Threads + Sync, T: Turns, K: Kind>(
    rt: &R,
    phase: &PhaseOf<K>,
    workers: &mut [Worker<K>],
    work: &[K::List],
    turns: &T,
)
    requires as_many { length workers.old ≡ length work.now }
    requires belong { All (λ worker. worker.phase ≡ phase.now) workers.old }
    requires idle { All (λ worker. worker.waiting ≡ []) workers.old }
    requires room { All (λ at. length (K.items at.1) ≤ at.0.room) (zip workers.old work.now) }
    requires is_of { All (λ list. K.is_of phase.now.base list) work.now }
    ensures as_many { length workers.new ≡ length workers.old }
    ensures belong { All (λ worker. worker.phase ≡ phase.now) workers.new }
    ensures idle { All (λ worker. worker.waiting ≡ []) workers.new }
    ensures answered { All (λ at. HasAnswered K.rests at.0 (K.items at.1.0) at.1.1)
        (zip workers.old (zip work.now workers.new)) }
{
    queue_lists(workers, work);
    run_waiting(rt, phase, workers, turns);
}

/// The items of the list at each worker's place join those that wait for it.
fn queue_lists<K: Kind>(workers: &mut [Worker<K>], work: &[K::List])
    requires as_many { length workers.old ≡ length work.now }
    requires room { All (λ at. length (K.items at.1) ≤ at.0.room) (zip workers.old work.now) }
    requires is_of { All (λ at. K.is_of at.0.phase.base at.1) (zip workers.old work.now) }
    ensures as_many { length workers.new ≡ length workers.old }
    ensures queued { (place : ℕ) (d : _) (list : _) → place < length workers.old
        → HasQueued (slice_index_or workers.old place d) (K.items (slice_index_or work.now place list))
        (slice_index_or workers.new place d) }
{
    for place in 0..work.len() {
        workers[place].queue_all(&work[place]);
    }
}
