//! The two ends of a phase: its workers at their seats, and what is left of them.

ghost use Rattle.phase_kind.specs.AnsweredItem.{answered_items};
ghost use Rattle.phase_kind.specs.Worker.{AreSeatsAndTrays, new_worker, seat_of, worker_with};
ghost use Rattle.std.specs.Prelude.{◌≡◌, ◌<◌, ◌≤◌, ◌++◌, [], ◌∷◌, All, IfOk, length, map, slice_index_or};
ghost use Rattle.word_rule.specs.Places.{AreAll as AreSeats};
ghost use Rattle.word_rule.specs.Seats.{SharedWords};
ghost use Rattle.phase_kind.specs.Phase.{IsPhase};

use crate::{Kind, Tray, Worker};
use body_store::Closed;
use outside_io::Memory;
use std::alloc::Global;
use step_core::Shape;

/// What a phase is made of: the shape of its words, the words, and a worker for each entry of the plan.
pub fn opened<K: Kind>(
    alloc: Global,
    closed: &Closed,
    plan: &[u32],
) -> Result<(Shape, K::Words, Vec<Worker<K>>), Memory>
    requires { 1 ≤ length plan.now }
    ensures phase { IfOk result
        (λ made. IsPhase K.may_claim closed.now (K.seen made.1) made.0) }
    ensures seats { IfOk result (λ made. (K.seen made.1).seats ≡ length plan.now) }
    ensures workers { IfOk result (λ made. made.2.items
        ≡ map (new_worker K.fresh (record { base = closed.now; words = K.seen made.1 })) plan.now) }
{
    let (shape, words, seats) = words_of::<K>(alloc, closed, plan.len())?;
    let workers = seated(alloc, closed, seats, plan)?;
    Ok((shape, words, workers))
}

/// The same with a worker for each of some lists, which waits in its tray.
pub fn opened_with<K: Kind>(
    alloc: Global,
    closed: &Closed,
    work: Vec<K::List>,
) -> Result<(Shape, K::Words, Vec<Worker<K>>), Memory>
    requires some { 1 ≤ length work.items }
    requires is_of { All (λ list. K.is_of closed.now list) work.items }
    ensures phase { IfOk result
        (λ made. IsPhase K.may_claim closed.now (K.seen made.1) made.0) }
    ensures seats { IfOk result (λ made. (K.seen made.1).seats ≡ length work.items) }
    ensures workers { IfOk result (λ made. made.2.items
        ≡ map (worker_with K.fresh (record { base = closed.now; words = K.seen made.1 }))
        (map K.items work.items)) }
{
    let (shape, words, seats) = words_of::<K>(alloc, closed, work.len())?;
    let workers = seated_with(alloc, closed, seats, work)?;
    Ok((shape, words, workers))
}

/// The words of a phase with their shape, and so many new seats at them.
fn words_of<K: Kind>(
    alloc: Global,
    closed: &Closed,
    seats: usize,
) -> Result<(Shape, K::Words, Vec<K::Seat>), Memory>
    requires { 1 ≤ seats }
    ensures phase { IfOk result
        (λ made. IsPhase K.may_claim closed.now (K.seen made.1) made.0) }
    ensures as_many { IfOk result (λ made. (K.seen made.1).seats ≡ seats) }
    ensures seats { IfOk result
        (λ made. AreSeats K.fresh (K.seen made.1) (map K.standing made.2.items)) }
{
    let election = closed.election();
    let shape = Shape {
        order: election.order(),
        cells: election.cells(),
        claims: K::claims(closed),
    };
    let (words, seats) = K::begin(alloc, closed, shape, seats)?;
    Ok((shape, words, seats))
}

/// A worker at each of new seats of some words, with a tray as the plan says.
fn seated<K: Kind>(
    alloc: Global,
    closed: &Closed,
    seats: Vec<K::Seat>,
    plan: &[u32],
) -> Result<Vec<Worker<K>>, Memory>
    requires as_many { length seats.items ≡ length plan.now }
    requires new { All (λ seat. (K.standing seat).view ≡ K.fresh) seats.items }
    ensures { IfOk result (λ workers. (words : SharedWords)
        → All (λ seat. (K.standing seat).words ≡ words) seats.items
        → workers.items ≡ map (new_worker K.fresh (record { base = closed.now; words = words })) plan.now) }
{
    let mut workers = Vec::with_capacity(alloc, plan.len())?;
    for seat in seats {
        seat_one(alloc, closed, seat, plan, &mut workers)?;
    }
    Ok(workers)
}

/// One worker more, at a new seat, with a tray as the plan says.
fn seat_one<K: Kind>(
    alloc: Global,
    closed: &Closed,
    seat: K::Seat,
    plan: &[u32],
    workers: &mut Vec<Worker<K>>,
) -> Result<(), Memory>
    requires new { (K.standing seat).view ≡ K.fresh }
    requires within { length workers.old.items < length plan.now }
    ensures { IfOk result (λ _. (d : _) → workers.new.items ≡ workers.old.items ++ new_worker K.fresh
        (record { base = closed.now; words = (K.standing seat).words })
        (slice_index_or plan.now (length workers.old.items) d) ∷ []) }
{
    let room = plan[workers.len()];
    let worker = Worker::new(alloc, closed, seat, room)?;
    workers.push(worker)?;
    Ok(())
}

/// A worker at each of new seats of some words, in whose tray a list waits.
fn seated_with<K: Kind>(
    alloc: Global,
    closed: &Closed,
    seats: Vec<K::Seat>,
    work: Vec<K::List>,
) -> Result<Vec<Worker<K>>, Memory>
    requires as_many { length seats.items ≡ length work.items }
    requires new { All (λ seat. (K.standing seat).view ≡ K.fresh) seats.items }
    requires is_of { All (λ list. K.is_of closed.now list) work.items }
    ensures { IfOk result (λ workers. (words : SharedWords)
        → All (λ seat. (K.standing seat).words ≡ words) seats.items
        → workers.items ≡ map (worker_with K.fresh (record { base = closed.now; words = words }))
        (map K.items work.items)) }
{
    let mut workers = Vec::with_capacity(alloc, work.len())?;
    let mut rest = work.into_iter();
    for seat in seats {
        let list = match rest.next() {
            Some(list) => list,
            None => unreachable!(),
        };
        seat_one_with(alloc, closed, seat, list, &mut workers)?;
    }
    Ok(workers)
}

/// One worker more, at a new seat, in whose tray a list waits.
fn seat_one_with<K: Kind>(
    alloc: Global,
    closed: &Closed,
    seat: K::Seat,
    list: K::List,
    workers: &mut Vec<Worker<K>>,
) -> Result<(), Memory>
    requires new { (K.standing seat).view ≡ K.fresh }
    requires is_of { K.is_of closed.now list }
    ensures { IfOk result (λ _. workers.new.items ≡ workers.old.items ++ worker_with K.fresh
        (record { base = closed.now; words = (K.standing seat).words }) (K.items list) ∷ []) }
{
    let worker = Worker::with_list(alloc, closed, seat, list)?;
    workers.push(worker)?;
    Ok(())
}

/// The seats of workers for which nothing waits, and their trays.
pub fn taken_apart<K: Kind>(
    alloc: Global,
    workers: Vec<Worker<K>>,
) -> Result<(Vec<K::Seat>, Vec<Tray<K::List, K::Reply>>), Memory>
    requires { All (λ worker. worker.waiting ≡ []) workers.items }
    ensures { IfOk result (λ parts. AreSeatsAndTrays K.standing
        (λ tray. answered_items (K.items tray.items) tray.replies.items) (λ base tray. K.is_of base tray.items)
        (λ tray. length (K.items tray.items) ≡ length tray.replies.items) K.tells
        workers.items parts.0.items parts.1.items) }
{
    let mut seats = Vec::with_capacity(alloc, workers.len())?;
    let mut trays = Vec::with_capacity(alloc, workers.len())?;
    for worker in workers {
        take_apart(worker, &mut seats, &mut trays)?;
    }
    Ok((seats, trays))
}

/// The seat of one worker more, for which nothing waits, and its tray.
fn take_apart<K: Kind>(
    worker: Worker<K>,
    seats: &mut Vec<K::Seat>,
    trays: &mut Vec<Tray<K::List, K::Reply>>,
) -> Result<(), Memory>
    requires idle { worker.waiting ≡ [] }
    requires paired { All (λ tray. length (K.items tray.items) ≡ length tray.replies.items) trays.old.items }
    ensures seats { IfOk result (λ _. map K.standing seats.new.items
        ≡ map K.standing seats.old.items ++ seat_of worker ∷ []) }
    ensures trays { IfOk result (λ _. map (λ tray. answered_items (K.items tray.items) tray.replies.items) trays.new.items
        ≡ map (λ tray. answered_items (K.items tray.items) tray.replies.items) trays.old.items ++ worker.tray ∷ []) }
    ensures is_of { IfOk result (λ _. All (λ tray. K.is_of worker.phase.base tray.items) trays.old.items
        → All (λ tray. K.is_of worker.phase.base tray.items) trays.new.items) }
    ensures paired { IfOk result
        (λ _. All (λ tray. length (K.items tray.items) ≡ length tray.replies.items) trays.new.items) }
    ensures told { IfOk result (λ _. K.tells worker.phase worker.seat worker.tray) }
{
    let (seat, tray) = worker.into_parts();
    seats.push(seat)?;
    trays.push(tray)?;
    Ok(())
}
