//! A phase of either kind: how it begins and how it closes.

ghost use Rattle.body_store.specs.Contents.{IsStored};
ghost use Rattle.phase_kind.specs.Phase.{AreWordsOfStore};
ghost use Rattle.phase_kind.specs.Worker.{AreAll, new_worker, worker_with};
ghost use Rattle.std.specs.Prelude.{◌≡◌, ◌<◌, ◌≤◌, All, IfErr, IfOk, Some, length, map, slice_get};

use crate::closing::{opened, opened_with, taken_apart};
use crate::{Kind, Worker};
use body_store::Closed;
use outside_io::Memory;
use probe_order::Order;
use std::alloc::Global;
use std::marker::Model;
use step_core::Shape;

/// A phase of a kind: the store that it began from, and the shared words from whose seats its workers answer.
#[derive(Drop)]
pub struct PhaseOf<K: Kind> {
    closed: Closed,
    shape: Shape,
    words: K::Words,
}

impl<K: Kind> Model for PhaseOf<K> {
    ghost use Rattle.phase_kind.specs.Phase.{IsPhase, OpenPhase};

    ghost Value = { OpenPhase };

    ghost view = { λ p. record { base = p.closed; words = K.seen p.words } };

    ghost invariant = { λ p. IsPhase K.may_claim p.closed (K.seen p.words) p.shape };
}

impl<K: Kind> PhaseOf<K> {
    /// Begins a phase with a worker for each entry of the plan, which says how many items its tray has room for. All
    /// memory that its workers need is taken here.
    pub fn begin(
        alloc: Global,
        mut closed: Closed,
        plan: &[u32],
    ) -> Result<(PhaseOf<K>, Vec<Worker<K>>), (Closed, Memory)>
        requires some_worker { 1 ≤ length plan.now }
        requires few_workers { length plan.now ≤ 64 }
        ensures base { IfOk result (λ begun. begun.0.base ≡ closed) }
        ensures words { IfOk result (λ begun. AreWordsOfStore K.may_claim closed begun.0.words) }
        ensures seats { IfOk result (λ begun. begun.0.words.seats ≡ length plan.now) }
        ensures workers { IfOk result
            (λ begun. begun.1.items ≡ map (new_worker K.fresh begun.0) plan.now) }
        ensures given_back { IfErr result (λ refused. refused.0 ≡ closed) }
    {
        if let Err(memory) = K::prepare(&mut closed) {
            return Err((closed, memory));
        }
        match opened(alloc, &closed, plan) {
            Ok((shape, words, workers)) => Ok((
                PhaseOf {
                    closed,
                    shape,
                    words,
                },
                workers,
            )),
            Err(memory) => Err((closed, memory)),
        }
    }

    /// Begins a phase with a worker for each of some lists, which waits in its tray: no item is copied. All memory
    /// that its workers need is taken here. A list of 2^32 items and more counts as lack of memory.
    pub fn begin_with(
        alloc: Global,
        mut closed: Closed,
        work: Vec<K::List>,
    ) -> Result<(PhaseOf<K>, Vec<Worker<K>>), (Closed, Memory)>
        requires some_worker { 1 ≤ length work.items }
        requires few_workers { length work.items ≤ 64 }
        requires is_of { All (λ list. K.is_of closed list) work.items }
        ensures base { IfOk result (λ begun. begun.0.base ≡ closed) }
        ensures words { IfOk result (λ begun. AreWordsOfStore K.may_claim closed begun.0.words) }
        ensures seats { IfOk result (λ begun. begun.0.words.seats ≡ length work.items) }
        ensures workers { IfOk result
            (λ begun. begun.1.items ≡ map (worker_with K.fresh begun.0) (map K.items work.items)) }
        ensures given_back { IfErr result (λ refused. refused.0 ≡ closed) }
    {
        if let Err(memory) = K::prepare(&mut closed) {
            return Err((closed, memory));
        }
        match opened_with(alloc, &closed, work) {
            Ok((shape, words, workers)) => Ok((
                PhaseOf {
                    closed,
                    shape,
                    words,
                },
                workers,
            )),
            Err(memory) => Err((closed, memory)),
        }
    }

    /// One look at the cell at which the search for a number begins. It promises nothing of the answer.
    pub fn peek(&self, number: u64) -> u64 {
        K::peek(&self.words, self.home(number))
    }

    /// The cell at which the search for a number begins.
    fn home(&self, number: u64) -> usize
        ensures { result < self.now.words.shape.cells }
    {
        self.shape.order.home(number)
    }

    /// Answers from a seat the item at a place of a list.
    pub(crate) fn reply(&self, seat: &mut K::Seat, list: &K::List, place: usize) -> K::Reply
        requires is_of { K.is_of self.now.base list.now }
        requires within { place < length (K.items list.now) }
        requires belongs { (K.standing seat.old).words ≡ self.now.words }
        requires at_rest { K.rests (K.standing seat.old).view }
        ensures words { (K.standing seat.new).words ≡ (K.standing seat.old).words }
        ensures answers { (x : _) → slice_get (K.items list.now) place ≡ Some x
            → K.answers self.now (K.standing seat.old).view x result (K.standing seat.new).view }
    {
        K::reply(&self.closed, &self.shape, &self.words, seat, list, place)
    }

    /// Ends the phase with all its workers, in order, for which nothing waits: the store after it, and a final reply
    /// to each item of each tray. After `Memory` the store of before the phase comes back.
    pub fn close(
        self,
        alloc: Global,
        workers: Vec<Worker<K>>,
    ) -> Result<(Closed, Vec<Vec<K::Final>>), (Closed, Memory)>
        requires all { AreAll self workers.items }
        ensures election { IfOk result (λ closed. closed.0.election ≡ self.base.election) }
        ensures stored { IfOk result (λ closed. IsStored closed.0) }
        ensures closes { IfOk result
            (λ closed. K.closes self.base (map (λ worker. worker.tray) workers.items)
            (map (λ finals. finals.items) closed.1.items) closed.0.ballots) }
        ensures given_back { IfErr result (λ refused. refused.0 ≡ self.base) }
    {
        let Self {
            mut closed,
            shape: _,
            words,
        } = self;
        let (seats, trays) = match taken_apart(alloc, workers) {
            Ok(parts) => parts,
            Err(memory) => return Err((closed, memory)),
        };
        match K::end(alloc, &mut closed, words, seats, trays) {
            Ok(finals) => Ok((closed, finals)),
            Err(memory) => Err((closed, memory)),
        }
    }
}
