//! A worker of a phase: the tabulator or the withdrawer of one list.

ghost use Rattle.phase_kind.specs.AnsweredItem.{AnsweredItem, answered_items};
ghost use Rattle.phase_kind.specs.Worker.{HasQueued, new_worker, seat_of, worker_with};
ghost use Rattle.std.specs.Prelude.{◌≡◌, ◌+◌, ◌<◌, ◌≤◌, ◌++◌, [], ◌∷◌, IfOk, Some, length, map, slice_get};

use crate::tray::{is_short, new_tray, tray_with};
use crate::{Kind, PhaseOf, Tray};
use body_store::Closed;
use outside_io::Memory;
use std::alloc::Global;
use std::marker::Model;
use std::snapshot::Snapshot;

/// One that answers items: its seat at the shared words, and its tray, in which each item that it answers is kept with
/// its reply, and behind these the items that wait. One thread at a time works with it, and what that thread writes
/// lies on no cache line of another worker: its seat begins on a cache line and ends with one, and so does the whole.
#[derive(Drop)]
pub struct Worker<K: Kind> {
    base: Snapshot<Closed>,
    seat: K::Seat,
    tray: Tray<K::List, K::Reply>,
    /// For how many items memory was taken beforehand.
    places: u32,
}

impl<K: Kind> Model for Worker<K> {
    ghost use Rattle.std.specs.Prelude.{◌-◌, drop, length, vec_capacity};
    ghost use Rattle.phase_kind.specs.Phase.{OpenPhase};
    ghost use Rattle.phase_kind.specs.AnsweredItem.{answered_items};
    ghost use Rattle.phase_kind.specs.Worker.{IsKept, WorkerView};

    ghost Value = { WorkerView K.Sight K.Item K.Reply };

    ghost view = { λ w. record {
      phase = record { base = w.base.value; words = (K.standing w.seat).words };
      seat = (K.standing w.seat).view;
      room = w.places - length (K.items w.tray.items);
      tray = answered_items (K.items w.tray.items) w.tray.replies.items;
      waiting = drop (length w.tray.replies.items) (K.items w.tray.items);
    } };

    ghost invariant = { λ w. IsKept
        (K.tells (record { base = w.base.value; words = (K.standing w.seat).words })
        (K.standing w.seat).view (answered_items (K.items w.tray.items) w.tray.replies.items))
        (K.is_of w.base.value w.tray.items) (length (K.items w.tray.items)) (K.room w.tray.items)
        (length w.tray.replies.items) (vec_capacity w.tray.replies) w.places };
}

impl<K: Kind> Worker<K> {
    /// A worker at a new seat, with an empty tray that has room for so many items.
    pub(crate) fn new(
        alloc: Global,
        closed: &Closed,
        seat: K::Seat,
        room: u32,
    ) -> Result<Worker<K>, Memory>
        requires { (K.standing seat).view ≡ K.fresh }
        ensures { IfOk result (λ worker. worker ≡ new_worker K.fresh
            (record { base = closed.now; words = (K.standing seat).words }) room) }
    {
        K::trays_tell();
        Ok(Worker {
            base: Snapshot::of(closed),
            seat,
            tray: new_tray::<K>(alloc, closed, room)?,
            places: room,
        })
    }

    /// A worker at a new seat, with a list, all of which waits in its tray, and room for a reply to each of its items.
    pub(crate) fn with_list(
        alloc: Global,
        closed: &Closed,
        seat: K::Seat,
        list: K::List,
    ) -> Result<Worker<K>, Memory>
        requires new { (K.standing seat).view ≡ K.fresh }
        requires is_of { K.is_of closed.now list }
        ensures { IfOk result (λ worker. worker ≡ worker_with K.fresh
            (record { base = closed.now; words = (K.standing seat).words }) (K.items list)) }
    {
        K::trays_tell();
        let items = K::len(&list);
        if !is_short(items) {
            return Err(Memory);
        }
        let places = items as u32;
        Ok(Worker {
            base: Snapshot::of(closed),
            seat,
            tray: tray_with::<K>(alloc, list, places)?,
            places,
        })
    }

    /// Its seat and its tray. Nothing waits.
    pub(crate) fn into_parts(self) -> (K::Seat, Tray<K::List, K::Reply>)
        requires idle { self.waiting ≡ [] }
        ensures seat { K.standing result.0 ≡ seat_of self }
        ensures tray { answered_items (K.items result.1.items) result.1.replies.items ≡ self.tray }
        ensures is_of { K.is_of self.phase.base result.1.items }
        ensures paired { length (K.items result.1.items) ≡ length result.1.replies.items }
        ensures told { K.tells self.phase self.seat self.tray }
    {
        let Self {
            base: _,
            seat,
            tray,
            places: _,
        } = self;
        (seat, tray)
    }

    /// How many more items its tray has room for.
    pub fn room(&self) -> u32
        ensures room { result ≡ self.now.room }
        ensures told { K.tells self.now.phase self.now.seat self.now.tray }
    {
        self.places - K::len(&self.tray.items) as u32
    }

    /// How many items wait.
    pub(crate) fn waiting(&self) -> usize
        ensures waiting { result ≡ length self.now.waiting }
        ensures told { K.tells self.now.phase self.now.seat self.now.tray }
    {
        K::len(&self.tray.items) - self.tray.replies.len()
    }

    /// The items that it answered, in their order, and behind them those that wait.
    pub fn items(&self) -> &K::List
        ensures items { K.items result.now
            ≡ map (λ told. told.item) self.now.tray ++ self.now.waiting }
        ensures is_of { K.is_of self.now.phase.base result.now }
    {
        &self.tray.items
    }

    /// The reply to each of those that it answered.
    pub fn replies(&self) -> &[K::Reply]
        ensures { result.now ≡ map (λ told. told.reply) self.now.tray }
    {
        &self.tray.replies
    }

    /// Answers the item at a place of a list, which joins its tray. Nothing waits.
    pub fn answer(&mut self, phase: &PhaseOf<K>, list: &K::List, place: usize) -> K::Reply
        requires belongs { self.old.phase ≡ phase.now }
        requires idle { self.old.waiting ≡ [] }
        requires room { 0 < self.old.room }
        requires is_of { K.is_of phase.now.base list.now }
        requires within { place < length (K.items list.now) }
        ensures phase { self.new.phase ≡ self.old.phase }
        ensures idle { self.new.waiting ≡ [] }
        ensures room { self.new.room + 1 ≡ self.old.room }
        ensures answers { (x : K.Item) × (slice_get (K.items list.now) place ≡ Some x)
            × (self.new.tray ≡ self.old.tray ++ record { item = x; reply = result } ∷ [])
            × K.answers (phase.now) self.old.seat x result self.new.seat }
        ensures at_rest { K.rests self.new.seat }
    {
        self.queue(list, place);
        self.answer_next(phase)
    }

    /// The item at a place of a list joins those that wait.
    fn queue(&mut self, list: &K::List, place: usize)
        requires room { 0 < self.old.room }
        requires is_of { K.is_of self.old.phase.base list.now }
        requires within { place < length (K.items list.now) }
        ensures phase { self.new.phase ≡ self.old.phase }
        ensures seat { self.new.seat ≡ self.old.seat }
        ensures room { self.new.room + 1 ≡ self.old.room }
        ensures tray { self.new.tray ≡ self.old.tray }
        ensures waits { (x : K.Item) × (slice_get (K.items list.now) place ≡ Some x)
            × (self.new.waiting ≡ self.old.waiting ++ x ∷ []) }
    {
        K::push_from(&mut self.tray.items, list, place);
    }

    /// The items of a list join those that wait.
    pub(crate) fn queue_all(&mut self, list: &K::List)
        requires room { length (K.items list.now) ≤ self.old.room }
        requires is_of { K.is_of self.old.phase.base list.now }
        ensures { HasQueued self.old (K.items list.now) self.new }
    {
        for place in 0..K::len(list) {
            self.queue(list, place);
        }
    }

    /// The number of the first item that waits.
    pub(crate) fn next_number(&self) -> u64
        requires { 0 < length self.now.waiting }
    {
        K::number(&self.tray.items, self.tray.replies.len())
    }

    /// Answers the first item that waits.
    pub(crate) fn answer_next(&mut self, phase: &PhaseOf<K>) -> K::Reply
        requires belongs { self.old.phase ≡ phase.now }
        requires waits { 0 < length self.old.waiting }
        ensures phase { self.new.phase ≡ self.old.phase }
        ensures room { self.new.room ≡ self.old.room }
        ensures answers { (x : K.Item) × (self.old.waiting ≡ x ∷ self.new.waiting)
            × (self.new.tray ≡ self.old.tray ++ record { item = x; reply = result } ∷ [])
            × K.answers (phase.now) self.old.seat x result self.new.seat }
        ensures at_rest { K.rests self.new.seat }
    {
        K::trays_tell();
        let next = self.tray.replies.len();
        let reply = phase.reply(&mut self.seat, &self.tray.items, next);
        self.tray.replies.push_reserved(reply);
        reply
    }
}
