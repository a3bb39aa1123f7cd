//! What casting and withdrawing phases have in common, as a trait.

ghost use Rattle.std.specs.Prelude.{◌≡◌, ◌+◌, ◌^◌, ◌<◌, ◌≤◌, ◌++◌, [], ◌∷◌, All, IfOk, List, OnErr, OnOk, Some, length, map, slice_get};
ghost use Rattle.body_store.specs.Contents.{Contents, IsStored};
ghost use Rattle.phase_kind.specs.Phase.{AreWordsOfStore, IsPhase, OpenPhase};
ghost use Rattle.phase_kind.specs.AnsweredItem.{AnsweredItem, answered_items};
ghost use Rattle.phase_kind.specs.Worker.{AreLeft};
ghost use Rattle.store_spec.specs.Election.{most_cells};
ghost use Rattle.store_spec.specs.Image.{cells_of};
ghost use Rattle.word_rule.specs.Places.{AreAll as AreSeats, AreMadeOf};
ghost use Rattle.word_rule.specs.Stores.{IsShapeOf};

use crate::Tray;
use body_store::Closed;
use outside_io::Memory;
use std::alloc::Global;
use step_core::Shape;

/// What a kind of phase is: its shared words, how one item of a list is answered from a seat, what a tray tells of its
/// seat, and what a close tells.
pub trait Kind: Drop + Sync {
    ghost use Rattle.std.specs.Prelude.{ℕ, List};
    ghost use Rattle.body_store.specs.Contents.{Contents};
    ghost use Rattle.phase_kind.specs.Phase.{OpenPhase};
    ghost use Rattle.phase_kind.specs.AnsweredItem.{AnsweredItem};
    ghost use Rattle.store_spec.specs.Ballot.{Ballot};
    ghost use Rattle.word_rule.specs.Places.{Place};
    ghost use Rattle.word_rule.specs.Seats.{SharedWords};

    /// What a seat knows.
    type Sight;

    /// The shared words of a phase.
    type Words: Drop + Sync;

    /// A seat at them.
    type Seat: Drop + Send;

    /// What is answered, as contracts see it.
    type Item;

    /// A list of items.
    type List: Drop + Send + Sync;

    /// What an item is answered at once.
    type Reply: Copy + Drop + Send;

    /// What it is answered at the close.
    type Final;

    /// Shared words, as callers see them.
    ghost seen: { Self.Words → SharedWords };

    /// A seat, as callers see it.
    ghost standing: { Self.Seat → Place Self.Sight };

    /// What a new seat knows.
    ghost fresh: { Self.Sight };

    /// Such seats answer items.
    ghost rests: { Self.Sight → Type 0 };

    /// The items of a list.
    ghost items: { Self.List → List Self.Item };

    /// The number of an item.
    ghost number: { Self.Item → ℕ };

    /// For how many more items a list has memory.
    ghost room: { Self.List → ℕ };

    /// The list may hold items of phases of this store.
    ghost is_of: { Contents → Self.List → Type 0 };

    /// A phase of this store has so many claim words.
    ghost may_claim: { Contents → ℕ → Type 0 };

    /// In a phase, at a seat that knew this, an item is answered so, and the seat knows this from then on.
    ghost answers: { OpenPhase → Self.Sight → Self.Item → Self.Reply → Self.Sight → Type 0 };

    /// In a phase, a tray tells so of what its seat knows.
    ghost tells: { OpenPhase → Self.Sight → List (AnsweredItem Self.Item Self.Reply) → Type 0 };

    /// What the close of a phase of this store tells of its trays: the final replies, and the ballots after it.
    ghost closes: { Contents → List (List (AnsweredItem Self.Item Self.Reply)) → List (List Self.Final)
        → List Ballot → Type 0 };

    /// An empty list, and memory for so many items.
    fn new_list(alloc: Global, closed: &Closed, places: usize) -> Result<Self::List, Memory>
        requires { places < 2 ^ 33 }
        ensures empty { IfOk result (λ list. items list ≡ []) }
        ensures room { IfOk result (λ list. room list ≡ places) }
        ensures is_of { IfOk result (λ list. is_of closed.now list) };

    /// How many items there are.
    fn len(list: &Self::List) -> usize
        ensures { result ≡ length (items list.now) };

    /// The number of the item at a place.
    fn number(list: &Self::List, place: usize) -> u64
        requires { place < length (items list.now) }
        ensures { (x : _) → slice_get (items list.now) place ≡ Some x → result ≡ number x };

    /// Puts the item at a place of another list behind those of a list, which has memory for it.
    fn push_from(list: &mut Self::List, from: &Self::List, place: usize)
        requires of_one { (store : Contents) × (is_of store list.old × is_of store from.now) }
        requires within { place < length (items from.now) }
        requires room { 0 < room list.old }
        ensures pushed { (x : _) × (slice_get (items from.now) place ≡ Some x)
            × (items list.new ≡ items list.old ++ x ∷ []) }
        ensures room { room list.new + 1 ≡ room list.old }
        ensures is_of { (store : Contents) → is_of store list.old → is_of store list.new };

    /// How many claim words a phase of a store has.
    fn claims(closed: &Closed) -> usize
        ensures { may_claim closed.now result };

    /// Makes a store ready for a phase. It is as it was.
    fn prepare(closed: &mut Closed) -> Result<(), Memory>
        ensures { closed.new ≡ closed.old };

    /// Shared words over the cells of a store, and so many new seats.
    fn begin(
        alloc: Global,
        closed: &Closed,
        shape: Shape,
        seats: usize,
    ) -> Result<(Self::Words, Vec<Self::Seat>), Memory>
        requires some_seat { 1 ≤ seats }
        requires shape { IsShapeOf closed.now.election shape }
        requires few_cells { shape.cells ≤ most_cells }
        requires claims { may_claim closed.now shape.claims }
        ensures words { IfOk result (λ made. AreMadeOf shape
            (cells_of closed.now.election closed.now.ballots) seats (seen made.0)) }
        ensures seats { IfOk result
            (λ made. AreSeats fresh (seen made.0) (map standing made.1.items)) };

    /// One look at a cell. It promises nothing of the answer.
    fn peek(words: &Self::Words, cell: usize) -> u64
        requires { cell < (seen words.now).shape.cells };

    /// Answers the item at a place of a list, from a seat at the words of a phase of a store.
    fn reply(
        closed: &Closed,
        shape: &Shape,
        words: &Self::Words,
        seat: &mut Self::Seat,
        list: &Self::List,
        place: usize,
    ) -> Self::Reply
        requires phase { IsPhase may_claim closed.now (seen words.now) shape.now }
        requires is_of { is_of closed.now list.now }
        requires within { place < length (items list.now) }
        requires belongs { (standing seat.old).words ≡ seen words.now }
        requires at_rest { rests (standing seat.old).view }
        ensures words { (standing seat.new).words ≡ (standing seat.old).words }
        ensures answers { (x : _) → slice_get (items list.now) place ≡ Some x
            → answers (record { base = closed.now; words = seen words.now })
            (standing seat.old).view x result (standing seat.new).view };

    /// Ends a phase of a store, of which the words and all seats and trays are left: what its workers answered comes
    /// to the store, and each item has a final reply. After `Memory` the store holds what it held.
    fn end(
        alloc: Global,
        closed: &mut Closed,
        words: Self::Words,
        seats: Vec<Self::Seat>,
        trays: Vec<Tray<Self::List, Self::Reply>>,
    ) -> Result<Vec<Vec<Self::Final>>, Memory>
        requires stored { IsStored closed.old }
        requires own { AreWordsOfStore may_claim closed.old (seen words) }
        requires left { AreLeft tells (record { base = closed.old; words = seen words })
            (map standing seats.items)
            (map (λ tray. answered_items (items tray.items) tray.replies.items) trays.items) }
        requires is_of { All (λ tray. is_of closed.old tray.items) trays.items }
        requires paired { All (λ tray. length (items tray.items) ≡ length tray.replies.items)
            trays.items }
        ensures election { OnOk result (closed.new.election ≡ closed.old.election) }
        ensures stored { OnOk result (IsStored closed.new) }
        ensures closes { IfOk result (λ finals. closes closed.old
            (map (λ tray. answered_items (items tray.items) tray.replies.items) trays.items)
            (map (λ list. list.items) finals.items) closed.new.ballots) }
        ensures unchanged { OnErr result (closed.new ≡ closed.old) };

    /// An empty tray tells of a new seat. Where an item was answered, a tray with it and its reply tells of the seat.
    /// Each seat of which a tray tells is at rest.
    fn trays_tell()
        ensures none { (phase : OpenPhase) → tells phase fresh [] }
        ensures more { (phase : OpenPhase) (old now : Self.Sight)
            (tray : List (AnsweredItem Self.Item Self.Reply)) (x : Self.Item) (reply : Self.Reply)
            → tells phase old tray → answers phase old x reply now
            → tells phase now (tray ++ record { item = x; reply = reply } ∷ []) }
        ensures at_rest { (phase : OpenPhase) (view : Self.Sight)
            (tray : List (AnsweredItem Self.Item Self.Reply)) → tells phase view tray → rests view };
}
