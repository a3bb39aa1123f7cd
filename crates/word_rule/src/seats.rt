//! The seats of shared words, whatever the phase: what they know, their making, and their taking in.

ghost use Rattle.std.specs.Prelude.{◌≡◌, ◌<◌, ◌≤◌, [], IfOk};
ghost use Rattle.word_rule.specs.Places.{AreAll, AreWhole, HasTakenIn, IsSingle, place_of, words_seen};
ghost use Rattle.word_rule.specs.Seats.{knows};

use atomic_table::{Join, Seat, Shared, Split, TableRule};
use crossbeam_utils::CachePadded;
use outside_io::Memory;
use std::alloc::Global;
use std::collections::LinkedList;
use std::marker::{Model, PhantomData};
use std::snapshot::Snapshot;
use step_core::Shape;

/// What shared words are made with.
#[derive(Drop)]
pub struct Opening {
    pub shape: Shape,
    pub seats: usize,
    pub words: Snapshot<Vec<u64>>,
}

/// What a seat knows: the shape, the cells at the opening, how many seats were asked for, for how many of these it
/// stands, and its view in the phase. No value of it is made.
pub struct Known<V> {
    pub shape: Shape,
    pub base: LinkedList<u64>,
    pub seats: usize,
    pub weight: usize,
    pub view: V,
}

/// What a phase is: what it keeps between any two steps of the shape, the cells at the opening, the words and all views,
/// how its views begin and are joined, which of them are at rest, and what comes of all seats at the end.
pub trait PhaseRule<V> {
    ghost use Rattle.std.specs.Prelude.{◌≡◌, ℕ, List, take};
    ghost use Rattle.step_core.specs.declared.shape.Shape.{Shape};
    ghost use Rattle.word_rule.specs.Places.{HaveEnded, Place};
    ghost use Rattle.word_rule.specs.Seats.{KeepsSeats, Opens, SharedWords};

    /// What is kept of a seat in memory.
    type Standing: Copy + Drop;

    ghost holds: { Shape → List ℕ → List ℕ → List V → Type 0 };

    ghost fresh: { V };

    ghost both: { V → V → V };

    ghost rests: { V → Type 0 };

    /// Words may be made of such cells.
    ghost may_open: { Shape → List ℕ → Type 0 };

    /// How many words are behind the cells.
    ghost behind: { Shape → ℕ };

    /// In words of a shape, this is kept of a seat that knows this.
    ghost stands: { Shape → Self.Standing → V → Type 0 };

    /// The cells at the end.
    ghost cells_after: { SharedWords → List (Place V) → List ℕ };

    /// What the lists of all seats are like at the end.
    ghost agree_on: { SharedWords → List (Place V) → Type 0 };

    /// How many words are behind the cells.
    fn words_behind(shape: &Shape) -> usize
        ensures { result ≡ behind shape.now };

    /// What is kept of a new seat.
    fn at_rest() -> Self::Standing
        ensures { (shape : Shape) → stands shape result fresh };

    /// The rule holds of new words, and where seats are made and taken in. Once all seats are one, at rest, the cells and
    /// the lists are as they are said to be.
    fn laws()
        ensures opens { (shape : Shape) (cells : List ℕ) → may_open shape cells
            → Opens holds fresh (behind shape) shape cells }
        ensures keeps { KeepsSeats holds fresh both rests }
        ensures closes { (words : SharedWords) (seats : List (Place V)) (last : List ℕ)
            → may_open words.shape words.base → HaveEnded holds fresh both rests words seats last
            → (take words.shape.cells last ≡ cells_after words seats) × agree_on words seats };
}

/// The rule of a phase's words and seats.
pub struct Seated<Q> {
    phase: PhantomData<Q>,
}

impl<V, Q: PhaseRule<V>> TableRule<(), Known<V>, Opening> for Seated<Q> {
    ghost use Rattle.word_rule.specs.Seats.{IsSeated, knows};

    ghost holds = { IsSeated Q.holds Q.fresh };

    ghost first = { λ opening. knows opening opening.seats Q.fresh };
}

/// A seat is cut in two.
pub struct Cut<Q> {
    phase: PhantomData<Q>,
}

impl<V, Q: PhaseRule<V>> Split<Known<V>> for Cut<Q> {
    ghost use Rattle.word_rule.specs.Seats.{cut, cut_off};

    ghost left = { cut };

    ghost right = { cut_off Q.fresh };
}

/// A seat takes in another.
pub struct TakeIn<Q> {
    phase: PhantomData<Q>,
}

impl<V, Q: PhaseRule<V>> Join<Known<V>> for TakeIn<Q> {
    ghost use Rattle.word_rule.specs.Seats.{spent, taken_in};

    ghost both = { taken_in Q.both };

    ghost spent = { spent Q.fresh };
}

/// A seat at shared words. One thread at a time makes its steps. Nothing else lies on the cache lines of what is kept of
/// it in memory.
#[derive(Drop)]
pub struct SeatOf<V, Q: PhaseRule<V>> {
    pub(crate) standing: CachePadded<Q::Standing>,
    pub(crate) seat: Seat<(), Known<V>>,
}

impl<V, Q: PhaseRule<V>> Model for SeatOf<V, Q> {
    ghost use Rattle.crossbeam_utils.specs.Padded.{padded_value};
    ghost use Rattle.word_rule.specs.Places.{IsSeat, Place, place_of};

    ghost Value = { Place V };

    ghost view = { λ s. place_of s.seat };

    ghost invariant = { λ s. IsSeat Q.stands (padded_value s.standing) s.seat };
}

impl<V, Q: PhaseRule<V>> SeatOf<V, Q> {
    /// A new seat.
    fn new(seat: Seat<(), Known<V>>) -> SeatOf<V, Q>
        requires single { IsSingle seat }
        requires fresh { seat.me.0.view ≡ Q.fresh }
        ensures { result ≡ place_of seat }
    {
        SeatOf {
            standing: CachePadded::new(Q::at_rest()),
            seat,
        }
    }

    /// What is left of a seat once its steps are done.
    fn into_seat(self) -> Seat<(), Known<V>>
        ensures place { place_of result ≡ self }
        ensures single { IsSingle result }
    {
        let Self { standing: _, seat } = self;
        seat
    }
}

/// As many new seats as the first stands for: one after another is cut off it.
pub fn deal_seats<V, Q: PhaseRule<V>>(
    alloc: Global,
    shared: &Shared<(), Known<V>, Opening, Seated<Q>>,
    first: Seat<(), Known<V>>,
    count: usize,
) -> Result<Vec<SeatOf<V, Q>>, Memory>
    requires table { (first.table_id ≡ shared.now.table_id) × (0 < shared.now.table_id.words) }
    requires first { first.me ≡ (knows shared.now.key count Q.fresh, []) }
    requires some { 1 ≤ count }
    requires asked { count ≡ shared.now.key.seats }
    ensures { IfOk result (λ seats. AreAll Q.fresh (words_seen shared.now) seats.items) }
{
    Q::laws();
    let mut first = first;
    let mut seats = Vec::with_capacity(alloc, count)?;
    for _ in 1..count {
        seats.push(SeatOf::new(shared.split_seat::<Cut<Q>>(&mut first)))?;
    }
    seats.push(SeatOf::new(first))?;
    Ok(seats)
}

/// One seat that has taken in all others, in their order.
pub fn join_seats<V, Q: PhaseRule<V>>(
    shared: &Shared<(), Known<V>, Opening, Seated<Q>>,
    seats: Vec<SeatOf<V, Q>>,
) -> Seat<(), Known<V>>
    requires words { 0 < shared.now.table_id.words }
    requires some { 0 < shared.now.key.seats }
    requires whole { AreWhole Q.rests (words_seen shared.now) seats.items }
    ensures { HasTakenIn Q.both Q.rests (words_seen shared.now) seats.items result }
{
    Q::laws();
    let mut seats = seats.into_iter();
    let Some(first) = seats.next() else {
        unreachable!();
    };
    let mut whole = first.into_seat();
    for seat in seats {
        shared.join_seat::<TakeIn<Q>>(&mut whole, seat.into_seat());
    }
    whole
}
