//! Seats at shared words that cast numbers which share claim words and homes, row by row at two seats, and in one call
//! each.

ghost use Rattle.std.specs.Prelude.{◌≡◌, ◌≢◌, ◌+◌, ◌^◌, ◌≤◌, Contains, IsTrue, length};
ghost use Rattle.store_spec.specs.CastStep.CastState.{Rest};
ghost use Rattle.store_spec.specs.Layout.{numbers_in};
ghost use Rattle.word_rule.specs.CastWords.{MayBeginWith};

use crate::changed::changed;
use crate::draws::{FEW_HOMES, drawn, number_at};
use CastNote::{Claimed, Placed, Quiet, Taken};
use Kind::{Carrying, Probing, Ready, Rest};
use layout_def::is_ordered;
use outside_io::Memory;
use probe_order::Salted;
use std::alloc::Global;
use std::process::Abort;
use step_core::{CastNote, CastState, Shape};
use word_rule::{CastSeat, CastWords};

const EXAMPLE: Salted = Salted { bits: 3, salt: 0 };

#[derive(Clone, Copy, Debug, PartialEq, Eq)]
enum Kind {
    Rest,
    Probing,
    Carrying,
    Ready,
}

/// The seat that acts, and the number with which it begins, where it does not go on. Then what the step tells, and the
/// state after it with the numbers in it.
type Row = (usize, Option<u64>, CastNote, Kind, [u64; 3]);

/// 1 and 9 share a claim word and a home. 1 is placed first, and 9 displaces it.
const RACE: [Row; 10] = [
    (0, Some(1), Claimed, Carrying, [1, 4, 0]),
    (1, Some(9), Quiet, Probing, [9, 1, 0]),
    (1, None, Claimed, Carrying, [9, 4, 0]),
    (0, None, Quiet, Ready, [1, 4, 0]),
    (1, None, Quiet, Ready, [9, 4, 0]),
    (0, None, Placed, Rest, [0, 0, 0]),
    (1, None, Quiet, Ready, [9, 4, 1]),
    (1, None, Quiet, Carrying, [1, 5, 0]),
    (1, None, Quiet, Ready, [1, 5, 0]),
    (1, None, Placed, Rest, [0, 0, 0]),
];

/// 22 displaces 9, which was held in cell 4. 9 is to go to cell 5, which 14 takes first.
const DISPLACED: [Row; 10] = [
    (0, Some(22), Claimed, Carrying, [22, 4, 0]),
    (0, None, Quiet, Ready, [22, 4, 9]),
    (1, Some(14), Claimed, Carrying, [14, 5, 0]),
    (1, None, Quiet, Ready, [14, 5, 0]),
    (0, None, Quiet, Carrying, [9, 5, 0]),
    (1, None, Placed, Rest, [0, 0, 0]),
    (0, None, Quiet, Carrying, [9, 6, 0]),
    (0, None, Quiet, Ready, [9, 6, 0]),
    (0, None, Placed, Rest, [0, 0, 0]),
    (1, Some(22), Taken, Rest, [0, 0, 0]),
];

/// 1 passes 9, which was held in cell 4, and is to go to cell 5, which 14 takes after 1 has looked there.
const PASSED: [Row; 9] = [
    (0, Some(1), Claimed, Carrying, [1, 4, 0]),
    (0, None, Quiet, Carrying, [1, 5, 0]),
    (0, None, Quiet, Ready, [1, 5, 0]),
    (1, Some(14), Claimed, Carrying, [14, 5, 0]),
    (1, None, Quiet, Ready, [14, 5, 0]),
    (1, None, Placed, Rest, [0, 0, 0]),
    (0, None, Quiet, Carrying, [1, 6, 0]),
    (0, None, Quiet, Ready, [1, 6, 0]),
    (0, None, Placed, Rest, [0, 0, 0]),
];

const EMPTY: [u64; 16] = [0; 16];

const NINE: [u64; 16] = [0, 0, 0, 0, 9, 0, 0, 0, 0, 0, 0, 0, 0, 0, 0, 0];

fn is_at_rest(seat: &CastSeat) -> bool
    ensures yes { IsTrue result → seat.now.view.state ≡ Rest }
    ensures no { seat.now.view.state ≡ Rest → IsTrue result }
{
    matches!(seat.state(), CastState::Rest)
}

fn kind_of(state: CastState) -> (Kind, [u64; 3]) {
    match state {
        CastState::Rest => (Rest, [0, 0, 0]),
        CastState::Probing { number, tries } => (Probing, [number, tries as u64, 0]),
        CastState::Carrying { number, place } => (Carrying, [number, place as u64, 0]),
        CastState::Ready {
            number,
            place,
            seen,
        } => (Ready, [number, place as u64, seen]),
    }
}

fn is_among(cells: &[u64], number: u64) -> bool
    ensures { Contains cells.now number → IsTrue result }
{
    cells.contains(&number)
}

/// It is not 0, and stands in no cell.
fn is_new(cells: &[u64], number: u64) -> bool
    ensures some { IsTrue result → number ≢ 0 }
    ensures new { IsTrue result → ¬ Contains (numbers_in cells.now) number }
{
    number != 0 && !is_among(cells, number)
}

/// Words over these cells, and two seats.
fn two_seats(
    rt: &impl Abort,
    alloc: Global,
    cells: &[u64],
    claims: usize,
) -> (CastWords, CastSeat, CastSeat)
    requires size { length cells.now ≡ 16 }
    requires room { length (numbers_in cells.now) + claims ≤ 8 }
    ensures base { result.0.base ≡ cells.now }
    ensures cells { result.0.shape.cells ≡ 16 }
    ensures claims { result.0.shape.claims ≡ claims }
    ensures two { result.0.seats ≡ 2 }
    ensures belong { (result.1.words ≡ result.0) × (result.2.words ≡ result.0) }
{
    assert!(rt; is_ordered(&EXAMPLE, cells));
    let shape = Shape {
        order: EXAMPLE,
        cells: 16,
        claims,
    };
    let (words, mut seats) = CastWords::new(alloc, shape, cells, 2).expect(rt, "memory");
    let two = seats.pop().expect(rt, "a seat");
    let one = seats.pop().expect(rt, "a seat");
    (words, one, two)
}

/// One row, by a seat at words over these cells.
fn turn(rt: &impl Abort, words: &CastWords, cells: &[u64], seat: &mut CastSeat, row: &Row)
    requires base { words.now.base ≡ cells.now }
    requires claims { words.now.shape.claims ≢ 0 }
    requires belongs { seat.old.words ≡ words.now }
    ensures { seat.new.words ≡ words.now }
{
    let told = if let Some(number) = row.1 {
        assert!(rt; is_at_rest(seat));
        assert!(rt; is_new(cells, number));
        words.first(seat, number)
    } else {
        assert!(rt; !is_at_rest(seat));
        words.next(seat)
    };
    assert_eq!(rt; told, row.2);
    assert_eq!(rt; kind_of(seat.state()), (row.3, row.4));
}

/// The cells at the end, from two seats at words over these cells.
fn close(
    alloc: Global,
    words: CastWords,
    cells: &[u64],
    one: CastSeat,
    two: CastSeat,
) -> Result<Vec<u64>, Memory>
    requires as_many { length cells.now ≡ words.shape.cells }
    requires two { words.seats ≡ 2 }
    requires belong { (one.words ≡ words) × (two.words ≡ words) }
    requires at_rest { (one.view.state ≡ Rest) × (two.view.state ≡ Rest) }
{
    let seats = vec![in alloc; one, two]?;
    let changes = words.close(alloc, seats, cells, 0)?;
    changed(alloc, cells, changes)
}

/// Rows at words over these cells, after which the seats are at rest, and these numbers stand from cell 4 on.
fn play(rt: &impl Abort, alloc: Global, cells: &[u64], claims: usize, rows: &[Row], ends: [u64; 3])
    requires size { length cells.now ≡ 16 }
    requires some { claims ≢ 0 }
    requires room { length (numbers_in cells.now) + claims ≤ 8 }
{
    let (words, mut one, mut two) = two_seats(rt, alloc, cells, claims);
    for row in rows {
        match row.0 {
            0 => turn(rt, &words, cells, &mut one, row),
            _ => turn(rt, &words, cells, &mut two, row),
        }
    }
    assert!(rt; is_at_rest(&one));
    assert!(rt; is_at_rest(&two));
    let left = close(alloc, words, cells, one, two).expect(rt, "memory");
    assert_eq!(rt; left.get(4..7), Some(ends.as_slice()));
}

/// Each state is that of the row for the word of its own cell or claim word.
#[test]
fn rows_of_numbers(rt: HostRuntime) {
    play(&rt, rt.alloc(), &EMPTY, 8, &RACE, [9, 1, 0]);
    play(&rt, rt.alloc(), &NINE, 7, &DISPLACED, [22, 14, 9]);
    play(&rt, rt.alloc(), &NINE, 7, &PASSED, [9, 14, 1]);
}

// ---- all steps in one call

/// The same steps as in one call, each in a call of its own: what is told of the number, and how many steps it took.
fn cast_by_steps(
    rt: &impl Abort,
    words: &CastWords,
    seat: &mut CastSeat,
    number: u64,
) -> (CastNote, u64)
    requires belongs { seat.old.words ≡ words.now }
    requires at_rest { seat.old.view.state ≡ Rest }
    requires may_begin { MayBeginWith words.now number }
    ensures { seat.new.words ≡ words.now }
{
    let mut answer = words.first(seat, number);
    for more in 0..1000 {
        if is_at_rest(seat) {
            return (answer, more);
        }
        let told = words.next(seat);
        if !matches!(told, Quiet | Placed) {
            answer = told;
        }
    }
    panic!(rt; "{number} is never placed")
}

/// A number in one call at some words, and step by step at others. What is told is the same, and so are all cells then.
fn cast_twice(
    rt: &impl Abort,
    number: u64,
    words: &CastWords,
    seat: &mut CastSeat,
    others: &CastWords,
    other: &mut CastSeat,
)
    requires cells { (words.now.shape.cells ≡ 16) × (others.now.shape.cells ≡ 16) }
    requires belong { (seat.old.words ≡ words.now) × (other.old.words ≡ others.now) }
    requires may_begin { MayBeginWith words.now number × MayBeginWith others.now number }
    ensures { (seat.new.words ≡ words.now) × (other.new.words ≡ others.now) }
{
    assert!(rt; is_at_rest(seat));
    assert!(rt; is_at_rest(other));
    let told = words.cast(seat, number);
    assert_eq!(rt; cast_by_steps(rt, others, other, number).0, told);
    for cell in 0..16 {
        assert_eq!(rt; words.peek(cell), others.peek(cell), "cell {cell}");
    }
}

/// A number step by step at both. What is told is the same, and so is how many steps it takes: its claim word is the same
/// one.
fn step_twice(
    rt: &impl Abort,
    number: u64,
    words: &CastWords,
    seat: &mut CastSeat,
    others: &CastWords,
    other: &mut CastSeat,
)
    requires belong { (seat.old.words ≡ words.now) × (other.old.words ≡ others.now) }
    requires may_begin { MayBeginWith words.now number × MayBeginWith others.now number }
    ensures { (seat.new.words ≡ words.now) × (other.new.words ≡ others.now) }
{
    assert!(rt; is_at_rest(seat));
    assert!(rt; is_at_rest(other));
    assert_eq!(rt;
        cast_by_steps(rt, words, seat, number),
        cast_by_steps(rt, others, other, number)
    );
}

/// Empty words of a shape, and a seat.
fn one_seat(rt: &impl Abort, alloc: Global, shape: Shape) -> (CastWords, CastSeat)
    requires cells { shape.cells ≡ 16 }
    requires room { shape.claims + 2 ^ shape.order.bits ≤ 16 }
    ensures base { result.0.base ≡ EMPTY }
    ensures shape { result.0.shape ≡ shape }
    ensures belongs { result.1.words ≡ result.0 }
{
    assert!(rt; is_ordered(&shape.order, &EMPTY));
    let (words, mut seats) = CastWords::new(alloc, shape, &EMPTY, 1).expect(rt, "memory");
    let seat = seats.pop().expect(rt, "a seat");
    (words, seat)
}

/// Sixteen numbers of twelve, at words with four homes. Then each of the twelve once more, by steps alone, which shows the
/// claim words.
fn phase(rt: &impl Abort, alloc: Global, seed: u64) {
    let mut seed = seed;
    let shape = Shape {
        order: FEW_HOMES,
        cells: 16,
        claims: 8,
    };
    let (words, mut seat) = one_seat(rt, alloc, shape);
    let (others, mut other) = one_seat(rt, alloc, shape);
    for _ in 0..16 {
        let number = number_at(drawn(&mut seed, 12));
        assert!(rt; is_new(&EMPTY, number));
        cast_twice(rt, number, &words, &mut seat, &others, &mut other);
    }
    for place in 0..12 {
        let number = number_at(place);
        assert!(rt; is_new(&EMPTY, number));
        step_twice(rt, number, &words, &mut seat, &others, &mut other);
    }
}

/// One call makes the steps that `first` and `next` make.
#[test]
fn one_call_and_many_make_the_same_steps(rt: HostRuntime) {
    for seed in 1..501 {
        phase(&rt, rt.alloc(), seed);
    }
}
