//! Seats at shared words that remove numbers, row by row, in one call each, and by two threads.

ghost use Rattle.std.specs.Prelude.{◌≡◌, ◌<◌, IsTrue};
ghost use Rattle.store_spec.specs.WithdrawStep.{StandsInBase};
ghost use Rattle.store_spec.specs.WithdrawStep.WithdrawState.{Rest};
ghost use Rattle.word_rule.specs.Places.{AreWhole};
ghost use Rattle.word_rule.specs.WithdrawSeats.{IsAtRest};

use crate::changed::changed;
use crate::draws::{FEW_HOMES, drawn, number_at};
use Kind::{Chosen, Down, Owing, Rest, Up};
use WithdrawNote::{Begun, Done, Gone, Quiet};
use layout_def::is_ordered;
use probe_order::{Order, Salted};
use std::alloc::Global;
use std::process::Abort;
use std::thread;
use step_core::{Shape, WithdrawNote, WithdrawState};
use word_rule::{WithdrawSeat, WithdrawWords};

const EXAMPLE: Salted = Salted { bits: 3, salt: 0 };

const CELLS: [u64; 16] = [0, 0, 0, 0, 22, 14, 9, 1, 0, 0, 0, 0, 0, 0, 0, 0];

#[derive(Clone, Copy, Debug, PartialEq, Eq)]
enum Kind {
    Rest,
    Chosen,
    Owing,
    Up,
    Down,
}

/// The seat that acts, and the number with which it begins and its cell, where it does not go on. Then what the step
/// tells, and the state after it with the numbers in it.
type Row = (usize, Option<(u64, usize)>, WithdrawNote, Kind, [u64; 5]);

/// The first seat removes 22, and sees 9 as what may stand in its place. Then the second removes 9.
const STALE: [Row; 28] = [
    (0, Some((22, 4)), Quiet, Chosen, [22, 4, 0, 0, 0]),
    (0, None, Begun, Owing, [22, 4, 0, 0, 0]),
    (0, None, Quiet, Up, [22, 4, 5, 0, 0]),
    (0, None, Quiet, Up, [22, 4, 6, 0, 0]),
    (0, None, Quiet, Down, [22, 4, 5, 9, 6]),
    (0, None, Quiet, Down, [22, 4, 4, 9, 6]),
    (1, Some((9, 6)), Quiet, Chosen, [9, 4, 0, 0, 0]),
    (1, None, Quiet, Chosen, [9, 5, 0, 0, 0]),
    (1, None, Quiet, Chosen, [9, 6, 0, 0, 0]),
    (1, None, Begun, Owing, [9, 6, 0, 0, 0]),
    (1, None, Quiet, Up, [9, 6, 7, 0, 0]),
    (1, None, Quiet, Down, [9, 6, 6, 1, 7]),
    (1, None, Quiet, Owing, [1, 7, 0, 0, 0]),
    (1, None, Quiet, Up, [1, 7, 8, 0, 0]),
    (1, None, Quiet, Down, [1, 7, 7, 0, 8]),
    (1, None, Done, Rest, [0, 0, 0, 0, 0]),
    (0, None, Quiet, Owing, [9, 6, 0, 0, 0]),
    (0, None, Quiet, Owing, [9, 5, 0, 0, 0]),
    (0, None, Quiet, Owing, [9, 4, 0, 0, 0]),
    (0, None, Quiet, Up, [9, 4, 5, 0, 0]),
    (0, None, Quiet, Up, [9, 4, 6, 0, 0]),
    (0, None, Quiet, Down, [9, 4, 5, 1, 6]),
    (0, None, Quiet, Down, [9, 4, 4, 1, 6]),
    (0, None, Quiet, Owing, [1, 6, 0, 0, 0]),
    (0, None, Quiet, Up, [1, 6, 7, 0, 0]),
    (0, None, Quiet, Down, [1, 6, 6, 0, 7]),
    (0, None, Done, Rest, [0, 0, 0, 0, 0]),
    (1, Some((9, 6)), Gone, Rest, [0, 0, 0, 0, 0]),
];

fn is_at_rest(seat: &WithdrawSeat) -> bool
    ensures yes { IsTrue result → seat.now.view.state ≡ Rest }
    ensures no { seat.now.view.state ≡ Rest → IsTrue result }
{
    matches!(seat.state(), WithdrawState::Rest)
}

fn kind_of(state: WithdrawState) -> (Kind, [u64; 5]) {
    match state {
        WithdrawState::Rest => (Rest, [0; 5]),
        WithdrawState::Chosen { number, place } => (Chosen, [number, place as u64, 0, 0, 0]),
        WithdrawState::Owing { number, bound } => (Owing, [number, bound as u64, 0, 0, 0]),
        WithdrawState::Up {
            number,
            bound,
            place,
        } => (Up, [number, bound as u64, place as u64, 0, 0]),
        WithdrawState::Down {
            number,
            bound,
            place,
            candidate,
            source,
        } => (
            Down,
            [number, bound as u64, place as u64, candidate, source as u64],
        ),
    }
}

/// Whether a number, which is not 0, stands in this cell.
fn stands(cells: &[u64], number: u64, place: usize) -> bool
    ensures { IsTrue result → StandsInBase cells.now number place }
{
    number != 0 && cells.get(place) == Some(&number)
}

/// Words over these cells, and two seats.
fn two_seats(
    rt: &impl Abort,
    alloc: Global,
    order: Salted,
    cells: &[u64; 16],
) -> (WithdrawWords, Vec<WithdrawSeat>)
    ensures base { result.0.base ≡ cells.now }
    ensures shape { result.0.shape ≡ record { order = order; cells = 16; claims = 0 } }
    ensures seats { result.0.seats ≡ 2 }
    ensures whole { AreWhole IsAtRest result.0 result.1.items }
{
    assert!(rt; is_ordered(&order, cells));
    assert_eq!(rt; cells[15], 0);
    let shape = Shape {
        order,
        cells: 16,
        claims: 0,
    };
    WithdrawWords::new(alloc, shape, cells, 2).expect(rt, "memory")
}

/// One row, by a seat at words over these cells.
fn turn(rt: &impl Abort, words: &WithdrawWords, cells: &[u64], seat: &mut WithdrawSeat, row: &Row)
    requires base { words.now.base ≡ cells.now }
    requires belongs { seat.old.words ≡ words.now }
    ensures { seat.new.words ≡ words.now }
{
    let told = if let Some((number, place)) = row.1 {
        assert!(rt; is_at_rest(seat));
        assert!(rt; stands(cells, number, place));
        words.first(seat, number, place)
    } else {
        assert!(rt; !is_at_rest(seat));
        words.next(seat)
    };
    assert_eq!(rt; told, row.2);
    assert_eq!(rt; kind_of(seat.state()), (row.3, row.4));
}

/// Each state is that of the row for the word of its own cell or flag.
#[test]
fn rows_of_removals(rt: HostRuntime) {
    let (words, mut seats) = two_seats(&rt, rt.alloc(), EXAMPLE, &CELLS);
    let mut two = seats.pop().expect(&rt, "a seat");
    let mut one = seats.pop().expect(&rt, "a seat");
    for row in &STALE {
        match row.0 {
            0 => turn(&rt, &words, &CELLS, &mut one, row),
            _ => turn(&rt, &words, &CELLS, &mut two, row),
        }
    }
    for (place, left) in [(4, 1), (5, 14), (6, 0), (7, 0)] {
        assert_eq!(rt; words.peek(place), left, "cell {place}");
    }
}

// ---- all steps in one call

/// The same steps as in one call, each in a call of its own.
fn withdraw_by_steps(
    rt: &impl Abort,
    words: &WithdrawWords,
    seat: &mut WithdrawSeat,
    number: u64,
    place: usize,
) -> WithdrawNote
    requires belongs { seat.old.words ≡ words.now }
    requires at_rest { seat.old.view.state ≡ Rest }
    requires seated { StandsInBase words.now.base number place }
    ensures { seat.new.words ≡ words.now }
{
    let mut answer = words.first(seat, number, place);
    for _ in 0..10_000 {
        if is_at_rest(seat) {
            return answer;
        }
        let told = words.next(seat);
        if told == Begun {
            answer = told;
        }
    }
    panic!(rt; "{number} is never removed")
}

/// A number in one call at some words, and step by step at others. What is told is the same, and so are all cells then.
fn withdraw_twice(
    rt: &impl Abort,
    number: u64,
    place: usize,
    words: &WithdrawWords,
    seat: &mut WithdrawSeat,
    others: &WithdrawWords,
    other: &mut WithdrawSeat,
)
    requires cells { (words.now.shape.cells ≡ 16) × (others.now.shape.cells ≡ 16) }
    requires belong { (seat.old.words ≡ words.now) × (other.old.words ≡ others.now) }
    requires seated { StandsInBase words.now.base number place × StandsInBase others.now.base number place }
    ensures { (seat.new.words ≡ words.now) × (other.new.words ≡ others.now) }
{
    assert!(rt; is_at_rest(seat));
    assert!(rt; is_at_rest(other));
    let told = words.withdraw(seat, number, place);
    assert_eq!(rt; withdraw_by_steps(rt, others, other, number, place), told);
    for cell in 0..16 {
        assert_eq!(rt; words.peek(cell), others.peek(cell), "cell {cell}");
    }
}

/// The layout of some of eleven numbers with four homes: the greatest are placed first.
fn drawn_cells(seed: &mut u64) -> [u64; 16] {
    let mut cells = [0; 16];
    for below in 0..11 {
        let number = number_at(10 - below);
        let home = FEW_HOMES.home(number);
        if drawn(seed, 4) != 0 {
            let mut free = cells.iter_mut().skip(home).filter(|cell| **cell == 0);
            if let Some(cell) = free.next() {
                *cell = number;
            }
        }
    }
    cells
}

/// The cell whose turn it is: twenty times one that is drawn, and then each.
fn place_at(seed: &mut u64, turn: usize) -> usize
    requires { turn < 36 }
    ensures { result < 16 }
{
    if turn < 20 {
        return drawn(seed, 16);
    }
    turn - 20
}

/// Twenty of the cells' numbers, and then each of them once more, which shows the flags.
fn phase(rt: &impl Abort, alloc: Global, seed: u64) {
    let mut seed = seed;
    let order = FEW_HOMES;
    let cells = drawn_cells(&mut seed);
    let (words, mut seats) = two_seats(rt, alloc, order, &cells);
    let (others, mut more) = two_seats(rt, alloc, order, &cells);
    let mut seat = seats.pop().expect(rt, "a seat");
    let mut other = more.pop().expect(rt, "a seat");
    for turn in 0..36 {
        let place = place_at(&mut seed, turn);
        let number = cells[place];
        if stands(&cells, number, place) {
            withdraw_twice(rt, number, place, &words, &mut seat, &others, &mut other);
        }
    }
}

/// One call makes the steps that `first` and `next` make.
#[test]
fn one_call_and_many_make_the_same_steps(rt: HostRuntime) {
    for seed in 1..501 {
        phase(&rt, rt.alloc(), seed);
    }
}

// ---- threads

/// A seat that removes a number, on a thread of its own.
fn removed_by(
    words: &WithdrawWords,
    mut seat: WithdrawSeat,
    number: u64,
    place: usize,
) -> WithdrawSeat
    requires belongs { seat.words ≡ words.now }
    requires at_rest { seat.view.state ≡ Rest }
    requires seated { StandsInBase words.now.base number place }
    ensures belongs { result.words ≡ words.now }
    ensures at_rest { result.view.state ≡ Rest }
{
    words.withdraw(&mut seat, number, place);
    seat
}

/// Two threads remove 22 and 9 at once.
#[test]
fn two_seats_at_once(rt: HostRuntime) {
    let (words, mut seats) = two_seats(&rt, rt.alloc(), EXAMPLE, &CELLS);
    let second = seats.pop().expect(&rt, "two seats");
    let first = seats.pop().expect(&rt, "two seats");
    let shared = &words;
    let (first, second) = thread::join(
        &rt,
        move ||
            requires { (first.words ≡ shared.now) × (first.view.state ≡ Rest)
                × StandsInBase shared.now.base 22 4 }
            ensures { (result.words ≡ shared.entry.now) × (result.view.state ≡ Rest) }
        { removed_by(shared, first, 22, 4) },
        move ||
            requires { (second.words ≡ shared.now) × (second.view.state ≡ Rest)
                × StandsInBase shared.now.base 9 6 }
            ensures { (result.words ≡ shared.entry.now) × (result.view.state ≡ Rest) }
        { removed_by(shared, second, 9, 6) },
    );
    seats.push(first).expect(&rt, "memory");
    seats.push(second).expect(&rt, "memory");
    let alloc = rt.alloc();
    let changes = words.close(alloc, seats, &CELLS, 16).expect(&rt, "memory");
    let cells = changed(alloc, &CELLS, changes).expect(&rt, "memory");
    assert_eq!(rt;
        cells.as_slice(),
        [0, 0, 0, 0, 1, 14, 0, 0, 0, 0, 0, 0, 0, 0, 0, 0].as_slice()
    );
}
