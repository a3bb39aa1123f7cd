//! Tabulators on the example election's cells, step by step, and many on few homes in orders that are drawn.

ghost use Rattle.std.specs.Prelude.{◌≡◌, ◌≢◌, ◌+◌, ◌^◌, ◌<◌, ◌≤◌, All, AllPairs, IfOk, length};
ghost use Rattle.step_core.specs.CastTables.{FitsIn, MayFind, state_of};
ghost use Rattle.store_spec.specs.Home.{home_of};

use crate::draws::{FEW_HOMES, LISTS, drawn, numbers_without};
use layout_def::build;
use outside_io::Memory;
use probe_order::Salted;
use std::alloc::Global;
use std::process::Abort;
use step_core::{
    Act, CastCore, CastMet, CastNote, CastState, Shape, Stepped, cast_act, cast_after, cast_first,
};

const EXAMPLE: Salted = Salted { bits: 3, salt: 0 };

fn step(core: &mut CastCore, tab: usize) -> Stepped
    requires { tab < length core.old.tabs }
    ensures { length core.new.tabs ≡ length core.old.tabs }
{
    core.step(tab)
}

/// A core of the example election.
fn example(alloc: Global, start: &[u64], lists: Vec<Vec<u64>>) -> Result<CastCore, Memory>
    requires distinct { AllPairs (λ a b. a ≢ b) start.now }
    requires some { All (λ x. x ≢ 0) start.now }
    requires few { length start.now ≤ 8 }
    requires some_list { 1 ≤ length lists.items }
    requires few_lists { length lists.items ≤ 64 }
    requires listed { All (λ list. All (λ x. x ≢ 0) list.items) lists.items }
    ensures { IfOk result (λ core. length core.tabs ≡ length lists.items) }
{
    CastCore::new(alloc, EXAMPLE, 8, start, lists)
}

/// These numbers stand in cells 4 and 5, and none stands in another.
fn holds(rt: &impl Abort, core: &CastCore, numbers: [u64; 2]) {
    for (place, cell) in core.cells().iter().enumerate() {
        let number = if place < 4 {
            0
        } else {
            numbers.get(place - 4).copied().unwrap_or(0)
        };
        assert_eq!(rt; *cell, number, "cell {place}");
    }
}

/// Makes one step, after which these numbers stand in cells 4 and 5, and the tabulator has so many replies.
fn stepped(rt: &impl Abort, core: &mut CastCore, tab: usize, numbers: [u64; 2], replies: usize)
    requires { tab < length core.old.tabs }
    ensures { length core.new.tabs ≡ length core.old.tabs }
{
    assert_eq!(rt; step(core, tab), Stepped::Step);
    holds(rt, core, numbers);
    assert_eq!(rt; core.replies(tab).len(), replies);
}

fn two_lists(alloc: Global) -> Result<Vec<Vec<u64>>, Memory>
    ensures two { IfOk result (λ v. length v.items ≡ 2) }
    ensures listed { IfOk result (λ v. All (λ list. All (λ x. x ≢ 0) list.items) v.items) }
{
    Ok(vec![in alloc; vec![in alloc; 1]?, vec![in alloc; 9]?]?)
}

/// 1 and 9 share a claim word and a home. 1 is placed first, and 9 displaces it.
#[test]
fn a_placed_number_is_displaced(rt: HostRuntime) {
    let lists = two_lists(rt.alloc()).expect(&rt, "memory");
    let mut core = example(rt.alloc(), &[], lists).expect(&rt, "memory");
    holds(&rt, &core, [0, 0]);
    stepped(&rt, &mut core, 0, [0, 0], 1);
    stepped(&rt, &mut core, 1, [0, 0], 0);
    stepped(&rt, &mut core, 1, [0, 0], 1);
    stepped(&rt, &mut core, 0, [0, 0], 1);
    stepped(&rt, &mut core, 1, [0, 0], 1);
    stepped(&rt, &mut core, 0, [1, 0], 1);
    assert_eq!(rt; step(&mut core, 0), Stepped::AtRest);
    stepped(&rt, &mut core, 1, [1, 0], 1);
    stepped(&rt, &mut core, 1, [9, 0], 1);
    assert!(rt; !core.at_rest());
    stepped(&rt, &mut core, 1, [9, 0], 1);
    stepped(&rt, &mut core, 1, [9, 1], 1);
    assert!(rt; core.at_rest());
    assert_eq!(rt; step(&mut core, 1), Stepped::AtRest);
    for tab in [0, 1] {
        assert_eq!(rt; core.replies(tab), [CastMet::Accepted].as_slice());
    }
}

/// From a state, this is done, and the word that it finds leads to another state, with this note.
fn leads(rt: &impl Abort, from: CastState, act: Act, found: u64, to: CastState, note: CastNote)
    requires fits { FitsIn (record { home = home_of 3 0; cells = 16; claims = 8 }) (state_of from) }
    requires may_find { MayFind (state_of from) found }
{
    let shape = Shape {
        order: EXAMPLE,
        cells: 16,
        claims: 8,
    };
    assert_eq!(rt; cast_act(&shape, from), act);
    assert_eq!(rt; cast_after(&shape, from, found), (to, note));
}

/// Each step of 1 and 9 is a row of the table.
#[test]
fn the_rows_of_two_numbers(rt: HostRuntime) {
    use CastNote::{Claimed, Placed, Quiet};
    use CastState::{Carrying, Probing, Ready, Rest};
    let shape = Shape {
        order: EXAMPLE,
        cells: 16,
        claims: 8,
    };
    let trade = |word, want, put| Act::Trade { word, want, put };
    let load = Act::Load { word: 4 };
    let (one, nine) = (at(1, 4), at(9, 4));
    let second = Probing {
        number: 9,
        tries: 1,
    };
    let (one_ready, nine_ready) = (ready(1, 0), ready(9, 0));
    let nine_again = ready(9, 1);
    assert_eq!(rt; cast_first(&shape, 1, 0), (one, Claimed));
    assert_eq!(rt; cast_first(&shape, 9, 1), (second, Quiet));
    leads(&rt, second, trade(18, 0, 9), 0, nine, Claimed);
    leads(&rt, one, load, 0, one_ready, Quiet);
    leads(&rt, nine, load, 0, nine_ready, Quiet);
    leads(&rt, one_ready, trade(4, 0, 1), 0, Rest, Placed);
    leads(&rt, nine_ready, trade(4, 0, 9), 1, nine_again, Quiet);
    leads(&rt, nine_again, trade(4, 1, 9), 1, at(1, 5), Quiet);
}

fn at(number: u64, place: usize) -> CastState
    ensures { result ≡ CastState.Carrying number place }
{
    CastState::Carrying { number, place }
}

fn ready(number: u64, seen: u64) -> CastState
    ensures { result ≡ CastState.Ready number 4 seen }
{
    CastState::Ready {
        number,
        place: 4,
        seen,
    }
}

// ---- lists of one kind and another

/// One tabulator by itself ends with these cells and replies.
fn alone(rt: &impl Abort, mut core: CastCore, cells: &[(usize, u64)], replies: &[CastMet])
    requires { length core.tabs ≡ 1 }
{
    for _ in 0..100 {
        let _ = step(&mut core, 0);
    }
    assert!(rt; core.at_rest());
    for (place, cell) in core.cells().iter().enumerate() {
        let number = cells.iter().find(|at| at.0 == place).map_or(0, |at| at.1);
        assert_eq!(rt; *cell, number, "cell {place}");
    }
    assert_eq!(rt; core.replies(0), replies);
}

fn one_list(alloc: Global, numbers: &[u64]) -> Result<Vec<Vec<u64>>, Memory>
    requires { All (λ x. x ≢ 0) numbers.now }
    ensures one { IfOk result (λ v. length v.items ≡ 1) }
    ensures listed { IfOk result (λ v. All (λ list. All (λ x. x ≢ 0) list.items) v.items) }
{
    Ok(vec![in alloc; Vec::from_slice(alloc, numbers)?]?)
}

#[test]
fn held_and_twice(rt: HostRuntime) {
    let lists = one_list(rt.alloc(), &[9, 1, 22, 1, 9]).expect(&rt, "memory");
    let core = example(rt.alloc(), &[9], lists).expect(&rt, "memory");
    assert_eq!(rt; core.replies(0), [CastMet::Held].as_slice());
    let replies = [
        CastMet::Held,
        CastMet::Accepted,
        CastMet::Accepted,
        CastMet::Taken,
        CastMet::Held,
    ];
    alone(&rt, core, &[(4, 22), (5, 9), (6, 1)], &replies);
}

#[test]
fn a_limit_of_one(rt: HostRuntime) {
    let one_home = Salted { bits: 0, salt: 0 };
    let lists = one_list(rt.alloc(), &[5, 7, 5]).expect(&rt, "memory");
    let core = CastCore::new(rt.alloc(), one_home, 1, &[], lists).expect(&rt, "memory");
    let replies = [CastMet::Accepted, CastMet::Full, CastMet::Taken];
    alone(&rt, core, &[(0, 5)], &replies);
    let lists = one_list(rt.alloc(), &[7, 5]).expect(&rt, "memory");
    let core = CastCore::new(rt.alloc(), one_home, 1, &[5], lists).expect(&rt, "memory");
    assert!(rt;
        core.at_rest(),
        "where there is no room no number needs a step"
    );
    alone(&rt, core, &[(0, 5)], &[CastMet::Full, CastMet::Held]);
}

#[test]
fn an_empty_list(rt: HostRuntime) {
    let lists = one_list(rt.alloc(), &[]).expect(&rt, "memory");
    let mut core = example(rt.alloc(), &[1, 9], lists).expect(&rt, "memory");
    assert!(rt; core.at_rest());
    assert_eq!(rt; step(&mut core, 0), Stepped::AtRest);
    alone(&rt, core, &[(4, 9), (5, 1)], &[]);
}

// ---- many tabulators on four homes

/// A share of the numbers in some order, and some of the others.
fn drawn_list(
    alloc: Global,
    numbers: &[u64],
    share: usize,
    seed: &mut u64,
) -> Result<Vec<u64>, Memory>
    requires { All (λ x. x ≢ 0) numbers.now }
    ensures { IfOk result (λ v. All (λ x. x ≢ 0) v.items) }
{
    let mut list = Vec::new(alloc);
    for (place, number) in numbers.iter().enumerate() {
        if place % LISTS == share || drawn(seed, 5) == 0 {
            list.push(*number)?;
        }
    }
    Ok(list)
}

fn eight_lists(alloc: Global, numbers: &[u64], seed: u64) -> Result<Vec<Vec<u64>>, Memory>
    requires { All (λ x. x ≢ 0) numbers.now }
    ensures eight { IfOk result (λ v. length v.items ≡ 8) }
    ensures listed { IfOk result (λ v. All (λ list. All (λ x. x ≢ 0) list.items) v.items) }
{
    let mut seed = seed;
    let mut lists = Vec::new(alloc);
    for share in 0..LISTS {
        lists.push(drawn_list(alloc, numbers, share, &mut seed)?)?;
    }
    Ok(lists)
}

/// Steps tabulators that are drawn, until all are at rest.
fn run(core: &mut CastCore, seed: u64)
    requires { length core.old.tabs ≡ 8 }
    ensures { length core.new.tabs ≡ 8 }
{
    let mut seed = seed;
    for _ in 0..10_000_000 {
        if core.at_rest() {
            return;
        }
        let _ = step(core, drawn(&mut seed, LISTS));
    }
}

fn few_homes(alloc: Global, lists: Vec<Vec<u64>>) -> Result<CastCore, Memory>
    requires lists { length lists.items ≡ 8 }
    requires listed { All (λ list. All (λ x. x ≢ 0) list.items) lists.items }
    ensures { IfOk result (λ core. length core.tabs ≡ 8) }
{
    CastCore::new(alloc, FEW_HOMES, 300, &[], lists)
}

/// How many numbers met this.
fn count(core: &CastCore, wanted: CastMet) -> usize
    requires { length core.now.tabs ≡ 8 }
{
    let mut count: usize = 0;
    for tab in 0..LISTS {
        for met in core.replies(tab) {
            if *met == wanted {
                count = count.saturating_add(1);
            }
        }
    }
    count
}

/// Whatever order the steps come in, each number is accepted once, and all stand where they stand by themselves.
#[test]
fn drawn_orders_of_steps(rt: HostRuntime) {
    let alloc = rt.alloc();
    let numbers = numbers_without(alloc, &[]).expect(&rt, "memory");
    let cells = build(alloc, &FEW_HOMES, 304, &numbers).expect(&rt, "memory");
    for (seed, order) in [(1, 2), (1, 30), (400, 500), (400, 6000)] {
        let lists = eight_lists(alloc, &numbers, seed).expect(&rt, "memory");
        let mut listed: usize = 0;
        for list in &lists {
            listed = listed.saturating_add(list.len());
        }
        let mut core = few_homes(alloc, lists).expect(&rt, "memory");
        run(&mut core, order);
        assert!(rt; core.at_rest());
        assert_eq!(rt; core.cells(), cells.as_slice());
        assert_eq!(rt; count(&core, CastMet::Accepted), 300);
        assert_eq!(rt; count(&core, CastMet::Taken).saturating_add(300), listed);
    }
}
