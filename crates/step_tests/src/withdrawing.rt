//! Withdrawers on the example election's cells, step by step, and many on few homes in orders that are drawn.

ghost use Rattle.std.specs.Prelude.{◌≡◌, ◌≢◌, ◌<◌, ◌≤◌, All, AllPairs, IfOk, length};

use crate::draws::{FEW_HOMES, LISTS, drawn, numbers_without};
use layout_def::build;
use outside_io::Memory;
use probe_order::{Order, Salted};
use std::alloc::Global;
use std::process::Abort;
use step_core::{Stepped, WithdrawCore, WithdrawReply};

const EXAMPLE: Salted = Salted { bits: 3, salt: 0 };

/// A core of the example election.
fn example(alloc: Global, start: &[u64], lists: Vec<Vec<u64>>) -> Result<WithdrawCore, Memory>
    requires distinct { AllPairs (λ a b. a ≢ b) start.now }
    requires some { All (λ x. x ≢ 0) start.now }
    requires few { length start.now ≤ 8 }
    requires some_list { 1 ≤ length lists.items }
    requires few_lists { length lists.items ≤ 64 }
    ensures { IfOk result (λ core. length core.tabs ≡ length lists.items) }
{
    WithdrawCore::new(alloc, EXAMPLE, 8, start, lists)
}

/// These numbers stand in cells 4 to 7, and none stands in another.
fn holds(rt: &impl Abort, core: &WithdrawCore, numbers: [u64; 4]) {
    for (place, cell) in core.cells().iter().enumerate() {
        let number = if place < 4 {
            0
        } else {
            numbers.get(place - 4).copied().unwrap_or(0)
        };
        assert_eq!(rt; *cell, number, "cell {place}");
    }
}

fn step(core: &mut WithdrawCore, tab: usize) -> Stepped
    requires { tab < length core.old.tabs }
    ensures { length core.new.tabs ≡ length core.old.tabs }
{
    core.step(tab)
}

/// Makes so many steps, after each of which these numbers stand in cells 4 to 7.
fn steps(rt: &impl Abort, core: &mut WithdrawCore, tab: usize, count: usize, numbers: [u64; 4])
    requires { tab < length core.old.tabs }
    ensures { length core.new.tabs ≡ length core.old.tabs }
{
    for _ in 0..count {
        assert_eq!(rt; step(core, tab), Stepped::Step);
        holds(rt, core, numbers);
    }
}

fn two_lists(alloc: Global) -> Result<Vec<Vec<u64>>, Memory>
    ensures { IfOk result (λ v. length v.items ≡ 2) }
{
    Ok(vec![in alloc; vec![in alloc; 22]?, vec![in alloc; 9]?]?)
}

/// The first withdrawer removes 22, and sees 9 as what may stand in its place. Then the second removes 9.
#[test]
fn what_was_seen_is_withdrawn(rt: HostRuntime) {
    let lists = two_lists(rt.alloc()).expect(&rt, "memory");
    let mut core = example(rt.alloc(), &[1, 9, 14, 22], lists).expect(&rt, "memory");
    holds(&rt, &core, [22, 14, 9, 1]);
    steps(&rt, &mut core, 0, 6, [22, 14, 9, 1]);
    steps(&rt, &mut core, 1, 6, [22, 14, 9, 1]);
    steps(&rt, &mut core, 1, 3, [22, 14, 1, 1]);
    steps(&rt, &mut core, 1, 1, [22, 14, 1, 0]);
    assert_eq!(rt; step(&mut core, 1), Stepped::AtRest);
    steps(&rt, &mut core, 0, 7, [9, 14, 1, 0]);
    assert!(rt; !core.at_rest());
    steps(&rt, &mut core, 0, 3, [1, 14, 1, 0]);
    steps(&rt, &mut core, 0, 1, [1, 14, 0, 0]);
    assert!(rt; core.at_rest());
    for tab in [0, 1] {
        assert_eq!(rt; core.replies(tab), [WithdrawReply::Withdrawn].as_slice());
    }
}

fn one_list(alloc: Global) -> Result<Vec<Vec<u64>>, Memory>
    ensures { IfOk result (λ v. length v.items ≡ 1) }
{
    Ok(vec![in alloc; vec![in alloc; 22, 9, 9, 5]?]?)
}

#[test]
fn withdrawn_twice_and_not_held(rt: HostRuntime) {
    let lists = one_list(rt.alloc()).expect(&rt, "memory");
    let mut core = example(rt.alloc(), &[1, 9, 14, 22], lists).expect(&rt, "memory");
    for _ in 0..100 {
        let _ = step(&mut core, 0);
    }
    assert!(rt; core.at_rest());
    holds(&rt, &core, [1, 14, 0, 0]);
    let replies = [
        WithdrawReply::Withdrawn,
        WithdrawReply::Withdrawn,
        WithdrawReply::Gone,
        WithdrawReply::Absent,
    ];
    assert_eq!(rt; core.replies(0), replies.as_slice());
}

// ---- many withdrawers on four homes

/// Some of the numbers in some order, and one that is none of them.
fn drawn_list(alloc: Global, numbers: &[u64], seed: &mut u64) -> Result<Vec<u64>, Memory> {
    let mut list = vec![in alloc; 6]?;
    for number in numbers {
        if drawn(seed, 7) == 0 {
            list.push(*number)?;
        }
    }
    for place in 1..list.len() {
        list.swap(place, drawn(seed, place));
    }
    Ok(list)
}

fn eight_lists(alloc: Global, numbers: &[u64], seed: u64) -> Result<Vec<Vec<u64>>, Memory>
    ensures { IfOk result (λ v. length v.items ≡ 8) }
{
    let mut seed = seed;
    let mut lists = Vec::new(alloc);
    for _ in 0..LISTS {
        lists.push(drawn_list(alloc, numbers, &mut seed)?)?;
    }
    Ok(lists)
}

/// Steps withdrawers that are drawn, until all are at rest.
fn run(core: &mut WithdrawCore, seed: u64)
    requires { length core.old.tabs ≡ 8 }
    ensures { length core.new.tabs ≡ 8 }
{
    let mut seed = seed;
    for _ in 0..10_000_000 {
        if core.at_rest() {
            return;
        }
        let _ = step(core, drawn(&mut seed, LISTS));
    }
}

fn few_homes(alloc: Global, numbers: &[u64], lists: Vec<Vec<u64>>) -> Result<WithdrawCore, Memory>
    requires some { All (λ x. x ≢ 0) numbers.now }
    requires distinct { AllPairs (λ a b. a ≢ b) numbers.now }
    requires few { length numbers.now ≤ 300 }
    requires lists { length lists.items ≡ 8 }
    ensures { IfOk result (λ core. length core.tabs ≡ 8) }
{
    WithdrawCore::new(alloc, FEW_HOMES, 300, numbers, lists)
}

/// How many numbers are answered as withdrawn.
fn withdrawn(core: &WithdrawCore) -> usize
    requires { length core.now.tabs ≡ 8 }
{
    let mut count: usize = 0;
    for tab in 0..LISTS {
        for reply in core.replies(tab) {
            if *reply == WithdrawReply::Withdrawn {
                count = count.saturating_add(1);
            }
        }
    }
    count
}

/// Whatever order the steps come in, the numbers that no list has are left, each where it stands without the others.
#[test]
fn drawn_orders_of_steps(rt: HostRuntime) {
    let alloc = rt.alloc();
    let numbers = numbers_without(alloc, &[]).expect(&rt, "memory");
    assert_eq!(rt; numbers.len(), 300);
    for (seed, order) in [(1, 2), (1, 30), (400, 500), (400, 6000)] {
        let lists = eight_lists(alloc, &numbers, seed).expect(&rt, "memory");
        let rest = numbers_without(alloc, &lists).expect(&rt, "memory");
        let cells = build(alloc, &FEW_HOMES, 304, &rest).expect(&rt, "memory");
        let mut core = few_homes(alloc, &numbers, lists).expect(&rt, "memory");
        run(&mut core, order);
        assert!(rt; core.at_rest());
        assert_eq!(rt; core.cells(), cells.as_slice());
        assert_eq!(rt; withdrawn(&core), 300 - rest.len());
    }
}
