//! Phases of any kind: all their workers at once, and one by itself.

ghost use Rattle.std.specs.Prelude.{◌≡◌, ◌≤◌, [], All, IfOk, length, map};

use crate::stores::same;
use body_store::Closed;
use outside_io::{Memory, Turns};
use phase_kind::{Kind, PhaseOf, Worker};
use std::alloc::Global;
use std::fmt::Debug;
use std::process::Abort;
use std::thread::Threads;

/// The length of each list.
fn lengths<K: Kind>(rt: &impl Abort, alloc: Global, work: &[K::List]) -> Result<Vec<u32>, Memory>
    ensures { IfOk result (λ plan. plan.items ≡ map (λ list. length (K.items list)) work.now) }
{
    let mut plan = Vec::with_capacity(alloc, work.len())?;
    for list in work {
        plan.push(u32::try_from(K::len(list)).expect(rt, "a long list"))?;
    }
    Ok(plan)
}

/// The store after a phase with a worker for each list, all at work at once, and the final replies.
pub fn run<K: Kind, R: Threads + Abort + Sync, T: Turns>(
    rt: &R,
    alloc: Global,
    closed: Closed,
    work: &[K::List],
    turns: &T,
) -> Result<(Closed, Vec<Vec<K::Final>>), Memory>
    requires some_list { 1 ≤ length work.now }
    requires few_lists { length work.now ≤ 64 }
    requires is_of { All (λ list. K.is_of closed list) work.now }
{
    let plan = lengths::<K>(rt, alloc, work)?;
    match PhaseOf::<K>::begin(alloc, closed, &plan) {
        Ok((phase, workers)) => {
            let mut workers = workers;
            phase_kind::run(rt, &phase, &mut workers, work, turns);
            match phase.close(alloc, workers) {
                Ok(ended) => Ok(ended),
                Err((_, memory)) => Err(memory),
            }
        }
        Err((_, memory)) => Err(memory),
    }
}

/// The store after a phase with a worker for each of these lists, of which there is one at least, with these final
/// replies.
pub fn leads<K: Kind, R: Threads + Abort + Sync, T: Turns>(
    rt: &R,
    alloc: Global,
    before: Closed,
    work: &[K::List],
    turns: &T,
    wanted: &[&[K::Final]],
) -> Result<Closed, Memory>
where
    K::Final: PartialEq + Debug + Drop,
    requires { All (λ list. K.is_of before list) work.now }
{
    assert!(rt; !work.is_empty());
    assert!(rt; work.len() <= 64);
    let (after, finals) = run::<K, R, T>(rt, alloc, before, work, turns)?;
    same(rt, &finals, wanted);
    Ok(after)
}

/// A worker, which is asked by itself, answers the one item of a list.
fn answers_one<K: Kind>(
    rt: &impl Abort,
    phase: &PhaseOf<K>,
    worker: &mut Worker<K>,
    list: &K::List,
    wanted: K::Reply,
)
where
    K::Reply: PartialEq + Debug,
    requires belongs { worker.old.phase ≡ phase.now }
    requires idle { worker.old.waiting ≡ [] }
    requires is_of { K.is_of phase.now.base list.now }
    ensures { worker.new.phase ≡ worker.old.phase }
{
    assert_one(rt, worker.room() as usize);
    assert_one(rt, K::len(list));
    let reply = worker.answer(phase, list, 0);
    assert_told(rt, reply, worker.replies(), wanted);
}

fn assert_one(rt: &impl Abort, count: usize)
    ensures { count ≡ 1 }
{
    assert_eq!(rt; count, 1);
}

/// The one item was answered so, which the worker keeps.
fn assert_told<X: PartialEq + Debug + Copy + Drop>(
    rt: &impl Abort,
    reply: X,
    kept: &[X],
    wanted: X,
) {
    assert_eq!(rt; reply, wanted);
    assert_one(rt, kept.len());
    assert_eq!(rt; kept[0], wanted);
}

/// The one worker of a phase, which has answered the one item of a list. After that a number is at the home of another.
pub fn alone<K: Kind>(
    rt: &impl Abort,
    alloc: Global,
    store: Closed,
    list: &K::List,
    wanted: K::Reply,
    home: (u64, u64),
) -> Result<Worker<K>, Memory>
where
    K::Reply: PartialEq + Debug,
    requires { K.is_of store list.now }
    ensures { IfOk result (λ worker. worker.phase.base ≡ store) }
{
    match PhaseOf::<K>::begin(alloc, store, &[1]) {
        Ok((phase, workers)) => {
            let mut workers = workers;
            let mut worker = workers.pop().expect(rt, "a worker");
            answers_one(rt, &phase, &mut worker, list, wanted);
            assert_eq!(rt; phase.peek(home.0), home.1);
            Ok(worker)
        }
        Err((_, memory)) => Err(memory),
    }
}
