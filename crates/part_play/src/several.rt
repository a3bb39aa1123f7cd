//! A phase of each of several stores, all open at once, from its begin to its close.

ghost use Rattle.body_store.specs.Contents.{Contents};
ghost use Rattle.part_play.specs.Several.{AnswersEach, AreAllShared, AreAllTold, AreByPlaces, AreReady, HasPlayed, HaveBegun, HaveClosed, HaveEnded, HaveWork};
ghost use Rattle.phase_kind.specs.Phase.{OpenPhase};
ghost use Rattle.phase_kind.specs.Team.{AreByPlace, AreInListOrder, GoesWithin};
ghost use Rattle.phase_kind.specs.Worker.{AreAll, WorkerView};
ghost use Rattle.std.specs.Prelude.{◌≡◌, ◌≤◌, ◌++◌, ◌∷◌, ℕ, [], All, IfOk, List, OnOk, length, map, zip};

use body_store::Closed;
use outside_io::{Memory, Turns};
use phase_kind::{
    Kind, PhaseOf, Spread, Worker, in_order, run_several, share_out, teams_of, turned, workers_of,
};
use std::alloc::Global;
use std::thread::Threads;

/// Two empty lists, each with room for so many entries.
fn two_lists<A: Drop, B: Drop>(alloc: Global, places: usize) -> Result<(Vec<A>, Vec<B>), Memory>
    ensures first { IfOk result (λ lists. lists.0.items ≡ []) }
    ensures second { IfOk result (λ lists. lists.1.items ≡ []) }
{
    let first = Vec::with_capacity(alloc, places)?;
    let second = Vec::with_capacity(alloc, places)?;
    Ok((first, second))
}

/// One entry more in each of two lists.
fn push_both<A: Drop, B: Drop>(
    firsts: &mut Vec<A>,
    first: A,
    seconds: &mut Vec<B>,
    second: B,
) -> Result<(), Memory>
    ensures first { OnOk result (firsts.new.items ≡ firsts.old.items ++ first ∷ []) }
    ensures second { OnOk result (seconds.new.items ≡ seconds.old.items ++ second ∷ []) }
{
    firsts.push(first)?;
    seconds.push(second)?;
    Ok(())
}

/// One list more shared out among stores, and its order.
fn share_one<S: Spread, K: Kind>(
    alloc: Global,
    stores: &[Closed],
    spread: &S,
    list: &K::List,
    rows: &mut Vec<Vec<K::List>>,
    orders: &mut Vec<Vec<u8>>,
) -> Result<(), Memory>
    requires within { GoesWithin (λ x. S.to spread.now (K.number x)) (length stores.now) (K.items list.now) }
    requires is_of { All (λ store. K.is_of store list.now) stores.now }
    ensures shared { OnOk result ((work : List (List K.Item))
        → AreAllShared (λ x. S.to spread.now (K.number x)) (length stores.now) work
        (map (λ row. map K.items row.items) rows.old.items) (map (λ order. order.items) orders.old.items)
        → AreAllShared (λ x. S.to spread.now (K.number x)) (length stores.now)
        (work ++ K.items list.now ∷ []) (map (λ row. map K.items row.items) rows.new.items)
        (map (λ order. order.items) orders.new.items)) }
    ensures is_of { OnOk result (
        All (λ row. All (λ at. K.is_of at.0 at.1) (zip stores.now row.items)) rows.old.items
        → All (λ row. All (λ at. K.is_of at.0 at.1) (zip stores.now row.items)) rows.new.items) }
{
    let (row, order) = share_out::<S, K>(alloc, stores, spread, list)?;
    push_both(rows, row, orders, order)?;
    Ok(())
}

/// All lists shared out among stores, one after another: each is given up before the next is looked at.
fn all_shared<S: Spread, K: Kind>(
    alloc: Global,
    stores: &[Closed],
    spread: &S,
    work: Vec<K::List>,
) -> Result<(Vec<Vec<K::List>>, Vec<Vec<u8>>), Memory>
    requires within { All (λ list. GoesWithin (λ x. S.to spread.now (K.number x)) (length stores.now)
        (K.items list)) work.items }
    requires is_of { All (λ list. All (λ store. K.is_of store list) stores.now) work.items }
    ensures shared { IfOk result (λ out. AreAllShared (λ x. S.to spread.now (K.number x)) (length stores.now)
        (map K.items work.items) (map (λ row. map K.items row.items) out.0.items)
        (map (λ order. order.items) out.1.items)) }
    ensures is_of { IfOk result (λ out. All (λ row. All (λ at. K.is_of at.0 at.1) (zip stores.now row.items))
        out.0.items) }
{
    let (mut rows, mut orders) = two_lists(alloc, work.len())?;
    for list in work {
        share_one::<S, K>(alloc, stores, spread, &list, &mut rows, &mut orders)?;
    }
    Ok((rows, orders))
}

/// The phase of one store more begins, with a worker for each of its lists.
fn begin_one<K: Kind>(
    alloc: Global,
    store: Closed,
    lists: Vec<K::List>,
    phases: &mut Vec<PhaseOf<K>>,
    rows: &mut Vec<Vec<Worker<K>>>,
) -> Result<(), Memory>
    requires some { 1 ≤ length lists.items }
    requires few { length lists.items ≤ 64 }
    requires is_of { All (λ list. K.is_of store list) lists.items }
    ensures { OnOk result ((stores : List Contents) (plans : List (List (List K.Item)))
        → HaveBegun K.fresh stores plans phases.old.items (map (λ row. row.items) rows.old.items)
        → HaveBegun K.fresh (stores ++ store ∷ []) (plans ++ map K.items lists.items ∷ []) phases.new.items
        (map (λ row. row.items) rows.new.items)) }
{
    let (phase, workers) = match PhaseOf::begin_with(alloc, store, lists) {
        Ok(begun) => begun,
        Err((_, memory)) => return Err(memory),
    };
    push_both(phases, phase, rows, workers)?;
    Ok(())
}

/// A phase of each store, with a worker for each of its lists.
fn begun<K: Kind>(
    alloc: Global,
    stores: Vec<Closed>,
    lists: Vec<Vec<K::List>>,
) -> Result<(Vec<PhaseOf<K>>, Vec<Vec<Worker<K>>>), Memory>
    requires as_many { length lists.items ≡ length stores.items }
    requires some { All (λ row. 1 ≤ length row.items) lists.items }
    requires few { All (λ row. length row.items ≤ 64) lists.items }
    requires is_of { All (λ at. All (λ list. K.is_of at.0 list) at.1.items) (zip stores.items lists.items) }
    ensures { IfOk result (λ made. HaveBegun K.fresh stores.items
        (map (λ row. map K.items row.items) lists.items) made.0.items (map (λ row. row.items) made.1.items)) }
{
    let (mut phases, mut rows) = two_lists(alloc, stores.len())?;
    let mut rest = lists.into_iter();
    for store in stores {
        let row = match rest.next() {
            Some(row) => row,
            None => unreachable!(),
        };
        begin_one::<K>(alloc, store, row, &mut phases, &mut rows)?;
    }
    Ok((phases, rows))
}

/// A phase of each store, a team for each list, with whom its items wait, and the orders of the lists.
fn ready<S: Spread, K: Kind>(
    alloc: Global,
    stores: Vec<Closed>,
    spread: &S,
    work: Vec<K::List>,
) -> Result<(Vec<PhaseOf<K>>, Vec<Vec<Worker<K>>>, Vec<Vec<u8>>), Memory>
    requires some_list { 1 ≤ length work.items }
    requires few_lists { length work.items ≤ 64 }
    requires within { All (λ list. GoesWithin (λ x. S.to spread.now (K.number x)) (length stores.items)
        (K.items list)) work.items }
    requires is_of { All (λ list. All (λ store. K.is_of store list) stores.items) work.items }
    ensures ready { IfOk result (λ made. AreReady stores.items made.0.items
        (map (λ team. team.items) made.1.items) (map (λ order. order.items) made.2.items)) }
    ensures work { IfOk result (λ made. HaveWork (λ x. S.to spread.now (K.number x)) (map K.items work.items)
        (map (λ team. team.items) made.1.items)) }
    ensures orders { IfOk result (λ made. map (λ order. order.items) made.2.items
        ≡ map (map (λ x. S.to spread.now (K.number x))) (map K.items work.items)) }
{
    let (shared, orders) = all_shared::<S, K>(alloc, &stores, spread, work)?;
    let lists = turned(alloc, stores.len(), shared)?;
    let (phases, rows) = begun::<K>(alloc, stores, lists)?;
    let teams = turned(alloc, orders.len(), rows)?;
    Ok((phases, teams, orders))
}

/// One phase more is closed: the store after it, and its final replies, list by list.
fn close_one<K: Kind>(
    alloc: Global,
    phase: PhaseOf<K>,
    workers: Vec<Worker<K>>,
    stores: &mut Vec<Closed>,
    told: &mut Vec<Vec<Vec<K::Final>>>,
) -> Result<(), Memory>
where
    K::Final: Drop,
    requires all { length workers.items ≡ phase.words.seats }
    requires belong { All (λ worker. worker.phase ≡ phase) workers.items }
    requires idle { All (λ worker. worker.waiting ≡ []) workers.items }
    ensures { OnOk result ((phases : List OpenPhase) (columns : List (List (WorkerView K.Sight K.Item K.Reply)))
        → length columns ≡ length phases → HaveEnded K.closes phases columns stores.old.items
        (map (λ finals. map (λ list. list.items) finals.items) told.old.items)
        → HaveEnded K.closes (phases ++ phase ∷ []) (columns ++ workers.items ∷ []) stores.new.items
        (map (λ finals. map (λ list. list.items) finals.items) told.new.items)) }
{
    let (store, finals) = match phase.close(alloc, workers) {
        Ok(ended) => ended,
        Err((_, memory)) => return Err(memory),
    };
    push_both(stores, store, told, finals)?;
    Ok(())
}

/// All phases closed: the store after each, and its final replies, list by list.
fn closed<K: Kind>(
    alloc: Global,
    phases: Vec<PhaseOf<K>>,
    columns: Vec<Vec<Worker<K>>>,
) -> Result<(Vec<Closed>, Vec<Vec<Vec<K::Final>>>), Memory>
where
    K::Final: Drop,
    requires as_many { length columns.items ≡ length phases.items }
    requires all { All (λ at. AreAll at.0 at.1.items) (zip phases.items columns.items) }
    ensures { IfOk result (λ ended. HaveEnded K.closes phases.items
        (map (λ column. column.items) columns.items) ended.0.items
        (map (λ finals. map (λ list. list.items) finals.items) ended.1.items)) }
{
    let (mut stores, mut told) = two_lists(alloc, phases.len())?;
    let mut rest = columns.into_iter();
    for phase in phases {
        let column = match rest.next() {
            Some(column) => column,
            None => unreachable!(),
        };
        close_one::<K>(alloc, phase, column, &mut stores, &mut told)?;
    }
    Ok((stores, told))
}

/// The workers in each row handle the order at its place, and then all phases are closed.
fn handled<R: Threads + Sync, T: Turns, K: Kind>(
    rt: &R,
    alloc: Global,
    phases: Vec<PhaseOf<K>>,
    rows: Vec<Vec<Worker<K>>>,
    orders: &[Vec<u8>],
    turns: &T,
) -> Result<(Vec<Closed>, Vec<Vec<Vec<K::Final>>>), Memory>
where
    K::Final: Drop,
    requires ready { AreReady (map (λ phase. phase.base) phases.items) phases.items
        (map (λ row. row.items) rows.items) (map (λ order. order.items) orders.now) }
    ensures { IfOk result (λ ended. (goes_to : K.Item → ℕ) (work : List (List K.Item))
        → HaveWork goes_to work (map (λ row. row.items) rows.items)
        → HaveClosed K.closes goes_to (map (λ phase. phase.base) phases.items) work ended.0.items
        (map (λ finals. map (λ list. list.items) finals.items) ended.1.items)) }
{
    let places = phases.len();
    let mut teams = teams_of(alloc, rows, orders)?;
    run_several(rt, &phases, &mut teams, turns);
    let after = workers_of(alloc, teams)?;
    let columns = turned(alloc, places, after)?;
    let (stores, told) = closed(alloc, phases, columns)?;
    Ok((stores, told))
}

/// The replies to each list in its order, where they are kept by list and by place.
fn each_in_order<F: Copy + Drop>(
    alloc: Global,
    orders: &[Vec<u8>],
    rows: &[Vec<Vec<F>>],
) -> Result<Vec<Vec<F>>, Memory>
    requires as_many { length rows.now ≡ length orders.now }
    requires within { All (λ at. GoesWithin (λ place. place) (length at.1.items) at.0.items)
        (zip orders.now rows.now) }
    requires by_place { All (λ at. AreByPlace (λ place. place) at.0.items
        (map (λ row. row.items) at.1.items)) (zip orders.now rows.now) }
    ensures as_many { IfOk result (λ told. length told.items ≡ length orders.now) }
    ensures in_order { IfOk result (λ told. All (λ at. AreInListOrder (λ place. place) at.0.0.items
        (map (λ row. row.items) at.0.1.items) at.1.items) (zip (zip orders.now rows.now) told.items)) }
{
    let mut told = Vec::with_capacity(alloc, orders.len())?;
    for (order, row) in orders.iter().zip(rows) {
        told.push(in_order(alloc, order, row)?)?;
    }
    Ok(told)
}

/// The replies to each list in its order, where they are kept by place and by list.
fn all_told<F: Copy + Drop>(
    alloc: Global,
    orders: &[Vec<u8>],
    told: Vec<Vec<Vec<F>>>,
) -> Result<Vec<Vec<F>>, Memory>
    requires within { All (λ order. GoesWithin (λ place. place) (length told.items) order.items) orders.now }
    requires by_places { AreByPlaces (λ place. place) (map (λ order. order.items) orders.now)
        (map (λ finals. map (λ list. list.items) finals.items) told.items) }
    ensures { IfOk result (λ replies. AreAllTold (λ place. place) (map (λ order. order.items) orders.now)
        (map (λ finals. map (λ list. list.items) finals.items) told.items)
        (map (λ list. list.items) replies.items)) }
{
    let rows = turned(alloc, orders.len(), told)?;
    let replies = each_in_order(alloc, orders, &rows)?;
    Ok(replies)
}

/// Plays a phase of each of several stores, all open at once: each list is handled in order, one worker of
/// each phase for it, and each item goes into the phase that its number names. Before the phases begin the lists
/// are shared out, and no item stands twice. It gives the stores after their phases, and a reply to each item of
/// each list.
pub fn play_several<R: Threads + Sync, S: Spread, T: Turns, K: Kind>(
    rt: &R,
    alloc: Global,
    stores: Vec<Closed>,
    spread: &S,
    work: Vec<K::List>,
    turns: &T,
) -> Result<(Vec<Closed>, Vec<Vec<K::Final>>), Memory>
where
    K::Final: Copy + Drop,
    requires some_list { 1 ≤ length work.items }
    requires few_lists { length work.items ≤ 64 }
    requires within { All (λ list. GoesWithin (λ x. S.to spread.now (K.number x)) (length stores.items)
        (K.items list)) work.items }
    requires is_of { All (λ list. All (λ store. K.is_of store list) stores.items) work.items }
    requires finals { AnswersEach K.closes }
    ensures { IfOk result (λ played. HasPlayed K.closes (λ x. S.to spread.now (K.number x)) stores.items
        (map K.items work.items) played.0.items (map (λ list. list.items) played.1.items)) }
{
    let (phases, teams, orders) = ready::<S, K>(alloc, stores, spread, work)?;
    let (after, told) = handled(rt, alloc, phases, teams, &orders, turns)?;
    let replies = all_told(alloc, &orders, told)?;
    Ok((after, replies))
}
