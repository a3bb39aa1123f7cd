//! Teams of workers, one of each of several phases, each of which handles one list in its order.

ghost use Rattle.phase_kind.specs.Team.{AnswersAt, AreNamed, GoesWithin, HasAnsweredNext, IsTeam, new_team};
ghost use Rattle.std.specs.Prelude.{◌≡◌, ◌+◌, ◌<◌, ◌++◌, [], ◌∷◌, All, IfOk, Some, drop, length, map, slice_get, slice_index_or, zip};

use crate::running::answer_next;
use crate::{Kind, PhaseOf, Worker};
use outside_io::{Memory, Turns};
use std::alloc::Global;
use std::marker::Model;

/// A worker of each of several phases, and an order, which names for each item of a list the worker with whom it
/// waits. Which entries of it were handled is a list that only the next answer of the team makes longer.
#[derive(Drop)]
pub struct Team<'a, K: Kind> {
    workers: Vec<Worker<K>>,
    order: &'a [u8],
    handled: usize,
}

impl<'a, K: Kind> Model for Team<'a, K> {
    ghost use Rattle.std.specs.Prelude.{drop, take};
    ghost use Rattle.phase_kind.specs.Team.{IsKeptTeam, TeamView};

    ghost Value = { TeamView K.Sight K.Item K.Reply };

    ghost view = { λ t. record {
      workers = t.workers.items;
      handled = take t.handled t.order.now;
      ahead = drop t.handled t.order.now;
    } };

    ghost invariant = { λ t. IsKeptTeam t.workers.items t.order.now t.handled };
}

impl<'a, K: Kind> Team<'a, K> {
    /// A team that has handled no entry of its order.
    pub fn new(workers: Vec<Worker<K>>, order: &'a [u8]) -> Self
        requires { AreNamed order.now workers.items }
        ensures { result ≡ new_team workers.items order.now }
    {
        Team {
            workers,
            order,
            handled: 0,
        }
    }

    /// Its workers.
    pub fn into_workers(self) -> Vec<Worker<K>>
        ensures { result.items ≡ self.entry.workers }
    {
        let Self { workers, .. } = self;
        workers
    }

    /// How many entries of its order are ahead. Each names a worker with whom an item waits.
    pub fn ahead(&self) -> usize
        ensures ahead { result ≡ length self.now.ahead }
        ensures named { AreNamed self.now.ahead self.now.workers }
    {
        self.order.len() - self.handled
    }

    /// Between two items each of its workers is at rest.
    pub(crate) fn rests(&self)
        ensures { All (λ worker. K.rests worker.seat) self.now.workers }
    {
        all_rest(&self.workers);
    }

    /// The team comes to the next entry of its order, and the worker that it names to the first item that waits with
    /// it: the turn of the team at this place is told, and the worker answers the item.
    pub fn answer_next<T: Turns>(&mut self, phases: &[PhaseOf<K>], place: usize, turns: &T)
        requires team { IsTeam phases.now self.old.workers }
        requires ahead { 0 < length self.old.ahead }
        ensures { HasAnsweredNext K.rests self.old self.new }
    {
        answer_entry(
            phases,
            &mut self.workers,
            self.order,
            self.handled,
            place,
            turns,
        );
        self.handled += 1;
    }
}

/// The worker that an order names at an index answers the first item that waits with it.
fn answer_entry<T: Turns, K: Kind>(
    phases: &[PhaseOf<K>],
    workers: &mut [Worker<K>],
    order: &[u8],
    index: usize,
    place: usize,
    turns: &T,
)
    requires team { IsTeam phases.now workers.old }
    requires there { index < length order.now }
    requires named { AreNamed (drop index order.now) workers.old }
    ensures answers { (to : _) × (slice_get order.now index ≡ Some to)
        × AnswersAt K.rests to workers.old workers.new }
    ensures named { AreNamed (drop (index + 1) order.now) workers.new }
{
    let to = entry(order, workers.len(), index);
    answer_next(&phases[to], &mut workers[to], place, index, turns);
}

/// The entry at an index of an order, which from there on names places of so many.
fn entry(order: &[u8], places: usize, index: usize) -> usize
    requires there { index < length order.now }
    requires within { GoesWithin (λ place. place) places (drop index order.now) }
    ensures there { slice_get order.now index ≡ Some result }
    ensures within { result < places }
{
    order[index] as usize
}

/// Between two items each worker is at rest.
fn all_rest<K: Kind>(team: &[Worker<K>])
    ensures { All (λ worker. K.rests worker.seat) team.now }
{
    K::trays_tell();
    for worker in team {
        worker.room();
    }
}

/// A team of the workers in each row, with the order at its place.
pub fn teams_of<'a, K: Kind>(
    alloc: Global,
    rows: Vec<Vec<Worker<K>>>,
    orders: &'a [Vec<u8>],
) -> Result<Vec<Team<'a, K>>, Memory>
    requires as_many { length rows.items ≡ length orders.now }
    requires named { All (λ at. AreNamed at.1.items at.0.items) (zip rows.items orders.now) }
    ensures { IfOk result (λ teams. teams.items ≡ map (λ at. new_team at.0.items at.1.items) (zip rows.items orders.now)) }
{
    let mut teams = Vec::with_capacity(alloc, rows.len())?;
    for row in rows {
        team_up(row, orders, &mut teams)?;
    }
    Ok(teams)
}

/// One team more, of these workers, with the order at its place.
fn team_up<'a, K: Kind>(
    row: Vec<Worker<K>>,
    orders: &'a [Vec<u8>],
    teams: &mut Vec<Team<'a, K>>,
) -> Result<(), Memory>
    requires within { length teams.old.items < length orders.now }
    requires named { (d : _) → AreNamed (slice_index_or orders.now (length teams.old.items) d).items row.items }
    ensures { IfOk result (λ _. (d : _) → teams.new.items ≡ teams.old.items
        ++ new_team row.items (slice_index_or orders.now (length teams.old.items) d).items ∷ []) }
{
    let order = &orders[teams.len()];
    teams.push(Team::new(row, order))?;
    Ok(())
}

/// The workers of each team.
pub fn workers_of<K: Kind>(
    alloc: Global,
    teams: Vec<Team<'_, K>>,
) -> Result<Vec<Vec<Worker<K>>>, Memory>
    ensures { IfOk result (λ rows. map (λ row. row.items) rows.items ≡ map (λ team. team.workers) teams.entry.items) }
{
    let mut rows = Vec::with_capacity(alloc, teams.len())?;
    for team in teams {
        rows.push(team.into_workers())?;
    }
    Ok(rows)
}
