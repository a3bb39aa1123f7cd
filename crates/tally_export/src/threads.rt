//! The tally of a store, counted by several threads.

ghost use Rattle.std.specs.Prelude.{◌≡◌, ◌+◌, ◌^◌, ◌≤◌};
ghost use Rattle.std.specs.Thread.{IsSync};
ghost use Rattle.body_store.specs.Contents.{IsStored};
ghost use Rattle.store_spec.specs.Election.{cell_count, most_bits};
ghost use Rattle.tally_export.specs.Counted.{IsTallyOf};
ghost use Rattle.tally_export.specs.Ranges.{ballots_in};

use crate::contests::tally_cells;
use crate::counts::Tally;
use ballot_record::Election;
use body_store::Closed;
use std::thread::{Threads, join};

/// The mark sets that are worth a thread: to count them takes some times as long as to start one, and to add its counts.
const PART_SETS: usize = 1 << 16;

/// How many homes there are from one cell on, up to another. The homes stand in front of all other cells, and nearly all
/// ballots stand in homes.
fn homes_between(election: &Election, from: usize, end: usize) -> usize
    requires { from ≤ end }
    ensures within { from + result ≤ end }
    ensures few { result ≤ 2 ^ most_bits }
{
    let homes = 1 << election.bits();
    end.min(homes).saturating_sub(from)
}

/// How many of so many homes the first `low` of their parts take, where no part has two more than another.
fn place_of_part(homes: usize, low: usize, parts: usize) -> usize
    requires some { 1 ≤ parts }
    requires within { low ≤ parts }
    requires no_more { parts ≤ homes }
    requires few { homes ≤ 2 ^ most_bits }
    ensures { result ≤ homes }
{
    homes * low / parts
}

/// The tally of the ballots from one cell on, up to another, counted in so many parts at once. Each step halves the
/// parts, which have about as many homes each.
#[cycle(parts)]
fn tally_parts<R: Threads + Sync>(
    rt: &R,
    closed: &Closed,
    from: usize,
    end: usize,
    parts: usize,
) -> Tally
    requires stored { IsStored closed.now }
    requires within { (from ≤ end) × (end ≤ cell_count closed.now.election) }
    ensures { IsTallyOf closed.now.election (ballots_in closed.now from end) result }
{
    let homes = homes_between(closed.election(), from, end);
    let parts = parts.min(homes);
    if parts <= 1 {
        return tally_cells(closed, from, end);
    }
    let low = parts / 2;
    let middle = from + place_of_part(homes, low, parts);
    tally_both(rt, closed, from, middle, end, low, parts - low)
}

/// The tally of the ballots from one cell on, up to another, in two threads. Those in front of the cell in the middle,
/// and those from it on, are each counted in so many parts.
#[cycle(parts)]
fn tally_both<R: Threads + Sync>(
    rt: &R,
    closed: &Closed,
    from: usize,
    middle: usize,
    end: usize,
    low: usize,
    high: usize,
) -> Tally
    requires stored { IsStored closed.now }
    requires some { (1 ≤ low) × (1 ≤ high) }
    requires within { (from ≤ middle) × (middle ≤ end) × (end ≤ cell_count closed.now.election) }
    ensures { IsTallyOf closed.now.election (ballots_in closed.now from end) result }
{
    let (mut all, more) = join(
        rt,
        || -> Tally
            requires sync { IsSync R.row }
            requires stored { IsStored closed.now }
            requires within { (from ≤ middle) × (middle ≤ cell_count closed.now.election) }
            ensures { IsTallyOf closed.entry.now.election
                (ballots_in closed.entry.now from middle) result }
        { tally_parts(rt, closed, from, middle, low) },
        || -> Tally
            requires sync { IsSync R.row }
            requires stored { IsStored closed.now }
            requires within { (middle ≤ end) × (end ≤ cell_count closed.now.election) }
            ensures { IsTallyOf closed.entry.now.election
                (ballots_in closed.entry.now middle end) result }
        { tally_parts(rt, closed, middle, end, high) },
    );
    all.add(&more);
    all
}

/// The tally of a store's ballots, counted in so many parts at once, or in fewer, where the ballots have not so many
/// mark sets that each part gets its thread's worth. With one part no thread is started.
pub fn tally_threads<R: Threads + Sync>(rt: &R, closed: &Closed, parts: usize) -> Tally
    requires { 1 ≤ parts }
    ensures { IsTallyOf closed.now.election closed.now.ballots result }
{
    let sets = closed.len() * closed.election().contests();
    let parts = parts.min(sets / PART_SETS);
    tally_parts(rt, closed, 0, closed.cells().len(), parts)
}
