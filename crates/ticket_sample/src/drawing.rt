//! The sample of a store: the ballots whose tickets are the least.

ghost use Rattle.std.specs.Prelude.{◌≡◌, ◌<◌, IfOk, length, map, filter};
ghost use Rattle.body_store.specs.Contents.{ballots_of};
ghost use Rattle.body_store.specs.Held.{held_in};
ghost use Rattle.store_spec.specs.Image.{cells_of};
ghost use Rattle.ticket_sample.specs.Drawing.{AreApart, IsBound, StandIn, lots_of, numbers_at};
ghost use Rattle.ticket_sample.specs.Sample.{is_drawn, sample_of};

use crate::tickets::{TICKET_BYTES, ticket};
use ballot_record::Record;
use body_store::{Closed, Place};
use outside_io::Memory;
use std::alloc::Global;

/// A number behind its ticket: lots are drawn in ascending order.
type Lot = ([u8; TICKET_BYTES], u64);

/// The numbers of these places, each behind its ticket.
fn lots(alloc: Global, dice: &[u8], places: &[Place]) -> Result<Vec<Lot>, Memory>
    ensures { IfOk result (λ lots. lots.items ≡ lots_of dice.now (numbers_at places.now)) }
{
    let mut lots = Vec::with_capacity(alloc, places.len())?;
    for place in places {
        lots.push((ticket(dice, place.number), place.number))?;
    }
    Ok(lots)
}

fn copy_of(alloc: Global, lots: &[Lot]) -> Result<Vec<Lot>, Memory>
    ensures { IfOk result (λ copy. copy.items ≡ lots.now) }
{
    let mut copy = Vec::with_capacity(alloc, lots.len())?;
    for lot in lots {
        copy.push(*lot)?;
    }
    Ok(copy)
}

/// The lot before which so many others are drawn.
fn bound(alloc: Global, lots: &[Lot], count: usize) -> Result<Lot, Memory>
    requires within { count < length lots.now }
    requires apart { AreApart (map (λ lot. lot.1) lots.now) }
    ensures { IfOk result (IsBound lots.now count) }
{
    let mut order = copy_of(alloc, lots)?;
    let (_, bound, _) = order.select_nth_unstable(count);
    Ok(*bound)
}

/// Those of some places whose numbers are drawn first, as many as this count says, in the order in which they stand.
fn drawn(alloc: Global, dice: &[u8], places: &[Place], count: usize) -> Result<Vec<Place>, Memory>
    requires within { count < length places.now }
    requires apart { AreApart (numbers_at places.now) }
    ensures { IfOk result (λ chosen. chosen.items
        ≡ filter (λ place. is_drawn dice.now count (numbers_at places.now) place.number) places.now) }
{
    let lots = lots(alloc, dice, places)?;
    let bound = bound(alloc, &lots, count)?;
    let mut chosen = Vec::with_capacity(alloc, count)?;
    for (at, place) in places.iter().enumerate() {
        if lots[at].cmp(&bound).is_lt() {
            chosen.push(*place)?;
        }
    }
    Ok(chosen)
}

/// The ballots of a store at some of its places, in the order of the places.
fn records_at(alloc: Global, closed: &Closed, places: &[Place]) -> Result<Vec<Record>, Memory>
    requires { StandIn closed.now.election (cells_of closed.now.election closed.now.ballots) places.now }
    ensures { IfOk result (λ records. ballots_of records.items
        ≡ held_in closed.now.ballots (numbers_at places.now)) }
{
    let mut records = Vec::with_capacity(alloc, places.len())?;
    for place in places {
        if let Some(record) = closed.record_in(place.cell as usize) {
            records.push(record)?;
        }
    }
    Ok(records)
}

/// The sample of a store: its k ballots whose tickets are the least, or all that it holds, in ascending order of number.
/// Of two numbers with one ticket the lesser comes first. It takes time and memory as tickets of all numbers do, and
/// copies no ballot that is not in the sample.
pub fn sample(alloc: Global, closed: &Closed, dice: &[u8], k: u32) -> Result<Vec<Record>, Memory>
    ensures { IfOk result (λ records. ballots_of records.items
        ≡ sample_of closed.now.ballots dice.now k) }
{
    let places = closed.in_order(alloc)?;
    if places.len() <= k as usize {
        return records_at(alloc, closed, &places);
    }
    let chosen = drawn(alloc, dice, &places, k as usize)?;
    records_at(alloc, closed, &chosen)
}
