//! What waits for the close of a phase.

ghost use Rattle.std.specs.Prelude.{◌≡◌, ◌≤◌, [], All, IfOk, map, replicate, OnErr};
ghost use Rattle.ballot_record.specs.Record as records;
ghost use Rattle.phase_gate.specs.Waiting.{AreListsOf, CanWait, GoesInto, QueuesIn, phase_of};
ghost use Rattle.script_lines.specs.Words.{work};
ghost use Rattle.store_spec.specs.Ballot.{IsValid};
ghost use Rattle.store_spec.specs.Session.{opened};

use ballot_record::{BallotList, Election, Record};
use outside_io::Memory;
use script_lines::{Entry, Work};
use std::alloc::Global;

/// What waits for the close of a phase: a list for each tabulator.
#[derive(Drop)]
pub enum Waiting {
    /// Ballots are to be cast.
    Casting(Vec<BallotList>),
    /// The ballots of these numbers are to be withdrawn.
    Withdrawing(Vec<Vec<u64>>),
    /// These numbers are to be looked for.
    Finding(Vec<Vec<u64>>),
}

/// What became of an entry of a line.
#[derive(Clone, Copy, Debug, PartialEq, Eq)]
pub enum Queued {
    /// It waits in its list.
    Waits,
    /// There is no such list.
    NoList,
    /// It does not belong to the phase.
    OtherPhase,
}

impl Waiting {
    /// Nothing yet, in a phase of this work for so many tabulators.
    pub fn opened(
        alloc: Global,
        election: &Election,
        named: Work,
        tabs: u8,
    ) -> Result<Waiting, Memory>
        ensures phase { IfOk result (λ waiting. phase_of waiting ≡ opened (work named) tabs) }
        ensures lists { IfOk result (AreListsOf election.now) }
    {
        match named {
            Work::Casting => Ok(Waiting::Casting(no_ballots(alloc, election, tabs)?)),
            Work::Withdrawing => Ok(Waiting::Withdrawing(empty_lists(alloc, tabs)?)),
            Work::Finding => Ok(Waiting::Finding(empty_lists(alloc, tabs)?)),
        }
    }

    /// Lets an entry wait in the list of this number. The ballot of a cast is this one.
    pub fn wait(
        &mut self,
        election: &Election,
        tab: u8,
        entry: Entry,
        ballot: &Record,
    ) -> Result<Queued, Memory>
        requires tab { 1 ≤ tab }
        requires lists { AreListsOf election.now self.old }
        requires entry { CanWait election.now entry ballot.now }
        ensures lists { AreListsOf election.now self.new }
        ensures goes { IfOk result (λ queued. GoesInto entry tab ballot.now
            (phase_of self.old) queued (phase_of self.new)) }
        ensures unchanged { OnErr result (phase_of self.new ≡ phase_of self.old) }
    {
        match (self, entry) {
            (Waiting::Casting(lists), Entry::Cast) => queue_ballot(lists, election, tab, ballot),
            (Waiting::Withdrawing(lists), Entry::Withdraw { number }) => queue(lists, tab, number),
            (Waiting::Finding(lists), Entry::Find { number }) => queue(lists, tab, number),
            _ => Ok(Queued::OtherPhase),
        }
    }
}

/// So many empty lists.
fn empty_lists<X: Drop>(alloc: Global, count: u8) -> Result<Vec<Vec<X>>, Memory>
    ensures { IfOk result (λ lists. map (λ list. list.items) lists.items ≡ replicate count []) }
{
    let mut lists = Vec::with_capacity(alloc, usize::from(count))?;
    'lists: for _made in 0..count {
        lists.push(Vec::new(alloc))?;
    }
    Ok(lists)
}

/// Puts an item at the end of a list, the first of which is number 1.
fn queue<X: Drop>(lists: &mut Vec<Vec<X>>, tab: u8, item: X) -> Result<Queued, Memory>
    requires { 1 ≤ tab }
    ensures goes { IfOk result (λ queued. QueuesIn (λ now. now)
        (map (λ list. list.items) lists.old.items) tab item queued
        (map (λ list. list.items) lists.new.items)) }
    ensures unchanged { OnErr result (map (λ list. list.items) lists.new.items
        ≡ map (λ list. list.items) lists.old.items) }
{
    let place = usize::from(tab) - 1;
    if place >= lists.len() {
        return Ok(Queued::NoList);
    }
    lists[place].push(item)?;
    Ok(Queued::Waits)
}

/// So many lists with no ballots.
fn no_ballots(alloc: Global, election: &Election, count: u8) -> Result<Vec<BallotList>, Memory>
    ensures empty { IfOk result
        (λ lists. map (λ list. list.ballots) lists.items ≡ replicate count []) }
    ensures elections { IfOk result
        (λ lists. All (λ list. list.election ≡ election.now) lists.items) }
{
    let mut lists = Vec::with_capacity(alloc, usize::from(count))?;
    'lists: for _made in 0..count {
        lists.push(BallotList::new(alloc, election))?;
    }
    Ok(lists)
}

/// Puts a ballot at the end of a list, the first of which is number 1.
fn queue_ballot(
    lists: &mut Vec<BallotList>,
    election: &Election,
    tab: u8,
    ballot: &Record,
) -> Result<Queued, Memory>
    requires tab { 1 ≤ tab }
    requires elections { All (λ list. list.election ≡ election.now) lists.old.items }
    requires valid { IsValid election.now (records.ballot ballot.now) }
    ensures goes { IfOk result (λ queued. QueuesIn (λ now. now)
        (map (λ list. list.ballots) lists.old.items) tab (records.ballot ballot.now) queued
        (map (λ list. list.ballots) lists.new.items)) }
    ensures elections { All (λ list. list.election ≡ election.now) lists.new.items }
    ensures unchanged { OnErr result (map (λ list. list.ballots) lists.new.items
        ≡ map (λ list. list.ballots) lists.old.items) }
{
    let place = usize::from(tab) - 1;
    if place >= lists.len() {
        return Ok(Queued::NoList);
    }
    lists[place].push(ballot, election)?;
    Ok(Queued::Waits)
}
