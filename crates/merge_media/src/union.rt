//! The union of the stores of one election.

ghost use Rattle.std.specs.Prelude.{◌≡◌, ◌+◌, ◌^◌, ◌<◌, ◌≤◌, ◌∷◌, [], IfOk, None, List, MatchOption, OnErr, OnOk, length};
ghost use Rattle.body_store.specs.Contents.{IsStored};
ghost use Rattle.merge_media.specs.Union.{Agree, IsLeastDisputed, IsUnion, Joins};
ghost use Rattle.store_spec.specs.Ballot.{Ballot};

use crate::adding::joined;
use ballot_record::{BallotList, Election};
use body_store::Closed;
use outside_io::Memory;
use std::alloc::Global;
use std::marker::Model;

/// What came so far of the stores of one election: a ballot for each number that one of them holds, kept as its cell, and
/// the least number of which two of them hold different ballots. Where there is no such number, it is their union.
#[derive(Drop)]
pub struct Union {
    /// In ascending order of their numbers.
    ballots: BallotList,
    dispute: Option<u64>,
}

impl Model for Union {
    ghost use Rattle.merge_media.specs.Union.{Joined};

    ghost Value = { Joined };

    ghost use Rattle.merge_media.specs.UnionKept.{IsUnionKept, union_seen};

    ghost view = { union_seen };

    ghost invariant = { IsUnionKept };
}

impl Union {
    /// That of no stores. All that come are to be of this election.
    pub fn new(alloc: Global, election: &Election) -> Union
        ensures joined { Joins [] result }
        ensures election { result.election ≡ election.now }
        ensures count { result.ballots ≡ [] }
    {
        Union {
            ballots: BallotList::new(alloc, election),
            dispute: None,
        }
    }

    /// Joins a store with those that came before. After `Memory` it is as it was.
    pub fn add(&mut self, alloc: Global, closed: &Closed) -> Result<(), Memory>
        requires election { closed.now.election ≡ self.old.election }
        requires few { length self.old.ballots + length closed.now.ballots < 2 ^ 32 }
        ensures joined { OnOk result ((sets : List (List Ballot)) → Joins sets self.old
            → Joins (closed.now.ballots ∷ sets) self.new) }
        ensures unchanged { OnErr result (self.new ≡ self.old) }
        ensures count { length self.new.ballots ≤ length self.old.ballots + length closed.now.ballots }
        ensures election { self.new.election ≡ self.old.election }
    {
        let kept = joined(alloc, &self.ballots, self.dispute, closed)?;
        self.ballots = kept.ballots;
        self.dispute = kept.dispute;
        Ok(())
    }

    /// The least number of which two of the stores hold different ballots. `None` where there is no such number.
    pub fn dispute(&self) -> Option<u64>
        ensures is { result ≡ self.now.dispute }
        ensures least { (sets : List (List Ballot)) → Joins sets self.now
            → MatchOption result (Agree sets) (IsLeastDisputed sets) }
    {
        self.dispute
    }

    /// How many numbers the stores hold.
    pub fn len(&self) -> u32
        ensures { result ≡ length self.now.ballots }
    {
        self.ballots.len() as u32
    }

    /// The store of their union. After `Memory` nothing was taken.
    pub fn closed(&self, alloc: Global, election: &Election) -> Result<Closed, Memory>
        requires election { election.now ≡ self.now.election }
        requires agree { self.now.dispute ≡ None }
        requires within_limit { length self.now.ballots ≤ election.now.limit }
        ensures union { IfOk result (λ store. (sets : List (List Ballot)) → Joins sets self.now
            → IsUnion sets store.ballots) }
        ensures same { IfOk result (λ store. store.ballots ≡ self.now.ballots) }
        ensures election { IfOk result (λ store. store.election ≡ election.now) }
        ensures stored { IfOk result IsStored }
    {
        // That its ballots are valid is told by a call of the list alone.
        let _ = self.ballots.len();
        Closed::from_records(alloc, election, &self.ballots)
    }
}
