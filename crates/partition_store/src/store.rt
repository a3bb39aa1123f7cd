//! A store in parts.

ghost use Rattle.std.specs.Prelude.{◌≡◌, ◌^◌, ◌<◌, [], get_or, length};
ghost use Rattle.body_store.specs.Contents.{IsStored};
ghost use Rattle.partition_store.specs.Parted.{AreBits, AreParts, IsParted, joined};
ghost use Rattle.partition_store.specs.PartedKept.{AreStores, election_of, sets_of};

use ballot_record::Election;
use body_store::Closed;
use std::marker::Model;

/// A closed store in 2, 4 or 8 parts, each a closed store of its own, with the election's limit. A ballot belongs to
/// the part that the top bits of its number tell (`part_of`).
#[derive(Drop)]
pub struct PartStore {
    bits: u8,
    parts: Vec<Closed>,
}

impl Model for PartStore {
    ghost use Rattle.partition_store.specs.Parted.{Parted};

    ghost Value = { Parted };

    ghost use Rattle.partition_store.specs.PartedKept.{IsPartedKept, parted_of};

    ghost view = { parted_of };

    ghost invariant = { IsPartedKept };
}

#[tactic(auto, using(crate::proofs::Keeping::kept_parted, crate::proofs::Keeping::stores_parted))]
impl PartStore {
    /// The store of these parts, in order, each of which has the ballots that belong there.
    pub fn of_parts(bits: u8, parts: Vec<Closed>) -> PartStore
        requires bits { AreBits bits }
        requires parts { AreParts bits (sets_of parts.items) }
        requires stores { AreStores (election_of parts.items) parts.items }
        ensures store { result ≡ record {
          election = election_of parts.items;
          bits = bits;
          sets = sets_of parts.items;
        } }
        ensures parted { IsParted result }
    {
        PartStore { bits, parts }
    }

    /// Its parts, in order.
    pub fn into_parts(self) -> Vec<Closed>
        ensures sets { sets_of result.items ≡ self.sets }
        ensures stores { AreStores self.election result.items }
        ensures parted { IsParted self }
    {
        self.parts
    }

    /// A part, counted from 0.
    pub fn part(&self, index: usize) -> &Closed
        requires { index < 2 ^ self.now.bits }
        ensures part { result.now ≡ record {
          election = self.now.election;
          ballots = get_or self.now.sets index [];
        } }
        ensures stored { IsStored result.now }
        ensures parted { IsParted self.now }
    {
        &self.parts[index]
    }

    /// How many parts there are.
    pub fn parts(&self) -> usize
        ensures count { result ≡ 2 ^ self.now.bits }
        ensures parted { IsParted self.now }
    {
        self.parts.len()
    }

    /// How many top bits of a number tell its part.
    pub fn bits(&self) -> u8
        ensures bits { result ≡ self.now.bits }
        ensures parted { IsParted self.now }
    {
        self.bits
    }

    /// Its election.
    pub fn election(&self) -> &Election
        ensures election { result.now ≡ self.now.election }
        ensures parted { IsParted self.now }
    {
        self.parts[0].election()
    }

    /// How many ballots all parts hold.
    pub fn len(&self) -> usize
        ensures count { result ≡ length (joined self.now.sets) }
        ensures few { result < 2 ^ 32 }
        ensures parted { IsParted self.now }
    {
        let mut count = 0;
        for part in &self.parts {
            count += part.len();
        }
        count
    }
}
