//! Where each number of a build's script stands.

ghost use Rattle.std.specs.Prelude.{◌≡◌, ◌+◌, ◌^◌, ◌<◌, ◌++◌, ◌∷◌, [], Some, length, slice_get, IfOk, MatchResult, OnOk};
ghost use Rattle.script_commands.specs.Index.{IsAbsent, IsIndexOf, IsPlaceOf, slot_of};
ghost use Rattle.store_spec.specs.Ballot.{numbers_of};

use ballot_record::BallotList;
use outside_io::Memory;
use std::alloc::Global;
use std::collections::BTreeMap;

/// How many slots there are at which a number's search may begin.
const SLOTS: usize = 1 << 17;

/// How many slots a number may stand in, from the one at which its search begins.
const REACH: usize = 8;

/// 2 ^ 64 divided by the golden ratio, the multiplier of a Fibonacci hash.
const MULTIPLIER: u64 = 0x9E37_79B9_7F4A_7C15;

/// Where ballots stand in a list, by their numbers. A look-up goes through a few slots, and to a tree only where other
/// numbers have taken them all, so that numbers chosen on purpose cost no more than a tree and eight looks do.
#[derive(Drop)]
pub struct Index {
    /// In each slot 1 more than the place of a ballot, or 0 where it is free. There are enough that no search wraps.
    slots: Vec<u16>,
    /// The places of the ballots whose slots others had all taken.
    others: BTreeMap<u64, u16>,
}

fn slot_of(number: u64) -> usize
    ensures slot { result ≡ slot_of number }
    ensures at_most { result < SLOTS }
{
    let mixed = number ^ (number >> 32);
    (mixed.wrapping_mul(MULTIPLIER) >> 47) as usize
}

/// Where a number is to be noted that no ballot has.
#[derive(Clone, Copy)]
pub enum Place {
    /// In this slot, which is the first free one of its search.
    Slot(usize),
    /// Among the others, since none of its slots is free.
    Others,
}

impl Index {
    /// That of no ballot.
    pub fn new(alloc: Global) -> Result<Index, Memory>
        ensures { IfOk result (λ index. IsIndexOf index []) }
    {
        Ok(Index {
            slots: vec![in alloc; 0; SLOTS + REACH]?,
            others: BTreeMap::new(alloc),
        })
    }

    /// The place of the ballot with a number, or else where that number is to be noted.
    pub fn look(&self, ballots: &BallotList, number: u64) -> Result<usize, Place>
        requires { IsIndexOf self.now (numbers_of ballots.now.ballots) }
        ensures { MatchResult result
            (λ held. slice_get (numbers_of ballots.now.ballots) held ≡ Some number)
            (λ place. IsAbsent (numbers_of ballots.now.ballots) number
            × IsPlaceOf place self.now number) }
    {
        let home = slot_of(number);
        for at in home..home + REACH {
            let place = usize::from(self.slots[at]);
            if place == 0 {
                return Err(Place::Slot(at));
            }
            if ballots.number(place - 1) == number {
                return Ok(place - 1);
            }
        }
        match self.others.get(&number) {
            Some(held) => Ok(usize::from(*held)),
            None => Err(Place::Others),
        }
    }

    /// Notes the number of the ballot that comes behind these, at the place that a look at them gave.
    pub fn note(&mut self, ballots: &BallotList, number: u64, place: Place) -> Result<(), Memory>
        requires index { IsIndexOf self.old (numbers_of ballots.now.ballots) }
        requires absent { IsAbsent (numbers_of ballots.now.ballots) number }
        requires place { IsPlaceOf place self.old number }
        requires few { length ballots.now.ballots + 1 < 2 ^ 16 }
        ensures { OnOk result
            (IsIndexOf self.new (numbers_of ballots.now.ballots ++ number ∷ [])) }
    {
        let count = ballots.len() as u16;
        match place {
            Place::Slot(at) => self.slots[at] = count + 1,
            Place::Others => {
                self.others.insert(number, count)?;
            }
        }
        Ok(())
    }
}
