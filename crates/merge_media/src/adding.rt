//! The ballots of a store are joined with those that are kept, both in ascending order of their numbers.

ghost use Rattle.std.specs.Prelude.{◌≡◌, ◌+◌, ◌^◌, ◌<◌, ◌≤◌, ◌++◌, ◌∷◌, [], ℕ, List, All, AllPairs, IfOk, OnOk, drop, length, slice_index, slice_range};
ghost use Rattle.merge_media.specs.Union.{IsJoinedOf, least_with};
ghost use Rattle.store_spec.specs.Ballot.{Ballot, numbers_of};
ghost use Rattle.store_spec.specs.Image.{IsCellOf};

use ballot_record::BallotList;
use body_store::Closed;
use outside_io::Memory;
use std::alloc::Global;

/// The first place from one on where a list has a ballot whose number is not below this one, or its end.
fn first_not_below(kept: &BallotList, from: usize, number: u64) -> usize
    requires { from ≤ length kept.now.ballots }
    ensures onward { (from ≤ result) × (result ≤ length kept.now.ballots) }
    ensures below { All (λ b. b.number < number) (slice_range kept.now.ballots from result) }
    ensures not_below { result < length kept.now.ballots
        → number ≤ slice_index (numbers_of kept.now.ballots) result }
{
    let end = kept.len();
    for at in from..end {
        if kept.number(at) >= number {
            return at;
        }
    }
    end
}

/// The lesser of this number and one that is in dispute.
fn least(dispute: Option<u64>, number: u64) -> u64
    ensures { result ≡ least_with dispute number }
{
    match dispute {
        Some(other) => other.min(number),
        None => number,
    }
}

/// Joins a ballot, of which these are the number and the bytes of its cell, with those that are kept: those with lesser
/// numbers were put out, and the others stand from a place on. It is put out unless a ballot with its number stands there;
/// where that is another one, the number is in dispute.
fn meet(
    kept: &BallotList,
    next: usize,
    number: u64,
    cell: &[u8],
    out: &mut BallotList,
    dispute: Option<u64>,
) -> Result<Option<u64>, Memory>
    ghost cast: { Ballot }
    requires cell { IsCellOf kept.now.election cell.now cast }
    requires number { number ≡ cast.number }
    requires out { out.old.election ≡ kept.now.election }
    requires within { next ≤ length kept.now.ballots }
    requires below { All (λ b. b.number < cast.number) out.old.ballots }
    requires not_below { next < length kept.now.ballots
        → cast.number ≤ slice_index (numbers_of kept.now.ballots) next }
    ensures joined { IfOk result (λ after. (set : List Ballot) (sets : List (List Ballot))
        → IsJoinedOf (set ∷ sets) (out.old.ballots ++ drop next kept.now.ballots) dispute
        → IsJoinedOf ((set ++ cast ∷ []) ∷ sets)
        (out.new.ballots ++ drop next kept.now.ballots) after) }
    ensures ascending { OnOk result
        (AllPairs (λ a b. a.number < b.number) (out.old.ballots ++ drop next kept.now.ballots)
        → AllPairs (λ a b. a.number < b.number) (out.new.ballots ++ drop next kept.now.ballots)) }
    ensures below { OnOk result (All (λ b. b.number ≤ cast.number) out.new.ballots) }
    ensures count { length out.new.ballots ≤ length out.old.ballots + 1 }
    ensures election { out.new.election ≡ out.old.election }
{
    if next == kept.len() || kept.number(next) != number {
        out.push_cell(cell)?;
        return Ok(dispute);
    }
    if kept.cell(next) == cell {
        return Ok(dispute);
    }
    Ok(Some(least(dispute, number)))
}

/// What is kept once a store was joined.
#[derive(Drop)]
pub(crate) struct Kept {
    pub(crate) ballots: BallotList,
    pub(crate) dispute: Option<u64>,
}

/// Joins the ballots of a store with those that are kept.
pub(crate) fn joined(
    alloc: Global,
    kept: &BallotList,
    dispute: Option<u64>,
    closed: &Closed,
) -> Result<Kept, Memory>
    requires election { closed.now.election ≡ kept.now.election }
    requires ascending { AllPairs (λ a b. a.number < b.number) kept.now.ballots }
    requires few { length kept.now.ballots + length closed.now.ballots < 2 ^ 32 }
    ensures joined { IfOk result (λ new. (sets : List (List Ballot))
        → IsJoinedOf sets kept.now.ballots dispute
        → IsJoinedOf (closed.now.ballots ∷ sets) new.ballots.ballots new.dispute) }
    ensures ascending { IfOk result (λ new. AllPairs (λ a b. a.number < b.number) new.ballots.ballots) }
    ensures count { IfOk result (λ new.
        length new.ballots.ballots ≤ length kept.now.ballots + length closed.now.ballots) }
    ensures election { IfOk result (λ new. new.ballots.election ≡ kept.now.election) }
{
    let election = closed.election();
    let places = closed.in_order(alloc)?;
    let mut ballots = BallotList::with_room(alloc, election, kept.len() + places.len())?;
    let mut dispute = dispute;
    let mut next = 0;
    'places: for place in &places {
        let end = first_not_below(kept, next, place.number);
        ballots.push_range(kept, next, end)?;
        let cell = closed.cell(place.cell as usize);
        dispute = meet(kept, end, place.number, cell, &mut ballots, dispute)?;
        next = end;
    }
    ballots.push_range(kept, next, kept.len())?;
    Ok(Kept { ballots, dispute })
}
