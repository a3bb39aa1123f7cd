//! Two disks become a pair.

ghost use Rattle.std.specs.Prelude.{◌≡◌, ◌≢◌, ◌<◌, ◌≤◌, ℕ, List, Some, is_some, IfErr, IfOk, IfSome, IsErrOf, OnOk};
ghost use Rattle.std.specs.Option.{ForSome};
ghost use Rattle.body_store.specs.Contents.{IsStored};
ghost use Rattle.outside_io.specs.Told.{AsTold};
ghost use Rattle.store_spec.specs.Ballot.{Ballot};
ghost use Rattle.store_spec.specs.Disk.{disk_model, IsSettled, LeavesOnly, LeavesOnlyOnceSynced};
ghost use Rattle.store_spec.specs.Fault.{last_count, CountsFaultIf};
ghost use Rattle.store_spec.specs.Medium.{IsMediumOf};
ghost use Rattle.twin_media.specs.Finding.{IsFound, IsHeldUnder};
ghost use Rattle.twin_media.specs.Pairing.{AreCompared, BothKept, IsKeptOr, IsPaired, IsPairSet, IsUnwrittenPair, MakeRefuses, PairLeaves, PairRefuses};

use crate::fault::PairFault;
use crate::finding::{Held, find, make, same_set};
use ballot_record::Election;
use body_store::Closed;
use crash_disk::Disk;
use image_builder::Scratch;
use std::alloc::Global;

/// How two disks were found.
#[derive(Clone, Copy, Debug, PartialEq, Eq)]
pub enum Paired {
    /// Both held the same set.
    Equal,
    /// They held different sets. Both hold the first's now.
    Differed,
    /// The first alone was lost. It holds the second's set now.
    FirstRestored,
    /// The second alone was lost. It holds the first's set now.
    SecondRestored,
}

/// How two disks that hold stores were found.
fn compare(one: &Held, two: &Held) -> Paired
    requires { one.now.store.election ≡ two.now.store.election }
    ensures { AreCompared one.now.store.ballots two.now.store.ballots result }
{
    if same_set(&one.store, &two.store) {
        Paired::Equal
    } else {
        Paired::Differed
    }
}

/// Makes both disks the medium of a store.
fn make_both<A: Disk, B: Disk>(
    first: &mut A,
    second: &mut B,
    election: &Election,
    one: Option<&Held>,
    two: Option<&Held>,
    store: &Closed,
    scratch: &mut Scratch,
) -> Result<(), PairFault>
    requires one { IfSome one (λ held. IsHeldUnder election.now held.now) }
    requires two { IfSome two (λ held. IsHeldUnder election.now held.now) }
    requires own { store.now.election ≡ election.now }
    requires first_settled { IsSettled A.seen A.calls A.may_leave first.old }
    requires second_settled { IsSettled B.seen B.calls B.may_leave second.old }
    requires first_found { ForSome (A.seen first.old) (IsFound election.now one) }
    requires second_found { ForSome (B.seen second.old) (IsFound election.now two) }
    ensures first_medium { OnOk result (AsTold A.seen first.old first.new
        (λ _ bytes. IsMediumOf election.now bytes store.now.ballots)) }
    ensures second_medium { OnOk result (AsTold B.seen second.old second.new
        (λ _ bytes. IsMediumOf election.now bytes store.now.ballots)) }
    ensures first_settled { OnOk result (IsSettled A.seen A.calls A.may_leave first.new) }
    ensures second_settled { OnOk result (IsSettled B.seen B.calls B.may_leave second.new) }
    ensures first_told { is_some (A.seen first.new) ≡ is_some (A.seen first.old) }
    ensures second_told { is_some (B.seen second.new) ≡ is_some (B.seen second.old) }
    ensures first_moments { (bytes : List ℕ) → A.seen first.old ≡ Some bytes
        → LeavesOnly A.calls A.may_leave first.old first.new
        (IsKeptOr election.now (λ set. set ≡ store.now.ballots) bytes) }
    ensures second_moments { (bytes : List ℕ) → B.seen second.old ≡ Some bytes
        → LeavesOnly B.calls B.may_leave second.old second.new
        (IsKeptOr election.now (λ set. set ≡ store.now.ballots) bytes) }
    ensures refused { IfErr result (MakeRefuses
        (disk_model A.seen A.calls A.may_leave A.faults)
        (disk_model B.seen B.calls B.may_leave B.faults)
        election.now store.now.ballots first.old first.new second.old second.new) }
    ensures first_later { A.calls first.old ≤ A.calls first.new }
    ensures second_later { B.calls second.old ≤ B.calls second.new }
    ensures first_fault { CountsFaultIf (IsErrOf result PairFault.FirstFault)
        (A.faults first.old) (A.faults first.new) }
    ensures second_fault { CountsFaultIf (IsErrOf result PairFault.SecondFault)
        (B.faults second.old) (B.faults second.new) }
    ensures first_leads { A.leads_to first.old first.new }
    ensures second_leads { B.leads_to second.old second.new }
{
    match make(first, election, one, store, scratch) {
        Ok(()) => {}
        Err(_) => return Err(PairFault::FirstFault),
    }
    match make(second, election, two, store, scratch) {
        Ok(()) => Ok(()),
        Err(_) => Err(PairFault::SecondFault),
    }
}

/// Makes two disks, of which at most one is lost, the medium of one set: the first's, or, where the first is lost, the
/// second's. Then they can be one disk (`Twin::new`). The first is synced and looked at, and then the second; nothing is
/// written before both were. A lost disk is filled, the other one recovered, and a second disk that held another set gets
/// a checkpoint. A disk is lost where its size is at most the medium's and it holds no store; what is damaged is not lost.
pub fn pair<A: Disk, B: Disk>(
    alloc: Global,
    first: &mut A,
    second: &mut B,
    election: &Election,
    scratch: &mut Scratch,
) -> Result<(Closed, Paired), PairFault>
    ensures paired { IfOk result (λ made. (one two : List ℕ)
        → A.seen first.old ≡ Some one → B.seen second.old ≡ Some two
        → IsPaired election.now one two made.1 made.0.ballots) }
    ensures election { IfOk result (λ made. made.0.election ≡ election.now) }
    ensures stored { IfOk result (λ made. IsStored made.0) }
    ensures first_medium { IfOk result (λ made. AsTold A.seen first.old first.new
        (λ _ bytes. IsMediumOf election.now bytes made.0.ballots)) }
    ensures second_medium { IfOk result (λ made. AsTold B.seen second.old second.new
        (λ _ bytes. IsMediumOf election.now bytes made.0.ballots)) }
    ensures first_settled { OnOk result (IsSettled A.seen A.calls A.may_leave first.new) }
    ensures second_settled { OnOk result (IsSettled B.seen B.calls B.may_leave second.new) }
    ensures refused { IfErr result (PairRefuses
        (disk_model A.seen A.calls A.may_leave A.faults)
        (disk_model B.seen B.calls B.may_leave B.faults)
        election.now first.old first.new second.old second.new) }
    ensures unwritten { IfErr result (IsUnwrittenPair
        (disk_model A.seen A.calls A.may_leave A.faults)
        (disk_model B.seen B.calls B.may_leave B.faults)
        election.now first.old first.new second.old second.new) }
    ensures first_told { is_some (A.seen first.new) ≡ is_some (A.seen first.old) }
    ensures second_told { is_some (B.seen second.new) ≡ is_some (B.seen second.old) }
    ensures any_moment { (one two : List ℕ)
        → A.seen first.old ≡ Some one → B.seen second.old ≡ Some two → PairLeaves
        (disk_model A.seen A.calls A.may_leave A.faults)
        (disk_model B.seen B.calls B.may_leave B.faults)
        election.now one two first.old first.new second.old second.new }
    ensures once_synced { OnOk result ((one two : List ℕ)
        → A.seen first.old ≡ Some one → B.seen second.old ≡ Some two → BothKept
        (disk_model A.seen A.calls A.may_leave A.faults)
        (disk_model B.seen B.calls B.may_leave B.faults)
        election.now one two first.old first.new second.old second.new) }
    ensures first_called { OnOk result
        (A.calls first.new < last_count → A.calls first.old < A.calls first.new) }
    ensures second_called { OnOk result
        (B.calls second.new < last_count → B.calls second.old < B.calls second.new) }
    ensures first_fault { CountsFaultIf (IsErrOf result PairFault.FirstFault)
        (A.faults first.old) (A.faults first.new) }
    ensures second_fault { CountsFaultIf (IsErrOf result PairFault.SecondFault)
        (B.faults second.old) (B.faults second.new) }
    ensures first_leads { A.leads_to first.old first.new }
    ensures second_leads { B.leads_to second.old second.new }
{
    let one = match find(alloc, first, election) {
        Ok(found) => found,
        Err(why) => return Err(why.of_first()),
    };
    let two = match find(alloc, second, election) {
        Ok(found) => found,
        Err(why) => return Err(why.of_second()),
    };
    match (one, two) {
        (Some(one), Some(two)) => {
            let paired = compare(&one, &two);
            let (one_held, two_held) = (Some(&one), Some(&two));
            make_both(
                first, second, election, one_held, two_held, &one.store, scratch,
            )?;
            Ok((one.store, paired))
        }
        (Some(one), None) => {
            make_both(
                first,
                second,
                election,
                Some(&one),
                None,
                &one.store,
                scratch,
            )?;
            Ok((one.store, Paired::SecondRestored))
        }
        (None, Some(two)) => {
            make_both(
                first,
                second,
                election,
                None,
                Some(&two),
                &two.store,
                scratch,
            )?;
            Ok((two.store, Paired::FirstRestored))
        }
        (None, None) => Err(PairFault::BothLost),
    }
}
