//! Media are merged: the target becomes the medium of the union of all.

ghost use Rattle.std.specs.Prelude.{◌≡◌, ◌≢◌, ◌⊎◌, ◌+◌, ◌*◌, ◌^◌, ◌<◌, ◌≤◌, ◌∷◌, [], ℕ, List, None, IfErr, IfOk, OnOk, Some, is_some, length};
ghost use Rattle.std.specs.List.{AllZip};
ghost use Rattle.merge_media.specs.Merging.{HoldsOldOrUnion, IsRecovered, MergeRefuses, Merges, MergesThroughout, RefusesBegin, RefusesFurther, RefusesMedium, RefusesUnion, further_fault};
ghost use Rattle.merge_media.specs.Union.{IsUnion, Joins};
ghost use Rattle.merge_media.specs.declared.fault.MergeFault.TheVariants as faults;
ghost use Rattle.recovery.specs.Media.{EachHolds, HoldsIfTold, NoneRose};
ghost use Rattle.recovery.specs.ReadsOnly.{WritesNothing};
ghost use Rattle.recovery.specs.Refused.{HoldsSetOf};
ghost use Rattle.store_spec.specs.Ballot.{Ballot};
ghost use Rattle.store_spec.specs.Disk.{disk_model, leaves_now, LeavesOnly, LeavesOnlyOnceSynced, SyncsFirst};
ghost use Rattle.store_spec.specs.Election.{most_ballots};
ghost use Rattle.store_spec.specs.Fault.{last_count};
ghost use Rattle.store_spec.specs.Medium.{HoldsSet, HoldsTheSame};

use crate::fault::MergeFault;
use crate::union::Union;
use ballot_record::Election;
use body_store::Closed;
use checkpoint::checkpoint;
use crash_disk::Disk;
use image_builder::Scratch;
use outside_io::Memory;
use recovery::{MediumWhy, RecoverFault, look, recover};
use std::alloc::Global;

/// Why a further medium is not joined.
fn fault_at(index: u32, why: RecoverFault) -> MergeFault
    ensures { result ≡ further_fault index why }
{
    let why = match why {
        RecoverFault::NoStore => MediumWhy::NoStore,
        RecoverFault::OtherElection { header } => MediumWhy::OtherElection { header },
        RecoverFault::Damaged { cell } => MediumWhy::Damaged { cell },
        RecoverFault::DiskFault => return MergeFault::OtherFault { index },
        RecoverFault::Memory => return MergeFault::Memory,
    };
    MergeFault::Other { index, why }
}

/// Looks at a further medium, and joins its store.
fn join<B: Disk>(
    alloc: Global,
    disk: &mut B,
    election: &Election,
    index: u32,
    union: &mut Union,
) -> Result<(), MergeFault>
    requires election { union.old.election ≡ election.now }
    requires few { length union.old.ballots + most_ballots < 2 ^ 32 }
    ensures joined { OnOk result ((set : List Ballot)
        × HoldsIfTold (disk_model B.seen B.calls B.may_leave B.faults) election.now disk.old set
        × ((sets : List (List Ballot)) → Joins sets union.old → Joins (set ∷ sets) union.new)) }
    ensures refused { IfErr result (RefusesMedium
        (disk_model B.seen B.calls B.may_leave B.faults) election.now index disk.old disk.new) }
    ensures steady { OnOk result (B.faults disk.new ≡ B.faults disk.old) }
    ensures reads { WritesNothing B.seen B.calls B.may_leave disk.old disk.new }
    ensures count { length union.new.ballots ≤ length union.old.ballots + most_ballots }
    ensures election { union.new.election ≡ union.old.election }
    ensures leads { B.leads_to disk.old disk.new }
{
    let store = match look(alloc, disk, election) {
        Ok(store) => store,
        Err(why) => return Err(fault_at(index, why)),
    };
    union.add(alloc, &store)?;
    Ok(())
}

/// Looks at all further media in order, and joins their stores.
fn join_each<B: Disk>(
    alloc: Global,
    more: &mut [B],
    election: &Election,
    union: &mut Union,
) -> Result<(), MergeFault>
    requires election { union.old.election ≡ election.now }
    requires few { length more.old ≤ 8 }
    requires one { length union.old.ballots ≤ most_ballots }
    ensures joined { OnOk result ((sets : List (List Ballot))
        × EachHolds (disk_model B.seen B.calls B.may_leave B.faults) election.now more.old sets
        × ((set : List Ballot) → Joins (set ∷ []) union.old → Joins (set ∷ sets) union.new)) }
    ensures refused { IfErr result (RefusesFurther
        (disk_model B.seen B.calls B.may_leave B.faults) election.now more.old more.new) }
    ensures steady { OnOk result (NoneRose
        (disk_model B.seen B.calls B.may_leave B.faults) more.old more.new) }
    ensures reads { AllZip (WritesNothing B.seen B.calls B.may_leave) more.old more.new }
    ensures election { union.new.election ≡ union.old.election }
    ensures leads { AllZip B.leads_to more.old more.new }
{
    for place in 0..more.len() {
        join(alloc, &mut more[place], election, place as u32 + 1, union)?;
    }
    Ok(())
}

/// Recovers the target, and begins the union with its store.
fn begin<A: Disk>(
    alloc: Global,
    disk: &mut A,
    election: &Election,
    scratch: &mut Scratch,
) -> Result<Union, MergeFault>
    ensures begun { IfOk result (λ union. (set : List Ballot)
        × IsRecovered (disk_model A.seen A.calls A.may_leave A.faults) election.now set disk.old disk.new
        × Joins (set ∷ []) union) }
    ensures few { IfOk result (λ union. length union.ballots ≤ most_ballots) }
    ensures election { IfOk result (λ union. union.election ≡ election.now) }
    ensures refused { IfErr result (RefusesBegin
        (disk_model A.seen A.calls A.may_leave A.faults) election.now disk.old disk.new) }
    ensures told { is_some (A.seen disk.new) ≡ is_some (A.seen disk.old) }
    ensures called { A.calls disk.new < last_count → A.calls disk.old < A.calls disk.new }
    ensures never_falls { A.faults disk.old ≤ A.faults disk.new }
    ensures any_moment { (bytes : List ℕ) → A.seen disk.old ≡ Some bytes
        → SyncsFirst A.calls A.may_leave disk.old disk.new (HoldsTheSame election.now bytes) }
    ensures once_synced { OnOk result ((bytes : List ℕ) → A.seen disk.old ≡ Some bytes
        → LeavesOnlyOnceSynced A.calls A.may_leave disk.old disk.new
        (HoldsTheSame election.now bytes)) }
    ensures throughout { (bytes : List ℕ) → A.seen disk.old ≡ Some bytes
        → LeavesOnly A.calls A.may_leave disk.old disk.new
        (λ image. leaves_now A.calls A.may_leave disk.old image ⊎ HoldsSetOf election.now bytes image) }
    ensures leads { A.leads_to disk.old disk.new }
{
    let store = match recover(alloc, disk, election, scratch) {
        Ok(store) => store,
        Err(RecoverFault::Memory) => return Err(MergeFault::Memory),
        Err(why) => return Err(MergeFault::Target { why }),
    };
    let mut union = Union::new(alloc, election);
    union.add(alloc, &store)?;
    Ok(union)
}

/// The store of a union in which no number is in dispute, where the election's store may hold as many ballots.
fn store_of(alloc: Global, union: &Union, election: &Election) -> Result<Closed, MergeFault>
    requires election { union.now.election ≡ election.now }
    requires agree { union.now.dispute ≡ None }
    ensures union { IfOk result (λ store. (sets : List (List Ballot)) → Joins sets union.now
        → IsUnion sets store.ballots) }
    ensures same { IfOk result (λ store. store.ballots ≡ union.now.ballots) }
    ensures election { IfOk result (λ store. store.election ≡ election.now) }
    ensures refused { IfErr result (λ fault. (sets : List (List Ballot)) → Joins sets union.now
        → RefusesUnion election.now sets fault) }
{
    let count = union.len();
    if count > election.limit() {
        return Err(MergeFault::TooMany { count });
    }
    Ok(union.closed(alloc, election)?)
}

/// The same of any union.
fn finish(alloc: Global, union: &Union, election: &Election) -> Result<Closed, MergeFault>
    requires { union.now.election ≡ election.now }
    ensures union { IfOk result (λ store. (sets : List (List Ballot)) → Joins sets union.now
        → IsUnion sets store.ballots) }
    ensures same { IfOk result (λ store. store.ballots ≡ union.now.ballots) }
    ensures election { IfOk result (λ store. store.election ≡ election.now) }
    ensures refused { IfErr result (λ fault. (sets : List (List Ballot)) → Joins sets union.now
        → RefusesUnion election.now sets fault) }
{
    match union.dispute() {
        Some(number) => Err(MergeFault::Dispute { number }),
        None => store_of(alloc, union, election),
    }
}

/// Makes the target the medium of the union of its own set and those of further media, one to eight. It recovers the
/// target, looks at the others in order, and then checkpoints the union; it answers how many ballots that has. The
/// others are neither written nor synced. After a refusal of another medium, a dispute or too many ballots the target is
/// the medium of its old set.
pub fn merge<A: Disk, B: Disk>(
    alloc: Global,
    disk: &mut A,
    more: &mut [B],
    election: &Election,
    scratch: &mut Scratch,
) -> Result<u32, MergeFault>
    requires { length more.old ≤ 8 }
    ensures merged { IfOk result (Merges (disk_model A.seen A.calls A.may_leave A.faults)
        (disk_model B.seen B.calls B.may_leave B.faults) election.now disk.old disk.new more.old more.new) }
    ensures refused { IfErr result (MergeRefuses (disk_model A.seen A.calls A.may_leave A.faults)
        (disk_model B.seen B.calls B.may_leave B.faults) election.now disk.old disk.new more.old more.new) }
    ensures any_moment { (bytes : List ℕ) (set : List Ballot) → A.seen disk.old ≡ Some bytes
        → HoldsSet election.now bytes set
        → SyncsFirst A.calls A.may_leave disk.old disk.new (HoldsOldOrUnion
        (disk_model B.seen B.calls B.may_leave B.faults) election.now set more.old) }
    ensures throughout { MergesThroughout (disk_model A.seen A.calls A.may_leave A.faults)
        (disk_model B.seen B.calls B.may_leave B.faults) election.now disk.old disk.new more.old }
    ensures reads { AllZip (WritesNothing B.seen B.calls B.may_leave) more.old more.new }
    ensures told { is_some (A.seen disk.new) ≡ is_some (A.seen disk.old) }
    ensures leads { A.leads_to disk.old disk.new }
    ensures others_lead { AllZip B.leads_to more.old more.new }
{
    let mut union = begin(alloc, disk, election, scratch)?;
    join_each(alloc, more, election, &mut union)?;
    let store = finish(alloc, &union, election)?;
    match checkpoint(disk, &store, scratch) {
        Ok(()) => Ok(union.len()),
        Err(_) => Err(MergeFault::DiskFault),
    }
}
