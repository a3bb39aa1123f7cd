//! The media of all parts are recovered, once all were looked at.

ghost use Rattle.std.specs.Prelude.{◌≡◌, ◌++◌, ◌+◌, ◌^◌, ◌<◌, ◌≤◌, ◌∷◌, [], EachIndex, IfErr, IfOk, List, OnOk, get_or, length};
ghost use Rattle.std.specs.List.{AllZip};
ghost use Rattle.body_store.specs.Contents.{IsStored};
ghost use Rattle.partition_store.specs.Opening.{IsOpened, Recovers};
ghost use Rattle.partition_store.specs.Parted.{AreBits, AreFurther, BelongsTo, bits_of};
ghost use Rattle.partition_store.specs.PartedKept.{AreStores, sets_of};
ghost use Rattle.partition_store.specs.Recovering.{AreRecoveredAs, IsRecoveredAs, RefusesAll, RefusesRecoveries, RefusesRecovery};
ghost use Rattle.store_spec.specs.Ballot.{Ballot};
ghost use Rattle.store_spec.specs.Disk.{disk_model};
ghost use Rattle.store_spec.specs.Fault.{last_count};

use crate::fault::{PartFault, recovery_fault};
use crate::looking::least_foreign;
use crate::store::PartStore;
use ballot_record::Election;
use body_store::Closed;
use crash_disk::Disk;
use image_builder::Scratch;
use outside_io::Memory;
use recovery::recover;
use std::alloc::Global;

/// Recovers the medium of a part. Where it gives another store than a look could have, that is lack of memory.
fn recover_part<D: Disk>(
    alloc: Global,
    disk: &mut D,
    election: &Election,
    bits: u8,
    index: u32,
    scratch: &mut Scratch,
) -> Result<Closed, PartFault>
    requires { AreBits bits }
    ensures recovered { IfOk result (λ store. IsRecoveredAs
        (disk_model D.seen D.calls D.may_leave D.faults) election.now disk.old disk.new store.ballots) }
    ensures own { IfOk result (λ store. BelongsTo bits index store.ballots) }
    ensures store { IfOk result (λ store. (store.election ≡ election.now) × IsStored store) }
    ensures refused { IfErr result (RefusesRecovery
        (disk_model D.seen D.calls D.may_leave D.faults) election.now index disk.old disk.new) }
    ensures run { Recovers
        (disk_model D.seen D.calls D.may_leave D.faults) election.now disk.old disk.new }
    ensures called { OnOk result
        (D.calls disk.new < last_count → D.calls disk.old < D.calls disk.new) }
    ensures leads { D.leads_to disk.old disk.new }
{
    let store = match recover(alloc, disk, election, scratch) {
        Ok(store) => store,
        Err(why) => return Err(recovery_fault(index, why)),
    };
    if least_foreign(store.cells(), bits, index as usize).is_some() {
        return Err(PartFault::Memory);
    }
    Ok(store)
}

/// The store of a part joins those of the parts before it.
fn join(parts: &mut Vec<Closed>, store: Closed) -> Result<(), Memory>
    ensures { OnOk result (parts.new.items ≡ parts.old.items ++ store ∷ []) }
{
    parts.push(store)?;
    Ok(())
}

/// Recovers the further media in order; their stores join that of the first.
fn recover_further<B: Disk>(
    alloc: Global,
    more: &mut [B],
    election: &Election,
    bits: u8,
    scratch: &mut Scratch,
    parts: &mut Vec<Closed>,
) -> Result<(), PartFault>
    requires bits { AreBits bits }
    requires few { length more.old ≤ 7 }
    requires one { length parts.old.items ≡ 1 }
    requires own { BelongsTo bits 0 (get_or (sets_of parts.old.items) 0 []) }
    requires stores { AreStores election.now parts.old.items }
    ensures recovered { OnOk result ((sets : List (List Ballot)) × AreRecoveredAs
        (disk_model B.seen B.calls B.may_leave B.faults) election.now more.old more.new sets
        × (sets_of parts.new.items ≡ sets_of parts.old.items ++ sets)) }
    ensures own { OnOk result (EachIndex parts.new.items
        (λ part. BelongsTo bits part (get_or (sets_of parts.new.items) part []))) }
    ensures stores { OnOk result (AreStores election.now parts.new.items) }
    ensures refused { IfErr result (RefusesRecoveries
        (disk_model B.seen B.calls B.may_leave B.faults) election.now more.old more.new) }
    ensures run { AllZip (Recovers (disk_model B.seen B.calls B.may_leave B.faults) election.now)
        more.old more.new }
    ensures called { OnOk result (AllZip
        (λ old new. B.calls new < last_count → B.calls old < B.calls new) more.old more.new) }
    ensures leads { AllZip B.leads_to more.old more.new }
{
    for place in 0..more.len() {
        let index = place as u32 + 1;
        let store = recover_part(alloc, &mut more[place], election, bits, index, scratch)?;
        join(parts, store)?;
    }
    Ok(())
}

/// Recovers the media of all parts in order.
pub(crate) fn recover_all<A: Disk, B: Disk>(
    alloc: Global,
    disk: &mut A,
    more: &mut [B],
    election: &Election,
    bits: u8,
    scratch: &mut Scratch,
) -> Result<PartStore, PartFault>
    requires further { AreFurther (length more.old) }
    requires bits { bits ≡ bits_of (length more.old) }
    ensures opened { IfOk result (IsOpened (disk_model A.seen A.calls A.may_leave A.faults)
        (disk_model B.seen B.calls B.may_leave B.faults)
        election.now disk.old disk.new more.old more.new) }
    ensures bits { IfOk result (λ store. store.bits ≡ bits) }
    ensures refused { IfErr result (RefusesAll (disk_model A.seen A.calls A.may_leave A.faults)
        (disk_model B.seen B.calls B.may_leave B.faults)
        election.now disk.old disk.new more.old more.new) }
    ensures run { Recovers
        (disk_model A.seen A.calls A.may_leave A.faults) election.now disk.old disk.new }
    ensures others_run { AllZip
        (Recovers (disk_model B.seen B.calls B.may_leave B.faults) election.now) more.old more.new }
    ensures called { OnOk result
        (A.calls disk.new < last_count → A.calls disk.old < A.calls disk.new) }
    ensures others_called { OnOk result (AllZip
        (λ old new. B.calls new < last_count → B.calls old < B.calls new) more.old more.new) }
    ensures leads { A.leads_to disk.old disk.new }
    ensures others_lead { AllZip B.leads_to more.old more.new }
{
    let mut parts = Vec::new(alloc);
    let first = recover_part(alloc, disk, election, bits, 0, scratch)?;
    join(&mut parts, first)?;
    recover_further(alloc, more, election, bits, scratch, &mut parts)?;
    Ok(PartStore::of_parts(bits, parts))
}
