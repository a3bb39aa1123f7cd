//! An old medium is read, and a new one is filled.

ghost use Rattle.std.specs.Prelude.{◌≡◌, ◌≤◌, ◌⊎◌, ℕ, List, IfErr, IfOk, IsErrOf, IfSome, Some, is_some};
ghost use Rattle.migrate_medium.specs.Migrating.{IsSpared, IsKeptOrMigrated, Migrates, MigrateRefuses, OldRefuses};
ghost use Rattle.migrate_medium.specs.declared.fault.MigrateFault.TheVariants as faults;
ghost use Rattle.recovery.specs.ReadsOnly.{WritesNothing};
ghost use Rattle.recovery.specs.declared.fault.RecoverFault.TheVariants as recover;
ghost use Rattle.crash_disk.specs.MadeCalls.{MakesCalls};
ghost use Rattle.store_spec.specs.Disk.{disk_model, SyncsFirst};
ghost use Rattle.store_spec.specs.Fault.{CountsFaultIf};
ghost use Rattle.store_spec.specs.Medium.{HoldsSet};

use crate::carrying::carried;
use crate::fault::MigrateFault;
use ballot_record::Election;
use body_store::Closed;
use checkpoint::fill;
use crash_disk::Disk;
use recovery::{RecoverFault, look};
use std::alloc::Global;

/// The store of the old medium, which is neither written nor synced.
fn old_store<A: Disk>(alloc: Global, from: &mut A, form: &Election) -> Result<Closed, MigrateFault>
    ensures held { IfOk result
        (λ store. IfSome (A.seen from.old) (λ bytes. HoldsSet form.now bytes store.ballots)) }
    ensures election { IfOk result (λ store. store.election ≡ form.now) }
    ensures refused { IfErr result (OldRefuses
        (disk_model A.seen A.calls A.may_leave A.faults) form.now from.old from.new) }
    ensures reads { WritesNothing A.seen A.calls A.may_leave from.old from.new }
    ensures calls { MakesCalls A.seen A.calls A.faults A.leads_to (CountsFaultIf (IsErrOf result (MigrateFault.Old RecoverFault.DiskFault)))
        from.old from.new }
{
    match look(alloc, from, form) {
        Ok(store) => Ok(store),
        Err(RecoverFault::Memory) => Err(MigrateFault::Memory),
        Err(why) => Err(MigrateFault::Old { why }),
    }
}

/// Makes an unused target the medium of the ballots that an old medium of version 1 holds, and answers how many they
/// are. The election is of version 2; the old medium is read under its form in version 1, and before the target is
/// looked at. It is neither written nor synced, and not touched where there is no such form. Where it is refused, or memory is wanting, no call is made on the
/// target; where the target is refused, it is as it was; where its disk fails, it holds what it held, nothing, or those
/// ballots.
pub fn migrate<A: Disk, B: Disk>(
    alloc: Global,
    from: &mut A,
    to: &mut B,
    election: &Election,
) -> Result<u32, MigrateFault>
    ensures migrated { IfOk result (Migrates (disk_model A.seen A.calls A.may_leave A.faults)
        (disk_model B.seen B.calls B.may_leave B.faults) election.now from.old to.old to.new) }
    ensures refused { IfErr result (MigrateRefuses (disk_model A.seen A.calls A.may_leave A.faults)
        (disk_model B.seen B.calls B.may_leave B.faults) election.now from.old from.new to.old to.new) }
    ensures spared { IfErr result (IsSpared
        (disk_model B.seen B.calls B.may_leave B.faults) to.old to.new) }
    ensures any_moment { (bytes : List ℕ) → B.seen to.old ≡ Some bytes
        → (to.new ≡ to.old) ⊎ SyncsFirst B.calls B.may_leave to.old to.new
        (IsKeptOrMigrated (disk_model A.seen A.calls A.may_leave A.faults) election.now from.old bytes) }
    ensures reads { WritesNothing A.seen A.calls A.may_leave from.old from.new }
    ensures told { is_some (B.seen to.new) ≡ is_some (B.seen to.old) }
    ensures later { B.calls to.old ≤ B.calls to.new }
    ensures old_fault { CountsFaultIf (IsErrOf result (MigrateFault.Old RecoverFault.DiskFault))
        (A.faults from.old) (A.faults from.new) }
    ensures target_fault { CountsFaultIf (IsErrOf result MigrateFault.ToFault)
        (B.faults to.old) (B.faults to.new) }
    ensures old_leads { A.leads_to from.old from.new }
    ensures target_leads { B.leads_to to.old to.new }
{
    let Some(form) = election.as_version_one() else {
        return Err(MigrateFault::NoOldForm);
    };
    let old = old_store(alloc, from, &form)?;
    let store = carried(alloc, &old, election)?;
    fill(to, &store, election)?;
    Ok(store.len() as u32)
}
