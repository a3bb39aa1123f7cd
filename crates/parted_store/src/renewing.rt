//! The checkpoint of a store in parts: the media of its parts are renewed one after another.

ghost use Rattle.std.specs.Prelude.{◌≡◌, ℕ, ◌+◌, ◌^◌, ◌<◌, IfErr, List, OnErr, OnOk, get_or, length, slice_get};
ghost use Rattle.std.specs.List.{AllZip};
ghost use Rattle.any_store.specs.Checkpointed.{AreCheckpointed, AreMedia, Checkpointed, FailedAt, FailedOn, IsMediumNow};
ghost use Rattle.parted_store.specs.Slots.{models_of, parted_disks, slot_model};
ghost use Rattle.parted_store.specs.Stops.{AreRenewed, StopsAtPart};
ghost use Rattle.partition_store.specs.Parted.{joined};
ghost use Rattle.store_spec.specs.Ballot.{Ballot};
ghost use Rattle.store_spec.specs.Disk.{disk_model};
ghost use Rattle.store_spec.specs.Parts.{share};

use body_store::Closed;
use checkpoint::checkpoint;
use crash_disk::Disk;
use image_builder::Scratch;
use outside_io::Failed;
use partition_store::PartStore;

/// Renews the medium of one part.
fn renew_part<D: Disk>(disk: &mut D, part: &Closed, scratch: &mut Scratch) -> Result<(), Failed>
    requires { (set : List Ballot) × IsMediumNow
        (disk_model D.seen D.calls D.may_leave D.faults) part.now.election set disk.old }
    ensures done { OnOk result (Checkpointed (disk_model D.seen D.calls D.may_leave D.faults)
        part.now.election part.now.ballots disk.old disk.new) }
    ensures failed { OnErr result (FailedOn (disk_model D.seen D.calls D.may_leave D.faults)
        part.now.election part.now.ballots disk.old disk.new) }
    ensures leads { D.leads_to disk.old disk.new }
{
    checkpoint(disk, part, scratch)
}

/// Renews the media of the parts from 1 on, in order, up to the first that fails, and gives that part.
fn renew_further<B: Disk>(
    more: &mut [B],
    store: &PartStore,
    scratch: &mut Scratch,
) -> Result<(), usize>
    requires many { length more.old + 1 ≡ 2 ^ store.now.bits }
    requires media { (i : ℕ) → i < length more.old → (set : List Ballot) × IsMediumNow
        (slot_model (disk_model B.seen B.calls B.may_leave B.faults))
        store.now.election set (slice_get more.old i) }
    ensures done { OnOk result (AreRenewed (disk_model B.seen B.calls B.may_leave B.faults)
        store.now.election store.now.sets (length more.old) more.old more.new) }
    ensures failed { IfErr result (λ part. (i : ℕ) × (part ≡ i + 1) × StopsAtPart
        (disk_model B.seen B.calls B.may_leave B.faults)
        store.now.election store.now.sets more.old more.new i) }
    ensures leads { AllZip B.leads_to more.old more.new }
{
    'disks: for place in 0..more.len() {
        let part = store.part(place + 1);
        let renewed = renew_part(&mut more[place], part, scratch);
        if renewed.is_err() {
            return Err(place + 1);
        }
    }
    Ok(())
}

/// Renews the media of all parts in order, up to the first that fails, and gives that part.
pub fn renew_parts<A: Disk, B: Disk>(
    first: &mut A,
    more: &mut [B],
    store: &PartStore,
    scratch: &mut Scratch,
) -> Result<(), usize>
    requires many { length more.old + 1 ≡ 2 ^ store.now.bits }
    requires media { (set : List Ballot) × AreMedia
        (parted_disks (disk_model A.seen A.calls A.may_leave A.faults)
        (disk_model B.seen B.calls B.may_leave B.faults) store.now.bits (length more.old))
        store.now.election set (first.old, more.old) }
    ensures done { OnOk result (AreCheckpointed
        (parted_disks (disk_model A.seen A.calls A.may_leave A.faults)
        (disk_model B.seen B.calls B.may_leave B.faults) store.now.bits (length more.old))
        store.now.election (joined store.now.sets) (first.old, more.old) (first.new, more.new)) }
    ensures failed { IfErr result (FailedAt (length more.old)
        (models_of (disk_model A.seen A.calls A.may_leave A.faults)
        (disk_model B.seen B.calls B.may_leave B.faults)) (share store.now.bits)
        store.now.election (joined store.now.sets) (first.old, more.old) (first.new, more.new)) }
    ensures leads { A.leads_to first.old first.new }
    ensures others_lead { AllZip B.leads_to more.old more.new }
{
    let part = store.part(0);
    let renewed = renew_part(first, part, scratch);
    if renewed.is_err() {
        return Err(0);
    }
    renew_further(more, store, scratch)
}
