//! Laws of a session's store in parts. Each function here states a law and does nothing.

ghost use Rattle.std.specs.Prelude.{List, length};
ghost use Rattle.any_store.specs.Checkpointed.{AreMedia};
ghost use Rattle.parted_store.specs.Slots.{parted_disks};
ghost use Rattle.partition_store.specs.Opening.{IsOpened};
ghost use Rattle.partition_store.specs.Parted.{Parted, joined};
ghost use Rattle.store_spec.specs.Disk.{disk_model};
ghost use Rattle.store_spec.specs.Election.{Election};

use crash_disk::Disk;

/// The disks of a store that was opened are the media of its set.
pub fn opened_media<A: Disk, B: Disk>()
    ensures { (e : Election) (old new : A) (more now : List B) (store : Parted)
        → IsOpened (disk_model A.seen A.calls A.may_leave A.faults)
        (disk_model B.seen B.calls B.may_leave B.faults) e old new more now store
        → AreMedia (parted_disks (disk_model A.seen A.calls A.may_leave A.faults)
        (disk_model B.seen B.calls B.may_leave B.faults) store.bits (length now))
        e (joined store.sets) (new, now) }
{}
