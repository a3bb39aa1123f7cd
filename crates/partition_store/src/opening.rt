//! A store in parts is opened from its media.

ghost use Rattle.std.specs.Prelude.{◌≡◌, ◌<◌, ◌≤◌, IfErr, IfOk, OnOk, is_some, length};
ghost use Rattle.std.specs.List.{AllZip};
ghost use Rattle.partition_store.specs.Opening.{HoldsThroughout, IsAgainst, IsOpened, LeavesOf, LooksThenRecovers, WritesBehindLooks};
ghost use Rattle.partition_store.specs.Parted.{AreFurther, bits_of};
ghost use Rattle.store_spec.specs.Disk.{disk_model};
ghost use Rattle.store_spec.specs.Fault.{last_count};

use crate::fault::PartFault;
use crate::looking::look_all;
use crate::recovering::recover_all;
use crate::store::PartStore;
use ballot_record::Election;
use crash_disk::Disk;
use image_builder::Scratch;
use std::alloc::Global;

/// How many top bits of a number tell its part, where there are so many further media.
fn bits_for(more: usize) -> u8
    ensures { result ≡ bits_of more }
{
    match more {
        1 => 1,
        3 => 2,
        _ => 3,
    }
}

impl PartStore {
    /// Opens the store whose part 0 is on `disk`, and part i on the i-th of `more`, 1, 3 or 7 further ones. It looks at
    /// all media in order, and sees that no number stands in another part than its own; then it recovers all in order.
    /// Nothing is written before, so that media which are refused stay as they are. A medium that gives other bytes to
    /// the recovery than to the look, as a file may that somebody else changes meanwhile, is answered by `Memory`.
    pub fn open<A: Disk, B: Disk>(
        alloc: Global,
        disk: &mut A,
        more: &mut [B],
        election: &Election,
        scratch: &mut Scratch,
    ) -> Result<PartStore, PartFault>
        requires { AreFurther (length more.old) }
        ensures opened { IfOk result (IsOpened (disk_model A.seen A.calls A.may_leave A.faults)
            (disk_model B.seen B.calls B.may_leave B.faults)
            election.now disk.old disk.new more.old more.new) }
        ensures bits { IfOk result (λ store. store.bits ≡ bits_of (length more.old)) }
        ensures refused { IfErr result (IsAgainst (disk_model A.seen A.calls A.may_leave A.faults)
            (disk_model B.seen B.calls B.may_leave B.faults)
            election.now disk.old disk.new more.old more.new) }
        ensures left { IfErr result (LeavesOf (disk_model A.seen A.calls A.may_leave A.faults)
            (disk_model B.seen B.calls B.may_leave B.faults)
            election.now disk.old disk.new more.old more.new) }
        ensures unwritten { IfErr result
            (WritesBehindLooks (disk_model A.seen A.calls A.may_leave A.faults)
            (disk_model B.seen B.calls B.may_leave B.faults)
            election.now disk.old disk.new more.old more.new) }
        ensures looked { LooksThenRecovers (disk_model A.seen A.calls A.may_leave A.faults)
            (disk_model B.seen B.calls B.may_leave B.faults)
            election.now result disk.old disk.new more.old more.new }
        ensures any_moment { HoldsThroughout
            (disk_model A.seen A.calls A.may_leave A.faults) election.now disk.old disk.new }
        ensures others_at_any_moment { AllZip (HoldsThroughout
            (disk_model B.seen B.calls B.may_leave B.faults) election.now) more.old more.new }
        ensures told { is_some (A.seen disk.new) ≡ is_some (A.seen disk.old) }
        ensures others_told { AllZip
            (λ old new. is_some (B.seen new) ≡ is_some (B.seen old)) more.old more.new }
        ensures later { A.calls disk.old ≤ A.calls disk.new }
        ensures others_later { AllZip (λ old new. B.calls old ≤ B.calls new) more.old more.new }
        ensures called { OnOk result
            (A.calls disk.new < last_count → A.calls disk.old < A.calls disk.new) }
        ensures others_called { OnOk result (AllZip
            (λ old new. B.calls new < last_count → B.calls old < B.calls new) more.old more.new) }
        ensures leads { A.leads_to disk.old disk.new }
        ensures others_lead { AllZip B.leads_to more.old more.new }
    {
        let bits = bits_for(more.len());
        look_all(alloc, disk, more, election, bits)?;
        recover_all(alloc, disk, more, election, bits, scratch)
    }
}
