//! The disks of a store in parts, as one thing.

ghost use Rattle.std.specs.Prelude.{◌≡◌, ◌+◌, ◌≤◌, ◌^◌, [], None, length, map, vec_capacity};

use crate::count::PartCount;
use crate::parts_of::PartsOf;
use crate::renewing::renew_parts;
use any_store::Disks;
use crash_disk::Disk;
use image_builder::Scratch;
use outside_io::Failed;
use std::marker::PhantomData;

/// The disks of a store in parts: part 0 is on the first, and part i + 1 on further one i, counted from 0.
#[derive(Drop)]
pub struct Parts<'a, P: PartCount, A: Disk, B: Disk> {
    first: &'a mut A,
    more: &'a mut [B],
    /// The part whose checkpoint failed.
    failed: Option<usize>,
    count: PhantomData<P>,
    ghost many: { length more.now + 1 ≡ 2 ^ P.bits },
}

impl<'a, P: PartCount, A: Disk, B: Disk> Parts<'a, P, A, B> {
    ghost use Rattle.std.specs.Prelude.{List};
    ghost use Rattle.any_store.specs.Checkpointed.{AreMedia};
    ghost use Rattle.parted_store.specs.Slots.{parted_disks};
    ghost use Rattle.store_spec.specs.Ballot.{Ballot};
    ghost use Rattle.store_spec.specs.Disk.{disk_model};
    ghost use Rattle.store_spec.specs.Election.{Election};

    /// These disks. Where they are the media of the shares of a set, they are so as the disks of a session.
    pub fn new(first: &'a mut A, more: &'a mut [B]) -> Parts<'a, P, A, B>
        requires { length more.old + 1 ≡ 2 ^ P.bits }
        ensures first { result.first ≡ first.entry }
        ensures more { result.more ≡ more.entry }
        ensures failed { result.failed ≡ None }
        ensures media { (e : Election) (set : List Ballot) → AreMedia
            (parted_disks (disk_model A.seen A.calls A.may_leave A.faults)
            (disk_model B.seen B.calls B.may_leave B.faults) P.bits (length more.old))
            e set (first.old, more.old)
            → AreMedia ⟦<Parts<'a, P, A, B> as Disks<PartsOf<P>>>⟧.disks e set result }
    {
        Parts {
            first,
            more,
            failed: None,
            count: PhantomData,
        }
    }

    /// The part whose checkpoint failed last.
    pub fn failed(&self) -> Option<usize>
        ensures { result ≡ self.now.failed }
    {
        self.failed
    }
}

/// Puts how many calls each disk has seen into a row that has the room.
fn put_calls<B: Disk>(more: &[B], row: &mut Vec<u64>)
    requires nothing { row.old.items ≡ [] }
    requires room { length more.now ≤ vec_capacity row.old }
    ensures { row.new.items ≡ map B.calls more.now }
{
    'disks: for disk in more {
        row.push_reserved(disk.calls());
    }
}

impl<'a, P: PartCount, A: Disk, B: Disk> Disks<PartsOf<P>> for Parts<'a, P, A, B> {
    ghost use Rattle.std.specs.Prelude.{◌-◌};
    ghost use Rattle.any_store.specs.Disks.StoreDisks.{Parted};
    ghost use Rattle.parted_store.specs.LeadLaws.{fail-on, lead-itself, lead-on};
    ghost use Rattle.parted_store.specs.Leads.{OnePartFails, PartsLead};
    ghost use Rattle.parted_store.specs.Slots.{along, models_of};
    ghost use Rattle.parted_store.specs.Views.{both_of, state_of};
    ghost use Rattle.store_spec.specs.Disk.{disk_model};
    ghost use Rattle.store_spec.specs.Parts.{share};

    ghost disks = { Parted (2 ^ P.bits - 1) (λ i. along
        (models_of (disk_model A.seen A.calls A.may_leave A.faults)
        (disk_model B.seen B.calls B.may_leave B.faults) i)
        both_of) (share P.bits) };

    ghost leads_to = { λ old new. PartsLead (2 ^ P.bits - 1)
        (models_of (disk_model A.seen A.calls A.may_leave A.faults)
        (disk_model B.seen B.calls B.may_leave B.faults))
        A.leads_to B.leads_to (state_of old) (state_of new) };

    ghost fails_to = { λ old new. OnePartFails (2 ^ P.bits - 1)
        (models_of (disk_model A.seen A.calls A.may_leave A.faults)
        (disk_model B.seen B.calls B.may_leave B.faults))
        new.failed (both_of old) (both_of new) };

    ghost leads_to_itself = { λ now. lead-itself (2 ^ P.bits - 1)
        (models_of (disk_model A.seen A.calls A.may_leave A.faults)
        (disk_model B.seen B.calls B.may_leave B.faults))
        A.leads_to B.leads_to A.leads_to_itself B.leads_to_itself (state_of now) };

    ghost leads_on = { λ old mid new one two. lead-on (2 ^ P.bits - 1)
        (models_of (disk_model A.seen A.calls A.may_leave A.faults)
        (disk_model B.seen B.calls B.may_leave B.faults))
        A.leads_to B.leads_to A.leads_on B.leads_on
        (state_of old) (state_of mid) (state_of new) one two };

    ghost fails_on = { λ old mid new lead steady fails. fail-on (2 ^ P.bits - 1)
        (models_of (disk_model A.seen A.calls A.may_leave A.faults)
        (disk_model B.seen B.calls B.may_leave B.faults))
        new.failed (both_of old) (both_of mid) (both_of new) steady fails };

    fn acknowledge(&mut self, store: &PartsOf<P>, scratch: &mut Scratch) -> Result<(), Failed> {
        match renew_parts(self.first, self.more, store.store(), scratch) {
            Ok(()) => Ok(()),
            Err(part) => {
                self.failed = Some(part);
                Err(Failed)
            }
        }
    }

    fn made(&self) -> u64 {
        self.first.calls()
    }

    fn width(&self, _begun: Option<(u64, u64)>) -> usize {
        self.more.len()
    }

    fn beside(&self, _begun: Option<(u64, u64)>, _mark: u64, row: &mut Vec<u64>) {
        put_calls(self.more, row);
    }
}
