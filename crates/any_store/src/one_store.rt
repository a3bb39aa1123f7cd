//! One closed store, and its disk.

ghost use Rattle.std.specs.Prelude.{◌≡◌};

use crate::store::{Disks, Store};
use ballot_record::Election;
use body_store::Closed;
use checkpoint::checkpoint;
use crash_disk::Disk;
use image_builder::Scratch;
use outside_io::{Failed, Sink};
use std::alloc::Global;
use std::thread::Threads;
use tally_export::{PutFault, export, tally_threads, write_tally};

/// In how many parts the ballots of a set are counted at once.
const PARTS: usize = 4;

impl Store for Closed {
    ghost use Rattle.store_spec.specs.Session.{of_one_store};
    ghost use Rattle.std.proofs.Common.{ap};

    ghost election = { λ closed. closed.election };

    ghost ballots = { λ closed. closed.ballots };

    ghost closes = { of_one_store };

    fn election(&self) -> &Election {
        Closed::election(self)
    }

    fn len(&self) -> usize {
        Closed::len(self)
    }

    /// The counts are some thousands of bytes, for which lines make no room.
    #[inline(never)]
    fn tally<R: Threads + Sync, K: Sink>(
        &self,
        rt: &R,
        alloc: Global,
        out: &mut K,
    ) -> Result<(), PutFault> {
        let counts = tally_threads(rt, self, PARTS);
        write_tally(alloc, &counts, self, out)
    }

    fn export<K: Sink>(&self, alloc: Global, out: &mut K) -> Result<(), PutFault> {
        export(alloc, self, out)
    }

    ghost closes_acknowledge_nothing = { λ e. record {
      casting = λ set lists effect does. ap (λ x. x.acknowledged) does.is;
      withdrawing = λ set lists effect does. ap (λ x. x.acknowledged) does.is;
    } };
}

impl<D: Disk> Disks<Closed> for D {
    ghost use Rattle.any_store.specs.Disks.StoreDisks.{Alone};
    ghost use Rattle.store_spec.specs.Disk.{disk_model};

    ghost disks = { Alone (disk_model D.seen D.calls D.may_leave D.faults) };

    ghost leads_to = { D.leads_to };

    ghost fails_to = { D.fails_to };

    ghost leads_to_itself = { D.leads_to_itself };

    ghost leads_on = { D.leads_on };

    ghost fails_on = { D.fails_on };

    fn acknowledge(&mut self, store: &Closed, scratch: &mut Scratch) -> Result<(), Failed> {
        checkpoint(self, store, scratch)
    }

    fn made(&self) -> u64 {
        self.calls()
    }

    fn width(&self, begun: Option<(u64, u64)>) -> usize {
        match begun {
            Some(_) => 1,
            None => 0,
        }
    }

    /// Both disks of a pair saw as many calls since they were paired.
    fn beside(&self, begun: Option<(u64, u64)>, mark: u64, row: &mut Vec<u64>) {
        if let Some((first, second)) = begun {
            row.push_reserved(mark.saturating_sub(first).saturating_add(second));
        }
    }
}
