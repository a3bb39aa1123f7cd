//! A store in so many parts, as a session needs it.

ghost use Rattle.std.specs.Prelude.{◌≡◌};
ghost use Rattle.partition_store.specs.Parted.{joined};
ghost use Rattle.store_spec.specs.Parts.{of_parts};

use crate::count::PartCount;
use crate::reports::{export_parts, tally_parts};
use any_store::Store;
use ballot_record::Election;
use outside_io::Sink;
use partition_store::PartStore;
use std::alloc::Global;
use std::marker::PhantomData;
use std::thread::Threads;
use tally_export::{PutFault, write_tally_of};

/// A store in parts, as many as a type says.
#[derive(Drop)]
pub struct PartsOf<P: PartCount> {
    store: PartStore,
    count: PhantomData<P>,
    ghost bits: { store.bits ≡ P.bits },
}

impl<P: PartCount> PartsOf<P> {
    /// This store.
    pub fn new(store: PartStore) -> PartsOf<P>
        requires bits { store.bits ≡ P.bits }
        ensures { result.store ≡ store }
    {
        PartsOf {
            store,
            count: PhantomData,
        }
    }

    /// The store in parts that it is.
    pub fn store(&self) -> &PartStore
        ensures store { result.now ≡ self.now.store }
        ensures bits { result.now.bits ≡ P.bits }
    {
        &self.store
    }

    /// The store in parts that it was.
    pub fn into_store(self) -> PartStore
        ensures store { result ≡ self.store }
        ensures bits { result.bits ≡ P.bits }
    {
        self.store
    }
}

impl<P: PartCount> Store for PartsOf<P> {
    ghost use Rattle.std.proofs.Common.{ap};

    ghost election = { λ parts. parts.store.election };

    ghost ballots = { λ parts. joined parts.store.sets };

    ghost closes = { of_parts P.bits };

    fn election(&self) -> &Election {
        self.store.election()
    }

    fn len(&self) -> usize {
        self.store.len()
    }

    /// The counts are some thousands of bytes, for which lines make no room.
    #[inline(never)]
    fn tally<R: Threads + Sync, K: Sink>(
        &self,
        rt: &R,
        alloc: Global,
        out: &mut K,
    ) -> Result<(), PutFault> {
        let held = self.store.len();
        let counts = tally_parts(rt, &self.store);
        write_tally_of(alloc, &counts, held, self.store.election(), out)
    }

    fn export<K: Sink>(&self, alloc: Global, out: &mut K) -> Result<(), PutFault> {
        export_parts(alloc, &self.store, out)
    }

    ghost closes_acknowledge_nothing = { λ e. record {
      casting = λ set lists effect does. ap (λ x. x.acknowledged) does.is;
      withdrawing = λ set lists effect does. ap (λ x. x.acknowledged) does.is;
    } };
}
