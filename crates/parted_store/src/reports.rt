//! The reports on a store in parts: its parts are counted and written one after another.

ghost use Rattle.std.specs.Prelude.{◌≡◌, ◌<◌, ◌^◌, OnErr, OnOk, length};
ghost use Rattle.outside_io.specs.Stream.{TakesAll, TakesSome};
ghost use Rattle.partition_store.specs.Parted.{joined};
ghost use Rattle.store_spec.specs.Fault.{CountsFaultIf};
ghost use Rattle.store_spec.specs.Report.{export_text};
ghost use Rattle.tally_export.specs.Counted.{IsTallyOf};
ghost use Rattle.tally_export.specs.Exported.{records_text};

use outside_io::Sink;
use partition_store::PartStore;
use std::alloc::Global;
use std::thread::Threads;
use tally_export::{PutFault, Tally, add_tally, tally_threads, write_count, write_records};

/// In how many pieces the ballots of a part are counted at once.
const PIECES: usize = 4;

/// The tally of the ballots of all parts.
#[inline(never)]
pub fn tally_parts<R: Threads + Sync>(rt: &R, store: &PartStore) -> Tally
    requires few { length (joined store.now.sets) < 2 ^ 32 }
    ensures { IsTallyOf store.now.election (joined store.now.sets) result }
{
    let mut all = Tally::of_none();
    'parts: for index in 0..store.parts() {
        let part = store.part(index);
        let counts = tally_threads(rt, part, PIECES);
        all = add_tally(&all, &counts);
    }
    all
}

/// Writes the line of each ballot, part after part: their numbers ascend.
fn write_parts<K: Sink>(alloc: Global, store: &PartStore, out: &mut K) -> Result<(), PutFault>
    ensures all { OnOk result (TakesAll (K.taken out.old)
        (records_text store.now.election (joined store.now.sets)) (K.taken out.new)) }
    ensures some { OnErr result (TakesSome (K.taken out.old)
        (records_text store.now.election (joined store.now.sets)) (K.taken out.new)) }
    ensures fault { CountsFaultIf (result ≡ Err PutFault.WriteFault)
        (K.faults out.old) (K.faults out.new) }
{
    'parts: for place in 0..store.parts() {
        let part = store.part(place);
        write_records(alloc, part, out)?;
    }
    Ok(())
}

/// Writes how many ballots all parts hold, and then the line of each.
pub fn export_parts<K: Sink>(alloc: Global, store: &PartStore, out: &mut K) -> Result<(), PutFault>
    ensures all { OnOk result (TakesAll (K.taken out.old)
        (export_text store.now.election (joined store.now.sets)) (K.taken out.new)) }
    ensures some { OnErr result (TakesSome (K.taken out.old)
        (export_text store.now.election (joined store.now.sets)) (K.taken out.new)) }
    ensures fault { CountsFaultIf (result ≡ Err PutFault.WriteFault)
        (K.faults out.old) (K.faults out.new) }
{
    write_count(alloc, store.len(), out)?;
    write_parts(alloc, store, out)
}
