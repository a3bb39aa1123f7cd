//! The export of a store, and the lines of which it is made.

ghost use Rattle.std.specs.Prelude.{◌≡◌, ◌∷◌, [], ◌++◌, IfOk, OnErr, OnOk, length};
ghost use Rattle.outside_io.specs.Stream.{TakesAll, TakesSome};
ghost use Rattle.store_spec.specs.Ballot.{Ballot};
ghost use Rattle.store_spec.specs.BallotLine.{record_line};
ghost use Rattle.store_spec.specs.Election.{IsElection, cell_size};
ghost use Rattle.store_spec.specs.Fault.{CountsFaultIf};
ghost use Rattle.store_spec.specs.Image.{IsCellOf};
ghost use Rattle.store_spec.specs.Input.{line_end};
ghost use Rattle.store_spec.specs.Report.{export_text};
ghost use Rattle.tally_export.specs.Exported.{IsListed, count_text, records_text};

use crate::PutFault;
use ballot_record::{Election, put_cell_line};
use body_store::{Closed, Place};
use outside_io::{Memory, Sink};
use std::alloc::Global;

/// The lines that are gathered are written once they have more bytes than this.
const FULL: usize = 65536;

/// The first line, which counts the ballots.
fn first_line(alloc: Global, ballots: usize) -> Result<Vec<u8>, Memory>
    ensures { IfOk result
        (λ text. text.items ≡ count_text ballots) }
{
    Ok(format!(in alloc; "export {ballots}\n")?.into_bytes())
}

/// Appends the line of the ballot in a cell, with its end.
fn put_ballot(cell: &[u8], election: &Election, text: &mut Vec<u8>) -> Result<(), Memory>
    requires valid { IsElection election.now }
    requires long { length cell.now ≡ cell_size election.now }
    ensures { (b : Ballot) → IsCellOf election.now cell.now b → OnOk result (text.new.items
        ≡ text.old.items ++ (record_line election.now b ++ line_end ∷ [])) }
{
    put_cell_line(cell, election, text)?;
    text.push(b'\n')?;
    Ok(())
}

/// Writes what is gathered, and behind it the line of each ballot of a store, whose places are listed. Lines are gathered,
/// and written once they have more than 64 KiB.
fn put_records<K: Sink>(
    closed: &Closed,
    places: &[Place],
    mut text: Vec<u8>,
    out: &mut K,
) -> Result<(), PutFault>
    requires { IsListed closed.now places.now }
    ensures all { OnOk result (TakesAll (K.taken out.old)
        (text.items ++ records_text closed.now.election closed.now.ballots)
        (K.taken out.new)) }
    ensures some { OnErr result (TakesSome (K.taken out.old)
        (text.items ++ records_text closed.now.election closed.now.ballots)
        (K.taken out.new)) }
    ensures fault { CountsFaultIf (result ≡ Err PutFault.WriteFault)
        (K.faults out.old) (K.faults out.new) }
{
    let election = closed.election();
    'records: for place in places {
        let cell = closed.cell(place.cell as usize);
        put_ballot(cell, election, &mut text)?;
        if text.len() > FULL {
            out.write_all(&text)?;
            text.clear();
        }
    }
    out.write_all(&text)?;
    Ok(())
}

/// Writes the first line of an export, which counts the ballots.
pub fn write_count<K: Sink>(alloc: Global, ballots: usize, out: &mut K) -> Result<(), PutFault>
    ensures all { OnOk result
        (TakesAll (K.taken out.old) (count_text ballots) (K.taken out.new)) }
    ensures some { OnErr result
        (TakesSome (K.taken out.old) (count_text ballots) (K.taken out.new)) }
    ensures fault { CountsFaultIf (result ≡ Err PutFault.WriteFault)
        (K.faults out.old) (K.faults out.new) }
{
    let text = first_line(alloc, ballots)?;
    out.write_all(&text)?;
    Ok(())
}

/// Writes the line of each ballot of a store, in ascending order of their numbers: an export without its first line.
/// Lines are gathered, and written once they have more than 64 KiB.
pub fn write_records<K: Sink>(alloc: Global, closed: &Closed, out: &mut K) -> Result<(), PutFault>
    ensures all { OnOk result (TakesAll (K.taken out.old)
        (records_text closed.now.election closed.now.ballots) (K.taken out.new)) }
    ensures some { OnErr result (TakesSome (K.taken out.old)
        (records_text closed.now.election closed.now.ballots) (K.taken out.new)) }
    ensures fault { CountsFaultIf (result ≡ Err PutFault.WriteFault)
        (K.faults out.old) (K.faults out.new) }
{
    let places = closed.in_order(alloc)?;
    put_records(closed, &places, Vec::new(alloc), out)
}

/// Writes how many ballots a store holds, and then the line of each, in ascending order of their numbers. Lines are
/// gathered, and written once they have more than 64 KiB.
pub fn export<K: Sink>(alloc: Global, closed: &Closed, out: &mut K) -> Result<(), PutFault>
    ensures all { OnOk result (TakesAll (K.taken out.old)
        (export_text closed.now.election closed.now.ballots) (K.taken out.new)) }
    ensures some { OnErr result (TakesSome (K.taken out.old)
        (export_text closed.now.election closed.now.ballots) (K.taken out.new)) }
    ensures fault { CountsFaultIf (result ≡ Err PutFault.WriteFault)
        (K.faults out.old) (K.faults out.new) }
{
    let places = closed.in_order(alloc)?;
    let text = first_line(alloc, places.len())?;
    put_records(closed, &places, text, out)
}
