//! The command `sample`: the ballots of a medium whose tickets are the least.

ghost use Rattle.body_store.specs.Contents.{ballots_of};
ghost use Rattle.outside_io.specs.Outside.{output};
ghost use Rattle.run_outcome.specs.Status.{ended};
ghost use Rattle.sample_commands.specs.Sample.{SampleEnds, ballots_text};
ghost use Rattle.std.specs.Prelude.{◌≡◌, ◌≤◌, ◌∷◌, [], ◌++◌, All, IfOk, OnOk, codes, map};
ghost use Rattle.store_spec.specs.Ballot.{IsValid};
ghost use Rattle.store_spec.specs.BallotLine.{record_line};
ghost use Rattle.store_spec.specs.Disk.{disk_model};
ghost use Rattle.store_spec.specs.Input.{line_end};
ghost use Rattle.store_spec.specs.Report.{count_line};

use crate::asked::Asked;
use crate::drawn::drawn;
use ballot_record::{Election, Record, put_line};
use crash_disk::Disk;
use outside_io::{Memory, Sink};
use run_outcome::{Status, write_out};
use std::alloc::Global;

/// The line that counts the ballots.
fn first_line(alloc: Global, count: usize) -> Result<Vec<u8>, Memory>
    ensures { IfOk result (λ text. text.items ≡ count_line (codes "sample") count ++ line_end ∷ []) }
{
    Ok(format!(in alloc; "sample {count}\n")?.into_bytes())
}

/// How many ballots a sample has, and the line of each.
fn text_of(alloc: Global, election: &Election, sample: &[Record]) -> Result<Vec<u8>, Memory>
    requires { All (IsValid election.now) (ballots_of sample.now) }
    ensures { IfOk result (λ text. text.items ≡ ballots_text election.now (ballots_of sample.now)) }
{
    let mut text = first_line(alloc, sample.len())?;
    for ballot in sample {
        put_line(ballot, election, &mut text)?;
        text.push(b'\n')?;
    }
    Ok(text)
}

/// Writes how many ballots the sample of a medium has, and the line of each, in ascending order of number. Nothing is
/// written to the disk. All memory is taken before the first byte is written.
pub fn sample<K: Sink, D: Disk>(
    alloc: Global,
    election: &Election,
    asked: &Asked,
    out: &mut K,
    disk: &mut D,
) -> Result<(), Status>
    ensures { SampleEnds (disk_model D.seen D.calls D.may_leave D.faults) election.now asked.now (ended result)
        (output K.taken K.faults out.old) (output K.taken K.faults out.new) disk.old disk.new }
{
    let records = drawn(alloc, election, asked, disk)?;
    let text = text_of(alloc, election, &records)?;
    write_out(out, &text)
}
