//! The command `build`: the image of the set of the script's record lines.

ghost use Rattle.outside_io.specs.Outside.{input, output, outside};
ghost use Rattle.run_outcome.specs.Status.{ended};
ghost use Rattle.script_commands.specs.Build.{BuildEnds};
ghost use Rattle.script_commands.specs.Script.{script_status};
ghost use Rattle.std.specs.Prelude.{◌≡◌};

mod ballots;
mod image;
mod index;
mod script;

use ballot_record::Election;
use image::{first_page, put_cells};
use outside_io::{Sink, Source};
use run_outcome::{Status, Which};
use script::{ScriptFault, read_ballots};
use std::alloc::Global;

fn status_of(fault: ScriptFault) -> Status
    ensures { result ≡ script_status fault }
{
    match fault {
        ScriptFault::BadLine { line, why } => Status::BadLine { line, why },
        ScriptFault::TooLong => Status::TooLong {
            which: Which::Script,
        },
        ScriptFault::ReadFault => Status::ReadFault {
            which: Which::Script,
        },
        ScriptFault::Memory => Status::Memory,
    }
}

/// Writes the image of the set of the script's record lines. The first bad line ends the run, and nothing is written. No
/// more of the image than a page is in memory at once: all memory is taken before the first byte is written.
pub fn build<S: Source, K: Sink>(
    alloc: Global,
    election: &Election,
    script: &mut S,
    out: &mut K,
) -> Result<(), Status>
    ensures { BuildEnds election.now (ended result)
        (outside (input S.left S.faults script.old) (output K.taken K.faults out.old))
        (outside (input S.left S.faults script.new) (output K.taken K.faults out.new)) }
{
    let ballots = match read_ballots(alloc, election, script) {
        Ok(ballots) => ballots,
        Err(fault) => return Err(status_of(fault)),
    };
    let cells = ballots.layout(alloc, election)?;
    let page = first_page(alloc, election)?;
    put_cells(election, &ballots, &cells, page, out)
}
