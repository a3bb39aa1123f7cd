//! The reading of a whole build script.

ghost use Rattle.std.specs.Prelude.{◌≡◌, Err, IfOk};
ghost use Rattle.outside_io.specs.Told.{AsTold};
ghost use Rattle.store_spec.specs.Fault.{CountsFaultIf};
ghost use Rattle.script_commands.specs.Ballots.{AreGoodBallots};
ghost use Rattle.script_commands.specs.Script.{Reads};

use crate::build::ballots::{Ballots, Refusal};
use ballot_record::{Election, LineWhy};
use outside_io::{LineEndFault, Lines, Memory, NextLine, Source};
use std::alloc::Global;

/// Why a script gives no set of ballots.
#[derive(Clone, Copy, Debug, PartialEq, Eq)]
pub enum ScriptFault {
    /// The first bad line, counted from 1, and why it is refused.
    BadLine { line: u64, why: LineWhy },
    /// The source gave more than 67,108,864 bytes.
    TooLong,
    /// The source failed.
    ReadFault,
    /// There was no memory.
    Memory,
}

impl From<Memory> for ScriptFault {
    ghost use Rattle.std.specs.Prelude.{◌≡◌};
    ghost use Rattle.script_commands.specs.declared.build.script.ScriptFault.TheVariants as faults;

    ghost from_gives = { λ _ fault. fault ≡ faults.Memory };

    fn from(_: Memory) -> Self {
        ScriptFault::Memory
    }
}

/// The ballots of a script of record lines, in the order of the lines. The first bad line ends the reading.
pub fn read_ballots<S: Source>(
    alloc: Global,
    election: &Election,
    script: &mut S,
) -> Result<Ballots, ScriptFault>
    ensures reads { AsTold S.left script.old script.new (Reads result election.now) }
    ensures sound { IfOk result (AreGoodBallots election.now) }
    ensures fault { CountsFaultIf (result ≡ Err ScriptFault.ReadFault) (S.faults script.old) (S.faults script.new) }
{
    let mut lines = Lines::new(alloc)?;
    let mut ballots = Ballots::new(alloc, election)?;
    let mut count = 0;
    'lines: loop {
        match lines.next_line(script) {
            Ok(NextLine::Whole) => match ballots.judge(lines.line(), election) {
                Ok(()) => count += 1,
                Err(Refusal::Bad(why)) => {
                    return Err(ScriptFault::BadLine {
                        line: count + 1,
                        why,
                    });
                }
                Err(Refusal::Memory) => return Err(ScriptFault::Memory),
            },
            Ok(NextLine::TooWide) => {
                return Err(ScriptFault::BadLine {
                    line: count + 1,
                    why: LineWhy::Malformed,
                });
            }
            Ok(NextLine::End) => return Ok(ballots),
            Err(LineEndFault::TooLong) => return Err(ScriptFault::TooLong),
            Err(LineEndFault::ReadFault) => return Err(ScriptFault::ReadFault),
        }
    }
}
