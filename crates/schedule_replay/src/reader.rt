//! The reading of a whole replay script.

ghost use Rattle.std.specs.Prelude.{◌≡◌, ◌≢◌, Err, IfErr, IfOk};
ghost use Rattle.outside_io.specs.Told.{AsTold};
ghost use Rattle.schedule_replay.specs.Ends.{NoInput};
ghost use Rattle.schedule_replay.specs.Spelled.{SpellsScript};
ghost use Rattle.store_spec.specs.Fault.{CountsFaultIf};

use crate::fault::{Refusal, ReplayFault};
use crate::script::Script;
use ballot_record::{Election, LineWhy};
use outside_io::{LineEndFault, Lines, NextLine, Source};
use std::alloc::Global;

/// The input that a script spells. The first bad line ends the reading.
pub fn read_script<S: Source>(
    alloc: Global,
    election: &Election,
    source: &mut S,
) -> Result<Script, ReplayFault>
    ensures input { IfOk result (SpellsScript election.now (S.left source.old)
        (S.left source.new)) }
    ensures refused { IfErr result (λ fault. AsTold S.left source.old source.new
        (NoInput election.now fault)) }
    ensures other { IfErr result (λ fault. fault ≢ ReplayFault.WriteFault) }
    ensures fault { CountsFaultIf (result ≡ Err ReplayFault.ReadFault) (S.faults source.old)
        (S.faults source.new) }
{
    let mut lines = Lines::new(alloc)?;
    let mut script = Script::new(alloc);
    let mut numbers = Vec::new(alloc);
    let mut count = 0;
    'lines: loop {
        match lines.next_line(source) {
            Ok(NextLine::Whole) => {
                match script.take(alloc, election, lines.line(), &mut numbers) {
                    Ok(()) => count += 1,
                    Err(Refusal::Bad(why)) => {
                        return Err(ReplayFault::BadLine {
                            line: count + 1,
                            why,
                        });
                    }
                    Err(Refusal::Memory) => return Err(ReplayFault::Memory),
                }
            }
            Ok(NextLine::TooWide) => return Err(malformed(count + 1)),
            Ok(NextLine::End) => {
                if script.is_whole() {
                    return Ok(script);
                }
                return Err(malformed(count + 1));
            }
            Err(LineEndFault::TooLong) => return Err(ReplayFault::TooLong),
            Err(LineEndFault::ReadFault) => return Err(ReplayFault::ReadFault),
        }
    }
}

fn malformed(line: u64) -> ReplayFault
    ensures { result ≡ ReplayFault.BadLine line LineWhy.Malformed }
{
    ReplayFault::BadLine {
        line,
        why: LineWhy::Malformed,
    }
}
