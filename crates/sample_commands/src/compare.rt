//! The command `compare`: lines, as they are read off the sheets that were pulled, compared with a sample.

ghost use Rattle.std.specs.Prelude.{◌≡◌, ◌≤◌, ◌∷◌, ◌++◌, ◌<◌, [], AllPairs, IfOk, OnOk, codes, string_bytes};
ghost use Rattle.outside_io.specs.Outside.{input, output, outside};
ghost use Rattle.run_outcome.specs.Status.{ended};
ghost use Rattle.sample_commands.specs.Compare.{CompareEnds, LinesEnd, WritesText, compare_reply_line, reply_word};
ghost use Rattle.store_spec.specs.Disk.{disk_model};
ghost use Rattle.store_spec.specs.Election.{IsElection};
ghost use Rattle.store_spec.specs.Input.{line_end};
ghost use Rattle.store_spec.specs.Report.{count_line, lines_text};

use crate::asked::Asked;
use crate::drawn::drawn;
use ballot_record::Election;
use crash_disk::Disk;
use outside_io::{LineEndFault, Lines, Memory, NextLine, Sink, Source};
use run_outcome::{Status, Which, write_out};
use std::alloc::Global;
use ticket_sample::{Compare, CompareReply};

/// How a reply is told.
fn word_of(reply: CompareReply) -> &'static str
    ensures { result.now ≡ reply_word reply }
{
    match reply {
        CompareReply::Malformed => "malformed",
        CompareReply::Invalid => "invalid",
        CompareReply::Outside => "outside",
        CompareReply::Repeated => "repeated",
        CompareReply::Match => "match",
        CompareReply::Differs => "differs",
    }
}

/// Puts the reply to a line in place of a text. It takes no memory where there is room.
fn put_reply(line: u64, reply: CompareReply, text: &mut String) -> Result<(), Memory>
    ensures { OnOk result (string_bytes text.new ≡ compare_reply_line line reply ++ line_end ∷ []) }
{
    text.clear();
    let word = word_of(reply);
    write!(text, "line {line} {word}\n")?;
    Ok(())
}

/// The line that tells how many ballots are missing.
fn last_line(alloc: Global, missing: u32) -> Result<String, Memory>
    ensures { IfOk result (λ text. string_bytes text ≡ lines_text (count_line (codes "missing") missing ∷ [])) }
{
    Ok(format!(in alloc; "missing {missing}\n")?)
}

/// How many bytes the reply to a line may have, and a few more.
const LONGEST_REPLY: usize = 64;

fn room_for_reply(alloc: Global) -> Result<String, Memory> {
    Ok(String::with_capacity(alloc, LONGEST_REPLY)?)
}

/// Writes the reply to a line.
fn answer<K: Sink>(
    out: &mut K,
    line: u64,
    reply: CompareReply,
    text: &mut String,
) -> Result<(), Status>
    ensures { WritesText (compare_reply_line line reply ++ line_end ∷ []) result
        (output K.taken K.faults out.old) (output K.taken K.faults out.new) }
{
    put_reply(line, reply, text)?;
    write_out(out, text.as_str().as_bytes())
}

/// Writes how many ballots of the sample were compared with no line.
fn tell_missing<K: Sink>(alloc: Global, out: &mut K, missing: u32) -> Result<(), Status>
    ensures { WritesText (lines_text (count_line (codes "missing") missing ∷ [])) result
        (output K.taken K.faults out.old) (output K.taken K.faults out.new) }
{
    let text = last_line(alloc, missing)?;
    write_out(out, text.as_str().as_bytes())
}

/// Answers each line of a script as soon as it is whole, and tells at its end how many ballots are missing.
fn answer_lines<S: Source, K: Sink>(
    alloc: Global,
    election: &Election,
    compare: &mut Compare,
    script: &mut S,
    out: &mut K,
) -> Result<(), Status>
    requires fresh { compare.old.rest ≡ compare.old.sample }
    requires ascending { AllPairs (λ a b. a.number < b.number) compare.old.sample }
    ensures { LinesEnd election.now compare.old.sample (ended result)
        (outside (input S.left S.faults script.old) (output K.taken K.faults out.old))
        (outside (input S.left S.faults script.new) (output K.taken K.faults out.new)) }
{
    let mut lines = Lines::new(alloc)?;
    let mut text = room_for_reply(alloc)?;
    let mut count = 0;
    'lines: loop {
        match lines.next_line(script) {
            Ok(NextLine::Whole) => {
                count += 1;
                let reply = compare.line(lines.line(), election);
                match answer(out, count, reply, &mut text) {
                    Ok(()) => {}
                    Err(status) => return Err(status),
                }
            }
            Ok(NextLine::TooWide) => {
                count += 1;
                match answer(out, count, CompareReply::Malformed, &mut text) {
                    Ok(()) => {}
                    Err(status) => return Err(status),
                }
            }
            Ok(NextLine::End) => return tell_missing(alloc, out, compare.missing()),
            Err(LineEndFault::TooLong) => {
                return Err(Status::TooLong {
                    which: Which::Script,
                });
            }
            Err(LineEndFault::ReadFault) => {
                return Err(Status::ReadFault {
                    which: Which::Script,
                });
            }
        }
    }
}

/// Compares the lines of a script with the sample of a medium: each is answered as soon as it is whole, and at the end
/// of the script it is told how many ballots of the sample were compared with no line. Nothing is written to the disk.
pub fn compare<S: Source, K: Sink, D: Disk>(
    alloc: Global,
    election: &Election,
    asked: &Asked,
    script: &mut S,
    out: &mut K,
    disk: &mut D,
) -> Result<(), Status>
    requires { IsElection election.now }
    ensures { CompareEnds (disk_model D.seen D.calls D.may_leave D.faults) election.now asked.now (ended result)
        (outside (input S.left S.faults script.old) (output K.taken K.faults out.old))
        (outside (input S.left S.faults script.new) (output K.taken K.faults out.new)) disk.old disk.new }
{
    let records = drawn(alloc, election, asked, disk)?;
    let mut compare = Compare::new(alloc, records)?;
    answer_lines(alloc, election, &mut compare, script, out)
}
