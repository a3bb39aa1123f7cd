//! The reading of a session's line.

ghost use Rattle.std.specs.Prelude.{◌++◌, ◌∷◌, IfNone, IfSome, MatchOption};
ghost use Rattle.store_spec.specs.BallotLine.{IsRecordLine, space};
ghost use Rattle.store_spec.specs.ScriptLine.{IsMalformed, IsTab, Says, item_text, work_text};
ghost use Rattle.store_spec.specs.Election as definition;
ghost use Rattle.script_lines.specs.Line.{IsSaid, command_line, script_line};
ghost use Rattle.script_lines.specs.Words.{IsNoCommand, IsNoItem, IsNoOpening, work};

use crate::words::{MAX_TABS, Work, after_word, take_tab, take_work, whole_number};
use crate::{Command, Entry, Line, Said};
use ballot_record::{Election, LineFault, Record, read_line_into};

/// What a line says that opens a phase.
fn read_open(line: &[u8]) -> Option<Command>
    ensures { MatchOption result (IsNoOpening line.now)
        (λ command. (e : definition.Election) → Says e line.now (command_line command)) }
{
    let (work, rest) = take_work(after_word(line, b"open ")?)?;
    let tabs = whole_number(rest, MAX_TABS)? as u8;
    Some(Command::Open { work, tabs })
}

/// What a line says that is for none of the lists.
fn read_command(line: &[u8]) -> Option<Command>
    ensures { MatchOption result (IsNoCommand line.now)
        (λ command. (e : definition.Election) → Says e line.now (command_line command)) }
{
    if line == b"close".as_slice() {
        return Some(Command::Close);
    }
    if line == b"checkpoint".as_slice() {
        return Some(Command::Checkpoint);
    }
    if line == b"tally".as_slice() {
        return Some(Command::Tally);
    }
    if line == b"export".as_slice() {
        return Some(Command::Export);
    }
    read_open(line)
}

/// What a line says that casts at a tabulator what these bytes spell.
fn read_cast(tab: u8, bytes: &[u8], election: &Election, out: &mut Record) -> Option<Said>
    requires { IsTab tab }
    ensures { MatchOption result (¬ IsRecordLine election.now bytes.now)
        (λ said. IsSaid election.now (item_text (work Work.Casting) tab bytes.now) said out.new) }
{
    match read_line_into(bytes, election, out) {
        Ok(()) => Some(Said::Item {
            tab,
            entry: Entry::Cast,
        }),
        Err(LineFault::Invalid) => Some(Said::Command(Command::CastInvalid { tab })),
        Err(LineFault::Malformed) => None,
    }
}

/// What a line says that is for one of the lists: it names this work, and goes on so behind a space.
fn read_item(named: Work, behind: &[u8], election: &Election, out: &mut Record) -> Option<Said>
    ensures { MatchOption result
        (IsNoItem election.now (work_text (work named) ++ space ∷ behind.now))
        (λ said. IsSaid election.now (work_text (work named) ++ space ∷ behind.now) said out.new) }
{
    let (tab, rest) = take_tab(behind)?;
    let entry = match named {
        Work::Casting => return read_cast(tab, rest, election, out),
        Work::Withdrawing => Entry::Withdraw {
            number: whole_number(rest, u64::MAX)?,
        },
        Work::Finding => Entry::Find {
            number: whole_number(rest, u64::MAX)?,
        },
    };
    Some(Said::Item { tab, entry })
}

/// What a line of a script says under an election. The ballot of a cast is put in place of what stands in `out`. Nearly
/// all lines are for a list, so that is looked at first.
pub fn read_said(line: &[u8], election: &Election, out: &mut Record) -> Said
    ensures { IsSaid election.now line.now result out.new }
{
    match take_work(line) {
        Some((work, behind)) => read_item(work, behind, election, out).unwrap_or(Said::Malformed),
        None => match read_command(line) {
            Some(command) => Said::Command(command),
            None => Said::Malformed,
        },
    }
}

/// The same as one value, and `None` where the line is malformed.
pub fn read_script_line(line: &[u8], election: &Election) -> Option<Line>
    ensures said { IfSome result (λ l. Says election.now line.now (script_line l)) }
    ensures malformed { IfNone result (IsMalformed election.now line.now) }
{
    let mut ballot = Record::blank();
    match read_said(line, election, &mut ballot) {
        Said::Item { tab, entry } => match entry {
            Entry::Cast => Some(Line::Cast { tab, ballot }),
            Entry::Withdraw { number } => Some(Line::Withdraw { tab, number }),
            Entry::Find { number } => Some(Line::Find { tab, number }),
        },
        Said::Command(command) => match command {
            Command::Open { work, tabs } => match work {
                Work::Casting => Some(Line::OpenCast { tabs }),
                Work::Withdrawing => Some(Line::OpenWithdraw { tabs }),
                Work::Finding => Some(Line::OpenFind { tabs }),
            },
            Command::CastInvalid { tab } => Some(Line::CastInvalid { tab }),
            Command::Close => Some(Line::Close),
            Command::Checkpoint => Some(Line::Checkpoint),
            Command::Tally => Some(Line::Tally),
            Command::Export => Some(Line::Export),
        },
        Said::Malformed => None,
    }
}
