//! The lines of the generated script, one by one.

ghost use Rattle.std.specs.Prelude.{◌≡◌, ◌+◌, ◌-◌, ◌^◌, ◌<◌, ◌≤◌, ◌∷◌, ◌++◌, [], length, drop, map, slice_get, unwrap_or, is_some, IfOk, IfSome, OnOk, OnErr};
ghost use Rattle.std.specs.List.{join_with_byte, range_with_len};
ghost use Rattle.std.specs.Option.{option_to_list};
ghost use Rattle.script_lines.specs.Generated.{ballot_count, cast_line, generated, generated_number, marks_at, style_at, withdraw_line};
ghost use Rattle.script_lines.specs.Parts.{generated_group, line_room, part_text};
ghost use Rattle.store_spec.specs.BallotLine.{choices_in, slash};
ghost use Rattle.store_spec.specs.Election.{IsElection};
ghost use Rattle.store_spec.specs.ScriptLine.{IsTab, open_text};
ghost use Rattle.store_spec.specs.ScriptLine.Work.{Casting, Withdrawing};

use crate::part::{Part, part_at};
use crate::put::{put_byte, put_bytes, put_group, put_number, put_word};
use ballot_record::{Election, MAX_CONTESTS};
use outside_io::Memory;

/// An odd number, so that no two ballots have one number.
const SPREAD: u64 = 0xD134_2543_DE82_EF95;

/// Room for any line of the generated script, with its end.
pub const LINE_ROOM: usize = 704;

/// The number of ballot `i`.
fn ballot_number(seed: u32, i: u64) -> u64
    requires { i < 2 ^ 63 }
    ensures { result ≡ generated_number seed i }
{
    (u64::from(seed) + i).wrapping_mul(SPREAD)
}

/// The style of ballot `i`.
fn ballot_style(i: u32, election: &Election) -> u8
    ensures style { result ≡ style_at election.now i }
    ensures valid { IsElection election.now }
{
    1 + (i as usize % election.styles()) as u8
}

/// The choice that ballot `i`, of this style, marks in contest `k`, if it marks one.
fn marked_choice(i: u32, style: u8, k: usize, election: &Election) -> Option<u64>
    requires style { style ≡ style_at election.now i }
    requires few { k ≤ MAX_CONTESTS }
    ensures { choices_in election.now (marks_at election.now i k) ≡ option_to_list result }
{
    if i % 7 == 0 {
        return None;
    }
    if !election.on_style(style, k) {
        return None;
    }
    let choices = u64::from(election.contest(k).choices);
    Some(1 + (u64::from(i) + k as u64) % choices)
}

/// Puts the groups of ballot `i` where they end at `end`, with slashes between them, and says where they begin.
fn put_groups(i: u32, style: u8, election: &Election, line: &mut [u8], end: usize) -> usize
    requires style { style ≡ style_at election.now i }
    requires room { 504 ≤ end }
    requires within { end ≤ length line.old }
    ensures text { drop result line.new
        ≡ join_with_byte slash (map (generated_group election.now i) (range_with_len 1 (length election.now.contests)))
        ++ drop end line.old }
    ensures start { (result ≤ end) × (end ≤ result + 504) }
{
    let mut contest = election.contests();
    let mut start = put_group(marked_choice(i, style, contest, election), line, end);
    'contests: while contest > 1 {
        contest -= 1;
        start = put_byte(b'/', line, start);
        start = put_group(marked_choice(i, style, contest, election), line, start);
    }
    start
}

/// Puts the line that casts ballot `i` where it ends at `end`, and says where it begins.
fn put_cast(i: u32, seed: u32, tabs: u32, election: &Election, line: &mut [u8], end: usize) -> usize
    requires tabs { 1 ≤ tabs }
    requires room { 700 ≤ end }
    requires within { end ≤ length line.old }
    ensures text { drop result line.new ≡ cast_line election.now seed tabs i ++ drop end line.old }
    ensures start { (result ≤ end) × (end ≤ result + 700) }
{
    let style = ballot_style(i, election);
    let groups = put_groups(i, style, election, line, end);
    let style = put_word(u64::from(style), line, groups);
    let number = put_word(ballot_number(seed, u64::from(i)), line, style);
    let tab = put_word(1 + u64::from(i % tabs), line, number);
    put_bytes(b"cast ", line, tab)
}

/// Puts the line that withdraws the `j`-th of the tenth ballots where it ends at `end`, and says where it begins.
fn put_withdraw(j: u32, seed: u32, tabs: u32, line: &mut [u8], end: usize) -> usize
    requires tabs { 1 ≤ tabs }
    requires room { 700 ≤ end }
    requires within { end ≤ length line.old }
    ensures text { drop result line.new ≡ withdraw_line seed tabs j ++ drop end line.old }
    ensures start { (result ≤ end) × (end ≤ result + 700) }
{
    let number = put_number(ballot_number(seed, 10 * u64::from(j)), line, end);
    let tab = put_word(1 + u64::from(j % tabs), line, number);
    put_bytes(b"withdraw ", line, tab)
}

/// Puts a part where it ends at `end`, and says where it begins.
fn put_part(
    part: Part,
    seed: u32,
    tabs: u32,
    election: &Election,
    line: &mut [u8],
    end: usize,
) -> usize
    requires tabs { 1 ≤ tabs }
    requires room { 700 ≤ end }
    requires within { end ≤ length line.old }
    ensures text { drop result line.new ≡ part_text election.now seed tabs part ++ drop end line.old }
    ensures start { (result ≤ end) × (end ≤ result + 700) }
{
    match part {
        Part::OpenCasting => {
            let tabs = put_number(u64::from(tabs), line, end);
            put_bytes(b"open cast ", line, tabs)
        }
        Part::Cast(i) => put_cast(i, seed, tabs, election, line, end),
        Part::OpenWithdrawing => {
            let tabs = put_number(u64::from(tabs), line, end);
            put_bytes(b"open withdraw ", line, tabs)
        }
        Part::Withdraw(j) => put_withdraw(j, seed, tabs, line, end),
        Part::Close => put_bytes(b"close", line, end),
        Part::Checkpoint => put_bytes(b"checkpoint", line, end),
        Part::Tally => put_bytes(b"tally", line, end),
    }
}

/// Puts line `index` of the generated script, counted from 1, where it ends at `end`, and says where it begins. `None`
/// is past the end of the script.
fn put_line_at(
    index: u64,
    seed: u32,
    count: u32,
    tabs: u32,
    election: &Election,
    line: &mut [u8],
    end: usize,
) -> Option<usize>
    requires index { 1 ≤ index }
    requires tabs { 1 ≤ tabs }
    requires room { 700 ≤ end }
    requires within { end ≤ length line.old }
    ensures some { is_some result ≡ is_some (slice_get (generated election.now seed count tabs) (index - 1)) }
    ensures text { IfSome result (λ start. drop start line.new
        ≡ unwrap_or (slice_get (generated election.now seed count tabs) (index - 1)) [] ++ drop end line.old) }
    ensures start { IfSome result (λ start. start ≤ end) }
{
    let part = part_at(index, count.min(election.limit()))?;
    Some(put_part(part, seed, tabs, election, line, end))
}

/// Puts line `index` of the generated script, counted from 1, with its end at the end of the room, and says where it
/// begins. `None` is past the end of the script.
pub fn put_ended_line(
    index: u64,
    seed: u32,
    count: u32,
    tabs: u32,
    election: &Election,
    room: &mut [u8],
) -> Option<usize>
    requires index { 1 ≤ index }
    requires tabs { 1 ≤ tabs }
    requires room { length room.old ≡ line_room }
    ensures some { is_some result ≡ is_some (slice_get (generated election.now seed count tabs) (index - 1)) }
    ensures text { IfSome result (λ start. drop start room.new
        ≡ unwrap_or (slice_get (generated election.now seed count tabs) (index - 1)) [] ++ 10 ∷ []) }
    ensures start { IfSome result (λ start. start ≤ line_room) }
{
    let end = put_byte(b'\n', room, LINE_ROOM);
    put_line_at(index, seed, count, tabs, election, room, end)
}

/// Puts line `index` of the generated script, counted from 1, in place of what stands in `out`, without a line end.
/// False past the end of the script, and then nothing stands there; neither does where there was no memory.
pub fn large_line(
    seed: u32,
    count: u32,
    tabs: u32,
    index: u64,
    election: &Election,
    out: &mut Vec<u8>,
) -> Result<bool, Memory>
    requires index { 1 ≤ index }
    requires tabs { IsTab tabs }
    ensures some { IfOk result (λ some.
        some ≡ is_some (slice_get (generated election.now seed count tabs) (index - 1))) }
    ensures line { OnOk result (out.new.items
        ≡ unwrap_or (slice_get (generated election.now seed count tabs) (index - 1)) []) }
    ensures memory { OnErr result (out.new.items ≡ []) }
{
    out.clear();
    let mut line = [0; LINE_ROOM];
    match put_line_at(index, seed, count, tabs, election, &mut line, LINE_ROOM) {
        Some(start) => {
            out.extend_from_slice(&line[start..])?;
            Ok(true)
        }
        None => Ok(false),
    }
}
