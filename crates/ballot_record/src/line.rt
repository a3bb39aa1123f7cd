//! The reading of a ballot's line.

ghost use Rattle.std.specs.Prelude.{◌≡◌, ℕ, ◌^◌, ◌<◌, ◌≤◌, ◌↔◌, option_map, option_copied, replicate, Some, None, Ok, Err, IfOk, OnOk};
ghost use Rattle.store_spec.specs.BallotLine.{IsRecordLine, Spells, IsLineOf};
ghost use Rattle.ballot_record.specs.LineReading.{digits_at, four_at, eight_at, past_byte, choices_at, group_at, groups_of, parsed_line};
ghost use Rattle.ballot_record.specs.Line.{set_seen, sets_seen, line_seen};
ghost use Rattle.ballot_record.specs.Record.{ballot};

use crate::{
    Election, LineFault, MAX_CHOICES, MAX_CONTESTS, MAX_MARK_SETS, MAX_STYLES, Record,
    most_choices, most_contests,
};

/// What follows a byte, where it stands first.
fn after_byte(bytes: &[u8], byte: u8) -> Option<&[u8]>
    ensures { option_copied result ≡ past_byte byte bytes.now (λ rest. Some rest) None }
{
    match bytes {
        [first, rest @ ..] if *first == byte => Some(rest),
        _ => None,
    }
}

/// What four digits 0 spell where each byte counts as its code.
const FOUR_ZEROS: u64 = 1111 * b'0' as u64;

/// What eight digits 0 spell where each byte counts as its code.
const EIGHT_ZEROS: u64 = 11_111_111 * b'0' as u64;

/// The number of the four digits that stand first, and the bytes after them. The bytes are judged together, with `&`,
/// as all but the last run of a number are digits.
#[tactic(auto, unfolding(crate::specs::LineReading::four_at))]
fn four_digits(bytes: &[u8]) -> Option<(u64, &[u8])>
    ensures { option_map (λ x. (x.0, x.1.now)) result ≡ four_at bytes.now }
{
    match bytes {
        [a, b, c, d, rest @ ..]
            if a.is_ascii_digit() & b.is_ascii_digit() & c.is_ascii_digit() & d.is_ascii_digit() =>
            {
                let ab = u64::from(*a) * 10 + u64::from(*b);
                let cd = u64::from(*c) * 10 + u64::from(*d);
                Some((ab * 100 + cd - FOUR_ZEROS, rest))
            }
        _ => None,
    }
}

/// The number of the eight digits that stand first, and the bytes after them.
#[tactic(auto, unfolding(crate::specs::LineReading::four_at, crate::specs::LineReading::eight_at))]
fn eight_digits(bytes: &[u8]) -> Option<(u64, &[u8])>
    ensures { option_map (λ x. (x.0, x.1.now)) result ≡ eight_at bytes.now }
{
    match bytes {
        [a, b, c, d, e, f, g, h, rest @ ..]
            if a.is_ascii_digit()
                & b.is_ascii_digit()
                & c.is_ascii_digit()
                & d.is_ascii_digit()
                & e.is_ascii_digit()
                & f.is_ascii_digit()
                & g.is_ascii_digit()
                & h.is_ascii_digit() => {
            let ab = u64::from(*a) * 10 + u64::from(*b);
            let cd = u64::from(*c) * 10 + u64::from(*d);
            let ef = u64::from(*e) * 10 + u64::from(*f);
            let gh = u64::from(*g) * 10 + u64::from(*h);
            Some((
                (ab * 100 + cd) * 10_000 + (ef * 100 + gh) - EIGHT_ZEROS,
                rest,
            ))
        }
        _ => None,
    }
}

/// The digits that stand first, eight and then four at a time as long as no such run passes the limit, and the bytes
/// after them.
fn take_runs(bytes: &[u8], limit: u64) -> (u64, &[u8])
    ensures { digits_at limit result.0 result.1.now ≡ digits_at limit 0 bytes.now }
{
    let None = after_byte(bytes, b'0') else {
        return (0, bytes);
    };
    let mut value = 0;
    let mut rest = bytes;
    while value < limit / 100_000_000 {
        let Some((eight, after)) = eight_digits(rest) else {
            break;
        };
        value = value * 100_000_000 + eight;
        rest = after;
    }
    while value < limit / 10_000 {
        let Some((four, after)) = four_digits(rest) else {
            break;
        };
        value = value * 10_000 + four;
        rest = after;
    }
    (value, rest)
}

/// The number from 1 to the limit that goes on with the digits that stand first, and the bytes after it; 0 is no digit
/// yet.
#[tactic(auto, unfolding(crate::specs::LineReading::digits_at))]
fn take_digits(bytes: &[u8], before: u64, limit: u64) -> Option<(u64, &[u8])>
    ensures { option_map (λ x. (x.0, x.1.now)) result ≡ digits_at limit before bytes.now }
{
    let mut value = before;
    let mut rest = bytes;
    while let [byte @ b'0'..=b'9', after @ ..] = rest {
        let digit = u64::from(*byte - b'0');
        value = value.checked_mul(10)?.checked_add(digit)?;
        if value == 0 || value > limit {
            return None;
        }
        rest = after;
    }
    if value == 0 {
        None
    } else {
        Some((value, rest))
    }
}

/// The number from 1 to the limit that stands first, and the bytes after it, where most numbers have one digit or two.
#[tactic(auto, unfolding(crate::specs::LineReading::digits_at))]
fn take_short(bytes: &[u8], limit: u64) -> Option<(u64, &[u8])>
    requires { 9 ≤ limit }
    ensures { option_map (λ x. (x.0, x.1.now)) result ≡ digits_at limit 0 bytes.now }
{
    let [first @ b'1'..=b'9', rest @ ..] = bytes else {
        return None;
    };
    let value = u64::from(*first - b'0');
    let [second @ b'0'..=b'9', after @ ..] = rest else {
        return Some((value, rest));
    };
    let both = value * 10 + u64::from(*second - b'0');
    if both > limit {
        return None;
    }
    match after {
        [b'0'..=b'9', ..] => take_digits(after, both, limit),
        _ => Some((both, after)),
    }
}

/// The number from 1 to the limit that stands first, and the bytes after it.
#[inline(always)]
pub fn take_number(bytes: &[u8], limit: u64) -> Option<(u64, &[u8])>
    ensures { option_map (λ x. (x.0, x.1.now)) result ≡ digits_at limit 0 bytes.now }
{
    if limit < 10_000 {
        return take_digits(bytes, 0, limit);
    }
    let (value, rest) = take_runs(bytes, limit);
    take_digits(rest, value, limit)
}

/// The mark set of choices in ascending order from 1 to the last that there may be, with commas between them, and the
/// bytes after them.
fn take_choices(bytes: &[u8], most: u64) -> Option<(u64, &[u8])>
    requires low { 9 ≤ most }
    requires high { most ≤ MAX_CHOICES }
    ensures { option_map (λ x. (x.0, x.1.now)) result
        ≡ option_map set_seen (choices_at most most 0 bytes.now) }
{
    let mut set: u64 = 0;
    let mut last = 0;
    let mut rest = bytes;
    loop {
        let (choice, after) = take_short(rest, most)?;
        if choice <= last {
            return None;
        }
        set |= 1 << (choice - 1);
        last = choice;
        match after_byte(after, b',') {
            Some(more) => rest = more,
            None => return Some((set, after)),
        }
    }
}

/// The mark set of a group, and the bytes after it.
#[tactic(auto, unfolding(crate::specs::LineReading::group_at))]
fn take_group(bytes: &[u8], most: u64) -> Option<(u64, &[u8])>
    requires low { 9 ≤ most }
    requires high { most ≤ MAX_CHOICES }
    ensures { option_map (λ x. (x.0, x.1.now)) result
        ≡ option_map set_seen (group_at most bytes.now) }
{
    match after_byte(bytes, b'-') {
        Some(rest) => Some((0, rest)),
        None => take_choices(bytes, most),
    }
}

/// Puts the mark sets of so many groups at most, up to the end, and says how many groups there are.
fn put_groups(
    bytes: &[u8],
    groups: usize,
    choices: u64,
    marks: &mut [u64; MAX_MARK_SETS],
) -> Option<usize>
    requires few { groups ≤ MAX_CONTESTS }
    requires low { 9 ≤ choices }
    requires high { choices ≤ MAX_CHOICES }
    requires empty { marks.old ≡ replicate MAX_MARK_SETS 0 }
    ensures { option_map (λ count. (marks.new, count)) result
        ≡ option_map sets_seen (groups_of choices groups bytes.now) }
{
    let mut rest = bytes;
    for place in 0..groups {
        let (set, after) = take_group(rest, choices)?;
        marks[place] = set;
        if after.is_empty() {
            return Some(place + 1);
        }
        rest = after_byte(after, b'/')?;
    }
    None
}

/// Puts the parts of the record that a line in the grammar spells, and says how many groups it has.
#[tactic(auto, unfolding(crate::specs::LineReading::parsed_line))]
fn put_parts(line: &[u8], election: &Election, parts: &mut Record) -> Option<usize>
    requires { parts.old.marks ≡ replicate MAX_MARK_SETS 0 }
    ensures { option_map (λ count. (ballot parts.new, count)) result
        ≡ option_map line_seen (parsed_line election.now line.now) }
{
    let (number, rest) = take_number(line, u64::MAX)?;
    let (style, rest) = take_short(after_byte(rest, b' ')?, MAX_STYLES as u64)?;
    parts.number = number;
    parts.style = style as u8;
    let groups = most_contests(election.version());
    let choices = u64::from(most_choices(election.version()));
    put_groups(after_byte(rest, b' ')?, groups, choices, &mut parts.marks)
}

/// Puts the record of a line under an election in place of what stands there. The whole line is judged by the grammar of
/// record lines before any part of it is judged by the election: it is `Malformed` where it is not in the grammar, and
/// `Invalid` where it is, but has not a group for each contest, or its record is not valid. What stands there after a
/// fault is no record.
pub fn read_line_into(line: &[u8], election: &Election, out: &mut Record) -> Result<(), LineFault>
    ensures read { OnOk result (Spells election.now line.now (ballot out.new)) }
    ensures malformed { (result ≡ Err LineFault.Malformed)
        ↔ (¬ IsRecordLine election.now line.now) }
    ensures invalid { (result ≡ Err LineFault.Invalid)
        ↔ (IsRecordLine election.now line.now × ¬ IsLineOf election.now line.now) }
{
    *out = Record::blank();
    let Some(groups) = put_parts(line, election, out) else {
        return Err(LineFault::Malformed);
    };
    if groups != election.contests() || !out.valid_up_to(election, groups) {
        return Err(LineFault::Invalid);
    }
    Ok(())
}

/// The record of a line under an election, judged as by `read_line_into`.
pub fn read_line(line: &[u8], election: &Election) -> Result<Record, LineFault>
    ensures read { IfOk result (λ r. Spells election.now line.now (ballot r)) }
    ensures malformed { (result ≡ Err LineFault.Malformed)
        ↔ (¬ IsRecordLine election.now line.now) }
    ensures invalid { (result ≡ Err LineFault.Invalid)
        ↔ (IsRecordLine election.now line.now × ¬ IsLineOf election.now line.now) }
{
    let mut record = Record::blank();
    read_line_into(line, election, &mut record)?;
    Ok(record)
}
