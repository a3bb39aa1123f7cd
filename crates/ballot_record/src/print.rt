//! The writing of a ballot's line.

ghost use Rattle.std.specs.Prelude.{◌≡◌, [], ◌∷◌, ◌++◌, ◌^◌, ◌<◌, if◌then◌else◌, length, map, take, decimal, OnErr, OnOk};
ghost use Rattle.std.specs.List.{join_with_byte};
ghost use Rattle.store_spec.specs.Ballot.{Ballot, IsValid};
ghost use Rattle.store_spec.specs.BallotLine.{choices_in, comma, group_text, record_line, slash};
ghost use Rattle.store_spec.specs.Election as definition;
ghost use Rattle.store_spec.specs.Election.{IsElection, cell_size, most_choices};
ghost use Rattle.store_spec.specs.Image.{IsCellOf};
ghost use Rattle.ballot_record.specs.Print.{IsFrontOf};
ghost use Rattle.ballot_record.specs.Record as seen;

use crate::format::{number_of, set_of, style_of};
use crate::{Election, MAX_CELL_BYTES, Record};
use itoa::Buffer;
use outside_io::Memory;

/// Appends a number in decimal digits. Most have one digit or two, as choices and styles have.
#[tactic(auto, using(std::proofs::lemmas::Fmt::decimal_digit, itoa::proofs::Decimal::decimal_two))]
#[inline(always)]
fn put_number(number: u64, out: &mut Vec<u8>) -> Result<(), Memory>
    ensures text { OnOk result (out.new.items ≡ out.old.items ++ decimal number) }
    ensures front { OnErr result (IsFrontOf out.old.items out.new.items) }
{
    if number < 10 {
        out.push(b'0' + number as u8)?;
        return Ok(());
    }
    if number < 100 {
        let both = number as u8;
        out.extend_from_slice(&[b'0' + both / 10, b'0' + both % 10])?;
        return Ok(());
    }
    let mut digits = Buffer::new();
    out.extend_from_slice(digits.format(number).as_bytes())?;
    Ok(())
}

/// Appends what stands between two parts, before each but the first.
fn put_between(first: bool, between: u8, out: &mut Vec<u8>) -> Result<(), Memory>
    ensures text { OnOk result
        (out.new.items ≡ out.old.items ++ (if first then [] else between ∷ [])) }
    ensures front { OnErr result (IsFrontOf out.old.items out.new.items) }
{
    if !first {
        out.push(between)?;
    }
    Ok(())
}

/// Appends the choices of a mark set, in ascending order with commas between them.
fn put_choices(set: u64, out: &mut Vec<u8>) -> Result<(), Memory>
    ensures text { (e : definition.Election) → set < 2 ^ most_choices e → OnOk result
        (out.new.items ≡ out.old.items ++ join_with_byte comma (map decimal (choices_in e set))) }
    ensures front { IsFrontOf out.old.items out.new.items }
{
    let mut rest = set;
    let mut first = true;
    'choices: while rest != 0 {
        let place = rest.trailing_zeros();
        put_between(first, b',', out)?;
        put_number(u64::from(place) + 1, out)?;
        rest -= 1 << place;
        first = false;
    }
    Ok(())
}

/// Appends the choices of a mark set, or a dash where there is none.
fn put_group(set: u64, out: &mut Vec<u8>) -> Result<(), Memory>
    ensures text { (e : definition.Election) → set < 2 ^ most_choices e → OnOk result
        (out.new.items ≡ out.old.items ++ group_text (choices_in e set)) }
    ensures front { IsFrontOf out.old.items out.new.items }
{
    if set == 0 {
        out.push(b'-')?;
        return Ok(());
    }
    put_choices(set, out)
}

/// Appends a group for each mark set of the ballot in a cell, with slashes between them.
fn put_groups(cell: &[u8], election: &Election, out: &mut Vec<u8>) -> Result<(), Memory>
    requires valid { IsElection election.now }
    requires long { length cell.now ≡ cell_size election.now }
    ensures text { (b : Ballot) → IsCellOf election.now cell.now b → OnOk result (out.new.items
        ≡ out.old.items ++ join_with_byte slash (map group_text
        (map (choices_in election.now) (take (length election.now.contests) b.marks)))) }
    ensures front { OnErr result (IsFrontOf out.old.items out.new.items) }
{
    'groups: for place in 0..election.contests() {
        put_between(place == 0, b'/', out)?;
        put_group(set_of(cell, election, place), out)?;
    }
    Ok(())
}

fn put_parts(cell: &[u8], election: &Election, out: &mut Vec<u8>) -> Result<(), Memory>
    requires valid { IsElection election.now }
    requires long { length cell.now ≡ cell_size election.now }
    ensures text { (b : Ballot) → IsCellOf election.now cell.now b
        → OnOk result (out.new.items ≡ out.old.items ++ record_line election.now b) }
    ensures front { OnErr result (IsFrontOf out.old.items out.new.items) }
{
    put_number(number_of(cell), out)?;
    out.push(b' ')?;
    put_number(u64::from(style_of(cell, election)), out)?;
    out.push(b' ')?;
    put_groups(cell, election, out)
}

/// Appends the line of the ballot in a cell, without a line end. It takes no memory where there is room.
pub fn put_cell_line(cell: &[u8], election: &Election, out: &mut Vec<u8>) -> Result<(), Memory>
    requires valid { IsElection election.now }
    requires long { length cell.now ≡ cell_size election.now }
    ensures line { (b : Ballot) → IsCellOf election.now cell.now b
        → OnOk result (out.new.items ≡ out.old.items ++ record_line election.now b) }
    ensures memory { OnErr result (out.new.items ≡ out.old.items) }
{
    let before = out.len();
    let put = put_parts(cell, election, out);
    if put.is_err() {
        out.truncate(before);
    }
    put
}

/// Appends the line of a ballot, without a line end. It takes no memory where there is room.
#[tactic(auto, using(crate::proofs::CellFormat::largest_cell_width, std::proofs::lemmas::Grind::common_steps))]
pub fn put_line(ballot: &Record, election: &Election, out: &mut Vec<u8>) -> Result<(), Memory>
    requires { IsValid election.now (seen.ballot ballot.now) }
    ensures line { OnOk result
        (out.new.items ≡ out.old.items ++ record_line election.now (seen.ballot ballot.now)) }
    ensures memory { OnErr result (out.new.items ≡ out.old.items) }
{
    let mut room = [0; MAX_CELL_BYTES];
    let cell = &mut room[..election.cell_bytes()];
    ballot.put_cell(election, cell);
    put_cell_line(cell, election, out)
}
