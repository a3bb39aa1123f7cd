//! The bytes of a medium: how many a header, a cell and a bank have, and how headers and cells are written and read. Only
//! this module knows their widths.
#![tactic(auto, unfolding(store_spec::specs::Election::header_size, crate::specs::Format::largest_cell, crate::specs::Format::largest_bank))]

ghost use Rattle.std.specs.Prelude.{◌≡◌, ℕ, ◌+◌, ◌-◌, ◌*◌, ◌^◌, ◌<◌, ◌≤◌, ◌++◌, ◌↔◌, length, drop, flat_map, replicate, slice_index, All, IsTrue};
ghost use Rattle.std.specs.Int.{bytes_high_first};
ghost use Rattle.byteorder.specs.Endian.{big_number};
ghost use Rattle.store_spec.specs.Ballot.{Ballot, IsValid, MARK_SETS};
ghost use Rattle.store_spec.specs.Damage.{number_at};
ghost use Rattle.store_spec.specs.Election.{IsElection, bank_size, cell_size, medium_size, set_width};
ghost use Rattle.store_spec.specs.Image.{IsEmptyCell, IsCellOf, ballot_bytes, header_of};
ghost use Rattle.ballot_record.specs.Format.{IsSetWidth, ballot_at, largest_bank, largest_cell, number_size, sets_at};
ghost use Rattle.ballot_record.specs.Barred.{AreBarred, HaveNone};
ghost use Rattle.ballot_record.specs.Record.{ballot};
ghost use Rattle.ballot_record.specs.declared.record.Record as declared;

use crate::version::{MAX_SET_BYTES, SHORT_SET_BYTES, set_bytes};
use crate::{Barred, Election, MAX_BITS, MAX_CONTESTS, MAX_LIMIT, MAX_MARK_SETS, Record};
use byteorder::{BigEndian, ByteOrder};

/// How many bytes a header has.
pub const HEADER_BYTES: usize = 32;

/// How many bytes stand in a cell before the mark sets: a number and a style.
pub(crate) const FRONT_BYTES: usize = 9;

/// The most bytes of a cell, whatever the election.
pub const MAX_CELL_BYTES: usize = FRONT_BYTES + MAX_SET_BYTES * MAX_MARK_SETS;

/// The most cells of a bank, whatever the election.
const MAX_CELLS: usize = (1 << MAX_BITS) + MAX_LIMIT as usize;

/// The most bytes of a bank, whatever the election.
pub const MAX_BANK_BYTES: usize = HEADER_BYTES + MAX_CELLS * MAX_CELL_BYTES;

/// As many zeros as the longest cell has bytes.
const ZEROS: [u8; MAX_CELL_BYTES] = [0; MAX_CELL_BYTES];

/// How many bytes of a cell are judged at once, of a short one and of one that has as many as the second.
const STEP: usize = 8;

const WIDE_STEP: usize = 64;

/// What a header begins with.
const MARK: [u8; 8] = *b"HIBSTORE";

// ---- sizes

impl Election {
    /// How many bytes a cell has.
    #[tactic(auto, unfolding(store_spec::specs::Election::cell_size, crate::specs::Format::largest_cell))]
    pub fn cell_bytes(&self) -> usize
        ensures size { result ≡ cell_size self.now }
        ensures number { number_size ≤ result }
        ensures at_most { result ≤ largest_cell }
        ensures valid { IsElection self.now }
    {
        FRONT_BYTES + self.set_bytes() * self.contests()
    }

    /// How many bytes a mark set has in a cell: 4 in version 1, and 8 in version 2.
    pub(crate) fn set_bytes(&self) -> usize
        ensures width { result ≡ set_width self.now }
        ensures known { IsSetWidth result }
        ensures valid { IsElection self.now }
    {
        set_bytes(self.version())
    }

    /// How many bytes a bank has.
    pub fn bank_bytes(&self) -> usize
        ensures size { result ≡ bank_size self.now }
        ensures at_most { result ≤ largest_bank }
    {
        HEADER_BYTES + self.cells() * self.cell_bytes()
    }

    /// How many bytes a medium has.
    pub fn medium_bytes(&self) -> u64
        ensures { result ≡ medium_size self.now }
    {
        2 * self.bank_bytes() as u64 + 2
    }
}

// ---- headers

/// The header of a bank: the mark, the version, and what of the election lays out the store.
#[derive(Clone, Copy, Debug, PartialEq, Eq)]
pub struct Header {
    pub bytes: [u8; HEADER_BYTES],
}

impl Header {
    /// That of the images of an election.
    pub fn of(election: &Election) -> Header
        ensures bytes { result.bytes ≡ header_of election.now }
        ensures valid { IsElection election.now }
    {
        let mut bytes = [0; HEADER_BYTES];
        bytes[..8].copy_from_slice(&MARK);
        BigEndian::write_u16(&mut bytes[8..], election.version());
        bytes[10] = election.bits();
        bytes[11] = election.contests() as u8;
        BigEndian::write_u32(&mut bytes[12..], election.limit());
        BigEndian::write_u64(&mut bytes[16..], election.salt());
        Header { bytes }
    }
}

// ---- cells

/// What stands in a cell.
#[derive(Clone, Copy, Debug, PartialEq, Eq)]
pub enum CellRead {
    /// Nothing: all bytes are 0.
    Empty,
    /// The bytes of a valid record.
    Held(Record),
    /// Other bytes.
    Bad,
}

/// The mark set that stands first, of so many bytes.
fn first_set(bytes: &[u8], width: usize) -> u64
    requires known { IsSetWidth width }
    requires long { width ≤ length bytes.now }
    ensures { result ≡ big_number width bytes.now }
{
    if width == MAX_SET_BYTES {
        BigEndian::read_u64(bytes)
    } else {
        u64::from(BigEndian::read_u32(bytes))
    }
}

/// The mark set that stands first, of so many bytes, and the bytes after it.
fn take_set(bytes: &[u8], width: usize) -> (u64, &[u8])
    requires known { IsSetWidth width }
    requires long { width ≤ length bytes.now }
    ensures set { result.0 ≡ big_number width bytes.now }
    ensures rest { result.1.now ≡ drop width bytes.now }
{
    let (_, rest) = bytes.split_at(width);
    (first_set(bytes, width), rest)
}

/// Puts so many mark sets, of so many bytes each, before the zeros.
fn put_sets(bytes: &[u8], width: usize, contests: usize, marks: &mut [u64; MAX_MARK_SETS])
    requires known { IsSetWidth width }
    requires few { contests ≤ MARK_SETS }
    requires long { length bytes.now ≡ width * contests }
    requires empty { marks.old ≡ replicate MAX_MARK_SETS 0 }
    ensures { marks.new ≡ sets_at width contests bytes.now ++ replicate (MARK_SETS - contests) 0 }
{
    let mut rest = bytes;
    for place in 0..contests {
        let (set, after) = take_set(rest, width);
        marks[place] = set;
        rest = after;
    }
}

/// Puts the parts of the record that the bytes of a cell spell, valid or not. They are written in place, as a record
/// is long.
#[tactic(auto, unfolding(store_spec::specs::Election::cell_size))]
fn put_parts(bytes: &[u8], election: &Election, parts: &mut Record)
    requires long { length bytes.now ≡ cell_size election.now }
    requires empty { parts.old.marks ≡ replicate MAX_MARK_SETS 0 }
    ensures parts { ballot parts.new ≡ ballot_at election.now bytes.now }
    ensures valid { IsElection election.now }
{
    let (front, rest) = bytes.split_at(8);
    parts.number = u64::from_be_bytes([
        front[0], front[1], front[2], front[3], front[4], front[5], front[6], front[7],
    ]);
    parts.style = rest[0];
    put_sets(
        &rest[1..],
        election.set_bytes(),
        election.contests(),
        &mut parts.marks,
    );
}

fn are_zero(bytes: &[u8]) -> bool
    requires { length bytes.now ≤ MAX_CELL_BYTES }
    ensures { IsTrue result ↔ All (λ byte. byte ≡ 0) bytes.now }
{
    bytes == &ZEROS[..bytes.len()]
}

/// Whether none of these bytes has a bit that is barred. It does not stop at the first that has, so that many are
/// judged at once.
#[inline(always)]
fn have_none(bytes: &[u8], barred: &[u8]) -> bool
    requires { length barred.now ≡ length bytes.now }
    ensures { IsTrue result ↔ HaveNone bytes.now barred.now }
{
    let mut marked = 0;
    for place in 0..bytes.len() {
        marked |= bytes[place] & barred[place];
    }
    marked == 0
}

/// Whether no byte of a cell has a bit that is barred. So many bytes are judged at once, and those in front of the mark
/// sets, where nothing is barred, as far as these reach back to them.
#[inline(always)]
fn has_none_by(cell: &[u8], barred: &[u8], step: usize) -> bool
    requires some { 0 < step }
    requires long { step ≤ length cell.now }
    requires row { length barred.now ≡ length cell.now }
    requires front { (k : ℕ) → k < FRONT_BYTES → slice_index barred.now k ≡ 0 }
    ensures { IsTrue result ↔ HaveNone cell.now barred.now }
{
    let last = cell.len() - step;
    let mut from = FRONT_BYTES;
    while from < last {
        if !have_none(&cell[from..from + step], &barred[from..from + step]) {
            return false;
        }
        from += step;
    }
    have_none(&cell[last..last + step], &barred[last..last + step])
}

/// The same, by steps as long as the cell allows.
fn has_none(cell: &[u8], barred: &[u8]) -> bool
    requires long { 8 ≤ length cell.now }
    requires row { length barred.now ≡ length cell.now }
    requires front { (k : ℕ) → k < FRONT_BYTES → slice_index barred.now k ≡ 0 }
    ensures { IsTrue result ↔ HaveNone cell.now barred.now }
{
    if cell.len() < WIDE_STEP {
        has_none_by(cell, barred, STEP)
    } else {
        has_none_by(cell, barred, WIDE_STEP)
    }
}

/// Whether a cell has the bytes of a valid record under an election, whose styles bar these choices. They are judged
/// where they stand.
#[tactic(auto, unfolding(store_spec::specs::Election::cell_size))]
pub fn holds_ballot(bytes: &[u8], election: &Election, barred: &Barred) -> bool
    requires long { length bytes.now ≡ cell_size election.now }
    requires barred { AreBarred election.now barred.now }
    ensures held { IsTrue result ↔ ((b : Ballot) × IsCellOf election.now bytes.now b) }
    ensures valid { IsElection election.now }
{
    let style = bytes[8];
    if usize::from(style) > election.styles() || style == 0 || number_of(bytes) == 0 {
        return false;
    }
    let row = &barred.rows[usize::from(style) - 1];
    let (in_cell, _) = row.split_at(bytes.len());
    has_none(bytes, in_cell)
}

/// What stands in a cell under an election: `Bad` is what no store writes.
pub fn take_cell(bytes: &[u8], election: &Election) -> CellRead
    requires { length bytes.now ≡ cell_size election.now }
    ensures empty { (result ≡ CellRead.Empty) ↔ IsEmptyCell election.now bytes.now }
    ensures held { (r : declared.Record) → (result ≡ CellRead.Held r)
        ↔ IsCellOf election.now bytes.now (ballot r) }
    ensures bad { (result ≡ CellRead.Bad)
        ↔ (¬ IsEmptyCell election.now bytes.now
        × ((b : Ballot) → ¬ IsCellOf election.now bytes.now b)) }
{
    prove!(election.contests() <= MAX_CONTESTS);
    let record = Record::of_cell(bytes, election);
    if record.valid(election) {
        CellRead::Held(record)
    } else if are_zero(bytes) {
        CellRead::Empty
    } else {
        CellRead::Bad
    }
}

/// Puts a mark set, in so many bytes, in place of those that stand first.
fn put_set(set: u64, width: usize, out: &mut [u8])
    requires known { IsSetWidth width }
    requires fits { set < 256 ^ width }
    requires room { width ≤ length out.old }
    ensures { out.new ≡ bytes_high_first width set ++ drop width out.old }
{
    if width == MAX_SET_BYTES {
        BigEndian::write_u64(out, set);
    } else {
        BigEndian::write_u32(out, set as u32);
    }
}

/// Puts mark sets, in so many bytes each.
fn put_all_sets(sets: &[u64], width: usize, out: &mut [u8])
    requires known { IsSetWidth width }
    requires fit { (k : ℕ) → k < length sets.now → slice_index sets.now k < 256 ^ width }
    requires room { length out.old ≡ width * length sets.now }
    ensures { out.new ≡ flat_map (bytes_high_first width) sets.now }
{
    'sets: for place in 0..sets.len() {
        put_set(sets[place], width, &mut out[width * place..]);
    }
}

impl Record {
    /// The record that the bytes of a cell spell, valid or not.
    #[tactic(auto, unfolding(store_spec::specs::Election::cell_size))]
    pub fn of_cell(bytes: &[u8], election: &Election) -> Record
        requires { length bytes.now ≡ cell_size election.now }
        ensures { ballot result ≡ ballot_at election.now bytes.now }
    {
        let mut record = Record::blank();
        put_parts(bytes, election, &mut record);
        record
    }

    /// Writes the bytes of its cell.
    #[tactic(auto, unfolding(store_spec::specs::Election::cell_size))]
    pub fn put_cell(&self, election: &Election, out: &mut [u8])
        requires valid { IsValid election.now (ballot self.now) }
        requires room { length out.old ≡ cell_size election.now }
        ensures { out.new ≡ ballot_bytes election.now (ballot self.now) }
    {
        let sets = &self.marks[..election.contests()];
        BigEndian::write_u64(out, self.number);
        out[8] = self.style;
        put_all_sets(sets, election.set_bytes(), &mut out[9..]);
    }
}

/// The number that stands in front of a cell.
pub fn number_of(bytes: &[u8]) -> u64
    requires { number_size ≤ length bytes.now }
    ensures { result ≡ number_at bytes.now }
{
    BigEndian::read_u64(bytes)
}

/// The style of the ballot in a cell.
#[tactic(auto, unfolding(store_spec::specs::Election::cell_size))]
pub fn style_of(bytes: &[u8], election: &Election) -> u8
    requires valid { IsElection election.now }
    requires long { length bytes.now ≡ cell_size election.now }
    ensures { (b : Ballot) → IsCellOf election.now bytes.now b → result ≡ b.style }
{
    bytes[8]
}

/// The mark set that the ballot in a cell has for the contest at a place, counted from 0.
#[tactic(auto, unfolding(store_spec::specs::Election::cell_size))]
pub fn set_of(bytes: &[u8], election: &Election, place: usize) -> u64
    requires valid { IsElection election.now }
    requires long { length bytes.now ≡ cell_size election.now }
    requires within { place < length election.now.contests }
    ensures { (b : Ballot) → IsCellOf election.now bytes.now b → result ≡ slice_index b.marks place }
{
    if election.set_bytes() == MAX_SET_BYTES {
        let (_, onward) = bytes.split_at(FRONT_BYTES + MAX_SET_BYTES * place);
        BigEndian::read_u64(onward)
    } else {
        let (_, onward) = bytes.split_at(FRONT_BYTES + SHORT_SET_BYTES * place);
        u64::from(BigEndian::read_u32(onward))
    }
}
