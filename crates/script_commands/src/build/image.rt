//! The image of a script's ballots, written a page at a time.

ghost use Rattle.outside_io.specs.Stream.{TakesAll, TakesSome};
ghost use Rattle.run_outcome.specs.declared.status.Status.TheVariants as statuses;
ghost use Rattle.script_commands.specs.Ballots.{AreGoodBallots, ballots_so_far, election_of};
ghost use Rattle.std.specs.Prelude.{◌≡◌, ℕ, ◌+◌, ◌<◌, ◌≤◌, ◌++◌, IfErr, IfOk, OnErr, OnOk, drop, flat_map, length, replicate, slice_index, take, true, vec_capacity, vec_len};
ghost use Rattle.store_spec.specs.Election.{cell_size};
ghost use Rattle.store_spec.specs.Fault.{CountsFault};
ghost use Rattle.store_spec.specs.Image.{cell_bytes, header_of};

use crate::build::ballots::Ballots;
use ballot_record::{Election, Header, MAX_CELL_BYTES};
use outside_io::{Memory, Sink};
use run_outcome::{Status, write_out};
use std::alloc::Global;

/// A page is written once it has more bytes than this.
const FULL: usize = 65536;
/// So many empty cells are put at once at most.
const RUN: usize = 32;
/// So many cells are looked at at once.
const AT_ONCE: usize = 8;
/// The most bytes that are put at once.
const PIECE: usize = RUN * MAX_CELL_BYTES;

/// A page with the header of the images of an election, and with room for cells.
pub fn first_page(alloc: Global, election: &Election) -> Result<Vec<u8>, Memory>
    ensures header { IfOk result (λ page. page.items ≡ header_of election.now) }
    ensures short { IfOk result (λ page. vec_len page ≤ FULL) }
    ensures room { IfOk result (λ page. FULL + PIECE ≤ vec_capacity page) }
{
    let header = Header::of(election);
    let mut page = Vec::with_capacity(alloc, FULL + PIECE)?;
    page.extend_from_slice(&header.bytes)?;
    Ok(page)
}

/// Writes a page, and behind it each of these cells with the ballot that has its number.
pub fn put_cells<K: Sink>(
    election: &Election,
    ballots: &Ballots,
    cells: &[u64],
    mut page: Vec<u8>,
    out: &mut K,
) -> Result<(), Status>
    requires sound { AreGoodBallots election.now ballots.now }
    requires short { vec_len page ≤ FULL }
    requires room { FULL + PIECE ≤ vec_capacity page }
    ensures all { OnOk result (TakesAll (K.taken out.old)
        (page.items ++ flat_map (cell_bytes election.now (ballots_so_far ballots.now)) cells.now)
        (K.taken out.new)) }
    ensures some { OnErr result (TakesSome (K.taken out.old)
        (page.items ++ flat_map (cell_bytes election.now (ballots_so_far ballots.now)) cells.now)
        (K.taken out.new)) }
    ensures failed { IfErr result (λ status. status ≡ statuses.WriteFault) }
    ensures fault { CountsFault result (K.faults out.old) (K.faults out.new) }
{
    let zeros = [0; PIECE];
    let size = election.cell_bytes();
    let mut at = 0;
    'cells: while at < cells.len() {
        let (count, bytes) = next_cells(ballots, cells, at, size, &zeros);
        put(&mut page, bytes);
        at += count;
        if page.len() > FULL {
            write_out(out, &page)?;
            page.clear();
        }
    }
    write_out(out, &page)
}

/// How many cells are put at once, and their bytes: the next one, or so many as are empty from there on.
fn next_cells<'a>(
    ballots: &'a Ballots,
    cells: &[u64],
    at: usize,
    size: usize,
    zeros: &'a [u8],
) -> (usize, &'a [u8])
    requires sound { AreGoodBallots (election_of ballots.now) ballots.now }
    requires size { size ≡ cell_size (election_of ballots.now) }
    requires narrow { size ≤ MAX_CELL_BYTES }
    requires within { at < length cells.now }
    requires zeros { zeros.now ≡ replicate PIECE 0 }
    ensures some { 1 ≤ result.0 }
    ensures within { at + result.0 ≤ length cells.now }
    ensures bytes { result.1.now
        ≡ flat_map (cell_bytes (election_of ballots.now) (ballots_so_far ballots.now))
        (take result.0 (drop at cells.now)) }
    ensures short { length result.1.now ≤ PIECE }
{
    match cells[at] {
        0 => {
            let run = empty_run(cells, at);
            (run, &zeros[..run * size])
        }
        number => (1, ballots.cell_with(number, &zeros[..size])),
    }
}

/// How many cells are empty from an empty one on, but no more than a piece has. Where many are, some are looked at at
/// once.
fn empty_run(cells: &[u64], at: usize) -> usize
    requires within { at < length cells.now }
    requires first { slice_index cells.now at ≡ 0 }
    ensures some { 1 ≤ result }
    ensures few { result ≤ RUN }
    ensures within { at + result ≤ length cells.now }
    ensures empty { (k : ℕ) → at ≤ k → k < at + result → slice_index cells.now k ≡ 0 }
{
    let end = cells.len().min(at + RUN);
    let mut next = at + 1;
    'several: while next + AT_ONCE <= end && are_empty(cells, next) {
        next += AT_ONCE;
    }
    'run: while next < end && cells[next] == 0 {
        next += 1;
    }
    next - at
}

/// Whether the next few cells are empty. It does not stop at the first that is not.
fn are_empty(cells: &[u64], from: usize) -> bool
    requires { from + AT_ONCE ≤ length cells.now }
    ensures { result ≡ true
        → ((k : ℕ) → from ≤ k → k < from + AT_ONCE → slice_index cells.now k ≡ 0) }
{
    let mut empty = true;
    'few: for place in from..from + AT_ONCE {
        empty &= cells[place] == 0;
    }
    empty
}

/// Puts the bytes of cells into a page that has room for them.
fn put(page: &mut Vec<u8>, bytes: &[u8])
    requires { vec_len page.old + length bytes.now ≤ vec_capacity page.old }
    ensures put { page.new.items ≡ page.old.items ++ bytes.now }
    ensures capacity { vec_capacity page.old ≤ vec_capacity page.new }
{
    let fits = page.extend_from_slice(bytes).is_ok();
    prove!(fits);
}
