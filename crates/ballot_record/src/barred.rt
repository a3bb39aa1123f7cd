//! The choices that ballots of a style may not mark, so that a ballot's cell is judged many bytes at once.
#![tactic(auto, unfolding(crate::specs::Format::largest_cell))]

ghost use Rattle.ballot_record.specs.Barred.{AreBarred, BarsBehind, IsBarredOn, barred_byte};
ghost use Rattle.ballot_record.specs.Format.{largest_cell};
ghost use Rattle.ballot_record.specs.OnStyle.{AreOnStyle, AreTheirs};
ghost use Rattle.std.specs.Prelude.{◌≡◌, ℕ, ◌+◌, ◌<◌, ◌≤◌, IfOk, length, slice_index};
ghost use Rattle.store_spec.specs.Election.{choices_on};

use crate::format::FRONT_BYTES;
use crate::{Election, MAX_CELL_BYTES, MAX_CONTESTS};
use outside_io::Memory;
use std::alloc::Global;

/// For each style of an election, where they would stand in a cell, the choices that a ballot of the style may not mark.
#[derive(Drop)]
pub struct Barred {
    pub rows: Vec<[u8; MAX_CELL_BYTES]>,
}

impl Barred {
    /// What the styles of an election bar.
    pub fn new(alloc: Global, election: &Election) -> Result<Barred, Memory>
        ensures { IfOk result (AreBarred election.now) }
    {
        let mut rows = Vec::with_capacity(alloc, election.styles())?;
        for place in 0..election.styles() {
            rows.push(row_of(election, place as u8 + 1))?;
        }
        Ok(Barred { rows })
    }
}

/// What a style bars.
fn row_of(election: &Election, style: u8) -> [u8; MAX_CELL_BYTES]
    ensures long { length result ≡ largest_cell }
    ensures barred { IsBarredOn election.now style result }
{
    let contests = election.contests_on(style);
    let width = election.set_bytes();
    let mut row = [0; MAX_CELL_BYTES];
    for place in 0..election.contests() {
        let from = FRONT_BYTES + width * place;
        bar_behind(&mut row, from, width, offered(election, contests, place));
    }
    row
}

/// How many choices the contest at a place offers, where these are the contests on a style.
fn offered(election: &Election, contests: u32, place: usize) -> u8
    requires within { place < MAX_CONTESTS }
    requires known { AreTheirs election.now contests }
    ensures few { result ≤ 64 }
    ensures offered { (style : ℕ) → AreOnStyle election.now style contests
        → result ≡ choices_on election.now style (place + 1) }
{
    if contests >> place & 1 == 1 {
        election.contest(place + 1).choices
    } else {
        0
    }
}

/// Bars the choices behind the first so many in a mark set, which has so many bytes and begins at this one.
fn bar_behind(row: &mut [u8; MAX_CELL_BYTES], from: usize, width: usize, choices: u8)
    requires within { from + width ≤ MAX_CELL_BYTES }
    requires narrow { width ≤ 8 }
    requires few { choices ≤ 64 }
    ensures long { length row.new ≡ MAX_CELL_BYTES }
    ensures barred { BarsBehind choices width from row.new }
    ensures before { (k : ℕ) → k < from → slice_index row.new k ≡ slice_index row.old k }
{
    for byte in 0..width {
        row[from + byte] = barred_byte(choices, width - 1 - byte);
    }
}

/// The choices behind the first so many, in a mark set's byte that has so many bytes behind it.
fn barred_byte(choices: u8, behind: usize) -> u8
    requires few { choices ≤ 64 }
    requires narrow { behind < 8 }
    ensures { result ≡ barred_byte choices behind }
{
    let offered = usize::from(choices).saturating_sub(8 * behind).min(8);
    if offered == 8 {
        0
    } else {
        u8::MAX - ((1 << offered) - 1)
    }
}
