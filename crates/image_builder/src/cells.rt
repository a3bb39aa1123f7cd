//! The cells of a bank, judged in their order where they stand.

ghost use Rattle.body_store.specs.Contents.{IsStored};
ghost use Rattle.image_builder.specs.Cells.{AreJudged, IsEquipped, IsRead, IsRefusedAt, end_read, numbers_read};
ghost use Rattle.image_builder.specs.Feeding.{IsFront, IsRefusedPiece};
ghost use Rattle.image_builder.specs.Reaches.{AreReaches, IsReach};
ghost use Rattle.std.specs.Prelude.{◌≡◌, ◌+◌, ◌-◌, ◌*◌, ◌<◌, ◌≤◌, ◌↔◌, ◌++◌, ◌∷◌, [], ℕ, List, false, drop, length, take, vec_capacity, vec_len, IfOk, IfErr, IfSome, IsSome, IsTrue, OnOk};
ghost use Rattle.store_spec.specs.Election.{IsElection, bank_size, cell_count, cell_size, header_size};
ghost use Rattle.store_spec.specs.Home.{home_in};
ghost use Rattle.store_spec.specs.Image.{IsEmptyCell, IsImageOf, header_of};
ghost use Rattle.store_spec.specs.Layout.{MayStand};

use crate::read::{ImageFault, check_header};
use crate::zeros::is_empty;
use ballot_record::{Barred, Election, HEADER_BYTES, MAX_CONTESTS, holds_ballot, number_of};
use body_store::Closed;
use outside_io::Memory;
use probe_order::Order;
use std::alloc::Global;

/// How many empty cells are passed at once.
const BLOCK: usize = 16;

/// The cells that were judged: the number in each, or 0 where it is empty, and for each number how far back its cell
/// reaches; and what the election's styles bar. The bytes stay with the caller.
#[derive(Drop)]
pub struct CellsRead {
    pub numbers: Vec<u64>,
    pub reaches: Vec<u32>,
    pub barred: Barred,
}

impl CellsRead {
    /// No cells, with room for those of a bank, and for the words of a casting phase behind them.
    #[tactic(auto, using(ballot_record::proofs::CellFormat::header_width))]
    pub fn new(alloc: Global, election: &Election) -> Result<CellsRead, Memory>
        ensures judged { IfOk result (λ cells. AreJudged election.now cells []) }
        ensures election { IsElection election.now }
    {
        prove!(election.contests() <= MAX_CONTESTS);
        Ok(CellsRead {
            numbers: Vec::with_capacity(alloc, election.cells() + election.limit() as usize)?,
            reaches: Vec::with_capacity(alloc, election.limit() as usize)?,
            barred: Barred::new(alloc, election)?,
        })
    }

    /// Judges what is whole in the first bytes of a bank, behind what was judged before: the header, and cells. Where
    /// something is wrong, what was judged is given up.
    #[tactic(auto, using(ballot_record::proofs::CellFormat::header_width))]
    pub fn judge(&mut self, bank: &[u8], election: &Election) -> Result<(), ImageFault>
        requires judged { (fed more : List ℕ)
            × AreJudged election.now self.old fed × (bank.now ≡ fed ++ more) }
        requires within { length bank.now ≤ bank_size election.now }
        requires election { IsElection election.now }
        ensures judged { OnOk result (AreJudged election.now self.new bank.now) }
        ensures front { OnOk result (IsFront election.now bank.now) }
        ensures refused { (fed more : List ℕ)
            → AreJudged election.now self.old fed → bank.now ≡ fed ++ more
            → IfErr result (IsRefusedPiece election.now fed more) }
    {
        if bank.len() < HEADER_BYTES {
            return Ok(());
        }
        if self.numbers.is_empty() {
            check_header(bank, election)?;
        }
        read_whole_cells(self, bank, election)
    }

    /// The store whose image a bank is that was judged whole.
    pub fn into_store(
        self,
        alloc: Global,
        bank: Vec<u8>,
        election: &Election,
    ) -> Result<Closed, Memory>
        requires judged { AreJudged election.now self bank.items }
        requires whole { length bank.items ≡ bank_size election.now }
        ensures image { IfOk result (λ store. IsImageOf election.now bank.items store.ballots) }
        ensures election { IfOk result (λ store. store.election ≡ election.now) }
        ensures stored { IfOk result IsStored }
        ensures header { take header_size bank.items ≡ header_of election.now }
    {
        prove!(election.contests() <= MAX_CONTESTS);
        Closed::from_image(alloc, election, bank, self.numbers)
    }
}

/// Reads each cell that is whole in the first bytes of a bank, behind those that were read.
fn read_whole_cells(
    cells: &mut CellsRead,
    bank: &[u8],
    election: &Election,
) -> Result<(), ImageFault>
    requires election { IsElection election.now }
    requires read { IsRead election.now cells.old bank.now }
    requires wide { IsEquipped election.now cells.old }
    requires within { length bank.now ≤ bank_size election.now }
    ensures read { OnOk result (IsRead election.now cells.new bank.now) }
    ensures short { OnOk result
        (length bank.now < end_read election.now cells.new + cell_size election.now) }
    ensures wide { OnOk result (IsEquipped election.now cells.new) }
    ensures refused { IfErr result
        (IsRefusedPiece election.now (take (end_read election.now cells.old) bank.now)
        (drop (end_read election.now cells.old) bank.now)) }
{
    let size = election.cell_bytes();
    let mut at = pass_empty(cells, bank, election);
    while bank.len() - at >= size {
        read_cell(cells, bank, at, size, election)?;
        at += size;
    }
    Ok(())
}

/// Passes blocks of empty cells that stand behind those that were read, and answers where the cells that were read end
/// then. Where few ballots are kept, that is most of a page.
#[tactic(auto, using(ballot_record::proofs::CellFormat::header_width, ballot_record::proofs::CellFormat::largest_cell_width))]
fn pass_empty(cells: &mut CellsRead, bank: &[u8], election: &Election) -> usize
    requires election { IsElection election.now }
    requires read { IsRead election.now cells.old bank.now }
    requires wide { IsEquipped election.now cells.old }
    requires within { length bank.now ≤ bank_size election.now }
    ensures read { IsRead election.now cells.new bank.now }
    ensures wide { IsEquipped election.now cells.new }
    ensures end { result ≡ end_read election.now cells.new }
    ensures onward { end_read election.now cells.old ≤ result }
{
    let cell = election.cell_bytes();
    let size = BLOCK * cell;
    let mut at = HEADER_BYTES + cells.numbers.len() * cell;
    while bank.len() - at >= size && is_empty(&bank[at..at + size]) {
        let fits = cells.numbers.extend_from_slice(&[0; BLOCK]).is_ok();
        prove!(fits);
        at += size;
    }
    at
}

/// Reads one cell more, which begins at this byte and has so many. Most cells are empty, and judged with no call.
#[tactic(auto, using(ballot_record::proofs::CellFormat::number_fits))]
#[inline(always)]
fn read_cell(
    cells: &mut CellsRead,
    bank: &[u8],
    at: usize,
    size: usize,
    election: &Election,
) -> Result<(), ImageFault>
    requires size { size ≡ cell_size election.now }
    requires election { IsElection election.now }
    requires read { IsRead election.now cells.old bank.now }
    requires wide { IsEquipped election.now cells.old }
    requires at { at ≡ end_read election.now cells.old }
    requires whole { at + cell_size election.now ≤ length bank.now }
    requires within { length bank.now ≤ bank_size election.now }
    ensures read { OnOk result (IsRead election.now cells.new bank.now) }
    ensures wide { OnOk result (IsEquipped election.now cells.new) }
    ensures end { OnOk result
        (end_read election.now cells.new ≡ end_read election.now cells.old + cell_size election.now) }
    ensures refused { IfErr result
        (IsRefusedAt election.now (take (at + cell_size election.now) bank.now)) }
{
    if is_empty(&bank[at..at + size]) {
        cells.numbers.push_reserved(0);
        return Ok(());
    }
    let place = cells.numbers.len();
    if read_right_cell(cells, bank, at, election) {
        Ok(())
    } else {
        Err(ImageFault::Damaged { cell: place as u32 })
    }
}

/// Reads one cell more, which begins at this byte and is not empty, where it is right, and answers whether it is.
#[inline(never)]
fn read_right_cell(cells: &mut CellsRead, bank: &[u8], at: usize, election: &Election) -> bool
    requires some { ¬ IsEmptyCell election.now (take (cell_size election.now) (drop at bank.now)) }
    requires election { IsElection election.now }
    requires read { IsRead election.now cells.old bank.now }
    requires wide { IsEquipped election.now cells.old }
    requires at { at ≡ end_read election.now cells.old }
    requires whole { at + cell_size election.now ≤ length bank.now }
    requires within { length bank.now ≤ bank_size election.now }
    ensures read { IsTrue result → IsRead election.now cells.new bank.now }
    ensures wide { IsTrue result → IsEquipped election.now cells.new }
    ensures end { IsTrue result
        → end_read election.now cells.new ≡ end_read election.now cells.old + cell_size election.now }
    ensures refused { (result ≡ false) → IsRefusedAt election.now
        (take (at + cell_size election.now) bank.now)
        (ImageFault.Damaged (length (numbers_read cells.old))) }
{
    let bytes = &bank[at..at + election.cell_bytes()];
    if !holds_ballot(bytes, election, &cells.barred)
        || cells.reaches.len() >= election.limit() as usize
    {
        return false;
    }
    let number = number_of(bytes);
    let Some(reach) = reach_of(election, &cells.numbers, &cells.reaches, number) else {
        return false;
    };
    cells.numbers.push_reserved(number);
    cells.reaches.push_reserved(reach);
    true
}

/// How far back these cells hold greater numbers than one that is to stand in the cell after them. `None` where it may
/// not stand there. The reach may go further back than the number's home, and need not be the longest. What a cell
/// reaches over is passed at once, so that judging all cells of a bank takes each of them twice at most. All cells that
/// are passed have records, so the reach of the one before them is counted from the end.
#[inline(always)]
fn reach_of(election: &Election, cells: &[u64], reaches: &[u32], number: u64) -> Option<u32>
    requires reaches { AreReaches cells.now reaches.now }
    requires few { length cells.now < cell_count election.now }
    ensures stands { IsSome result
        ↔ MayStand (home_in election.now) cells.now number (length cells.now) }
    ensures reach { IfSome result (IsReach cells.now number (length cells.now)) }
{
    let home = election.order().home(number);
    if cells.len() < home {
        return None;
    }
    let mut from = cells.len();
    while home < from {
        if cells[from - 1] <= number {
            return None;
        }
        from = reaches[reaches.len() - 1 - (cells.len() - from)] as usize;
    }
    Some(from as u32)
}
