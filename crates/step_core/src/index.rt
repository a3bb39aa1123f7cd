//! The numbers that a withdrawing phase begins with, and the cells in which they stand.

ghost use Rattle.std.specs.Prelude.{◌≡◌, ◌≢◌, ◌↔◌, ℕ, ◌<◌, All, AllPairs, Contains, IfOk, IsPermutation, IsTrue, MatchOption, length, slice_index, vec_len};
ghost use Rattle.std.specs.List.Sorted.{IsNonDecreasing};
ghost use Rattle.step_core.specs.CellIndex.{HasPlace, IsCellIndex, StandOnce};
ghost use Rattle.store_spec.specs.Layout.{ascending};

use outside_io::Memory;
use std::alloc::Global;

/// Numbers in ascending order, and the cell of each.
#[derive(Drop)]
pub struct CellIndex {
    pub numbers: Vec<u64>,
    pub places: Vec<usize>,
    ghost in_order: { IsNonDecreasing numbers.items },
    ghost as_many: { vec_len places ≡ vec_len numbers },
}

impl CellIndex {
    /// The index of some numbers in these cells.
    pub fn new(alloc: Global, start: &[u64], cells: &[u64]) -> Result<CellIndex, Memory>
        requires each { All (Contains cells.now) start.now }
        requires some { All (λ x. x ≢ 0) start.now }
        requires distinct { AllPairs (λ a b. a ≢ b) start.now }
        requires once { StandOnce cells.now }
        ensures numbers { IfOk result (λ index. index.numbers.items ≡ ascending start.now) }
        ensures index { IfOk result
            (λ index. IsCellIndex cells.now index.numbers.items index.places.items) }
    {
        let numbers = in_order(alloc, start)?;
        let mut places = vec![in alloc; 0; start.len()]?;
        find_places(&numbers, cells, &mut places);
        Ok(CellIndex { numbers, places })
    }

    /// Whether a number is one of the numbers.
    pub fn holds(&self, number: u64) -> bool
        ensures { IsTrue result ↔ Contains self.now.numbers.items number }
    {
        rank_of(&self.numbers, number).is_some()
    }

    /// The cell of a number. `None` where it is none of the numbers.
    pub fn cell_of(&self, number: u64) -> Option<usize>
        ensures { MatchOption result (¬ Contains self.now.numbers.items number)
            (HasPlace self.now.numbers.items self.now.places.items number) }
    {
        rank_of(&self.numbers, number).map(|rank| self.places[rank])
    }
}

/// The numbers in ascending order.
fn in_order(alloc: Global, numbers: &[u64]) -> Result<Vec<u64>, Memory>
    ensures ascending { IfOk result (λ v. v.items ≡ ascending numbers.now) }
    ensures in_order { IfOk result (λ v. IsNonDecreasing v.items) }
    ensures same { IfOk result (λ v. IsPermutation numbers.now v.items) }
{
    let mut sorted = Vec::from_slice(alloc, numbers)?;
    sorted.sort_unstable();
    Ok(sorted)
}

/// The rank of a number among numbers that are in order. `None` where it is none of them.
fn rank_of(numbers: &[u64], number: u64) -> Option<usize>
    requires { IsNonDecreasing numbers.now }
    ensures { MatchOption result (¬ Contains numbers.now number)
        (λ rank. (rank < length numbers.now) × (slice_index numbers.now rank ≡ number)) }
{
    numbers.binary_search(&number).ok()
}

/// Finds the cell of each of the numbers.
fn find_places(numbers: &[u64], cells: &[u64], places: &mut [usize])
    requires as_many { length places.old ≡ length numbers.now }
    requires in_order { IsNonDecreasing numbers.now }
    requires distinct { AllPairs (λ a b. a ≢ b) numbers.now }
    requires some { All (λ x. x ≢ 0) numbers.now }
    requires each { All (Contains cells.now) numbers.now }
    requires once { StandOnce cells.now }
    ensures { IsCellIndex cells.now numbers.now places.new }
{
    for place in 0..cells.len() {
        let Some(rank) = rank_of(numbers, cells[place]) else {
            continue;
        };
        places[rank] = place;
    }
}
