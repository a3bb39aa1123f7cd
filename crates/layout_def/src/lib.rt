//! Where the numbers of a set stand in the cells of a store.
#![tactic(auto)]

mod changes;
pub mod laws;
mod probe;
mod search;
mod walk;
mod zeros;

ghost use Rattle.layout_def.specs.Pointers.{AreSound};
ghost use Rattle.std.specs.List.Sorted.{IsNonDecreasing};
ghost use Rattle.std.specs.Prelude.{◌≡◌, ◌≢◌, ◌+◌, ◌≤◌, All, AllPairs, IfOk, length, replicate};
ghost use Rattle.store_spec.specs.Layout.{HasRoom, layout_of};

pub use changes::{BLOCK, CellChange, changes_between, exchange, note_changes, other_cells};
use outside_io::Memory;
use probe::{first_empty, fresh_pointers};
use probe_order::Order;
pub use search::{is_ordered, place_of};
use std::alloc::Global;
use walk::put_all;
pub use zeros::put_zeros;

/// The cells that hold these numbers, where each stands in the first cell at or after its home that no greater number takes.
/// It takes time near n where homes are spread out, and near n log n in any case.
pub fn build<O: Order>(
    alloc: Global,
    order: &O,
    cells: usize,
    numbers: &[u64],
) -> Result<Vec<u64>, Memory>
    requires distinct { AllPairs (λ a b. a ≢ b) numbers.now }
    requires some { All (λ v. v ≢ 0) numbers.now }
    requires room { O.homes order.now + length numbers.now ≤ cells }
    ensures { IfOk result (λ v. v.items ≡ layout_of (O.home order.now) cells numbers.now) }
{
    let mut placed = vec![in alloc; 0; cells]?;
    if put_all(order, &mut placed, numbers) {
        return Ok(placed);
    }
    build_by_order(alloc, order, cells, numbers)
}

/// The same cells, however many numbers have one home.
fn build_by_order<O: Order>(
    alloc: Global,
    order: &O,
    cells: usize,
    numbers: &[u64],
) -> Result<Vec<u64>, Memory>
    requires room { HasRoom (O.home order.now) (O.homes order.now) cells numbers.now }
    ensures { IfOk result (λ v. v.items ≡ layout_of (O.home order.now) cells numbers.now) }
{
    let mut waiting = Vec::from_slice(alloc, numbers)?;
    waiting.sort_unstable();
    let mut placed = vec![in alloc; 0; cells]?;
    let mut onward = fresh_pointers(alloc, cells)?;
    place_all(order, waiting, &mut placed, &mut onward);
    Ok(placed)
}

/// Places numbers that rise into empty cells, the greatest first.
fn place_all<O: Order>(order: &O, mut waiting: Vec<u64>, cells: &mut [u64], onward: &mut [usize])
    requires rising { IsNonDecreasing waiting.items }
    requires fits { HasRoom (O.home order.now) (O.homes order.now)
        (length cells.old) waiting.items }
    requires empty { cells.old ≡ replicate (length cells.old) 0 }
    requires sound { AreSound cells.old onward.old }
    ensures { cells.new ≡ layout_of (O.home order.now) (length cells.old) waiting.items }
{
    while let Some(v) = waiting.pop() {
        let place = first_empty(cells, onward, order.home(v));
        cells[place] = v;
        onward[place] = place + 1;
    }
}

#[cfg(test)]
mod tests {
    use super::*;
    use probe_order::Salted;
    use std::process::Abort;

    const EXAMPLE: Salted = Salted { bits: 3, salt: 0 };

    fn holds(rt: &impl Abort, cells: &[u64], wanted: &[(usize, u64)]) {
        for (place, cell) in cells.iter().enumerate() {
            let number = wanted.iter().find(|at| at.0 == place).map_or(0, |at| at.1);
            assert_eq!(rt; *cell, number, "cell {place}");
        }
    }

    #[test]
    fn three_numbers(rt: HostRuntime) {
        let cells = build(rt.alloc(), &EXAMPLE, 16, &[1, 9, 14]).expect(&rt, "memory");
        holds(&rt, &cells, &[(4, 9), (5, 14), (6, 1)]);
    }

    #[test]
    fn eight_numbers(rt: HostRuntime) {
        let numbers = [1, 2, 6, 9, 14, 17, 22, u64::MAX];
        let cells = build(rt.alloc(), &EXAMPLE, 16, &numbers).expect(&rt, "memory");
        let wanted = [
            (1, 2),
            (3, u64::MAX),
            (4, 22),
            (5, 17),
            (6, 14),
            (7, 9),
            (8, 6),
            (9, 1),
        ];
        holds(&rt, &cells, &wanted);
    }

    #[test]
    fn one_home(rt: HostRuntime) {
        let order = Salted { bits: 0, salt: 0 };
        let cells = build(rt.alloc(), &order, 2, &[5]).expect(&rt, "memory");
        holds(&rt, &cells, &[(0, 5)]);
    }

    #[test]
    fn places_and_order(rt: HostRuntime) {
        let cells = [0, 0, 0, 0, 22, 14, 9, 1, 0, 0, 0, 0, 0, 0, 0, 0];
        assert!(rt; is_ordered(&EXAMPLE, &cells));
        let wanted = [
            (22, Some(4)),
            (14, Some(5)),
            (9, Some(6)),
            (1, Some(7)),
            (17, None),
            (5, None),
        ];
        for (number, place) in wanted {
            assert_eq!(rt; place_of(&EXAMPLE, &cells, number), place, "{number}");
        }
        let unordered = [
            [0, 0, 0, 0, 9, 14, 0, 1, 0, 0, 0, 0, 0, 0, 0, 0],
            [0, 0, 0, 1, 9, 14, 0, 0, 0, 0, 0, 0, 0, 0, 0, 0],
            [0, 0, 0, 0, 14, 9, 1, 0, 0, 0, 0, 0, 0, 0, 0, 0],
            [0, 0, 0, 0, 1, 14, 9, 0, 0, 0, 0, 0, 0, 0, 0, 0],
        ];
        for cells in unordered {
            assert!(rt; !is_ordered(&EXAMPLE, &cells));
        }
    }
}
