//! Where a number stands in ordered cells, and whether cells are ordered.

ghost use Rattle.std.specs.Prelude.{◌≡◌, ◌≢◌, ℕ, ◌<◌, ◌≤◌, ◌↔◌, Contains, IsTrue, MatchOption, length, slice_index};
ghost use Rattle.store_spec.specs.Layout.{IsOrdered, MayStand};

use probe_order::Order;

/// The cell in which a number stands. `None` where it stands in none.
pub fn place_of<O: Order>(order: &O, cells: &[u64], v: u64) -> Option<usize>
    requires some { v ≢ 0 }
    requires ordered { IsOrdered (O.home order.now) cells.now }
    ensures { MatchOption result
        (¬ Contains cells.now v) (λ place. slice_index cells.now place ≡ v) }
{
    let mut place = order.home(v);
    while place < cells.len() && cells[place] > v {
        place += 1;
    }
    (place < cells.len() && cells[place] == v).then_some(place)
}

/// Whether each number stands at its home or after it, with only greater numbers from its home up to it.
pub fn is_ordered<O: Order>(order: &O, cells: &[u64]) -> bool
    ensures { IsTrue result ↔ IsOrdered (O.home order.now) cells.now }
{
    for place in 0..cells.len() {
        if cells[place] != 0 && !stands_in_order(order, cells, place) {
            return false;
        }
    }
    true
}

/// Whether the number in a cell stands in order, where all before it do. What stands between the home of a number
/// that is greater and that number is greater too, so that it is passed at once.
fn stands_in_order<O: Order>(order: &O, cells: &[u64], place: usize) -> bool
    requires within { place < length cells.now }
    requires before { (k : ℕ) → k < place → slice_index cells.now k ≢ 0
        → MayStand (O.home order.now) cells.now (slice_index cells.now k) k }
    ensures { IsTrue result
        ↔ MayStand (O.home order.now) cells.now (slice_index cells.now place) place }
{
    let v = cells[place];
    let home = order.home(v);
    if place < home {
        return false;
    }
    let mut from = place;
    while home < from {
        let before = cells[from - 1];
        if before <= v {
            return false;
        }
        from = order.home(before);
    }
    true
}
