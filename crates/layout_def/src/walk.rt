//! Numbers put into ordered cells one after another, in the order in which they come.

ghost use Rattle.layout_def.specs.Walk.{HoldsAlso};
ghost use Rattle.std.specs.Prelude.{◌≡◌, ◌≢◌, All, IsTrue, length, replicate};
ghost use Rattle.store_spec.specs.Layout.{HoldsExactly, IsOrdered};

use probe_order::Order;

/// How many cells a number is carried over at most.
const LONGEST_WALK: usize = 256;

/// Puts numbers into empty cells. False where one of them would be carried too far, and then nothing is said of the
/// cells.
pub fn put_all<O: Order>(order: &O, cells: &mut [u64], numbers: &[u64]) -> bool
    requires some { All (λ v. v ≢ 0) numbers.now }
    requires empty { cells.old ≡ replicate (length cells.old) 0 }
    ensures size { length cells.new ≡ length cells.old }
    ensures ordered { IsTrue result → IsOrdered (O.home order.now) cells.new }
    ensures exactly { IsTrue result → HoldsExactly cells.new numbers.now }
{
    for number in numbers {
        if !put(order, cells, *number) {
            return false;
        }
    }
    true
}

/// Puts a number into ordered cells. From its home on it passes each greater number and displaces the first lower one,
/// which is carried on in the same way. False where that takes too long.
fn put<O: Order>(order: &O, cells: &mut [u64], number: u64) -> bool
    requires some { number ≢ 0 }
    requires ordered { IsOrdered (O.home order.now) cells.old }
    ensures size { length cells.new ≡ length cells.old }
    ensures ordered { IsTrue result → IsOrdered (O.home order.now) cells.new }
    ensures also { IsTrue result → HoldsAlso number cells.old cells.new }
{
    let home = order.home(number);
    let end = cells.len().min(home.saturating_add(LONGEST_WALK));
    let mut carried = number;
    for place in home..end {
        let found = cells[place];
        if found > carried {
            continue;
        }
        cells[place] = carried;
        if found == 0 || found == carried {
            return true;
        }
        carried = found;
    }
    false
}
