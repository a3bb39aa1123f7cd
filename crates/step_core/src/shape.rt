//! How many shared words a phase has, and where the home of a number is.

use probe_order::Salted;

/// The shared words of a phase: so many cells, in which the order gives each number its home, and behind them so many
/// claim words.
#[derive(Clone, Copy, Debug, PartialEq, Eq)]
pub struct Shape {
    pub order: Salted,
    pub cells: usize,
    pub claims: usize,
}
