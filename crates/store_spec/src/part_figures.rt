//! Worked figures of a store in parts.

ghost use Rattle.store_spec.specs.PartFigures.{ExampleBorders, ExampleShares};

/// The parts of the numbers on either side of a border.
pub fn example_borders()
    ensures { ExampleBorders }
{}

/// Which of three ballots each of two parts holds.
pub fn example_shares()
    ensures { ExampleShares }
{}
