//! Worked figures of the steps of casting and of a casting phase's outcome.

ghost use Rattle.store_spec.specs.StepFigures.{ExampleClaims, ExampleOutcome, ExampleRace};

/// The order in which the claim words of a number are tried.
pub fn example_claims()
    ensures { ExampleClaims }
{}

/// Two tabulators race for a cell, a row of the table each step.
pub fn example_race()
    ensures { ExampleRace }
{}

/// A phase with numbers that are held, accepted, taken and refused.
pub fn example_outcome()
    ensures { ExampleOutcome }
{}
