//! Worked figures of the steps of withdrawing, and of the outcomes of a withdrawing phase and a finding phase.

ghost use Rattle.store_spec.specs.WithdrawFigures.{ExampleFinding, ExampleStaleCandidate, ExampleWithdrawal};

/// Two withdrawers of which one takes what the other has in view, a row of the table each step.
pub fn example_stale_candidate()
    ensures { ExampleStaleCandidate }
{}

/// A phase with numbers that are withdrawn, gone and absent.
pub fn example_withdrawal()
    ensures { ExampleWithdrawal }
{}

/// A phase with numbers that are present and absent.
pub fn example_finding()
    ensures { ExampleFinding }
{}
