//! Worked figures of reports.

ghost use Rattle.store_spec.specs.ReportFigures.{ExampleReports, ExampleSummary};

/// The tally and the export of two ballots under the example election.
pub fn example_reports()
    ensures { ExampleReports }
{}

/// The summary of some replies.
pub fn example_summary()
    ensures { ExampleSummary }
{}
