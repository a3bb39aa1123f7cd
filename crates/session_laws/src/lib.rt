//! The session machine at work: worked figures of it, and its laws. Each function here states one and does nothing.
#![tactic(auto)]

pub mod laws;

ghost use Rattle.session_laws.specs.LargeFigures.{LargeSets, LargeSummaries};
ghost use Rattle.session_laws.specs.SessionFigures.{CastAndWithdrawn, DroppedPhase, FullStore, GoneAndAbsent, OneAfterAnother, OneNumberTwice, RefusedLines, TalliedAndExported, ThreeBallots, TwoScripts};

/// Two tabulators cast three ballots, and the set is acknowledged.
pub fn three_ballots()
    ensures { ThreeBallots }
{}

/// Two scripts with other lists, in another order, lead to one set.
pub fn two_scripts_one_set()
    ensures { TwoScripts }
{}

/// Of two ballots with one number either is accepted, and never both.
pub fn one_number_twice()
    ensures { OneNumberTwice }
{}

/// What is withdrawn: a ballot that was just cast, which leaves the set as it was, and a number twice, and one not held.
pub fn withdrawn_ballots()
    ensures displaced { CastAndWithdrawn }
    ensures absent { GoneAndAbsent }
{}

/// What one tabulator casts and withdraws is answered one after another.
pub fn one_after_another()
    ensures { OneAfterAnother }
{}

/// Lines that are malformed, of another phase or invalid do nothing.
pub fn refused_lines()
    ensures { RefusedLines }
{}

/// A store that holds as many ballots as it may.
pub fn full_store()
    ensures { FullStore }
{}

/// A script that ends while ballots wait for the close of their phase.
pub fn dropped_phase()
    ensures { DroppedPhase }
{}

/// Two ballots that are held, counted, and written.
pub fn tallied_and_exported()
    ensures { TalliedAndExported }
{}

/// What large runs make of a set with room, and of a full one, and what is written of them.
pub fn large_runs()
    ensures sets { LargeSets }
    ensures summaries { LargeSummaries }
{}
