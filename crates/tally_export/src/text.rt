//! The text of a tally.

ghost use Rattle.std.specs.Prelude.{◌≡◌, ℕ, ◌+◌, ◌-◌, ◌<◌, ◌≤◌, ◌∷◌, [], ◌++◌, List, IfOk, OnErr, OnOk, length, map, codes, flat_map, slice_index, string_bytes};
ghost use Rattle.std.specs.List.{range_with_len};
ghost use Rattle.outside_io.specs.Stream.{TakesAll, TakesSome};
ghost use Rattle.store_spec.specs.Ballot.{Ballot};
ghost use Rattle.store_spec.specs.Fault.{CountsFaultIf};
ghost use Rattle.store_spec.specs.Input.{line_end};
ghost use Rattle.store_spec.specs.Report.{choice_line, contest_line, contest_lines, count_line, lines_text, tally_text};
ghost use Rattle.tally_export.specs.Counted.{IsTallyOf};

use crate::{CHOICES, PutFault, Tally};
use ballot_record::Election;
use body_store::Closed;
use outside_io::{Memory, Sink};
use std::alloc::Global;

fn push_contest(text: &mut String, k: usize, under: u64, over: u64) -> Result<(), Memory>
    ensures { IfOk result (λ _. string_bytes text.new
        ≡ string_bytes text.old ++ (contest_line k under over ++ line_end ∷ [])) }
{
    write!(text, "contest {k} under {under} over {over}\n")?;
    Ok(())
}

fn push_choice(text: &mut String, k: usize, c: usize, count: u64) -> Result<(), Memory>
    ensures { IfOk result (λ _. string_bytes text.new
        ≡ string_bytes text.old ++ (choice_line k c count ++ line_end ∷ [])) }
{
    write!(text, "choice {k} {c} {count}\n")?;
    Ok(())
}

/// Appends a line for each of so many choices of contest `k`.
fn push_choices(
    text: &mut String,
    k: usize,
    counts: &[u64; CHOICES],
    choices: usize,
) -> Result<(), Memory>
    requires { choices ≤ CHOICES }
    ensures { IfOk result (λ _. string_bytes text.new ≡ string_bytes text.old
        ++ lines_text (map (λ c. choice_line k c (slice_index counts.now (c - 1)))
        (range_with_len 1 choices))) }
{
    'choices: for (place, count) in counts[..choices].iter().enumerate() {
        push_choice(text, k, place + 1, *count)?;
    }
    Ok(())
}

/// Appends the lines of each contest.
fn push_contests(text: &mut String, tally: &Tally, election: &Election) -> Result<(), Memory>
    ensures { (ballots : List Ballot) → IsTallyOf election.now ballots tally.now
        → IfOk result (λ _. string_bytes text.new ≡ string_bytes text.old
        ++ lines_text (flat_map (contest_lines election.now ballots)
        (range_with_len 1 (length election.now.contests)))) }
{
    'contests: for place in 0..election.contests() {
        let choices = usize::from(election.contest(place + 1).choices);
        push_contest(text, place + 1, tally.under[place], tally.over[place])?;
        push_choices(text, place + 1, &tally.choices[place], choices)?;
    }
    Ok(())
}

/// The text of a tally, which is one of so many ballots.
fn text_of(alloc: Global, tally: &Tally, held: usize, election: &Election) -> Result<String, Memory>
    ensures { (ballots : List Ballot) → length ballots ≡ held
        → IsTallyOf election.now ballots tally.now
        → IfOk result (λ text. string_bytes text ≡ tally_text election.now ballots) }
{
    let mut text = format!(in alloc; "tally {held}\n")?;
    push_contests(&mut text, tally, election)?;
    Ok(text)
}

/// Writes the text of a tally, which is one of so many ballots.
pub fn write_tally_of<K: Sink>(
    alloc: Global,
    tally: &Tally,
    held: usize,
    election: &Election,
    out: &mut K,
) -> Result<(), PutFault>
    ensures all { (ballots : List Ballot) → length ballots ≡ held
        → IsTallyOf election.now ballots tally.now → OnOk result (TakesAll (K.taken out.old)
        (tally_text election.now ballots) (K.taken out.new)) }
    ensures some { (ballots : List Ballot) → length ballots ≡ held
        → IsTallyOf election.now ballots tally.now → OnErr result (TakesSome (K.taken out.old)
        (tally_text election.now ballots) (K.taken out.new)) }
    ensures fault { CountsFaultIf (result ≡ Err PutFault.WriteFault)
        (K.faults out.old) (K.faults out.new) }
{
    let text = text_of(alloc, tally, held, election)?;
    out.write_all(text.as_str().as_bytes())?;
    Ok(())
}

/// Writes the text of the tally of a store.
pub fn write_tally<K: Sink>(
    alloc: Global,
    tally: &Tally,
    closed: &Closed,
    out: &mut K,
) -> Result<(), PutFault>
    requires { IsTallyOf closed.now.election closed.now.ballots tally.now }
    ensures all { OnOk result (TakesAll (K.taken out.old)
        (tally_text closed.now.election closed.now.ballots) (K.taken out.new)) }
    ensures some { OnErr result (TakesSome (K.taken out.old)
        (tally_text closed.now.election closed.now.ballots) (K.taken out.new)) }
    ensures fault { CountsFaultIf (result ≡ Err PutFault.WriteFault)
        (K.faults out.old) (K.faults out.new) }
{
    write_tally_of(alloc, tally, closed.len(), closed.election(), out)
}
