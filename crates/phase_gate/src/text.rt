//! The texts of replies, and what a session writes of them.

ghost use Rattle.std.specs.Prelude.{◌≡◌, ◌++◌, All, IfOk, codes, map, string_bytes};
ghost use Rattle.phase_gate.specs.Writing.{HasNoEnd, written_of};
ghost use Rattle.script_lines.specs.Words.{work};
ghost use Rattle.store_spec.specs.Session.{all_reply_lines, counted, opened, phase_text, refusal};

use crate::phase::phase_name;
use crate::writing::Writing;
use outside_io::Memory;
use reply_lines::{Reply, push_all_replies};
use script_lines::Work;

/// Appends that a line does nothing, and why.
fn push_refusal(text: &mut String, index: u64, why: &str) -> Result<(), Memory>
    ensures { IfOk result
        (λ _. string_bytes text.new ≡ string_bytes text.old ++ refusal index why.now) }
{
    write!(text, "line {index} {why}\n")?;
    Ok(())
}

/// Appends a word and a number.
pub fn push_count(text: &mut String, word: &str, count: usize) -> Result<(), Memory>
    ensures { IfOk result
        (λ _. string_bytes text.new ≡ string_bytes text.old ++ counted word.now count) }
{
    write!(text, "{word} {count}\n")?;
    Ok(())
}

/// Tells that a line does nothing, and why. A summary leaves it out.
pub fn write_refusal(
    text: &mut String,
    writing: Writing,
    index: u64,
    why: &str,
) -> Result<(), Memory>
    requires { HasNoEnd why.now }
    ensures { IfOk result (λ _. string_bytes text.new
        ≡ string_bytes text.old ++ written_of writing (refusal index why.now)) }
{
    match writing {
        Writing::All => push_refusal(text, index, why),
        Writing::Summary => Ok(()),
    }
}

/// Tells which phase was opened, and for how many tabulators. A summary leaves it out.
pub fn write_opening(
    text: &mut String,
    writing: Writing,
    named: Work,
    tabs: u8,
) -> Result<(), Memory>
    ensures { IfOk result (λ _. string_bytes text.new ≡ string_bytes text.old
        ++ written_of writing (counted (phase_text (opened (work named) tabs)) tabs)) }
{
    match writing {
        Writing::All => push_count(text, phase_name(named), usize::from(tabs)),
        Writing::Summary => Ok(()),
    }
}

/// Tells the replies to the lists of a phase, and how many ballots are held after it. A summary leaves the replies out.
pub fn write_closing<R: Reply>(
    text: &mut String,
    writing: Writing,
    lists: &[Vec<R>],
    held: usize,
) -> Result<(), Memory>
    requires words { All (λ list. All (λ answer. HasNoEnd (R.word answer)) list.items) lists.now }
    ensures { IfOk result (λ _. string_bytes text.new ≡ string_bytes text.old ++ written_of writing
        (all_reply_lines 1 (map (λ list. map R.word list.items) lists.now)
        ++ counted (codes "closed") held)) }
{
    match writing {
        Writing::All => {
            push_all_replies(text, lists)?;
            push_count(text, "closed", held)
        }
        Writing::Summary => push_count(text, "closed", held),
    }
}
