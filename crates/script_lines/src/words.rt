//! The words that lines of a session begin with.

ghost use Rattle.std.specs.Prelude.{◌≡◌, ◌≤◌, ◌++◌, ◌∷◌, IfSome, MatchOption};
ghost use Rattle.std.specs.Fmt.{decimal};
ghost use Rattle.store_spec.specs.BallotLine.{space};
ghost use Rattle.store_spec.specs.ScriptLine.{IsTab, work_text};
ghost use Rattle.script_lines.specs.Words.{IsNotUpTo, LacksTab, LacksWord, LacksWork, work};

use ballot_record::take_number;

/// The most tabulators of a phase.
pub const MAX_TABS: u64 = 64;

/// What a phase does that is not closed.
#[derive(Clone, Copy, Debug, PartialEq, Eq)]
pub enum Work {
    /// Ballots are cast.
    Casting,
    /// Ballots are withdrawn.
    Withdrawing,
    /// Numbers are looked for.
    Finding,
}

/// What follows a word, where it stands first. A word is some bytes, which are compared here and not in a loop of a
/// call.
#[inline(always)]
pub fn after_word<'a>(bytes: &'a [u8], word: &[u8]) -> Option<&'a [u8]>
    ensures { MatchOption result (LacksWord word.now bytes.now)
        (λ rest. bytes.now ≡ word.now ++ rest.now) }
{
    if bytes.len() < word.len() {
        return None;
    }
    'word: for at in 0..word.len() {
        if bytes[at] != word[at] {
            return None;
        }
    }
    Some(&bytes[word.len()..])
}

/// The work that is named first, with a space behind it, and the bytes after that.
pub fn take_work(bytes: &[u8]) -> Option<(Work, &[u8])>
    ensures { MatchOption result (LacksWork bytes.now)
        (λ x. bytes.now ≡ work_text (work x.0) ++ space ∷ x.1.now) }
{
    if let Some(rest) = after_word(bytes, b"cast ") {
        return Some((Work::Casting, rest));
    }
    if let Some(rest) = after_word(bytes, b"withdraw ") {
        return Some((Work::Withdrawing, rest));
    }
    if let Some(rest) = after_word(bytes, b"find ") {
        return Some((Work::Finding, rest));
    }
    None
}

/// The tabulator that stands first, where it has one digit, with a space behind it, and the bytes after that.
#[inline(always)]
fn take_short_tab(bytes: &[u8]) -> Option<(u8, &[u8])>
    ensures { IfSome result
        (λ x. IsTab x.0 × (bytes.now ≡ decimal x.0 ++ space ∷ x.1.now)) }
{
    match bytes {
        [digit, behind, rest @ ..] if (b'1' <= *digit) & (*digit <= b'9') & (*behind == b' ') => {
            Some((*digit - b'0', rest))
        }
        _ => None,
    }
}

/// The tabulator that stands first, with a space behind it, and the bytes after that. Most have one digit, so that is
/// looked at first.
pub fn take_tab(bytes: &[u8]) -> Option<(u8, &[u8])>
    ensures { MatchOption result (LacksTab bytes.now)
        (λ x. IsTab x.0 × (bytes.now ≡ decimal x.0 ++ space ∷ x.1.now)) }
{
    if let Some(short) = take_short_tab(bytes) {
        return Some(short);
    }
    let (tab, rest) = take_number(bytes, MAX_TABS)?;
    let rest = after_word(rest, b" ")?;
    Some((tab as u8, rest))
}

/// The number from 1 to the limit that all the bytes are.
pub fn whole_number(bytes: &[u8], limit: u64) -> Option<u64>
    ensures { MatchOption result (IsNotUpTo limit bytes.now)
        (λ n. (1 ≤ n) × (n ≤ limit) × (bytes.now ≡ decimal n)) }
{
    let (number, rest) = take_number(bytes, limit)?;
    if rest.is_empty() { Some(number) } else { None }
}
