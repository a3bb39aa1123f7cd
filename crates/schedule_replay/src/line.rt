//! The reading of a replay's line.

ghost use Rattle.std.specs.Prelude.{◌≡◌, ◌≢◌, ◌↔◌, ◌++◌, ◌<◌, [], List, ℕ, IsTrue, IfOk, MatchBool, MatchOption, length, option_map};
ghost use Rattle.schedule_replay.specs.ReplayLine.{AreNumbers, HasForm, TakesNumber, word_text};
ghost use Rattle.schedule_replay.specs.Script.{ReadsLine};

use ballot_record::take_number;
use outside_io::Memory;

/// The most tabulators or withdrawers.
pub const MAX_TABS: u64 = 64;

/// What a replay does to its base.
#[derive(Clone, Copy, Debug, PartialEq, Eq)]
pub enum Kind {
    /// Numbers are placed.
    Cast,
    /// Numbers are removed.
    Withdraw,
}

/// The word at the front of a line.
#[derive(Clone, Copy, Debug, PartialEq, Eq)]
pub enum Word {
    /// The numbers of the base.
    Start,
    /// A casting phase, of so many.
    Cast,
    /// A withdrawing phase, of so many.
    Withdraw,
    /// One of them, and numbers for its list.
    List,
    /// Those that step next.
    Steps,
}

/// The word at the front of a line, and the bytes behind it.
fn take_word(line: &[u8]) -> Option<(Word, &[u8])>
    ensures { MatchOption result
        ((word : Word) (rest : List ℕ) → line.now ≢ word_text word ++ rest)
        (λ x. line.now ≡ word_text x.0 ++ x.1.now) }
{
    if let Some(rest) = line.strip_prefix(b"start") {
        return Some((Word::Start, rest));
    }
    if let Some(rest) = line.strip_prefix(b"cast") {
        return Some((Word::Cast, rest));
    }
    if let Some(rest) = line.strip_prefix(b"withdraw") {
        return Some((Word::Withdraw, rest));
    }
    if let Some(rest) = line.strip_prefix(b"list") {
        return Some((Word::List, rest));
    }
    if let Some(rest) = line.strip_prefix(b"steps") {
        return Some((Word::Steps, rest));
    }
    None
}

/// A number with a space before it, and the bytes behind it.
fn take_spaced(bytes: &[u8]) -> Option<(u64, &[u8])>
    ensures { TakesNumber (option_map (λ x. (x.0, x.1.now)) result) bytes.now }
{
    let rest = bytes.strip_prefix(b" ")?;
    take_number(rest, u64::MAX)
}

/// The numbers of a text that is numbers alone, each with a space before it. They come into `numbers`.
fn read_numbers(bytes: &[u8], numbers: &mut Vec<u64>) -> Result<bool, Memory>
    requires { numbers.old.items ≡ [] }
    ensures { IfOk result (λ all. MatchBool all (AreNumbers bytes.now numbers.new.items)
        ((ns : List ℕ) → ¬ AreNumbers bytes.now ns)) }
{
    let mut rest = bytes;
    while !rest.is_empty() {
        let Some((number, after)) = take_spaced(rest) else {
            return Ok(false);
        };
        numbers.push(number)?;
        rest = after;
    }
    Ok(true)
}

/// Whether these numbers may stand behind a word.
fn has_form(word: Word, numbers: &[u64]) -> bool
    ensures { IsTrue result ↔ HasForm word numbers.now }
{
    match word {
        Word::Start => true,
        Word::Cast | Word::Withdraw => match numbers {
            [tabs] => *tabs <= MAX_TABS,
            _ => false,
        },
        Word::List => match numbers {
            [tab, ..] => *tab <= MAX_TABS,
            [] => false,
        },
        Word::Steps => numbers.iter().all(|tab| *tab <= MAX_TABS),
    }
}

/// The word of a line that is in the grammar, and `None` for any other. Its numbers come into `numbers`.
pub fn read_line(line: &[u8], numbers: &mut Vec<u64>) -> Result<Option<Word>, Memory>
    ensures { ReadsLine result line.now numbers.new.items }
{
    numbers.clear();
    let Some((word, rest)) = take_word(line) else {
        return Ok(None);
    };
    if !read_numbers(rest, numbers)? || !has_form(word, numbers) {
        return Ok(None);
    }
    Ok(Some(word))
}
