//! The words behind `sample` and `compare`.

ghost use Rattle.std.specs.Prelude.{◌≡◌, ◌-◌, ◌≤◌, ◌↔◌, ◌++◌, IfNone, IfSome, IsTrue, MatchOption, length, map, replicate, string_bytes, ℕ};
ghost use Rattle.sample_commands.specs.Asked.{IsAsked, IsCountWord, IsDice, dice_of};

use ballot_record::take_number;

/// The most digits that dice give.
pub const MAX_DICE: usize = 64;

/// The most ballots of a sample.
const MAX_SAMPLE: u64 = 32_768;

/// Which sample is asked for: the digits of the dice at the front of an array, how many they are, and how many ballots.
#[derive(Clone, Copy, Debug, PartialEq, Eq)]
pub struct Asked {
    pub digits: [u8; MAX_DICE],
    pub rolled: usize,
    pub count: u32,
}

impl Asked {
    /// The digits of the dice.
    pub fn dice(&self) -> &[u8]
        ensures { result.now ≡ dice_of self.now }
    {
        &self.digits[..self.rolled.min(MAX_DICE)]
    }
}

/// Whether a word has 1 to 64 bytes, each a digit.
fn is_dice(word: &[u8]) -> bool
    ensures { IsTrue result ↔ IsDice word.now }
{
    !word.is_empty() && word.len() <= MAX_DICE && word.iter().all(|byte| byte.is_ascii_digit())
}

/// The number from 1 to 32,768 that a word is.
fn count_of(word: &[u8]) -> Option<u32>
    ensures { MatchOption result ((n : ℕ) → ¬ IsCountWord word.now n) (IsCountWord word.now) }
{
    let (number, rest) = take_number(word, MAX_SAMPLE)?;
    if rest.is_empty() {
        Some(number as u32)
    } else {
        None
    }
}

/// These digits, with zeros behind them.
fn filled_up(dice: &[u8]) -> [u8; MAX_DICE]
    requires { length dice.now ≤ MAX_DICE }
    ensures { result ≡ dice.now ++ replicate (MAX_DICE - length dice.now) 0 }
{
    let mut digits = [0; MAX_DICE];
    digits[..dice.len()].copy_from_slice(dice);
    digits
}

/// The sample that these words ask for, if they are dice and a count.
pub fn asked_of(words: &[String]) -> Option<Asked>
    ensures asked { IfSome result (IsAsked (map string_bytes words.now)) }
    ensures none { IfNone result ((asked : Asked) → ¬ IsAsked (map string_bytes words.now) asked) }
{
    let [dice, count] = words else {
        return None;
    };
    let dice = dice.as_bytes();
    if !is_dice(dice) {
        return None;
    }
    let count = count_of(count.as_bytes())?;
    Some(Asked {
        digits: filled_up(dice),
        rolled: dice.len(),
        count,
    })
}
