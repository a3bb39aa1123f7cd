//! The names of the options, and the numbers that may stand behind each.

ghost use Rattle.std.specs.Prelude.{◌≡◌, MatchOption};
ghost use Rattle.large_options.specs.Given.{HasNoValue, HasValue, IsGiven, IsNotGiven, id_of, limit_of};

use ballot_record::take_number;

/// The name of an option.
#[derive(Clone, Copy, Debug, PartialEq, Eq)]
pub enum Name {
    /// `--seed`.
    Seed,
    /// `--count`.
    Count,
    /// `--tabs`.
    Tabs,
}

impl Name {
    /// The name without its dashes.
    pub fn id(self) -> &'static str
        ensures { result.now ≡ id_of self }
    {
        match self {
            Name::Seed => "seed",
            Name::Count => "count",
            Name::Tabs => "tabs",
        }
    }

    /// The greatest value that the option takes.
    fn limit(self) -> u32
        ensures { result ≡ limit_of self }
    {
        match self {
            Name::Seed => u32::MAX,
            Name::Count => 32_768,
            Name::Tabs => 64,
        }
    }

    /// The option's value that the text spells.
    pub fn value(self, text: &str) -> Option<u32>
        ensures { MatchOption result (HasNoValue self text.now)
            (λ n. HasValue self text.now n) }
    {
        let (number, rest) = take_number(text.as_bytes(), u64::from(self.limit()))?;
        if rest.is_empty() {
            Some(number as u32)
        } else {
            None
        }
    }

    /// The option that a word and the next one are.
    pub fn of(word: &str, next: &str) -> Option<Name>
        ensures { MatchOption result (IsNotGiven word.now next.now)
            (λ name. IsGiven word.now next.now name) }
    {
        let name = match word {
            "--seed" => Name::Seed,
            "--count" => Name::Count,
            "--tabs" => Name::Tabs,
            _ => return None,
        };
        match name.value(next) {
            Some(_) => Some(name),
            None => None,
        }
    }
}
