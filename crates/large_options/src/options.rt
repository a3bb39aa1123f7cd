//! The options of a large run, read from words.

ghost use Rattle.std.specs.Prelude.{◌↔◌, IfOk, IsTrue, map, string_bytes};
ghost use Rattle.large_options.specs.Given.{AllDiffer};
ghost use Rattle.large_options.specs.Options.{AreOptions, IsOptions};

use crate::name::Name;
use crate::parsed::{parsed, value_of};
use outside_io::Memory;
use std::alloc::Global;

/// The options of a large run: the seed of its ballots, how many of them it asks for, and how many tabulators
/// cast them.
#[derive(Clone, Copy, Debug, PartialEq, Eq)]
pub struct Options {
    pub seed: u32,
    pub count: u32,
    pub tabs: u32,
}

/// Whether all three are names, and no two of them are the same.
fn all_differ(first: Option<Name>, second: Option<Name>, third: Option<Name>) -> bool
    ensures { IsTrue result ↔ AllDiffer first second third }
{
    match (first, second, third) {
        (Some(first), Some(second), Some(third)) => {
            first != second && first != third && second != third
        }
        _ => false,
    }
}

/// Whether the words are three options, each once and with its value behind it. It takes no memory.
pub fn are_options(words: &[String]) -> bool
    ensures { IsTrue result ↔ AreOptions (map string_bytes words.now) }
{
    match words {
        [first, first_value, second, second_value, third, third_value] => {
            all_differ(
                Name::of(first, first_value),
                Name::of(second, second_value),
                Name::of(third, third_value),
            )
        }
        _ => false,
    }
}

/// The options that the words are.
pub fn options_of(alloc: Global, words: &[String]) -> Result<Options, Memory>
    requires { AreOptions (map string_bytes words.now) }
    ensures { IfOk result (λ o. IsOptions (map string_bytes words.now) o.seed o.count o.tabs) }
{
    let matches = parsed(alloc, words)?;
    Ok(Options {
        seed: value_of(&matches, Name::Seed),
        count: value_of(&matches, Name::Count),
        tabs: value_of(&matches, Name::Tabs),
    })
}
