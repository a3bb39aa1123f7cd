//! The words as `clap` takes them apart.

ghost use Rattle.std.specs.Prelude.{◌≡◌, IfOk, Some, false, map, string_bytes};
ghost use Rattle.std.specs.Fmt.{decimal};
ghost use Rattle.clap.specs.Words.{app_of, first_value, found_of, rule_of};
ghost use Rattle.large_options.specs.Given.{id_of};
ghost use Rattle.large_options.specs.Options.{AreOptions};
ghost use Rattle.large_options.specs.Parsed.{HasValues, IsValueOf, large, rule};

use crate::name::Name;
use clap::error::ErrorKind;
use clap::{Arg, ArgAction, ArgMatches, Command};
use outside_io::Memory;
use std::alloc::{AllocError, Global};

/// A required option with one value, which is taken as text.
fn option<'a>(alloc: Global, id: &'a str) -> Arg<'a>
    ensures rule { rule_of result ≡ rule id.entry.now }
    ensures local { result.global ≡ false }
{
    Arg::new(alloc, id)
        .long(id)
        .required(true)
        .action(ArgAction::Set)
}

/// The command of which the words behind `large` are all.
fn command<'a>(alloc: Global) -> Result<Command<'a>, AllocError>
    ensures { IfOk result (λ c. app_of c ≡ large) }
{
    Command::new(alloc, "large")
        .no_binary_name(true)
        .disable_help_flag(true)
        .arg(option(alloc, "seed"))?
        .arg(option(alloc, "count"))?
        .arg(option(alloc, "tabs"))
}

/// What `clap` makes of words that are options, which it refuses for want of memory alone.
pub fn parsed<'a>(alloc: Global, words: &'a [String]) -> Result<ArgMatches<'a>, Memory>
    requires { AreOptions (map string_bytes words.now) }
    ensures { IfOk result (λ m. HasValues (map string_bytes words.entry.now) (found_of m)) }
{
    match command(alloc)?.try_get_matches_from(words) {
        Ok(matches) => Ok(matches),
        Err(error) => match error.kind() {
            ErrorKind::OutOfMemory => Err(Memory),
            _ => unreachable!(),
        },
    }
}

/// The value of an option.
pub fn value_of(matches: &ArgMatches<'_>, name: Name) -> u32
    requires { IsValueOf name (found_of matches.now) }
    ensures { first_value (found_of matches.now) (id_of name) ≡ Some (decimal result) }
{
    let text = matches.get_str(name.id()).unwrap();
    name.value(text).unwrap()
}
