//! The words of a run, and the command that they form.

ghost use Rattle.std.specs.List.{list_any};
ghost use Rattle.std.specs.Prelude.{◌≡◌, ◌↔◌, [], IsTrue, ◌≤◌, IfErr, IfNone, IfOk, IfSome, bytes_eq, codes, length, map, string_bytes, true, ℕ, List};
ghost use Rattle.run_command.specs.Command.{Forms, FormNone, MayFollow, row};
ghost use Rattle.large_options.specs.Options.{AreOptions};
ghost use Rattle.merge_commands.specs.Merge.{merge_row};
ghost use Rattle.part_commands.specs.Part.{ArePartWords, part_row};
ghost use Rattle.run_outcome.specs.Row.{AreMediaIf, IsNamed, IsOne, IsPlain};
ghost use Rattle.sample_commands.specs.Asked.{IsAsked};
ghost use Rattle.sample_commands.specs.declared.asked.Asked.{Asked};

use large_options::{Options, are_options, options_of};
use outside_io::Memory;
use sample_commands::{Asked, asked_of};
use std::alloc::Global;

/// What a run is asked to do.
#[derive(Clone, Copy, Debug, PartialEq, Eq)]
pub enum Command {
    /// Write the image of a set of record lines.
    Build,
    /// Make an unused disk the medium of the empty set.
    Init,
    /// Recover a medium, and handle a script of ballots, withdrawals, finds and checkpoints.
    Session,
    /// Tell whether a medium is that of the set that it holds.
    Audit,
    /// Replay a schedule of steps over a phase, and write what comes of it.
    Replay,
    /// Write the sample of a medium that is asked for.
    Sample(Asked),
    /// Compare the lines of a script with that sample.
    Compare(Asked),
    /// Make a medium that of the union of its own set and those of further media.
    Merge,
    /// Make a further medium, of version 2, that of the ballots of an old one.
    Migrate,
    /// Make two disks the medium of one set, and handle a script on both as a session does.
    Twin,
    /// Handle a script over media that each hold a part of the numbers, as a session does.
    Part,
    /// Handle a script that these options generate as a session does, and write the summary of its replies.
    Large(Options),
}

fn is_plain(word: &str) -> bool
    ensures { IsTrue result ↔ IsPlain word.now }
{
    match word.as_bytes() {
        [] => false,
        [first, ..] => *first != b'-',
    }
}

/// The command that this word names alone.
fn command_named(word: &str) -> Option<Command>
    ensures named { IfSome result (λ c. (medium : List ℕ) → IsNamed (row c) medium word.now []) }
    ensures none { IfNone result ((c : Command) (medium : List ℕ) → ¬ IsNamed (row c) medium word.now []) }
{
    match word {
        "build" => Some(Command::Build),
        "init" => Some(Command::Init),
        "session" => Some(Command::Session),
        "audit" => Some(Command::Audit),
        "replay" => Some(Command::Replay),
        _ => None,
    }
}

/// The large run that these options ask for, if they are its options.
fn large_named(alloc: Global, options: &[String]) -> Result<Option<Command>, Memory>
    ensures named { IfOk result (λ o. IfSome o
        (λ c. (medium : List ℕ) → IsNamed (row c) medium (codes "large") (map string_bytes options.now))) }
    ensures none { IfOk result (λ o. IfNone o (¬ AreOptions (map string_bytes options.now))) }
    ensures memory { IfErr result (λ _. AreOptions (map string_bytes options.now)) }
{
    if !are_options(options) {
        return Ok(None);
    }
    Ok(Some(Command::Large(options_of(alloc, options)?)))
}

/// The sample that these words ask for, if they do.
fn sample_named(words: &[String]) -> Option<Command>
    ensures named { IfSome result
        (λ c. (medium : List ℕ) → IsNamed (row c) medium (codes "sample") (map string_bytes words.now)) }
    ensures none { IfNone result ((asked : Asked) → ¬ IsAsked (map string_bytes words.now) asked) }
{
    match asked_of(words) {
        Some(asked) => Some(Command::Sample(asked)),
        None => None,
    }
}

/// The comparison with the sample that these words ask for, if they do.
fn compare_named(words: &[String]) -> Option<Command>
    ensures named { IfSome result
        (λ c. (medium : List ℕ) → IsNamed (row c) medium (codes "compare") (map string_bytes words.now)) }
    ensures none { IfNone result ((asked : Asked) → ¬ IsAsked (map string_bytes words.now) asked) }
{
    match asked_of(words) {
        Some(asked) => Some(Command::Compare(asked)),
        None => None,
    }
}

/// Whether a word stands among these.
fn is_among(word: &str, words: &[String]) -> bool
    ensures { result ≡ list_any (λ other. bytes_eq (string_bytes other) word.now) words.now }
{
    words.iter().any(|other| other.as_str() == word)
}

/// Whether a word may be that of one medium more: it is plain, and neither the medium's word nor one of these.
fn may_follow(medium: &str, earlier: &[String], word: &str) -> bool
    ensures { IsTrue result ↔ MayFollow medium.now (map string_bytes earlier.now) word.now }
{
    is_plain(word) && word != medium && !is_among(word, earlier)
}

/// Whether these are the words of further media: each is plain, and none is the medium's or another's.
fn are_media(medium: &str, words: &[String]) -> bool
    ensures { IsTrue result ↔ AreMediaIf true medium.now (map string_bytes words.now) }
{
    'words: for at in 0..words.len() {
        if !may_follow(medium, &words[..at], &words[at]) {
            return false;
        }
    }
    true
}

/// The most further media that are merged.
const MAX_MORE: usize = 8;

/// The merge of these media, if their words are those of one to eight.
fn merge_named(medium: &str, words: &[String]) -> Option<Command>
    requires { 1 ≤ length words.now }
    ensures named { IfSome result
        (λ c. IsNamed (row c) medium.now (codes "merge") (map string_bytes words.now)) }
    ensures none { IfNone result
        (¬ IsNamed merge_row medium.now (codes "merge") (map string_bytes words.now)) }
{
    if words.len() <= MAX_MORE && are_media(medium, words) {
        Some(Command::Merge)
    } else {
        None
    }
}

/// This command, if there is one further word and it is that of a further medium.
fn if_one_medium(medium: &str, words: &[String], command: Command) -> Option<Command>
    ensures some { IfSome result (λ c. (c ≡ command)
        × IsOne (map string_bytes words.now) × AreMediaIf true medium.now (map string_bytes words.now)) }
    ensures none { IfNone result
        (¬ (IsOne (map string_bytes words.now) × AreMediaIf true medium.now (map string_bytes words.now))) }
{
    if words.len() == 1 && are_media(medium, words) {
        Some(command)
    } else {
        None
    }
}

/// Whether there is a word for each medium of a store in parts but the first.
fn are_as_parts(words: &[String]) -> bool
    ensures { IsTrue result ↔ ArePartWords (map string_bytes words.now) }
{
    matches!(words.len(), 1 | 3 | 7)
}

/// The session over these media and the first, if their words are those of one, three or seven.
fn part_named(medium: &str, words: &[String]) -> Option<Command>
    ensures named { IfSome result
        (λ c. IsNamed (row c) medium.now (codes "part") (map string_bytes words.now)) }
    ensures none { IfNone result
        (¬ IsNamed part_row medium.now (codes "part") (map string_bytes words.now)) }
{
    if are_as_parts(words) && are_media(medium, words) {
        Some(Command::Part)
    } else {
        None
    }
}

/// The command that this word names, with these further words behind it and this word for the medium.
fn named_with(
    alloc: Global,
    medium: &str,
    word: &str,
    words: &[String],
) -> Result<Option<Command>, Memory>
    requires { 1 ≤ length words.now }
    ensures named { IfOk result (λ o. IfSome o
        (λ c. IsNamed (row c) medium.now word.now (map string_bytes words.now))) }
    ensures none { IfOk result (λ o. IfNone o
        ((c : Command) → ¬ IsNamed (row c) medium.now word.now (map string_bytes words.now))) }
    ensures memory { IfErr result
        (λ _. (c : Command) × IsNamed (row c) medium.now word.now (map string_bytes words.now)) }
{
    match word {
        "large" => large_named(alloc, words),
        "sample" => Ok(sample_named(words)),
        "compare" => Ok(compare_named(words)),
        "merge" => Ok(merge_named(medium, words)),
        "migrate" => Ok(if_one_medium(medium, words, Command::Migrate)),
        "twin" => Ok(if_one_medium(medium, words, Command::Twin)),
        "part" => Ok(part_named(medium, words)),
        _ => Ok(None),
    }
}

/// The command that the words form. Memory is taken for further words alone, and there is no answer only where the words
/// form a command.
pub fn command_of(alloc: Global, words: &[String]) -> Result<Option<Command>, Memory>
    ensures formed { IfOk result (λ o. IfSome o (Forms (map string_bytes words.now))) }
    ensures none { IfOk result (λ o. IfNone o (FormNone (map string_bytes words.now))) }
    ensures memory { IfErr result (λ _. (c : _) × Forms (map string_bytes words.now) c) }
{
    match words {
        [medium, election, word, words @ ..] if is_plain(medium) && is_plain(election) => {
            if words.is_empty() {
                Ok(command_named(word))
            } else {
                named_with(alloc, medium, word, words)
            }
        }
        _ => Ok(None),
    }
}
