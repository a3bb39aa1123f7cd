//! What goes with the version of an election, which is 1 or 2.
#![tactic(auto, unfolding(store_spec::specs::Election::in_version))]

ghost use Rattle.std.specs.Prelude.{◌≡◌, ◌≤◌};
ghost use Rattle.ballot_record.specs.Format.{IsSetWidth};
ghost use Rattle.store_spec.specs.Election.{in_version};

/// The most contests of an election, whatever its version.
pub const MAX_CONTESTS: usize = 24;

/// The most choices of a contest, whatever the version.
pub const MAX_CHOICES: u8 = 64;

/// The most bytes of a mark set in a cell, whatever the version.
pub(crate) const MAX_SET_BYTES: usize = 8;

/// The bytes of a mark set in a cell of version 1.
pub(crate) const SHORT_SET_BYTES: usize = 4;

/// The most contests of an election in a version.
pub fn most_contests(version: u16) -> usize
    ensures most { result ≡ in_version version 16 24 }
    ensures at_most { result ≤ MAX_CONTESTS }
{
    if version == 1 { 16 } else { MAX_CONTESTS }
}

/// The most choices of a contest in a version.
pub fn most_choices(version: u16) -> u8
    ensures most { result ≡ in_version version 32 64 }
    ensures at_least { 9 ≤ result }
    ensures at_most { result ≤ MAX_CHOICES }
{
    if version == 1 { 32 } else { MAX_CHOICES }
}

/// How many bytes a mark set has in a cell.
pub(crate) fn set_bytes(version: u16) -> usize
    ensures width { result ≡ in_version version 4 8 }
    ensures known { IsSetWidth result }
    ensures at_most { result ≤ MAX_SET_BYTES }
{
    if version == 1 {
        SHORT_SET_BYTES
    } else {
        MAX_SET_BYTES
    }
}
