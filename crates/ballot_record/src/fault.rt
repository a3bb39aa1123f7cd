//! Why a line gives no ballot.

use std::error::Error;
use std::fmt;

/// Why a line is no record of an election.
#[derive(Clone, Copy, Debug, PartialEq, Eq)]
pub enum LineFault {
    /// The line is not in the grammar of record lines.
    Malformed,
    /// The line is in the grammar, but spells no valid record with a group for each contest.
    Invalid,
}

impl fmt::Display for LineFault {
    fn fmt<W: fmt::Write>(&self, f: &mut fmt::Formatter<W>) -> fmt::Result {
        f.write_str(match self {
            LineFault::Malformed => "malformed",
            LineFault::Invalid => "invalid",
        })
    }
}

impl Error for LineFault {}

/// Why a line among others is refused. Where several reasons fit, the first of them is given.
#[derive(Clone, Copy, Debug, PartialEq, Eq)]
pub enum LineWhy {
    /// The line is not in the grammar of record lines.
    Malformed,
    /// The line is in the grammar, but spells no valid record with a group for each contest.
    Invalid,
    /// The record is held already.
    Duplicate,
    /// Another record of its number is held.
    Conflict,
    /// No further record may be held.
    Full,
}

impl fmt::Display for LineWhy {
    fn fmt<W: fmt::Write>(&self, f: &mut fmt::Formatter<W>) -> fmt::Result {
        f.write_str(match self {
            LineWhy::Malformed => "malformed",
            LineWhy::Invalid => "invalid",
            LineWhy::Duplicate => "duplicate",
            LineWhy::Conflict => "conflict",
            LineWhy::Full => "full",
        })
    }
}

impl Error for LineWhy {}
