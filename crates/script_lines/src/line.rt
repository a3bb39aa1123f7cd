//! What the lines of a session's script say.

use crate::words::Work;
use ballot_record::Record;

/// What a line of a script says. Tabulators count from 1.
#[derive(Clone, Copy, Debug, PartialEq, Eq)]
pub enum Line {
    /// A casting phase opens, with so many tabulators.
    OpenCast { tabs: u8 },
    /// A withdrawing phase opens, with so many withdrawers.
    OpenWithdraw { tabs: u8 },
    /// A finding phase opens, with so many finders.
    OpenFind { tabs: u8 },
    /// This ballot is cast at one of them.
    Cast { tab: u8, ballot: Record },
    /// A record line that spells no valid ballot of the election is cast at one of them.
    CastInvalid { tab: u8 },
    /// The ballot of a number is withdrawn at one of them.
    Withdraw { tab: u8, number: u64 },
    /// A number is looked for at one of them.
    Find { tab: u8, number: u64 },
    /// The phase closes.
    Close,
    /// What is held goes to the medium.
    Checkpoint,
    /// What is held is counted.
    Tally,
    /// The ballots that are held are written.
    Export,
}

/// What a line brings for the list of a tabulator. The ballot that is cast stands elsewhere: it is long, and these are
/// most lines.
#[derive(Clone, Copy, Debug, PartialEq, Eq)]
pub enum Entry {
    /// A ballot is cast.
    Cast,
    /// The ballot of a number is withdrawn.
    Withdraw { number: u64 },
    /// A number is looked for.
    Find { number: u64 },
}

/// What a line says that brings nothing for a list.
#[derive(Clone, Copy, Debug, PartialEq, Eq)]
pub enum Command {
    /// A phase of this work opens, for so many tabulators.
    Open { work: Work, tabs: u8 },
    /// A record line that spells no valid ballot of the election is cast at one of them.
    CastInvalid { tab: u8 },
    /// The phase closes.
    Close,
    /// What is held goes to the medium.
    Checkpoint,
    /// What is held is counted.
    Tally,
    /// The ballots that are held are written.
    Export,
}

/// What a line says, as it was read.
#[derive(Clone, Copy, Debug, PartialEq, Eq)]
pub enum Said {
    /// Something for the list of a tabulator.
    Item { tab: u8, entry: Entry },
    /// Something else.
    Command(Command),
    /// Nothing: it is malformed.
    Malformed,
}
