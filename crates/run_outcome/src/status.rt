//! The statuses in which a run ends.

ghost use Rattle.std.specs.Prelude.{◌≡◌};

use ballot_record::{HEADER_BYTES, LineWhy};
use outside_io::Memory;
use recovery::MediumWhy;
use std::fmt;

/// Which of the two inputs of a run.
#[derive(Clone, Copy, Debug, PartialEq, Eq)]
pub enum Which {
    Election,
    Script,
}

/// How a run ended.
#[derive(Clone, Copy, Debug, PartialEq, Eq)]
pub enum Status {
    /// The run did all that it was asked.
    Ok,
    /// The words are no command form.
    Usage,
    /// The election's text describes no election.
    BadElection,
    /// A source gave more bytes than its limit.
    TooLong { which: Which },
    /// The disk failed.
    DiskFault,
    /// A source failed.
    ReadFault { which: Which },
    /// The sink failed.
    WriteFault,
    /// There was no memory.
    Memory,
    /// The disk has not as many bytes as a medium, or neither gate is open.
    NoStore,
    /// This cell, counted from 0, is the first wrong one of the bank that is read.
    Damaged { cell: u32 },
    /// The bank that is read was written under another election, with this header.
    OtherElection { header: [u8; HEADER_BYTES] },
    /// There is a store on the disk already.
    Exists,
    /// The disk has more bytes than a medium, so many.
    WrongSize { size: u64 },
    /// The medium differs from that of the set that it holds, first at this byte, counted from 0.
    NotCanonical { place: u64 },
    /// A line of a script was refused; lines count from 1.
    BadLine { line: u64, why: LineWhy },
    /// The disk of this further medium failed. Further media count from 1.
    OtherDiskFault { index: u32 },
    /// This further medium, the first such one, is no store of the election.
    BadMedium { index: u32, why: MediumWhy },
    /// This is the least number of which two media hold different ballots.
    MergeConflict { number: u64 },
    /// The union of the media has so many ballots, more than a store of the election may hold.
    MergeFull { count: u32 },
    /// The election has no form in version 1.
    NoOldForm,
    /// This further medium has more bytes than a medium, so many.
    MediumSize { index: u32, size: u64 },
    /// This further medium has as many bytes as a medium, and a gate is open.
    MediumInUse { index: u32 },
    /// The medium of this part is the first that holds a number of another part, and this is its least such number. Parts
    /// count from 0.
    Misplaced { index: u32, number: u64 },
}

impl Status {
    ghost use Rattle.run_outcome.specs.StatusText.{exit_status};

    /// The exit status of the program.
    pub fn number(&self) -> u8
        ensures { result ≡ exit_status self.now }
    {
        match self {
            Status::Ok => 0,
            Status::Usage => 2,
            Status::BadElection => 3,
            Status::TooLong { .. } => 4,
            Status::DiskFault => 5,
            Status::ReadFault { .. } => 6,
            Status::WriteFault => 7,
            Status::Memory => 8,
            Status::NoStore => 9,
            Status::Damaged { .. } => 10,
            Status::OtherElection { .. } => 11,
            Status::Exists => 12,
            Status::WrongSize { .. } => 13,
            Status::NotCanonical { .. } => 14,
            Status::BadLine { .. } => 15,
            Status::NoOldForm => 16,
            Status::OtherDiskFault { .. } => 17,
            Status::MediumSize { .. } => 18,
            Status::MediumInUse { .. } => 19,
            Status::BadMedium { .. } => 20,
            Status::MergeConflict { .. } => 21,
            Status::MergeFull { .. } => 22,
            Status::Misplaced { .. } => 23,
        }
    }
}

impl From<Memory> for Status {
    ghost use Rattle.std.specs.Prelude.{◌≡◌};
    ghost use Rattle.run_outcome.specs.declared.status.Status.TheVariants as statuses;

    ghost from_gives = { λ _ status. status ≡ statuses.Memory };

    fn from(_: Memory) -> Self {
        Status::Memory
    }
}

impl fmt::Display for Status {
    ghost use Rattle.std.specs.Prelude.{Some};
    ghost use Rattle.run_outcome.specs.StatusText.{status_text};

    ghost output = { λ status. Some (status_text status) };

    fn fmt<W: fmt::Write>(&self, f: &mut fmt::Formatter<W>) -> fmt::Result {
        match self {
            Status::Ok => f.write_str("ok"),
            Status::Usage => f.write_str("usage"),
            Status::BadElection => f.write_str("bad election"),
            Status::TooLong {
                which: Which::Election,
            } => f.write_str("election too long"),
            Status::TooLong {
                which: Which::Script,
            } => f.write_str("script too long"),
            Status::DiskFault => f.write_str("disk fault"),
            Status::ReadFault {
                which: Which::Election,
            } => f.write_str("election read fault"),
            Status::ReadFault {
                which: Which::Script,
            } => f.write_str("script read fault"),
            Status::WriteFault => f.write_str("write fault"),
            Status::Memory => f.write_str("out of memory"),
            Status::NoStore => f.write_str("no store"),
            Status::Damaged { cell } => write!(f, "damaged cell {cell}"),
            Status::OtherElection { .. } => f.write_str("other election"),
            Status::Exists => f.write_str("store exists"),
            Status::WrongSize { size } => write!(f, "wrong size {size}"),
            Status::NotCanonical { place } => write!(f, "not canonical at {place}"),
            Status::BadLine { line, .. } => write!(f, "bad line {line}"),
            Status::NoOldForm => f.write_str("no version 1 form"),
            Status::OtherDiskFault { index } => write!(f, "disk fault at medium {index}"),
            Status::MediumSize { index, size } => write!(f, "medium {index} wrong size {size}"),
            Status::MediumInUse { index } => write!(f, "medium {index} in use"),
            Status::BadMedium { index, why } => match why {
                MediumWhy::NoStore => write!(f, "medium {index} no store"),
                MediumWhy::OtherElection { .. } => write!(f, "medium {index} other election"),
                MediumWhy::Damaged { cell } => write!(f, "medium {index} damaged cell {cell}"),
            },
            Status::MergeConflict { number } => write!(f, "conflict {number}"),
            Status::MergeFull { count } => write!(f, "merge of {count}"),
            Status::Misplaced { index, number } => write!(f, "medium {index} misplaced {number}"),
        }
    }
}
