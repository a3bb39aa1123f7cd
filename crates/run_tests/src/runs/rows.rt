//! Each command once: what it is run on, what it writes and leaves, and how that is looked at.

use super::{BUILD, Ended, Failing, NOTHING, REPLAY, SESSION, ends, image_of, lines, medium_of};
use crash_disk::{Disk, MemoryDisk};
use outside_io::NoTurns;
use run_command::Status;
use std::alloc::Global;
use std::process::Abort;
use std::test::Fail;
use std::thread::Threads;

// The ballots 9, 14 and 1, and the ballot of a large run.
pub(super) const THREE_BALLOTS: &str = "000000000000000901000000010000000\
    0000000000000000e0100000000000000020000000000000001010000000200000005";

pub(super) const FOUR_BALLOTS: &str = "0000000000000016010000000000000000\
    000000000000000e010000000000000002\
    0000000000000009010000000100000000\
    0000000000000001010000000200000005";

const LARGE_BALLOT: &str = "29470e9140bda739010000000400000001";

// A set, by the ballots that it has.
#[derive(Clone, Copy, Debug)]
pub(super) enum Set {
    Empty,
    ThreeBallots,
    FourBallots,
    LargeBallot,
}

// The digits of a set's cells from cell 4 on.
fn cells_of(set: Set) -> &'static str {
    match set {
        Set::Empty => "",
        Set::ThreeBallots => THREE_BALLOTS,
        Set::FourBallots => FOUR_BALLOTS,
        Set::LargeBallot => LARGE_BALLOT,
    }
}

// Of what is written: that it comes at the end, whatever was read.
pub(super) const END: usize = usize::MAX;

// A command: its words and its script; the sets of the medium that it begins on and of each checkpoint, and of the one
// that it leaves, where it has one; the texts that it writes, each once so many lines of the script were read; the set
// whose image it writes; and how many ballots it reports as held, where it acknowledges a checkpoint.
#[derive(Clone, Copy)]
pub(super) struct Row {
    pub(super) words: &'static [&'static str],
    pub(super) script: &'static str,
    pub(super) sets: &'static [Set],
    pub(super) after: Option<Set>,
    pub(super) told: &'static [(usize, &'static str)],
    pub(super) image: Option<Set>,
    pub(super) held: u32,
}

const BUILT: Row = Row {
    words: BUILD,
    script: "9 1 1/- | 14 1 -/2 | 1 1 2/1,3",
    sets: &[],
    after: None,
    told: &[],
    image: Some(Set::ThreeBallots),
    held: 0,
};

const MADE: Row = Row {
    words: &["medium", "election.json", "init"],
    script: "",
    sets: &[],
    after: Some(Set::Empty),
    told: &[(END, "ready")],
    image: None,
    held: 0,
};

const CAST_BY_ONE: Row = Row {
    words: SESSION,
    script: "open cast 1 | cast 1 9 1 1/- | cast 1 14 1 -/2 | cast 1 1 1 2/1,3 | close | checkpoint",
    sets: &[Set::Empty, Set::ThreeBallots],
    after: Some(Set::ThreeBallots),
    told: &[
        (1, "casting 1"),
        (5, "1 1 accepted | 1 2 accepted | 1 3 accepted | closed 3"),
        (6, "checkpoint 3"),
    ],
    image: None,
    held: 3,
};

const CAST_BY_THREE: Row = Row {
    script: "open cast 3 | cast 1 9 1 1/- | cast 2 14 1 -/2 | cast 3 1 1 2/1,3 | close | checkpoint",
    told: &[
        (1, "casting 3"),
        (5, "1 1 accepted | 2 1 accepted | 3 1 accepted | closed 3"),
        (6, "checkpoint 3"),
    ],
    ..CAST_BY_ONE
};

const WITHDRAWN: Row = Row {
    script: "open withdraw 2 | withdraw 1 22 | withdraw 2 5 | withdraw 1 22 | close | checkpoint",
    sets: &[Set::FourBallots, Set::ThreeBallots],
    told: &[
        (1, "withdrawing 2"),
        (5, "1 1 withdrawn | 1 2 gone | 2 1 absent | closed 3"),
        (6, "checkpoint 3"),
    ],
    ..CAST_BY_ONE
};

const AUDITED: Row = Row {
    words: &["medium", "election.json", "audit"],
    script: "",
    sets: &[Set::ThreeBallots],
    after: Some(Set::ThreeBallots),
    told: &[(END, "canonical 3")],
    image: None,
    held: 0,
};

const REPLAYED: Row = Row {
    words: REPLAY,
    script: "start | cast 2 | list 1 1 | list 2 9 | steps 1 2 2 1 2 1 2 2",
    sets: &[],
    after: None,
    told: &[(
        END,
        "steps 8 | cell 4 9 | rest | cell 4 9 | cell 5 1 | 1 1 accepted | 2 1 accepted",
    )],
    image: None,
    held: 0,
};

const LARGE: Row = Row {
    words: &[
        "medium",
        "election.json",
        "large",
        "--seed",
        "20",
        "--count",
        "1",
        "--tabs",
        "2",
    ],
    script: "",
    sets: &[Set::Empty, Set::LargeBallot],
    after: Some(Set::LargeBallot),
    told: &[
        (5, "closed 1 | closed 1"),
        (END, "checkpoint 1 | tally 1 | contest 1 under 0 over 0"),
        (
            END,
            "choice 1 1 0 | choice 1 2 0 | choice 1 3 1 | choice 1 4 0 | contest 2 under 1 over 0 | \
                choice 2 1 1 | choice 2 2 0 | choice 2 3 0",
        ),
    ],
    image: None,
    held: 1,
};

static ROWS: [Row; 8] = [
    BUILT,
    MADE,
    CAST_BY_ONE,
    CAST_BY_THREE,
    WITHDRAWN,
    AUDITED,
    REPLAYED,
    LARGE,
];

// Each command once. This is a function, so that their texts stand in the proof of one.
pub(super) fn all_rows() -> &'static [Row] {
    &ROWS
}

// A run of a row.
pub(super) fn ends_of<R>(rt: &R, row: &Row, failing: Failing) -> Result<Ended, Fail>
where
    R: Threads + Sync + AllocGlobal + Abort,
{
    let alloc = rt.alloc();
    let medium = match row.sets.first() {
        Some(set) => medium_of(alloc, cells_of(*set))?,
        None => Vec::new(alloc),
    };
    ends(rt, row.words, row.script, &medium, failing, &NoTurns)
}

// What a row has written once so many lines of its script were read.
pub(super) fn told_after(alloc: Global, row: &Row, read: usize) -> Result<Vec<u8>, Fail> {
    let mut told = Vec::new(alloc);
    for (count, text) in row.told {
        if *count <= read {
            told.extend_from_slice(&lines(alloc, *text)?)?;
        }
    }
    match row.image {
        Some(set) if read == END => {
            told.extend_from_slice(&image_of(alloc, cells_of(set))?)?;
        }
        _ => {}
    }
    Ok(told)
}

// A run in which nothing failed.
pub(super) fn assert_whole(
    rt: &impl Abort,
    alloc: Global,
    row: &Row,
    ended: &Ended,
) -> Result<(), Fail> {
    assert!(rt;
        ended.written == told_after(alloc, row, END)?,
        "{}",
        row.script
    );
    assert_eq!(rt; ended.report.held, row.held, "{}", row.script);
    let calls = ended.disk.calls();
    let mark = if row.held > 0 { Some(calls) } else { None };
    assert_eq!(rt; ended.report.marks.last().copied(), mark, "{}", row.script);
    assert!(rt; ended.report.marks.len() <= 1, "{}", row.script);
    match row.after {
        Some(set) => {
            assert!(rt; ended.disk.bytes() == medium_of(alloc, cells_of(set))?.as_slice());
        }
        None => assert_eq!(rt; calls, 0),
    }
    Ok(())
}

// A disk is the medium of one of these sets.
fn assert_is_one(
    rt: &impl Abort,
    alloc: Global,
    disk: &MemoryDisk,
    sets: &[Set],
) -> Result<(), Fail> {
    for set in sets {
        if disk.bytes() == medium_of(alloc, cells_of(*set))?.as_slice() {
            return Ok(());
        }
    }
    assert!(rt; false, "{sets:?}");
    Ok(())
}

// A medium is made that of one of these sets by a session without a line, unless there is no memory.
pub(super) fn assert_recovers<R>(rt: &R, medium: &[u8], sets: &[Set]) -> Result<(), Fail>
where
    R: Threads + Sync + AllocGlobal + Abort,
{
    let ended = ends(rt, SESSION, "", medium, NOTHING, &NoTurns)?;
    if ended.status == Status::Memory {
        return Ok(());
    }
    assert_eq!(rt; ended.status, Status::Ok);
    assert_eq!(rt; ended.written.len(), 0);
    assert_is_one(rt, rt.alloc(), &ended.disk, sets)
}
