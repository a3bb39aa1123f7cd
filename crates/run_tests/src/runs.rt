//! Runs over stand-ins: each call fails in turn, memory is refused, workers are watched at their turns. What a user sees of
//! the built program is a row of `tools/check_program`.

ghost use Rattle.std.specs.Prelude.{◌≡◌, All, is_some, None};

use ballot_record::LineWhy;
use crash_disk::{Disk, MemoryDisk, Room};
use outside_io::{Failed, MemorySink, MemorySource, NoTurns, Source, Turns};
use phase_gate::Report;
use run_command::{Status, run};
use std::alloc::{AllocError, Global};
use std::process::Abort;
use std::test::Fail;
use std::thread::Threads;

mod faults;
mod memory;
mod merging;
mod migrating;
mod parting;
mod rows;
mod turns;
mod twinning;

// The election of the examples.
const EXAMPLE: &[u8] =
    b"{\"contests\":[{\"choices\":4,\"allowed\":1},{\"choices\":3,\"allowed\":2}],\
    \"styles\":[[1,2]],\"limit\":8,\"bits\":3,\"salt\":\"0000000000000000\"}";

// The same election in version 2.
const SECOND: &[u8] =
    b"{\"contests\":[{\"choices\":4,\"allowed\":1},{\"choices\":3,\"allowed\":2}],\
    \"styles\":[[1,2]],\"limit\":8,\"bits\":3,\"salt\":\"0000000000000000\",\"version\":2}";

// The header of the example's images, in hexadecimal digits.
const HEADER: &str = "48494253544f524500010302000000080000000000000000";

const BUILD: &[&str] = &["medium", "election.json", "build"];

const SESSION: &[&str] = &["medium", "election.json", "session"];

const REPLAY: &[&str] = &["medium", "election.json", "replay"];

// The most bytes of a disk: one more than a medium of version 2 has.
const MOST: u64 = 867;

const ROOM: Room = Room {
    size: MOST,
    calls: 100,
    written: 4000,
};

const NO_ROOM: Room = Room {
    size: 0,
    calls: 0,
    written: 0,
};

// A source that gives the bytes of another in pieces of at most so many, and tells none.
#[derive(Drop)]
struct Pieces<S: Source + Drop> {
    inner: S,
    most: usize,
}

impl<S: Source + Drop> Source for Pieces<S> {
    ghost left = { λ _. None };

    ghost faults = { λ source. S.faults source.inner };

    ghost counted = { λ source. S.counted source.inner };

    fn read(&mut self, buf: &mut [u8]) -> Result<usize, Failed> {
        let most = buf.len().min(self.most);
        self.inner.read(&mut buf[..most])
    }
}

// The calls that fail, counted from 1. None fails where the number is 0.
#[derive(Clone, Copy)]
struct Failing {
    election: u64,
    script: u64,
    sink: u64,
    disk: u64,
}

const NOTHING: Failing = Failing {
    election: 0,
    script: 0,
    sink: 0,
    disk: 0,
};

// How a run ended, what it reported and wrote, and its disk.
#[derive(Drop)]
struct Ended {
    status: Status,
    report: Report,
    written: Vec<u8>,
    disk: MemoryDisk,
}

// The lines of a text, between which ` | ` stands, each with its end.
fn lines(alloc: Global, text: &str) -> Result<Vec<u8>, AllocError> {
    let mut bytes = Vec::new(alloc);
    if !text.is_empty() {
        for line in text.split(" | ") {
            bytes.extend_from_slice(line.as_bytes())?;
            bytes.push(b'\n')?;
        }
    }
    Ok(bytes)
}

// The image that has these digits from cell 4 on between zeros.
fn image_of(alloc: Global, cells: &str) -> Result<Vec<u8>, Fail> {
    let mut image = hex::decode(alloc, HEADER)?;
    image.resize(100, 0)?;
    image.extend_from_slice(&hex::decode(alloc, cells)?)?;
    image.resize(304, 0)?;
    Ok(image)
}

// The medium whose images have these digits from cell 4 on between zeros.
fn medium_of(alloc: Global, cells: &str) -> Result<Vec<u8>, Fail> {
    let image = image_of(alloc, cells)?;
    let mut medium = image.clone()?;
    medium.extend_from_slice(&image)?;
    medium.extend_from_slice(&[0xa7; 2])?;
    Ok(medium)
}

fn words_of(alloc: Global, texts: &[&str]) -> Result<Vec<String>, AllocError> {
    let mut words = Vec::new(alloc);
    for text in texts {
        words.push(String::from_str(alloc, text)?)?;
    }
    Ok(words)
}

// A disk with no bytes and no room for each word after the third.
fn no_disks(alloc: Global, texts: &[&str]) -> Result<Vec<MemoryDisk>, Fail> {
    let mut disks = Vec::new(alloc);
    for _ in 3..texts.len() {
        let none = Vec::new(alloc);
        disks.push(MemoryDisk::new(alloc, none, Vec::new(alloc), NO_ROOM)?)?;
    }
    Ok(disks)
}

// A disk with these bytes whose call of this number fails. None fails where it is 0.
fn disk_of(rt: &impl Abort, alloc: Global, bytes: &[u8], failing: u64) -> Result<MemoryDisk, Fail> {
    assert!(rt; bytes.len() as u64 <= MOST);
    let calls = vec![in alloc; failing]?;
    Ok(MemoryDisk::new(alloc, bytes.to_vec(alloc)?, calls, ROOM)?)
}

// The call that fails on the medium at a place, counted from 0, where it is this one.
fn call_at(at: u32, place: u32, call: u64) -> u64 {
    if at == place { call } else { 0 }
}

// The status of a run in which a call on the medium at a place failed.
fn fault_at(place: u32) -> Status {
    if place == 0 {
        Status::DiskFault
    } else {
        Status::OtherDiskFault { index: place }
    }
}

// A source whose call of this number fails. If there is one, the bytes come one by one.
fn source_of(alloc: Global, bytes: Vec<u8>, failing: u64) -> Result<Pieces<MemorySource>, Fail> {
    Ok(Pieces {
        inner: MemorySource::new(bytes, vec![in alloc; failing]?),
        most: if failing == 0 { usize::MAX } else { 1 },
    })
}

// The election in the file of this name.
fn election_named(name: Option<&&str>) -> &'static [u8] {
    match name {
        Some(&"second.json") => SECOND,
        _ => EXAMPLE,
    }
}

// A run of these words over these disks.
fn run_on<R, D, T>(
    rt: &R,
    texts: &[&str],
    script: &str,
    failing: Failing,
    disk: &mut D,
    more: &mut [D],
    turns: &T,
) -> Result<(Status, Report, Vec<u8>), Fail>
where
    R: Threads + Sync + AllocGlobal + Abort,
    D: Disk,
    T: Turns,
    requires { All (λ second. is_some (D.seen second) ≡ is_some (D.seen disk.old)) more.old }
{
    let alloc = rt.alloc();
    let words = words_of(alloc, texts)?;
    let mut election = source_of(
        alloc,
        election_named(texts.get(1)).to_vec(alloc)?,
        failing.election,
    )?;
    let mut script = source_of(alloc, lines(alloc, script)?, failing.script)?;
    let mut sink = MemorySink::new(alloc, 1000, vec![in alloc; failing.sink]?)?;
    assert_eq!(rt; more.len(), words.len().saturating_sub(3));
    let (status, report) = run(
        rt,
        alloc,
        &words,
        &mut election,
        &mut script,
        &mut sink,
        disk,
        more,
        turns,
    );
    Ok((status, report, sink.bytes().to_vec(alloc)?))
}

// A run of these words over a disk in memory with these bytes.
fn ends<R, T>(
    rt: &R,
    texts: &[&str],
    script: &str,
    medium: &[u8],
    failing: Failing,
    turns: &T,
) -> Result<Ended, Fail>
where
    R: Threads + Sync + AllocGlobal + Abort,
    T: Turns,
{
    let alloc = rt.alloc();
    let mut disk = disk_of(rt, alloc, medium, failing.disk)?;
    let mut more = no_disks(alloc, texts)?;
    let (status, report, written) = run_on(
        rt, texts, script, failing, &mut disk, &mut more, turns,
    )?;
    Ok(Ended {
        status,
        report,
        written,
        disk,
    })
}

// The words of a run, its script, and its bad line.
type BadLine = (&'static [&'static str], &'static str, u64, LineWhy);

const BAD_LINES: [BadLine; 12] = [
    (BUILD, "9 1 1/- | 9 1 1/-", 2, LineWhy::Duplicate),
    (BUILD, "9 1 1/- | 9 1 2/-", 2, LineWhy::Conflict),
    (BUILD, "7 2 1/-", 1, LineWhy::Invalid),
    (BUILD, "7 1 5/-", 1, LineWhy::Invalid),
    (BUILD, "7 1 1", 1, LineWhy::Invalid),
    (BUILD, "7 1 3,1/-", 1, LineWhy::Malformed),
    (BUILD, "9 1 1/- | x | 9 1 1/-", 2, LineWhy::Malformed),
    (
        BUILD,
        "1 1 -/- | 2 1 -/- | 3 1 -/- | 5 1 -/- | 6 1 -/- | 9 1 -/- | 14 1 -/- | 17 1 -/- | 22 1 -/-",
        9,
        LineWhy::Full,
    ),
    (
        BUILD,
        "1 1 -/- | 2 1 -/- | 3 1 -/- | 5 1 -/- | 6 1 -/- | 9 1 -/- | 14 1 -/- | 17 1 -/- | 9 1 1/-",
        9,
        LineWhy::Conflict,
    ),
    (REPLAY, "start 9 9", 1, LineWhy::Invalid),
    (REPLAY, "start", 2, LineWhy::Malformed),
    (REPLAY, "start | cast 1 | list 2 7", 3, LineWhy::Invalid),
];

// A run that ends at its bad line, and leaves nothing.
fn assert_bad_line<R>(rt: &R, row: BadLine) -> Result<(), Fail>
where
    R: Threads + Sync + AllocGlobal + Abort,
{
    let (words, script, line, why) = row;
    let ended = ends(rt, words, script, &[], NOTHING, &NoTurns)?;
    assert_eq!(rt; ended.status, Status::BadLine { line, why }, "{script}");
    assert_eq!(rt;
        (ended.written.len(), ended.disk.calls()),
        (0, 0),
        "{script}"
    );
    Ok(())
}

#[test]
fn causes_of_bad_lines(rt: HostRuntime) -> Result<(), Fail> {
    for row in &BAD_LINES {
        assert_bad_line(&rt, *row)?;
    }
    Ok(())
}
