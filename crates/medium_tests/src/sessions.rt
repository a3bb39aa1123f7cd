//! Sessions over a disk and a sink in memory.

use ballot_record::{Election, Record};
use body_store::Closed;
use checkpoint::init;
use crash_disk::{Disk, MemoryDisk, Room};
use image_builder::Scratch;
use outside_io::{MemorySink, NoTurns, Sink};
use phase_gate::{Phase, Report, Session, Writing};
use script_lines::read_said;
use std::alloc::Global;
use std::test::Fail;
use std::thread::Threads;

const ROOM: Room = Room {
    size: 610,
    calls: 40,
    written: 2000,
};

/// Handles these lines on a disk that is made the medium of the empty set, and the end of the script.
fn handle<R: Threads + Sync, D: Disk, K: Sink>(
    rt: &R,
    alloc: Global,
    writing: Writing,
    lines: &[&str],
    disk: &mut D,
    out: &mut K,
    report: &mut Report,
) -> Result<(), Fail> {
    let election = Election::example();
    let mut scratch = Scratch::new(alloc)?;
    init(alloc, disk, &election)?;
    let closed = Closed::empty(alloc, &election)?;
    let mut session = Session::writing(alloc, closed, writing);
    let mut ballot = Record::blank();
    'lines: for (at, line) in lines.iter().enumerate() {
        let number = at as u64 + 1;
        let bytes = line.as_bytes();
        let said = read_said(bytes, &election, &mut ballot);
        session = session.line(
            rt,
            alloc,
            bytes,
            said,
            &ballot,
            number,
            disk,
            out,
            &NoTurns,
            &mut scratch,
            report,
        )?;
    }
    Ok(session.end(out)?)
}

/// What is written for these lines and the end behind them, where a session tells so much of its replies.
fn written<R: Threads + Sync>(
    rt: &R,
    alloc: Global,
    writing: Writing,
    lines: &[&str],
    report: &mut Report,
) -> Result<Vec<u8>, Fail> {
    let mut disk = MemoryDisk::new(alloc, Vec::new(alloc), Vec::new(alloc), ROOM)?;
    let mut out = MemorySink::new(alloc, 1000, Vec::new(alloc))?;
    handle(rt, alloc, writing, lines, &mut disk, &mut out, report)?;
    Ok(Vec::from_slice(alloc, out.bytes())?)
}

#[test]
fn a_session_begins_closed(rt: HostRuntime) -> Result<(), Fail> {
    let alloc = rt.alloc();
    let election = Election::example();
    let closed = Closed::empty(alloc, &election)?;
    let session = Session::new(alloc, closed);
    assert_eq!(rt; session.phase(), Phase::Closed);
    Ok(())
}

#[test]
fn a_summary(rt: HostRuntime) -> Result<(), Fail> {
    let alloc = rt.alloc();
    let mut report = Report::new(alloc);
    let lines = [
        "open cast 2",
        "cast 1 2 1 -/1,2,3",
        "cast 2 1 1 2/1,3",
        "tally",
        "close",
        "open withdraw 1",
        "withdraw 1 2",
        "close",
        "checkpoint",
        "tally",
        "export",
        "open find 1",
    ];
    let told = b"closed 2\nclosed 1\ncheckpoint 1\ntally 1\n\
        contest 1 under 0 over 0\nchoice 1 1 0\nchoice 1 2 1\nchoice 1 3 0\nchoice 1 4 0\n\
        contest 2 under 0 over 0\nchoice 2 1 1\nchoice 2 2 0\nchoice 2 3 1\n";
    let replies = written(&rt, alloc, Writing::Summary, &lines, &mut report)?;
    assert!(rt; replies.as_slice() == told.as_slice());
    assert_eq!(rt; report.held, 1);
    assert_eq!(rt; report.marks.len(), 1);
    Ok(())
}
