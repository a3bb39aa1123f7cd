//! Replays: their texts, and what is refused.

use ballot_record::{Election, LineWhy};
use outside_io::{MemorySink, MemorySource, SureSink, SureSource};
use schedule_replay::{ReplayFault, replay};
use std::alloc::Global;
use std::test::Fail;

const RACE: &str = "start\ncast 2\nlist 1 1\nlist 2 9\nsteps 1 2 2 1 2 1 2 2\n";

const RACE_TEXT: &str = "steps 8\ncell 4 9\nrest\ncell 4 9\ncell 5 1\n1 1 accepted\n2 1 accepted\n";

const STALE: &str =
    "start 1 9 14 22\nwithdraw 2\nlist 1 22\nlist 2 9\nsteps 1 1 1 1 1 1 2 2 2 2 2 2 2 2 2 2 1\n";

fn replayed(
    alloc: Global,
    election: &Election,
    script: &str,
) -> Result<Result<String, ReplayFault>, Fail> {
    let mut source = SureSource::new(Vec::from_slice(alloc, script.as_bytes())?);
    let mut sink = MemorySink::new(alloc, 65536, Vec::new(alloc))?;
    match replay(alloc, election, &mut source, &mut sink) {
        Ok(()) => Ok(Ok(String::from_utf8_lossy(alloc, sink.bytes())?)),
        Err(fault) => Ok(Err(fault)),
    }
}

#[test]
fn what_is_refused(rt: HostRuntime) -> Result<(), Fail> {
    let rows = [
        ("", 1, LineWhy::Malformed),
        ("start 9 9", 1, LineWhy::Invalid),
        ("start 1 2 3 4 5 6 7 8 9", 1, LineWhy::Invalid),
        ("start", 2, LineWhy::Malformed),
        ("cast 2", 1, LineWhy::Malformed),
        ("start\nlist 1 1", 2, LineWhy::Malformed),
        ("start\ncast 0", 2, LineWhy::Malformed),
        ("start\ncast 65", 2, LineWhy::Malformed),
        ("start\ncast 1 1", 2, LineWhy::Malformed),
        ("start\ncast 1\nlist 2 7", 3, LineWhy::Invalid),
        ("start\ncast 2\nlist 3 0", 3, LineWhy::Malformed),
        ("start\ncast 2\nlist 65 1", 3, LineWhy::Malformed),
        ("start\ncast 2\nlist", 3, LineWhy::Malformed),
        ("start\ncast 2\nsteps 1 3", 3, LineWhy::Invalid),
        ("start\ncast 2\nsteps 65", 3, LineWhy::Malformed),
        ("start\ncast 2\nsteps 1\nlist 1 1", 4, LineWhy::Malformed),
        ("start\ncast 2\nsteps  1", 3, LineWhy::Malformed),
        ("start\ncast 2\nsteps 1 ", 3, LineWhy::Malformed),
        ("start\ncast 2\ncast 2", 3, LineWhy::Malformed),
        (
            "start\ncast 2\nlist 1 18446744073709551616",
            3,
            LineWhy::Malformed,
        ),
    ];
    for (script, line, why) in rows {
        match replayed(rt.alloc(), &Election::example(), script)? {
            Ok(written) => assert!(rt; false, "{written} for {script}"),
            Err(fault) => assert_eq!(rt; fault, ReplayFault::BadLine { line, why }, "{script}"),
        }
    }
    Ok(())
}

const FIRST_LINE: ReplayFault = ReplayFault::BadLine {
    line: 1,
    why: LineWhy::Malformed,
};

/// What a replay answers whose source and sink fail at these calls, and what it has written.
fn faulted(
    alloc: Global,
    script: &str,
    failing_reads: &[u64],
    failing_writes: &[u64],
    room: usize,
) -> Result<(Result<(), ReplayFault>, usize), Fail> {
    let bytes = Vec::from_slice(alloc, script.as_bytes())?;
    let mut source = MemorySource::new(bytes, Vec::from_slice(alloc, failing_reads)?);
    let mut sink = MemorySink::new(alloc, room, Vec::from_slice(alloc, failing_writes)?)?;
    let answer = replay(alloc, &Election::example(), &mut source, &mut sink);
    Ok((answer, sink.bytes().len()))
}

#[test]
fn what_fails_outside(rt: HostRuntime) -> Result<(), Fail> {
    let read = Err(ReplayFault::ReadFault);
    let write = Err(ReplayFault::WriteFault);
    let whole = RACE_TEXT.len();
    let rows: [(&str, &[u64], &[u64], usize, Result<(), ReplayFault>); 6] = [
        // The source fails at once, and where its end was to be found.
        (RACE, &[1], &[], 65536, read),
        (RACE, &[2], &[], 65536, read),
        // A bad line that is whole is told first.
        ("cast 2\n", &[2], &[], 65536, Err(FIRST_LINE)),
        // The sink fails, or has no room for the whole text.
        (RACE, &[], &[1], 65536, write),
        (RACE, &[], &[], whole - 1, write),
        (RACE, &[], &[], whole, Ok(())),
    ];
    for (script, reads, writes, room, wanted) in rows {
        let (answer, written) = faulted(rt.alloc(), script, reads, writes, room)?;
        assert_eq!(rt; answer, wanted);
        assert_eq!(rt; written, if wanted.is_ok() { whole } else { 0 });
    }
    Ok(())
}

#[test]
fn a_sink_that_tells_nothing(rt: HostRuntime) -> Result<(), Fail> {
    let alloc = rt.alloc();
    let mut source = SureSource::new(Vec::from_slice(alloc, STALE.as_bytes())?);
    let answer = replay(
        alloc,
        &Election::example(),
        &mut source,
        &mut SureSink::new(),
    );
    assert_eq!(rt; answer, Ok(()));
    Ok(())
}
