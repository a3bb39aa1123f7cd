//! Each read, write and disk call of each command fails in turn.

use super::rows::{END, Row, all_rows, assert_recovers, assert_whole, ends_of, told_after};
use super::{EXAMPLE, Ended, Failing, NOTHING, ROOM, SESSION, lines, medium_of, run_on, words_of};
use crash_disk::{Disk, FusedDisk, MemoryDisk, Torn};
use outside_io::{MemorySink, MemorySource, NoTurns};
use run_command::{Status, Which, run};
use std::alloc::Global;
use std::process::Abort;
use std::test::Fail;
use std::thread::Threads;

// What the calls are made of.
#[derive(Clone, Copy, Debug, PartialEq, Eq)]
enum Of {
    Election,
    Script,
    Sink,
    Disk,
}

// A run of a row whose call of this number fails.
fn failing(of: Of, call: u64) -> Failing {
    match of {
        Of::Election => Failing {
            election: call,
            ..NOTHING
        },
        Of::Script => Failing {
            script: call,
            ..NOTHING
        },
        Of::Sink => Failing {
            sink: call,
            ..NOTHING
        },
        Of::Disk => Failing {
            disk: call,
            ..NOTHING
        },
    }
}

fn fault(of: Of) -> Status {
    match of {
        Of::Election => Status::ReadFault {
            which: Which::Election,
        },
        Of::Script => Status::ReadFault {
            which: Which::Script,
        },
        Of::Sink => Status::WriteFault,
        Of::Disk => Status::DiskFault,
    }
}

// How many calls a run makes at least, where none fails.
fn least_calls(alloc: Global, row: &Row, of: Of, ended: &Ended) -> Result<u64, Fail> {
    Ok(match of {
        Of::Election => EXAMPLE.len() as u64,
        Of::Script => lines(alloc, row.script)?.len() as u64,
        Of::Sink => 1,
        Of::Disk => ended.disk.calls(),
    })
}

// How many lines were read before the call that failed. Five calls of the disk recover a medium, and the others that a
// session makes are those of its checkpoint.
fn lines_before(alloc: Global, row: &Row, of: Of, call: u64) -> Result<usize, Fail> {
    let read = lines(alloc, row.script)?;
    let ends = read
        .iter()
        .take((call as usize).saturating_sub(1))
        .filter(|byte| **byte == b'\n');
    Ok(match of {
        Of::Script => ends.count(),
        Of::Disk if call > 5 => 5,
        _ => 0,
    })
}

// What a run has written whose call failed.
fn assert_written(
    rt: &impl Abort,
    alloc: Global,
    row: &Row,
    of: Of,
    call: u64,
    ended: &Ended,
) -> Result<(), Fail> {
    if of == Of::Sink {
        let whole = told_after(alloc, row, END)?;
        assert!(rt; whole.starts_with(&ended.written), "{call}");
        assert!(rt; ended.written.len() < whole.len(), "{call}");
        return Ok(());
    }
    let read = lines_before(alloc, row, of, call)?;
    assert!(rt;
        ended.written == told_after(alloc, row, read)?,
        "{of:?} {call}"
    );
    assert_eq!(rt; ended.report.marks.len(), read / 6, "{of:?} {call}");
    if of == Of::Election {
        assert_eq!(rt; ended.disk.calls(), 0);
    }
    Ok(())
}

// What comes back from the disk of a run whose call failed: the set of the last checkpoint that was acknowledged, or, where
// the sink or the disk failed, that of the next one.
fn assert_left<R>(rt: &R, row: &Row, of: Of, ended: &Ended) -> Result<(), Fail>
where
    R: Threads + Sync + AllocGlobal + Abort,
{
    let alloc = rt.alloc();
    let most = if of == Of::Script { 1 } else { 2 };
    let marks = ended.report.marks.len();
    let sets = row.sets.get(marks..).unwrap_or(&[]);
    let sets = &sets[..sets.len().min(most)];
    if of == Of::Election || sets.is_empty() {
        return Ok(());
    }
    assert_recovers(rt, ended.disk.bytes(), sets)?;
    if of == Of::Disk {
        for torn in [Torn::Old, Torn::New, Torn::Fill(0x3c), Torn::Fill(0xa7)] {
            let stopped = ended
                .disk
                .after_stop(alloc, ended.disk.calls(), false, torn)?;
            assert_recovers(rt, stopped.bytes(), sets)?;
        }
    }
    Ok(())
}

// Each call fails in turn, until a run makes no such call.
fn assert_each_fails<R>(rt: &R, row: &Row, of: Of) -> Result<(), Fail>
where
    R: Threads + Sync + AllocGlobal + Abort,
{
    let alloc = rt.alloc();
    for call in 1..1000 {
        let ended = ends_of(rt, row, failing(of, call))?;
        if ended.status == Status::Ok {
            assert!(rt;
                call > least_calls(alloc, row, of, &ended)?,
                "{of:?} {call}"
            );
            return assert_whole(rt, alloc, row, &ended);
        }
        assert_eq!(rt; ended.status, fault(of), "{call}");
        assert_written(rt, alloc, row, of, call, &ended)?;
        assert_left(rt, row, of, &ended)?;
    }
    assert!(rt; false, "a call fails each time");
    Ok(())
}

#[test]
fn each_call_fails_in_turn(rt: HostRuntime) -> Result<(), Fail> {
    for row in all_rows() {
        for of in [Of::Election, Of::Script, Of::Sink, Of::Disk] {
            assert_each_fails(&rt, row, of)?;
        }
    }
    Ok(())
}

#[test]
fn a_disk_that_passes_no_call(rt: HostRuntime) -> Result<(), Fail> {
    let alloc = rt.alloc();
    let mut disk = FusedDisk::new(alloc, Vec::new(alloc), 0, ROOM)?;
    let (status, _, written) = run_on(
        &rt,
        SESSION,
        "open cast 1",
        NOTHING,
        &mut disk,
        &mut Vec::new(alloc),
        &NoTurns,
    )?;
    assert_eq!(rt; status, Status::DiskFault);
    assert_eq!(rt; written.len(), 0);
    Ok(())
}

// The first call of the script gives all its bytes, which have no line end, and the second its end. The third would fail.
#[test]
fn a_script_is_not_asked_again_after_its_end(rt: HostRuntime) -> Result<(), Fail> {
    let alloc = rt.alloc();
    let medium = medium_of(alloc, "")?;
    assert!(rt; medium.len() <= 610);
    let mut disk = MemoryDisk::new(alloc, medium, Vec::new(alloc), ROOM)?;
    let mut sink = MemorySink::new(alloc, 100, Vec::new(alloc))?;
    let words = words_of(alloc, SESSION)?;
    assert_eq!(rt; words.len(), 3);
    let (status, _) = run(
        &rt,
        alloc,
        &words,
        &mut MemorySource::new(EXAMPLE.to_vec(alloc)?, Vec::new(alloc)),
        &mut MemorySource::new(b"open cast 1".to_vec(alloc)?, vec![in alloc; 3]?),
        &mut sink,
        &mut disk,
        &mut [],
        &NoTurns,
    );
    assert_eq!(rt; status, Status::Ok);
    assert_eq!(rt; sink.bytes(), b"casting 1\ndropped casting\n".as_slice());
    Ok(())
}
