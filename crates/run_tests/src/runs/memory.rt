//! Runs whose memory is refused: `tools/refuse_memory` runs this test with one call of the allocator refused, the first,
//! the second and so on. Where none is, they are runs like any other.

use super::NOTHING;
use super::rows::{END, Row, all_rows, assert_recovers, assert_whole, ends_of, told_after};
use crash_disk::Disk;
use run_command::Status;
use std::process::Abort;
use std::test::Fail;
use std::thread::Threads;

// A run ends well or for want of memory, and then the medium of the set of the last mark is recovered, or of the next.
// `Err` where there was no memory for what stands around the run.
fn assert_ends<R>(rt: &R, row: &Row) -> Result<(), Fail>
where
    R: Threads + Sync + AllocGlobal + Abort,
{
    let alloc = rt.alloc();
    let ended = ends_of(rt, row, NOTHING)?;
    if ended.status == Status::Ok {
        return assert_whole(rt, alloc, row, &ended);
    }
    assert_eq!(rt; ended.status, Status::Memory);
    assert!(rt; told_after(alloc, row, END)?.starts_with(&ended.written));
    let marks = ended.report.marks.len();
    match row.sets.get(marks..) {
        Some(sets) if !sets.is_empty() => assert_recovers(rt, ended.disk.bytes(), sets),
        _ => Ok(()),
    }
}

#[test]
fn each_command_ends_well_or_for_want_of_memory(rt: HostRuntime) -> Result<(), Fail> {
    for row in all_rows() {
        assert_ends(&rt, row)?;
    }
    Ok(())
}
