//! Disks in memory that are stopped.

use crate::memory::{Step, assert_steps, three_bytes};
use crash_disk::{Disk, DiskCall, MemoryDisk, Torn};
use outside_io::Failed;
use std::alloc::Global;
use std::process::Abort;
use std::test::Fail;

const STEPS: [Step<'static>; 7] = [
    (DiskCall::Write { at: 0, count: 1 }, &[9], Ok(true)),
    (DiskCall::Sync, &[], Ok(true)),
    (DiskCall::Write { at: 2, count: 2 }, &[7, 8], Ok(true)),
    (DiskCall::Write { at: 1, count: 1 }, &[5], Ok(true)),
    // The fifth call is to fail.
    (DiskCall::Write { at: 0, count: 1 }, &[6], Err(Failed)),
    (DiskCall::Sync, &[], Ok(true)),
    (DiskCall::Size, &[9, 5, 7, 8], Ok(true)),
];

// What a stop of a disk leaves, after so many calls or inside the next one.
fn assert_left(
    rt: &impl Abort,
    alloc: Global,
    disk: &MemoryDisk,
    stop: (u64, bool, Torn),
    left: &[u8],
) -> Result<(), Fail> {
    let (calls, inside, torn) = stop;
    assert!(rt; calls < disk.calls());
    let stopped = disk.after_stop(alloc, calls, inside, torn)?;
    assert_eq!(rt;
        (stopped.bytes(), stopped.calls()),
        (left, 0),
        "{calls} {inside} {torn:?}"
    );
    Ok(())
}

/// After how many calls, or inside the next one, the disk stops, and what is left then.
const LEFT: [((u64, bool, Torn), &[u8]); 17] = [
    ((0, false, FILL), &[1, 2, 3]),
    ((0, true, Torn::Old), &[1, 2, 3]),
    ((0, true, Torn::New), &[9, 2, 3]),
    ((0, true, FILL), &[60, 2, 3]),
    ((1, false, FILL), &[60, 2, 3]),
    ((1, true, Torn::Old), &[1, 2, 3]),
    ((1, true, FILL), &[60, 2, 3]),
    ((2, false, FILL), &[9, 2, 3]),
    ((2, true, Torn::Old), &[9, 2, 3]),
    ((2, true, Torn::New), &[9, 2, 7, 8]),
    ((2, true, FILL), &[9, 2, 60, 60]),
    ((3, true, Torn::New), &[9, 5, 7, 8]),
    ((3, true, FILL), &[9, 60, 60, 60]),
    ((4, true, FILL), &[9, 60, 60, 60]),
    ((5, true, Torn::Old), &[9, 2, 3]),
    ((5, true, FILL), &[9, 60, 60, 60]),
    ((6, true, FILL), &[9, 5, 7, 8]),
];

const FILL: Torn = Torn::Fill(60);

#[test]
fn stopped_before_and_inside_its_calls(rt: HostRuntime) -> Result<(), Fail> {
    let alloc = rt.alloc();
    let mut disk = three_bytes(alloc, 5)?;
    assert_steps(&rt, &mut disk, &STEPS);
    for (stop, left) in &LEFT {
        assert_left(&rt, alloc, &disk, *stop, *left)?;
    }
    Ok(())
}

const BEFORE: [Step<'static>; 2] = [
    (DiskCall::Write { at: 3, count: 1 }, &[4], Ok(true)),
    (DiskCall::Sync, &[], Err(Failed)),
];

/// No call of the stopped disk is to fail, and it has the same room.
const BEHIND: [Step<'static>; 2] = [
    (DiskCall::Write { at: 4, count: 2 }, &[5, 6], Ok(true)),
    (DiskCall::Sync, &[], Ok(true)),
];

const TOO_MUCH: [Step<'static>; 1] = [(DiskCall::Write { at: 6, count: 1 }, &[7], Err(Failed))];

#[test]
fn goes_on_behind_a_stop(rt: HostRuntime) -> Result<(), Fail> {
    let alloc = rt.alloc();
    let mut disk = three_bytes(alloc, 2)?;
    assert_steps(&rt, &mut disk, &BEFORE);
    assert_eq!(rt; disk.calls(), 2);
    let mut stopped = disk.after_stop(alloc, 2, false, Torn::New)?;
    assert_steps(&rt, &mut stopped, &BEHIND);
    assert_eq!(rt; stopped.bytes(), [1, 2, 3, 4, 5, 6].as_slice());
    assert_steps(&rt, &mut stopped, &TOO_MUCH);
    Ok(())
}
