//! Disks in memory: what they record, and which of their calls fail.

use crate::layer::replace;
use crash_disk::{Disk, DiskCall, Failing, FusedDisk, MemoryDisk, RecordedDisk, Room, SureDisk};
use outside_io::Failed;
use std::alloc::Global;
use std::process::Abort;
use std::test::Fail;

const ROOM: Room = Room {
    size: 6,
    calls: 10,
    written: 8,
};

/// A call on a disk in memory; the bytes that a write puts, that a read is to give, or as many as a size is to be; and
/// whether they are what it gives, or that it fails.
pub(crate) type Step<'a> = (DiskCall, &'a [u8], Result<bool, Failed>);

// Makes a call, and answers whether it gives these bytes, or as many. One out of the disk's range is not made.
fn gives<W: Failing + Drop>(
    disk: &mut RecordedDisk<W>,
    call: DiskCall,
    bytes: &[u8],
) -> Result<bool, Failed> {
    let size = disk.bytes().len() as u64;
    match call {
        DiskCall::Size => Ok(disk.size()? == bytes.len() as u64),
        DiskCall::Read { at, count } if at <= size && count as u64 <= size - at && count <= 8 => {
            let mut buf = [0; 8];
            disk.read(at, &mut buf[..count])?;
            Ok(&buf[..count] == bytes)
        }
        DiskCall::Write { at, count } if at <= size && count == bytes.len() => {
            disk.write_at(at, bytes)?;
            Ok(true)
        }
        DiskCall::Sync => {
            disk.sync()?;
            Ok(true)
        }
        _ => Ok(false),
    }
}

// Makes these calls one after another, and compares what each answers.
pub(crate) fn assert_steps<W: Failing + Drop>(
    rt: &impl Abort,
    disk: &mut RecordedDisk<W>,
    steps: &[Step<'_>],
) {
    for (call, bytes, wanted) in steps {
        assert_eq!(rt; gives(disk, *call, *bytes), *wanted, "{call:?}");
    }
}

const STEPS: [Step<'static>; 11] = [
    (DiskCall::Size, &[1, 2, 3], Ok(true)),
    (DiskCall::Write { at: 2, count: 2 }, &[7, 8], Ok(true)),
    (DiskCall::Sync, &[], Ok(true)),
    (DiskCall::Size, &[1, 2, 7, 8], Ok(true)),
    // The fifth call is to fail.
    (DiskCall::Read { at: 1, count: 2 }, &[2, 7], Err(Failed)),
    (DiskCall::Read { at: 1, count: 2 }, &[2, 7], Ok(true)),
    // The size would be 7.
    (DiskCall::Write { at: 4, count: 3 }, &[9, 9, 9], Err(Failed)),
    (DiskCall::Write { at: 0, count: 4 }, &[4, 4, 4, 4], Ok(true)),
    // Nine bytes would be written.
    (DiskCall::Write { at: 0, count: 3 }, &[4, 4, 4], Err(Failed)),
    (DiskCall::Sync, &[], Ok(true)),
    // There is room for ten calls.
    (DiskCall::Size, &[4, 4, 4, 4], Err(Failed)),
];

// A disk of three bytes, of which this call is to fail.
pub(crate) fn three_bytes(alloc: Global, failing: u64) -> Result<MemoryDisk, Fail> {
    let bytes = [1, 2, 3].to_vec(alloc)?;
    Ok(MemoryDisk::new(alloc, bytes, [failing].to_vec(alloc)?, ROOM)?)
}

#[test]
fn memory_disk_records_its_calls(rt: HostRuntime) -> Result<(), Fail> {
    let mut disk = three_bytes(rt.alloc(), 5)?;
    assert_steps(&rt, &mut disk, &STEPS[..7]);
    assert_eq!(rt; disk.bytes(), [1, 2, 7, 8].as_slice());
    assert_steps(&rt, &mut disk, &STEPS[7..]);
    assert_eq!(rt; disk.calls(), 11);
    assert_recorded(&rt, &disk);
    Ok(())
}

// The record has these calls, and what each write put.
fn assert_recorded(rt: &impl Abort, disk: &MemoryDisk) {
    let mut index = 0u64;
    for (call, _, _) in &STEPS[..10] {
        assert_eq!(rt; disk.call_made(index), Some(*call));
        index += 1;
    }
    assert_eq!(rt; disk.call_made(10), None);
    // The write that failed put nothing.
    let puts: [(u64, &[u8]); 3] = [(1, &[7, 8]), (6, &[]), (7, &[4, 4, 4, 4])];
    for (index, put) in puts {
        assert_eq!(rt; disk.written(index), put);
    }
}

#[test]
fn memory_disk_is_replaced(rt: HostRuntime) -> Result<(), Fail> {
    let alloc = rt.alloc();
    let mut disk = MemoryDisk::new(alloc, [1, 2, 3].to_vec(alloc)?, [5].to_vec(alloc)?, ROOM)?;
    assert_eq!(rt; replace(&mut disk, 2, &[7, 8]), Ok(()));
    assert_eq!(rt; disk.bytes(), [1, 2, 7, 8].as_slice());
    Ok(())
}

const PASSED_NO_MORE: [Step<'static>; 3] = [
    (DiskCall::Sync, &[], Err(Failed)),
    (DiskCall::Write { at: 0, count: 1 }, &[9], Err(Failed)),
    (DiskCall::Size, &[], Err(Failed)),
];

#[test]
fn fused_disk_passes_two_calls(rt: HostRuntime) -> Result<(), Fail> {
    let alloc = rt.alloc();
    let mut disk = FusedDisk::new(alloc, [1, 2, 3].to_vec(alloc)?, 2, ROOM)?;
    assert_eq!(rt; replace(&mut disk, 3, &[4]), Ok(()));
    assert_steps(&rt, &mut disk, &PASSED_NO_MORE);
    assert_eq!(rt; (disk.bytes(), disk.calls()), ([1, 2, 3, 4].as_slice(), 5));
    Ok(())
}

#[test]
fn sure_disk_never_fails(rt: HostRuntime) {
    let mut disk = SureDisk::new();
    assert_eq!(rt; disk.write_at(7, b"ab"), Ok(()));
    assert_eq!(rt; disk.read(3, &mut [0; 4]), Ok(()));
    assert!(rt; disk.size().is_ok());
    assert_eq!(rt; disk.sync(), Ok(()));
    assert_eq!(rt; disk.calls(), 4);
}
