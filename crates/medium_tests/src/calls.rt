//! What a disk in memory was asked for.

use crash_disk::{Disk, DiskCall, MemoryDisk};
use std::process::Abort;

/// The calls from this one on are these.
pub fn assert_calls(rt: &impl Abort, disk: &MemoryDisk, from: u64, calls: &[DiskCall]) {
    for (index, call) in calls.iter().enumerate() {
        let made = disk.call_made(from.wrapping_add(index as u64));
        assert_eq!(rt; made, Some(*call), "{index}");
    }
}

/// All calls are these.
pub fn assert_all_calls(rt: &impl Abort, disk: &MemoryDisk, calls: &[DiskCall]) {
    assert_calls(rt, disk, 0, calls);
    assert_eq!(rt; disk.calls(), calls.len() as u64);
}
