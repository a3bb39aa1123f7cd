//! The calls of an audit of the medium of the ballots 1, 9 and 14.

use crate::calls::assert_all_calls;
use crate::recoveries::{medium, three_ballots};
use audit_medium::{Audit, audit};
use ballot_record::Election;
use crash_disk::{Disk, DiskCall, MemoryDisk, Room};
use recovery::RecoverFault;
use std::test::Fail;

const ROOM: Room = Room {
    size: 610,
    calls: 8,
    written: 0,
};

/// The calls of an audit that reads bank A.
const CALLS: [DiskCall; 4] = [
    DiskCall::Size,
    DiskCall::Read { at: 608, count: 2 },
    DiskCall::Read { at: 0, count: 304 },
    DiskCall::Read {
        at: 304,
        count: 304,
    },
];

#[test]
fn calls_made(rt: HostRuntime) -> Result<(), Fail> {
    let alloc = rt.alloc();
    let bytes = medium(alloc, &three_ballots())?;
    let mut disk = MemoryDisk::new(alloc, bytes, Vec::new(alloc), ROOM)?;
    let found = audit(alloc, &mut disk, &Election::example());
    assert_eq!(rt; found, Ok(Audit::Canonical { held: 3 }));
    assert_all_calls(&rt, &disk, &CALLS);
    Ok(())
}

#[test]
fn a_failed_call_is_the_last(rt: HostRuntime) -> Result<(), Fail> {
    let alloc = rt.alloc();
    for failing in [1, 2, 3, 4] {
        let bytes = medium(alloc, &three_ballots())?;
        let mut disk = MemoryDisk::new(alloc, bytes, vec![in alloc; failing; 1]?, ROOM)?;
        let found = audit(alloc, &mut disk, &Election::example());
        assert_eq!(rt; found, Err(RecoverFault::DiskFault), "{failing}");
        assert_eq!(rt; disk.calls(), failing);
    }
    Ok(())
}
