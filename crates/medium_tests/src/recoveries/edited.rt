//! Media that were edited.

ghost use Rattle.std.specs.Prelude.{◌≡◌, ◌+◌, ◌<◌, ◌≤◌, length};

use super::{
    HEADER, NINE, assert_medium, disk_of, medium, put, recovered, three_ballots, two_ballots,
};
use recovery::RecoverFault;
use std::alloc::Global;
use std::process::Abort;
use std::test::Fail;

/// Recovers the medium of three ballots with these bytes at this place: so many come back, and the medium of the bank, or
/// it is refused.
fn recover_edited(
    rt: &impl Abort,
    alloc: Global,
    place: usize,
    patch: &[u8],
    wanted: Result<usize, RecoverFault>,
    bank: &[u8; 304],
) -> Result<(), Fail> {
    let mut bytes = medium(alloc, &three_ballots())?;
    assert!(rt; place <= 610 && patch.len() <= 610 - place);
    put(&mut bytes, place, patch);
    let before = bytes.clone()?;
    let mut disk = disk_of(alloc, bytes)?;
    assert_eq!(rt; recovered(alloc, &mut disk), wanted, "{place}");
    if wanted.is_ok() {
        assert_medium(rt, alloc, disk.bytes(), bank)?;
    } else {
        assert_eq!(rt; disk.bytes(), before.as_slice(), "{place}");
    }
    Ok(())
}

fn damaged(cell: u32) -> Result<usize, RecoverFault> {
    Err(RecoverFault::Damaged { cell })
}

#[test]
fn bytes_changed(rt: HostRuntime) -> Result<(), Fail> {
    let mut version = HEADER;
    version[9] = 2;
    let mut salt = HEADER;
    salt[23] = 1;
    let (three, two) = (three_ballots(), two_ballots());
    let other = |header| Err(RecoverFault::OtherElection { header });
    let table: [(usize, &[u8], Result<usize, RecoverFault>); 13] = [
        (9, &[2], other(version)),
        (23, &[1], other(salt)),
        (108, &[2], damaged(4)),
        (112, &[0x10], damaged(4)),
        (100, &[0; 17], damaged(6)),
        (117, &[0; 17], damaged(6)),
        (134, &NINE, damaged(6)),
        (134, &[0; 17], Ok(2)),
        (151, &[0; 17], Ok(3)),
        (411, &[8], Ok(3)),
        (608, &[0], Ok(3)),
        (609, &[0x3c], Ok(3)),
        (608, &[0, 0], Err(RecoverFault::NoStore)),
    ];
    for (place, patch, wanted) in table {
        let bank = if wanted == Ok(2) { &two } else { &three };
        recover_edited(&rt, rt.alloc(), place, patch, wanted, bank)?;
    }
    Ok(())
}
