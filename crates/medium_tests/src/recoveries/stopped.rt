//! Media that were stopped.
#![tactic(auto, unfolding(store_spec::specs::Election::cell_size, store_spec::specs::Election::header_size, store_spec::specs::Election::in_version))]

ghost use Rattle.std.specs.Prelude.{◌≡◌, ◌<◌, ◌≤◌};
ghost use Rattle.crash_disk.specs.Recorded.{recorded_calls};

use super::{ROOM, assert_medium, disk_of, empty_bank, medium, put, recovered, three_ballots};
use crate::calls::{assert_all_calls, assert_calls};
use ballot_record::Election;
use checkpoint::checkpoint;
use crash_disk::{Disk, DiskCall, MemoryDisk, Torn};
use image_builder::{Scratch, read_image};
use recovery::{RecoverFault, recover};
use std::alloc::Global;
use std::process::Abort;
use std::test::Fail;

const TORN: [Torn; 4] = [Torn::Old, Torn::New, Torn::Fill(0x3c), Torn::Fill(0xa7)];

/// A disk on which the medium of no ballots became that of three, and how many calls it had made before.
fn checkpointed(alloc: Global) -> Result<(MemoryDisk, u64), Fail> {
    let election = Election::example();
    let mut scratch = Scratch::new(alloc)?;
    let mut disk = disk_of(alloc, medium(alloc, &empty_bank())?)?;
    recover(alloc, &mut disk, &election, &mut scratch)?;
    let before = disk.calls();
    let closed = read_image(alloc, &three_ballots(), &election)?;
    checkpoint(&mut disk, &closed, &mut scratch)?;
    Ok((disk, before))
}

/// Recovers a disk, of which so many ballots come back.
fn assert_recovers(
    rt: &impl Abort,
    alloc: Global,
    mut disk: MemoryDisk,
    count: usize,
) -> Result<MemoryDisk, Fail> {
    let bank = if count == 0 {
        empty_bank()
    } else {
        three_ballots()
    };
    assert_eq!(rt; recovered(alloc, &mut disk), Ok(count));
    assert_medium(rt, alloc, disk.bytes(), &bank)?;
    Ok(disk)
}

/// Recovers what a stop left of a disk.
fn recover_stopped(
    rt: &impl Abort,
    alloc: Global,
    disk: &MemoryDisk,
    calls: u64,
    count: usize,
) -> Result<(), Fail>
    requires { calls < recorded_calls disk.now }
{
    for inside in [false, true] {
        for torn in TORN {
            let stopped = disk.after_stop(alloc, calls, inside, torn)?;
            assert_recovers(rt, alloc, stopped, count)?;
        }
    }
    Ok(())
}

/// How many ballots a checkpoint of three over none holds after a stop, by the byte that stands at gate A.
fn held_after(calls: u64, inside: bool, gate: Option<&u8>) -> usize {
    let closing = (calls == 7 && inside) || calls == 8;
    let old = calls < 7 || (calls == 7 && !inside) || (closing && gate == Some(&0xa7));
    if old { 0 } else { 3 }
}

/// Recovers what a stop at a call of a checkpoint left, and what stops at each call of that recovery left.
fn recover_stopped_twice(
    rt: &impl Abort,
    alloc: Global,
    disk: &MemoryDisk,
    before: u64,
    calls: u64,
) -> Result<(), Fail>
    requires begun { before ≤ calls }
    requires next { calls < recorded_calls disk.now }
{
    for inside in [false, true] {
        for torn in TORN {
            let stopped = disk.after_stop(alloc, calls, inside, torn)?;
            let count = held_after(calls - before, inside, stopped.bytes().get(608));
            let done = assert_recovers(rt, alloc, stopped, count)?;
            for made in 0..done.calls() {
                recover_stopped(rt, alloc, &done, made, count)?;
            }
        }
    }
    Ok(())
}

#[test]
fn stopped_at_each_call_of_a_checkpoint(rt: HostRuntime) -> Result<(), Fail> {
    let alloc = rt.alloc();
    let (disk, before) = checkpointed(alloc)?;
    assert_eq!(rt; disk.calls(), before.wrapping_add(14));
    for calls in before..disk.calls() {
        recover_stopped_twice(&rt, alloc, &disk, before, calls)?;
    }
    Ok(())
}

fn assert_written(rt: &impl Abort, disk: &MemoryDisk, call: u64, wanted: &[u8]) {
    assert_eq!(rt; disk.written(call), wanted, "{call}");
}

/// What a stop inside a call of a checkpoint left.
fn stopped_inside(
    rt: &impl Abort,
    alloc: Global,
    disk: &MemoryDisk,
    calls: u64,
    torn: Torn,
) -> Result<MemoryDisk, Fail> {
    assert!(rt; calls < disk.calls());
    Ok(disk.after_stop(alloc, calls, true, torn)?)
}

const GATE_A_OPENED: [DiskCall; 9] = [
    DiskCall::Sync,
    DiskCall::Size,
    DiskCall::Read { at: 608, count: 2 },
    DiskCall::Read {
        at: 304,
        count: 304,
    },
    DiskCall::Read { at: 0, count: 304 },
    DiskCall::Write { at: 0, count: 304 },
    DiskCall::Sync,
    DiskCall::Write { at: 608, count: 1 },
    DiskCall::Sync,
];

#[test]
fn gate_a_left_closed(rt: HostRuntime) -> Result<(), Fail> {
    let alloc = rt.alloc();
    let (disk, before) = checkpointed(alloc)?;
    let calls = before.wrapping_add(7);
    let mut open = stopped_inside(&rt, alloc, &disk, calls, Torn::Fill(0xa7))?;
    assert_eq!(rt; recovered(alloc, &mut open), Ok(0));
    let stopped = stopped_inside(&rt, alloc, &disk, calls, Torn::Fill(0x3c))?;
    let done = assert_recovers(&rt, alloc, stopped, 3)?;
    assert_all_calls(&rt, &done, &GATE_A_OPENED);
    assert_written(&rt, &done, 5, &three_ballots());
    assert_written(&rt, &done, 7, &[0xa7]);
    Ok(())
}

const BANK_B_FILLED: [DiskCall; 9] = [
    DiskCall::Sync,
    DiskCall::Size,
    DiskCall::Read { at: 608, count: 2 },
    DiskCall::Read { at: 0, count: 304 },
    DiskCall::Read {
        at: 304,
        count: 304,
    },
    DiskCall::Write {
        at: 304,
        count: 304,
    },
    DiskCall::Sync,
    DiskCall::Write { at: 609, count: 1 },
    DiskCall::Sync,
];

/// Nothing is written.
const NOTHING_LEFT: [DiskCall; 5] = [
    DiskCall::Sync,
    DiskCall::Size,
    DiskCall::Read { at: 608, count: 2 },
    DiskCall::Read { at: 0, count: 304 },
    DiskCall::Read {
        at: 304,
        count: 304,
    },
];

#[test]
fn bank_b_half_written(rt: HostRuntime) -> Result<(), Fail> {
    let alloc = rt.alloc();
    let (disk, before) = checkpointed(alloc)?;
    let calls = before.wrapping_add(3);
    let stopped = stopped_inside(&rt, alloc, &disk, calls, Torn::Fill(0x3c))?;
    let mut done = assert_recovers(&rt, alloc, stopped, 0)?;
    assert_all_calls(&rt, &done, &BANK_B_FILLED);
    assert_written(&rt, &done, 7, &[0xa7]);
    // Once more.
    assert_eq!(rt; recovered(alloc, &mut done), Ok(0));
    assert_calls(&rt, &done, 9, &NOTHING_LEFT);
    assert_eq!(rt; done.calls(), 14);
    Ok(())
}

#[test]
fn each_call_fails_in_turn(rt: HostRuntime) -> Result<(), Fail> {
    let alloc = rt.alloc();
    for number in 1..10 {
        let mut bytes = medium(alloc, &three_ballots())?;
        put(&mut bytes, 608, &[0]);
        put(&mut bytes, 100, &[0x3c; 17]);
        let failing = [number].to_vec(alloc)?;
        let mut disk = MemoryDisk::new(alloc, bytes, failing, ROOM)?;
        assert_eq!(rt;
            recovered(alloc, &mut disk),
            Err(RecoverFault::DiskFault),
            "{number}"
        );
        assert_recovers(&rt, alloc, disk, 3)?;
    }
    Ok(())
}
