//! The calls on banks and gates, by the record of what they asked of the disk.
#![tactic(auto, unfolding(store_spec::specs::Election::cell_size, store_spec::specs::Election::header_size, store_spec::specs::Election::in_version))]

ghost use Rattle.std.specs.Prelude.{◌≡◌, length, IfOk};
ghost use Rattle.crash_disk.specs.Recorded.{recorded_sees, recorded_leaves, recorded_calls};
ghost use Rattle.store_spec.specs.Disk.{IsSettled};

use crate::calls::assert_all_calls;
use ballot_record::Election;
use bank_medium::{
    Bank, bank_place, close_gate, gate_place, gates, open_both_gates, open_gate, read_page,
    same_bytes, settle, write_bank, write_page,
};
use crash_disk::{Disk, DiskCall, MemoryDisk, Room};
use outside_io::{Failed, Memory};
use std::alloc::Global;
use std::process::Abort;
use std::test::Fail;

const ROOM: Room = Room {
    size: 610,
    calls: 9,
    written: 610,
};

/// A medium for the example, with ones in bank A, twos in bank B and these gates, which fails at the calls with these
/// numbers.
fn medium(alloc: Global, gates: [u8; 2], failing: &[u64]) -> Result<MemoryDisk, Memory>
    ensures size { IfOk result (λ disk. length disk.recording.bytes.items ≡ 610) }
    ensures settled { IfOk result (IsSettled recorded_sees recorded_calls recorded_leaves) }
{
    let mut bytes = vec![in alloc; 1; 610]?;
    bytes[304..608].fill(2);
    bytes[608..].copy_from_slice(&gates);
    let disk = MemoryDisk::new(alloc, bytes, failing.to_vec(alloc)?, ROOM)?;
    Ok(disk)
}

#[test]
fn places(rt: HostRuntime) {
    let election = Election::example();
    for (bank, place, gate) in [(Bank::A, 0, 608), (Bank::B, 304, 609)] {
        assert_eq!(rt; bank_place(&election, bank), place);
        assert_eq!(rt; gate_place(&election, bank), gate);
    }
}

/// Which gates of a medium are open, by one read.
fn assert_gates(
    rt: &impl Abort,
    alloc: Global,
    stand: [u8; 2],
    open: (bool, bool),
) -> Result<(), Fail> {
    let mut disk = medium(alloc, stand, &[])?;
    let found = gates(&mut disk, &Election::example());
    assert_eq!(rt; found, Ok(open), "{stand:?}");
    assert_all_calls(rt, &disk, &[DiskCall::Read { at: 608, count: 2 }]);
    Ok(())
}

#[test]
fn gates_are_open_or_closed(rt: HostRuntime) -> Result<(), Fail> {
    for (stand, open) in [
        ([0xa7, 0xa7], (true, true)),
        ([0xa6, 0xa7], (false, true)),
        ([0xa7, 0xa8], (true, false)),
        ([0, 0x27], (false, false)),
    ] {
        assert_gates(&rt, rt.alloc(), stand, open)?;
    }
    Ok(())
}

/// A disk was asked for one write of these bytes and a sync, and for nothing else.
fn assert_settled_write(rt: &impl Abort, disk: &MemoryDisk, at: u64, bytes: &[u8]) {
    let count = bytes.len();
    assert_all_calls(rt, disk, &[DiskCall::Write { at, count }, DiskCall::Sync]);
    assert_eq!(rt; disk.written(0), bytes);
}

fn assert_closed(rt: &impl Abort, alloc: Global, bank: Bank, at: u64) -> Result<(), Fail> {
    let mut disk = medium(alloc, [0xa7; 2], &[])?;
    let closed = close_gate(&mut disk, &Election::example(), bank);
    assert_eq!(rt; closed, Ok(()));
    assert_settled_write(rt, &disk, at, &[0]);
    Ok(())
}

fn assert_opened(rt: &impl Abort, alloc: Global, bank: Bank, at: u64) -> Result<(), Fail> {
    let mut disk = medium(alloc, [0; 2], &[])?;
    let opened = open_gate(&mut disk, &Election::example(), bank);
    assert_eq!(rt; opened, Ok(()));
    assert_settled_write(rt, &disk, at, &[0xa7]);
    Ok(())
}

fn assert_both_opened(rt: &impl Abort, alloc: Global) -> Result<(), Fail> {
    let mut disk = medium(alloc, [0; 2], &[])?;
    let opened = open_both_gates(&mut disk, &Election::example());
    assert_eq!(rt; opened, Ok(()));
    assert_settled_write(rt, &disk, 608, &[0xa7; 2]);
    Ok(())
}

#[test]
fn a_gate_is_closed_and_opened(rt: HostRuntime) -> Result<(), Fail> {
    for (bank, at) in [(Bank::A, 608u64), (Bank::B, 609)] {
        assert_closed(&rt, rt.alloc(), bank, at)?;
        assert_opened(&rt, rt.alloc(), bank, at)?;
    }
    assert_both_opened(&rt, rt.alloc())
}

fn assert_byte(rt: &impl Abort, disk: &MemoryDisk, at: usize, byte: u8) {
    assert_eq!(rt; disk.bytes().get(at), Some(&byte));
}

fn assert_bank_written(rt: &impl Abort, alloc: Global) -> Result<(), Fail> {
    let mut disk = medium(alloc, [0xa7, 0], &[])?;
    assert!(rt; disk.bytes()[609] == 0);
    let written = write_bank(&mut disk, &Election::example(), Bank::B, &[7; 304]);
    assert_eq!(rt; written, Ok(()));
    assert_settled_write(rt, &disk, 304, &[7; 304]);
    assert_byte(rt, &disk, 303, 1);
    assert_byte(rt, &disk, 608, 0xa7);
    Ok(())
}

fn assert_page_read(rt: &impl Abort, alloc: Global) -> Result<(), Fail> {
    let mut page = [0; 17];
    let mut disk = medium(alloc, [0xa7; 2], &[])?;
    let read = read_page(&mut disk, &Election::example(), Bank::B, 287, &mut page);
    assert_eq!(rt; (read, page), (Ok(()), [2; 17]));
    assert_all_calls(rt, &disk, &[DiskCall::Read { at: 591, count: 17 }]);
    Ok(())
}

fn assert_page_written(rt: &impl Abort, alloc: Global) -> Result<(), Fail> {
    // A disk that ends with bank A has no gate yet.
    let mut disk = MemoryDisk::new(alloc, vec![in alloc; 1; 304]?, Vec::new(alloc), ROOM)?;
    let written = write_page(&mut disk, &Election::example(), Bank::A, 32, &[7; 17]);
    assert_eq!(rt; written, Ok(()));
    assert_eq!(rt; settle(&mut disk), Ok(()));
    assert_settled_write(rt, &disk, 32, &[7; 17]);
    Ok(())
}

#[test]
fn banks_are_read_and_written(rt: HostRuntime) -> Result<(), Fail> {
    assert_bank_written(&rt, rt.alloc())?;
    assert_page_read(&rt, rt.alloc())?;
    assert_page_written(&rt, rt.alloc())
}

#[test]
fn a_failed_call_is_the_last(rt: HostRuntime) -> Result<(), Fail> {
    for failing in [1, 2] {
        let mut disk = medium(rt.alloc(), [0xa7; 2], &[failing])?;
        let closed = close_gate(&mut disk, &Election::example(), Bank::B);
        assert_eq!(rt; (closed, disk.calls()), (Err(Failed), failing));
    }
    Ok(())
}

/// Tries two vectors of one length with the same bytes: one that differs at any of these places is told, and so is one
/// that is shorter.
fn assert_compared(rt: &impl Abort, one: &[u8], two: &mut Vec<u8>, places: &[usize]) {
    let length = one.len();
    assert!(rt; same_bytes(one, two), "{length}");
    for place in places {
        if *place < two.len() {
            two[*place] = 6;
            assert!(rt; !same_bytes(one, two), "{length} {place}");
            two[*place] = 7;
        }
    }
    assert!(rt; same_bytes(one, two), "{length}");
    if two.pop().is_some() {
        assert!(rt; !same_bytes(one, two), "{length}");
    }
}

const PLACES: [usize; 12] = [0, 1, 7, 15, 16, 63, 64, 100, 1022, 1023, 1024, 2047];

#[test]
fn bytes_are_compared(rt: HostRuntime) -> Result<(), Fail> {
    let alloc = rt.alloc();
    for length in (0..=200).chain([1023, 1024, 1025, 2048, 3000, 4096]) {
        let one = vec![in alloc; 7u8; length]?;
        let mut two = one.clone()?;
        assert_compared(&rt, &one, &mut two, &PLACES);
        let mut two = one.clone()?;
        assert_compared(&rt, &one, &mut two, &[length / 2, length.saturating_sub(1)]);
    }
    Ok(())
}
