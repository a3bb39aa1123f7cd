//! Media in memory, and the calls that make them.
#![tactic(auto, unfolding(store_spec::specs::Election::cell_size, store_spec::specs::Election::header_size, store_spec::specs::Election::in_version))]

ghost use Rattle.std.specs.Prelude.{◌≡◌, ◌<◌, length, IfOk};

use crate::calls::{assert_all_calls, assert_calls};
use ballot_record::{Contest, Election};
use body_store::Closed;
use checkpoint::{InitFault, checkpoint, init};
use crash_disk::{Disk, DiskCall, MemoryDisk, Room};
use image_builder::{Scratch, image, read_image};
use std::alloc::Global;
use std::process::Abort;
use std::test::Fail;

const HEADER: [u8; 32] =
    *b"HIBSTORE\x00\x01\x03\x02\x00\x00\x00\x08\0\0\0\0\0\0\0\0\0\0\0\0\0\0\0\0";

const ROOM: Room = Room {
    size: 700,
    calls: 60,
    written: 4000,
};

const LARGE_ROOM: Room = Room {
    size: 3_342_402,
    calls: 2500,
    written: 3_360_000,
};

fn put(bank: &mut [u8], place: usize, cell: &[u8; 17])
    requires size { length bank.old ≡ 304 }
    requires within { place < 16 }
{
    let from = 32 + 17 * place;
    bank[from..from + 17].copy_from_slice(cell);
}

/// The bank of no ballots.
fn empty_bank() -> [u8; 304] {
    let mut bank = [0; 304];
    bank[..32].copy_from_slice(&HEADER);
    bank
}

/// The bank of the ballots 9, 14 and 1.
fn three_ballots() -> [u8; 304] {
    let mut bank = empty_bank();
    put(&mut bank, 4, b"\0\0\0\0\0\0\0\x09\x01\0\0\0\x01\0\0\0\0");
    put(&mut bank, 5, b"\0\0\0\0\0\0\0\x0e\x01\0\0\0\0\0\0\0\x02");
    put(&mut bank, 6, b"\0\0\0\0\0\0\0\x01\x01\0\0\0\x02\0\0\0\x05");
    bank
}

/// Twice this bank, and both gates open.
fn medium_of(bank: &[u8; 304]) -> [u8; 610] {
    let mut medium = [0xa7; 610];
    medium[..304].copy_from_slice(bank);
    medium[304..608].copy_from_slice(bank);
    medium
}

const INIT_CALLS: [DiskCall; 7] = [
    DiskCall::Sync,
    DiskCall::Size,
    DiskCall::Write { at: 0, count: 304 },
    DiskCall::Write {
        at: 304,
        count: 304,
    },
    DiskCall::Sync,
    DiskCall::Write { at: 608, count: 2 },
    DiskCall::Sync,
];

#[test]
fn init_on_no_bytes(rt: HostRuntime) -> Result<(), Fail> {
    let alloc = rt.alloc();
    let election = Election::example();
    let mut disk = MemoryDisk::new(alloc, Vec::new(alloc), Vec::new(alloc), ROOM)?;
    assert_eq!(rt; init(alloc, &mut disk, &election), Ok(()));
    assert!(rt; disk.bytes() == medium_of(&empty_bank()).as_slice());
    assert_all_calls(&rt, &disk, &INIT_CALLS);
    assert_eq!(rt; init(alloc, &mut disk, &election), Err(InitFault::Exists));
    Ok(())
}

/// Asserts that a disk has made so many calls, and is the medium of three ballots.
fn assert_three(rt: &impl Abort, disk: &MemoryDisk, calls: u64) {
    assert!(rt; disk.bytes() == medium_of(&three_ballots()).as_slice());
    assert_eq!(rt; disk.calls(), calls);
}

/// The disk of two checkpoints of three ballots over the medium of none. It has made 21 calls after the first, and 33
/// after the second.
fn checkpointed_twice(rt: &impl Abort, alloc: Global) -> Result<MemoryDisk, Fail> {
    let election = Election::example();
    let mut disk = MemoryDisk::new(alloc, Vec::new(alloc), Vec::new(alloc), ROOM)?;
    let mut scratch = Scratch::new(alloc)?;
    init(alloc, &mut disk, &election)?;
    let closed = read_image(alloc, &three_ballots(), &election)?;
    checkpoint(&mut disk, &closed, &mut scratch)?;
    assert_three(rt, &disk, 21);
    checkpoint(&mut disk, &closed, &mut scratch)?;
    assert_three(rt, &disk, 33);
    Ok(disk)
}

const TWELVE_PARTS: [DiskCall; 14] = [
    DiskCall::Write { at: 609, count: 1 },
    DiskCall::Sync,
    DiskCall::Read {
        at: 304,
        count: 304,
    },
    DiskCall::Write {
        at: 304,
        count: 304,
    },
    DiskCall::Sync,
    DiskCall::Write { at: 609, count: 1 },
    DiskCall::Sync,
    DiskCall::Write { at: 608, count: 1 },
    DiskCall::Sync,
    DiskCall::Read { at: 0, count: 304 },
    DiskCall::Write { at: 0, count: 304 },
    DiskCall::Sync,
    DiskCall::Write { at: 608, count: 1 },
    DiskCall::Sync,
];

/// What stands is not written again.
const ONCE_MORE: [DiskCall; 12] = [
    DiskCall::Write { at: 609, count: 1 },
    DiskCall::Sync,
    DiskCall::Read {
        at: 304,
        count: 304,
    },
    DiskCall::Sync,
    DiskCall::Write { at: 609, count: 1 },
    DiskCall::Sync,
    DiskCall::Write { at: 608, count: 1 },
    DiskCall::Sync,
    DiskCall::Read { at: 0, count: 304 },
    DiskCall::Sync,
    DiskCall::Write { at: 608, count: 1 },
    DiskCall::Sync,
];

#[test]
fn twelve_parts(rt: HostRuntime) -> Result<(), Fail> {
    let disk = checkpointed_twice(&rt, rt.alloc())?;
    assert_calls(&rt, &disk, 7, &TWELVE_PARTS);
    for (call, gate) in [(7, 0), (12, 0xa7), (14, 0), (19, 0xa7)] {
        assert_eq!(rt; disk.written(call), [gate].as_slice(), "{call}");
    }
    for call in [10, 17] {
        assert_eq!(rt; disk.written(call), three_ballots().as_slice(), "{call}");
    }
    assert_calls(&rt, &disk, 21, &ONCE_MORE);
    Ok(())
}

/// An election whose store may hold 32,768 ballots at 2^16 homes.
fn large_election(rt: &impl Abort) -> Election {
    let contests = [
        Contest {
            choices: 4,
            allowed: 1,
        },
        Contest {
            choices: 3,
            allowed: 2,
        },
    ];
    Election::from_parts(1, &contests, &[0b11], 32_768, 16, 0).expect(rt, "an election")
}

/// The store of the one ballot `1 1 -/-`, whose cell is the one at byte 688,583 of its bank.
fn one_ballot(rt: &impl Abort, alloc: Global, election: &Election) -> Result<Closed, Fail>
    ensures { IfOk result (λ store. store.election ≡ election.now) }
{
    let empty = Closed::empty(alloc, election)?;
    let mut bank = image(alloc, &empty)?;
    assert!(rt; bank.len() == 1_671_200);
    assert!(rt; bank.len() == election.bank_bytes());
    bank[688_590] = 1;
    bank[688_591] = 1;
    Ok(read_image(alloc, &bank, election)?)
}

/// The writes among the calls from this one on that put more than a gate.
fn page_writes(alloc: Global, disk: &MemoryDisk, from: u64) -> Result<Vec<(u64, usize)>, Fail> {
    let mut writes = Vec::new(alloc);
    for index in from..disk.calls() {
        match disk.call_made(index) {
            Some(DiskCall::Write { at, count }) if count > 1 => writes.push((at, count))?,
            _ => {}
        }
    }
    Ok(writes)
}

/// So many calls were made in all, and these writes to pages are among those from this one on.
fn assert_made(
    rt: &impl Abort,
    alloc: Global,
    disk: &MemoryDisk,
    from: u64,
    calls: u64,
    writes: &[(u64, usize)],
) -> Result<(), Fail> {
    assert_eq!(rt; disk.calls(), calls);
    let made = page_writes(alloc, disk, from)?;
    assert_eq!(rt; made.as_slice(), writes);
    Ok(())
}

const TWO_PAGES: [(u64, usize); 2] = [(2_359_328, 4096), (688_128, 4096)];

#[test]
fn two_pages_of_a_large_store(rt: HostRuntime) -> Result<(), Fail> {
    let alloc = rt.alloc();
    let election = large_election(&rt);
    let mut disk = MemoryDisk::new(alloc, Vec::new(alloc), Vec::new(alloc), LARGE_ROOM)?;
    let mut scratch = Scratch::new(alloc)?;
    init(alloc, &mut disk, &election)?;
    assert_eq!(rt; (disk.calls(), disk.bytes().len()), (823, 3_342_402));
    let closed = one_ballot(&rt, alloc, &election)?;
    checkpoint(&mut disk, &closed, &mut scratch)?;
    assert_made(&rt, alloc, &disk, 823, 823 + 830, &TWO_PAGES)?;
    // What stands is not written again.
    checkpoint(&mut disk, &closed, &mut scratch)?;
    assert_made(&rt, alloc, &disk, 823 + 830, 823 + 830 + 828, &[])
}
