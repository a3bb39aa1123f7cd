//! Media under the example election, and what each is to be found as. A bank has 304 bytes, bank A stands at 0, bank B at
//! 304, gate A at 608 and gate B at 609.
#![tactic(auto, unfolding(store_spec::specs::Election::cell_size, store_spec::specs::Election::header_size, store_spec::specs::Election::in_version))]

ghost use Rattle.std.specs.Prelude.{◌+◌, ◌≤◌, length};

use ballot_record::Election;
use checkpoint::checkpoint;
use crash_disk::{Disk, MemoryDisk, Room, Torn};
use image_builder::{Scratch, read_image};
use recovery::recover;
use std::alloc::Global;
use std::process::Abort;
use std::test::Fail;
use twin_media::DiskWhy;

/// A set of ballots.
#[derive(Clone, Copy, Debug, PartialEq, Eq)]
pub enum Set {
    Empty,
    /// The ballots 9 and 14.
    Two,
    /// The ballots 9, 14 and 1.
    Three,
    /// The same three, but for one mark of ballot 1.
    Changed,
}

/// What a disk is to be found as.
#[derive(Clone, Copy, PartialEq, Eq)]
pub enum Found {
    Lost,
    Holds(Set),
    Refused(DiskWhy),
}

/// The bytes of a disk, and what they are to be found as.
#[derive(Drop)]
pub struct Kind {
    pub bytes: Vec<u8>,
    pub found: Found,
}

const HEADER: [u8; 32] =
    *b"HIBSTORE\x00\x01\x03\x02\x00\x00\x00\x08\0\0\0\0\0\0\0\0\0\0\0\0\0\0\0\0";

/// The header under version 2.
const OTHER_VERSION: [u8; 32] =
    *b"HIBSTORE\x00\x02\x03\x02\x00\x00\x00\x08\0\0\0\0\0\0\0\0\0\0\0\0\0\0\0\0";

/// The header under salt 1.
const OTHER_SALT: [u8; 32] =
    *b"HIBSTORE\x00\x01\x03\x02\x00\x00\x00\x08\0\0\0\0\0\0\0\x01\0\0\0\0\0\0\0\0";

const NINE: [u8; 17] = *b"\0\0\0\0\0\0\0\x09\x01\0\0\0\x01\0\0\0\0";

const FOURTEEN: [u8; 17] = *b"\0\0\0\0\0\0\0\x0e\x01\0\0\0\0\0\0\0\x02";

const ONE: [u8; 17] = *b"\0\0\0\0\0\0\0\x01\x01\0\0\0\x02\0\0\0\x05";

const ONE_CHANGED: [u8; 17] = *b"\0\0\0\0\0\0\0\x01\x01\0\0\0\x02\0\0\0\x04";

pub const ROOM: Room = Room {
    size: 700,
    calls: 100,
    written: 6000,
};

fn put(bytes: &mut [u8], place: usize, patch: &[u8])
    requires { place + length patch.now ≤ length bytes.old }
{
    bytes[place..place + patch.len()].copy_from_slice(patch);
}

/// The bank of a set.
pub(crate) fn bank_of(set: Set) -> [u8; 304] {
    let mut bank = [0; 304];
    put(&mut bank, 0, &HEADER);
    if set != Set::Empty {
        put(&mut bank, 100, &NINE);
        put(&mut bank, 117, &FOURTEEN);
    }
    match set {
        Set::Three => put(&mut bank, 134, &ONE),
        Set::Changed => put(&mut bank, 134, &ONE_CHANGED),
        Set::Empty | Set::Two => {}
    }
    bank
}

/// Two banks of a set, and these gates.
fn banks_and_gates(set: Set, gates: &[u8; 2]) -> [u8; 610] {
    let bank = bank_of(set);
    let mut bytes = [0; 610];
    put(&mut bytes, 0, &bank);
    put(&mut bytes, 304, &bank);
    put(&mut bytes, 608, gates);
    bytes
}

/// The medium of a set.
pub(crate) fn medium_of(set: Set) -> [u8; 610] {
    banks_and_gates(set, &OPEN)
}

const OPEN: [u8; 2] = [0xa7, 0xa7];

/// Two banks of this set with these gates, where from this place on this byte stands so many times, of which so many bytes
/// there are, and what they are to be found as.
pub type Edit = (Set, [u8; 2], (usize, u8, usize), usize, Found);

const UNEDITED: (usize, u8, usize) = (0, 0, 0);

pub const EMPTY: Edit = (Set::Empty, OPEN, UNEDITED, 610, Found::Holds(Set::Empty));

pub const TWO: Edit = (Set::Two, OPEN, UNEDITED, 610, Found::Holds(Set::Two));

pub const THREE: Edit = (Set::Three, OPEN, UNEDITED, 610, Found::Holds(Set::Three));

pub const CHANGED: Edit = (
    Set::Changed,
    OPEN,
    UNEDITED,
    610,
    Found::Holds(Set::Changed),
);

/// A medium whose gate A is closed.
pub const ONLY_B: Edit = (
    Set::Three,
    [0x3c, 0xa7],
    (90, 0x3c, 60),
    610,
    Found::Holds(Set::Three),
);

/// A medium whose gate B is closed.
pub const ONLY_A: Edit = (
    Set::Three,
    [0xa7, 0],
    (400, 0xa7, 60),
    610,
    Found::Holds(Set::Three),
);

/// The same of another set.
pub const ONLY_A_OF_TWO: Edit = (
    Set::Two,
    [0xa7, 0x3c],
    (304, 0, 60),
    610,
    Found::Holds(Set::Two),
);

pub const NO_BYTES: Edit = (Set::Three, OPEN, UNEDITED, 0, Found::Lost);

pub const ONE_BYTE_LESS: Edit = (Set::Three, OPEN, UNEDITED, 609, Found::Lost);

/// Both gates are closed, and the banks are of no election.
pub const BOTH_CLOSED: Edit = (Set::Two, [0x3c, 0], (0, 0x3c, 500), 610, Found::Lost);

const IS_OTHER_VERSION: Found = Found::Refused(DiskWhy::OtherElection {
    header: OTHER_VERSION,
});

const IS_OTHER_SALT: Found = Found::Refused(DiskWhy::OtherElection { header: OTHER_SALT });

const IS_DAMAGED_AT_4: Found = Found::Refused(DiskWhy::Damaged { cell: 4 });

const IS_DAMAGED_AT_6: Found = Found::Refused(DiskWhy::Damaged { cell: 6 });

const HAS_611: Found = Found::Refused(DiskWhy::TooLarge { size: 611 });

const HAS_700: Found = Found::Refused(DiskWhy::TooLarge { size: 700 });

const EDITS: [Edit; 20] = [
    EMPTY,
    TWO,
    THREE,
    CHANGED,
    ONLY_A,
    ONLY_B,
    ONLY_A_OF_TWO,
    // The bank that is not read may be of no election.
    (Set::Two, OPEN, (411, 8, 1), 610, Found::Holds(Set::Two)),
    NO_BYTES,
    ONE_BYTE_LESS,
    BOTH_CLOSED,
    (Set::Three, [0, 0], UNEDITED, 610, Found::Lost),
    (Set::Three, OPEN, (9, 2, 1), 610, IS_OTHER_VERSION),
    (Set::Three, OPEN, (23, 1, 1), 610, IS_OTHER_SALT),
    (Set::Three, [0, 0xa7], (304 + 23, 1, 1), 610, IS_OTHER_SALT),
    (Set::Three, OPEN, (108, 2, 1), 610, IS_DAMAGED_AT_4),
    (Set::Three, OPEN, (100, 0, 17), 610, IS_DAMAGED_AT_6),
    (
        Set::Three,
        [0, 0xa7],
        (304 + 108, 2, 1),
        610,
        IS_DAMAGED_AT_4,
    ),
    (Set::Three, OPEN, UNEDITED, 611, HAS_611),
    // With too many bytes a disk is not lost, whatever its gates are.
    (Set::Three, [0, 0], UNEDITED, 700, HAS_700),
];

/// The kind that an edit makes. A byte behind the medium's is 0.
pub(crate) fn kind_of(rt: &impl Abort, alloc: Global, edit: &Edit) -> Result<Kind, Fail> {
    let (set, gates, (place, byte, count), size, found) = *edit;
    let mut medium = banks_and_gates(set, &gates);
    assert!(rt; place <= 610 && count <= 610 - place);
    medium[place..place + count].fill(byte);
    let mut bytes = medium.to_vec(alloc)?;
    bytes.resize(size, 0)?;
    Ok(Kind { bytes, found })
}

/// A disk with these bytes, of which this call is to fail; none does at 0.
pub(crate) fn disk_of(
    rt: &impl Abort,
    alloc: Global,
    bytes: &[u8],
    failing: u64,
) -> Result<MemoryDisk, Fail> {
    assert!(rt; bytes.len() <= 700);
    let failing = [failing].to_vec(alloc)?;
    Ok(MemoryDisk::new(alloc, bytes.to_vec(alloc)?, failing, ROOM)?)
}

/// A disk on which the medium of no ballots became that of three, and how many calls it had made before.
fn checkpointed(rt: &impl Abort, alloc: Global) -> Result<(MemoryDisk, u64), Fail> {
    let election = Election::example();
    let mut scratch = Scratch::new(alloc)?;
    let mut disk = disk_of(rt, alloc, &medium_of(Set::Empty), 0)?;
    recover(alloc, &mut disk, &election, &mut scratch)?;
    let before = disk.calls();
    let closed = read_image(alloc, &bank_of(Set::Three), &election)?;
    checkpoint(&mut disk, &closed, &mut scratch)?;
    Ok((disk, before))
}

pub const TORN: [Torn; 4] = [Torn::Old, Torn::New, Torn::Fill(0x3c), Torn::Fill(0xa7)];

/// What a checkpoint of three ballots over none holds after a stop inside its next call, by the byte that stands at gate
/// A.
fn held_inside(calls: u64, gate: Option<&u8>) -> Found {
    let closing = calls == 7 || calls == 8;
    if calls < 7 || (closing && gate == Some(&0xa7)) {
        Found::Holds(Set::Empty)
    } else {
        Found::Holds(Set::Three)
    }
}

/// What a stop after so many calls of a disk, or inside the next one, leaves.
pub(crate) fn stopped(
    rt: &impl Abort,
    alloc: Global,
    disk: &MemoryDisk,
    calls: u64,
    inside: bool,
    torn: Torn,
) -> Result<Kind, Fail> {
    assert!(rt; calls < disk.calls() || (calls == disk.calls() && !inside));
    let left = disk.after_stop(alloc, calls, inside, torn)?;
    let found = found_in(rt, left.bytes());
    let bytes = left.bytes().to_vec(alloc)?;
    Ok(Kind { bytes, found })
}

/// Adds what stops inside each call of a checkpoint leave.
fn add_torn(rt: &impl Abort, alloc: Global, kinds: &mut Vec<Kind>) -> Result<(), Fail> {
    let (disk, before) = checkpointed(rt, alloc)?;
    assert!(rt; disk.calls() == before.wrapping_add(14));
    for calls in before..disk.calls() {
        for torn in TORN {
            let kind = stopped(rt, alloc, &disk, calls, true, torn)?;
            let held = held_inside(calls - before, kind.bytes.get(608));
            assert!(rt; kind.found == held);
            kinds.push(kind)?;
        }
    }
    Ok(())
}

/// One disk of each kind.
pub(crate) fn all_kinds(rt: &impl Abort, alloc: Global) -> Result<Vec<Kind>, Fail> {
    let mut kinds = Vec::new(alloc);
    for edit in &EDITS {
        kinds.push(kind_of(rt, alloc, edit)?)?;
    }
    add_torn(rt, alloc, &mut kinds)?;
    Ok(kinds)
}

/// The set whose bank this is.
pub(crate) fn set_of(bank: &[u8]) -> Option<Set> {
    for set in [Set::Empty, Set::Two, Set::Three, Set::Changed] {
        if bank == bank_of(set).as_slice() {
            return Some(set);
        }
    }
    None
}

/// What the bytes of a disk that was stopped are to be found as.
pub(crate) fn found_in(rt: &impl Abort, bytes: &[u8]) -> Found {
    if bytes.len() < 610 {
        return Found::Lost;
    }
    let (bank_a, rest) = bytes.split_at(304);
    let (bank_b, gates) = rest.split_at(304);
    let read = match gates {
        [0xa7, _] => set_of(bank_a),
        [_, 0xa7] => set_of(bank_b),
        _ => return Found::Lost,
    };
    Found::Holds(read.expect(rt, "a set"))
}
