//! Media under the example election. A bank has 304 bytes, bank A stands at 0, bank B at 304, gate A at 608 and gate B
//! at 609.

ghost use Rattle.any_store.specs.Checkpointed.{AreMedia};
ghost use Rattle.parted_store.specs.Slots.{parted_disks};
ghost use Rattle.std.specs.Prelude.{◌≡◌, ◌+◌, ◌≤◌, IfOk, List, length};
ghost use Rattle.store_spec.specs.Ballot.{Ballot};
ghost use Rattle.store_spec.specs.Disk.{disk_model};
ghost use Rattle.store_spec.specs.Election.{example};

use ballot_record::Election;
use crash_disk::{Disk, MemoryDisk, Room};
use image_builder::Scratch;
use parted_store::{PartsOf, Two};
use partition_store::PartStore;
use std::alloc::Global;
use std::process::Abort;
use std::test::Fail;

/// A set of ballots.
#[derive(Clone, Copy, PartialEq, Eq)]
pub enum Set {
    Empty,
    /// The ballots 1 and 9.
    Low,
    /// The ballot 2^64 - 1.
    High,
    /// The ballots 9 and 2^64 - 1.
    Both,
}

const HEADER: [u8; 32] =
    *b"HIBSTORE\x00\x01\x03\x02\x00\x00\x00\x08\0\0\0\0\0\0\0\0\0\0\0\0\0\0\0\0";

const ONE: [u8; 17] = *b"\0\0\0\0\0\0\0\x01\x01\0\0\0\0\0\0\0\0";

const NINE: [u8; 17] = *b"\0\0\0\0\0\0\0\x09\x01\0\0\0\0\0\0\0\0";

const LAST: [u8; 17] = *b"\xff\xff\xff\xff\xff\xff\xff\xff\x01\0\0\0\0\0\0\0\0";

const ROOM: Room = Room {
    size: 700,
    calls: 100,
    written: 6000,
};

fn put(bytes: &mut [u8], place: usize, patch: &[u8])
    requires { place + length patch.now ≤ length bytes.old }
{
    bytes[place..place + patch.len()].copy_from_slice(patch);
}

/// The bank of a set. The last number stands in cell 3, 9 in cell 4 and 1 in cell 5.
fn bank_of(set: Set) -> [u8; 304] {
    let mut bank = [0; 304];
    put(&mut bank, 0, &HEADER);
    if set == Set::High || set == Set::Both {
        put(&mut bank, 83, &LAST);
    }
    if set == Set::Low || set == Set::Both {
        put(&mut bank, 100, &NINE);
    }
    if set == Set::Low {
        put(&mut bank, 117, &ONE);
    }
    bank
}

/// The medium of a set.
pub(crate) fn medium_of(set: Set) -> [u8; 610] {
    let bank = bank_of(set);
    let mut bytes = [0; 610];
    put(&mut bytes, 0, &bank);
    put(&mut bytes, 304, &bank);
    put(&mut bytes, 608, &[0xa7, 0xa7]);
    bytes
}

/// The medium of a set in which two bytes are these.
pub type Edit = (Set, [(usize, u8); 2]);

pub(crate) const WHOLE: [(usize, u8); 2] = [(0, b'H'), (0, b'H')];

pub(crate) const EMPTY: Edit = (Set::Empty, WHOLE);

pub(crate) const LOW: Edit = (Set::Low, WHOLE);

pub(crate) const HIGH: Edit = (Set::High, WHOLE);

/// A disk with such a medium, of which this call is to fail; none does at 0.
pub(crate) fn disk_of(
    rt: &impl Abort,
    alloc: Global,
    edit: Edit,
    failing: u64,
) -> Result<MemoryDisk, Fail> {
    let (set, edits) = edit;
    let mut medium = medium_of(set);
    for (place, byte) in edits {
        assert!(rt; place < 610);
        medium[place] = byte;
    }
    let bytes = medium.to_vec(alloc)?;
    let failing = [failing].to_vec(alloc)?;
    Ok(MemoryDisk::new(alloc, bytes, failing, ROOM)?)
}

/// Two disks with such media, of which these calls are to fail; none does at 0.
pub(crate) fn two_disks(
    rt: &impl Abort,
    alloc: Global,
    one: Edit,
    other: Edit,
    failing: (u64, u64),
) -> Result<(MemoryDisk, [MemoryDisk; 1]), Fail> {
    let first = disk_of(rt, alloc, one, failing.0)?;
    let more = [disk_of(rt, alloc, other, failing.1)?];
    Ok((first, more))
}

/// Opens the store in two parts whose media two disks have.
pub(crate) fn opened<A: Disk, B: Disk>(
    alloc: Global,
    first: &mut A,
    more: &mut [B],
    scratch: &mut Scratch,
) -> Result<PartsOf<Two>, Fail>
    requires { length more.old ≡ 1 }
    ensures election { IfOk result (λ parts. parts.store.election ≡ example) }
    ensures media { IfOk result (λ parts. (set : List Ballot) × AreMedia
        (parted_disks (disk_model A.seen A.calls A.may_leave A.faults)
        (disk_model B.seen B.calls B.may_leave B.faults) 1 (length more.new))
        example set (first.new, more.new)) }
{
    let store = PartStore::open(alloc, first, more, &Election::example(), scratch)?;
    Ok(PartsOf::new(store))
}

/// How many ballots two disks hold.
pub(crate) fn held(
    alloc: Global,
    first: &mut MemoryDisk,
    more: &mut [MemoryDisk],
) -> Result<usize, Fail>
    requires { length more.old ≡ 1 }
{
    let mut scratch = Scratch::new(alloc)?;
    Ok(opened(alloc, first, more, &mut scratch)?.store().len())
}

/// How many calls an opening makes on the disk of each of two empty parts.
pub(crate) fn opening_calls(rt: &impl Abort, alloc: Global) -> Result<(u64, u64), Fail> {
    let (mut first, mut more) = two_disks(rt, alloc, EMPTY, EMPTY, (0, 0))?;
    held(alloc, &mut first, &mut more)?;
    Ok((first.calls(), more[0].calls()))
}
