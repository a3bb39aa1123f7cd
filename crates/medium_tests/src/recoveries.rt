//! Media that are edited, stopped and recovered. Each medium is under the example election: a bank has 304 bytes, bank A
//! stands at 0, bank B at 304, gate A at 608 and gate B at 609.

ghost use Rattle.std.specs.Prelude.{◌≡◌, ◌+◌, ◌≤◌, IfOk, length};

use ballot_record::Election;
use crash_disk::{MemoryDisk, Room};
use image_builder::Scratch;
use outside_io::Memory;
use recovery::{RecoverFault, recover};
use std::alloc::{AllocError, Global};
use std::process::Abort;
use std::test::Fail;

mod edited;
mod stopped;

const HEADER: [u8; 32] =
    *b"HIBSTORE\x00\x01\x03\x02\x00\x00\x00\x08\0\0\0\0\0\0\0\0\0\0\0\0\0\0\0\0";

const NINE: [u8; 17] = *b"\0\0\0\0\0\0\0\x09\x01\0\0\0\x01\0\0\0\0";

const FOURTEEN: [u8; 17] = *b"\0\0\0\0\0\0\0\x0e\x01\0\0\0\0\0\0\0\x02";

const ONE: [u8; 17] = *b"\0\0\0\0\0\0\0\x01\x01\0\0\0\x02\0\0\0\x05";

const ROOM: Room = Room {
    size: 700,
    calls: 60,
    written: 4000,
};

fn put(bytes: &mut [u8], place: usize, patch: &[u8])
    requires { place + length patch.now ≤ length bytes.old }
{
    bytes[place..place + patch.len()].copy_from_slice(patch);
}

/// The bank of no ballots.
fn empty_bank() -> [u8; 304] {
    let mut bank = [0; 304];
    put(&mut bank, 0, &HEADER);
    bank
}

/// The bank of the ballots 9 and 14.
fn two_ballots() -> [u8; 304] {
    let mut bank = empty_bank();
    put(&mut bank, 100, &NINE);
    put(&mut bank, 117, &FOURTEEN);
    bank
}

/// The bank of the ballots 9, 14 and 1.
pub fn three_ballots() -> [u8; 304] {
    let mut bank = two_ballots();
    put(&mut bank, 134, &ONE);
    bank
}

/// Two such banks, and open gates.
pub fn medium(alloc: Global, bank: &[u8; 304]) -> Result<Vec<u8>, AllocError>
    ensures { IfOk result (λ bytes. length bytes.items ≡ 610) }
{
    let mut bytes = bank.to_vec(alloc)?;
    bytes.extend_from_slice(bank)?;
    bytes.extend_from_slice(&[0xa7, 0xa7])?;
    Ok(bytes)
}

/// A disk with these bytes, if there are no more than a medium has.
fn disk_of(alloc: Global, bytes: Vec<u8>) -> Result<MemoryDisk, Memory>
    requires { length bytes.items ≤ 610 }
{
    MemoryDisk::new(alloc, bytes, Vec::new(alloc), ROOM)
}

fn assert_medium(
    rt: &impl Abort,
    alloc: Global,
    bytes: &[u8],
    bank: &[u8; 304],
) -> Result<(), Fail> {
    let wanted = medium(alloc, bank)?;
    assert_eq!(rt; bytes, wanted.as_slice());
    Ok(())
}

/// How many ballots come back from a disk.
fn recovered(alloc: Global, disk: &mut MemoryDisk) -> Result<usize, RecoverFault> {
    let election = Election::example();
    let mut scratch = Scratch::new(alloc)?;
    let store = recover(alloc, disk, &election, &mut scratch)?;
    Ok(store.len())
}
