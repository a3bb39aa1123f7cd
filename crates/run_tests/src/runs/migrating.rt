//! A migration: each call on each of its media fails in turn, the target stops at each call, and targets that are taken or
//! refused.

use super::rows::THREE_BALLOTS;
use super::{Failing, MOST, NOTHING, call_at, disk_of, fault_at, medium_of, run_on};
use crash_disk::{Disk, MemoryDisk, Torn};
use outside_io::NoTurns;
use run_command::Status;
use std::alloc::Global;
use std::process::Abort;
use std::test::Fail;
use std::thread::Threads;

const MIGRATE: &[&str] = &["medium", "second.json", "migrate", "target"];

const SESSION: &[&str] = &["target", "second.json", "session"];

// The header of the images in version 2, and the cells of the three ballots from cell 4 on.
const HEADER: &str = "48494253544f524500020302000000080000000000000000";

const CELLS: &str = "00000000000000090100000000000000010000000000000000\
    000000000000000e0100000000000000000000000000000002\
    00000000000000010100000000000000020000000000000005";

// The bytes of a bank in version 2.
const BANK: usize = 432;

// An old medium, and the one target.
#[derive(Drop)]
struct Media {
    old: MemoryDisk,
    more: Vec<MemoryDisk>,
}

// The target of a migration of the three ballots.
fn migrated(alloc: Global) -> Result<Vec<u8>, Fail> {
    let mut image = hex::decode(alloc, HEADER)?;
    image.resize(132, 0)?;
    image.extend_from_slice(&hex::decode(alloc, CELLS)?)?;
    image.resize(BANK, 0)?;
    let mut medium = image.clone()?;
    medium.extend_from_slice(&image)?;
    medium.extend_from_slice(&[0xa7; 2])?;
    Ok(medium)
}

// So many bytes that are no medium's, and behind them these gates.
fn rubbish(alloc: Global, count: usize, gates: &[u8]) -> Result<Vec<u8>, Fail> {
    let mut bytes = Vec::new(alloc);
    bytes.resize(count, 0x3c)?;
    bytes.extend_from_slice(gates)?;
    Ok(bytes)
}

// The medium of the three ballots, and a target with these bytes. On one of them, counted from 0, a call fails.
fn two_media(
    rt: &impl Abort,
    alloc: Global,
    target: &[u8],
    place: u32,
    call: u64,
) -> Result<Media, Fail> {
    let old = medium_of(alloc, THREE_BALLOTS)?;
    let old = disk_of(rt, alloc, &old, call_at(0, place, call))?;
    let mut more = Vec::new(alloc);
    more.push(disk_of(rt, alloc, target, call_at(1, place, call))?)?;
    Ok(Media { old, more })
}

// How a migration ends whose call of this number on the sink fails, and what it wrote.
fn migrate<R>(rt: &R, media: &mut Media, sink: u64) -> Result<(Status, Vec<u8>), Fail>
where
    R: Threads + Sync + AllocGlobal + Abort,
{
    let failing = Failing { sink, ..NOTHING };
    let (status, _, written) = run_on(
        rt,
        MIGRATE,
        "",
        failing,
        &mut media.old,
        &mut media.more,
        &NoTurns,
    )?;
    Ok((status, written))
}

// The old medium has the bytes that it had, and the target has these.
fn assert_media(rt: &impl Abort, alloc: Global, media: &Media, target: &[u8]) -> Result<(), Fail> {
    assert!(rt; media.old.bytes() == medium_of(alloc, THREE_BALLOTS)?.as_slice());
    assert_eq!(rt; media.more.len(), 1);
    assert!(rt; media.more[0].bytes() == target);
    Ok(())
}

// A target with these bytes is filled.
fn assert_fills<R>(rt: &R, target: &[u8]) -> Result<(), Fail>
where
    R: Threads + Sync + AllocGlobal + Abort,
{
    let alloc = rt.alloc();
    let mut media = two_media(rt, alloc, target, 0, 0)?;
    let (status, written) = migrate(rt, &mut media, 0)?;
    assert_eq!(rt; status, Status::Ok);
    assert_eq!(rt; written.as_slice(), b"migrated 3\n".as_slice());
    assert_media(rt, alloc, &media, &migrated(alloc)?)
}

// One is refused so, and stays.
fn assert_refuses<R>(rt: &R, target: &[u8], why: Status) -> Result<(), Fail>
where
    R: Threads + Sync + AllocGlobal + Abort,
{
    let alloc = rt.alloc();
    let mut media = two_media(rt, alloc, target, 0, 0)?;
    let (status, written) = migrate(rt, &mut media, 0)?;
    assert_eq!(rt; status, why);
    assert_eq!(rt; written.len(), 0);
    assert_media(rt, alloc, &media, target)
}

// A session without a line makes a target the medium of the three ballots.
fn assert_recovers<R>(rt: &R, target: &[u8]) -> Result<(), Fail>
where
    R: Threads + Sync + AllocGlobal + Abort,
{
    let alloc = rt.alloc();
    let mut disk = disk_of(rt, alloc, target, 0)?;
    let (status, _, _) = run_on(rt, SESSION, "", NOTHING, &mut disk, &mut [], &NoTurns)?;
    assert_eq!(rt; status, Status::Ok);
    assert!(rt; disk.bytes() == migrated(alloc)?.as_slice());
    Ok(())
}

// The same migration again fills a target that was left so, unless it finds a gate open: then all ballots are there.
fn assert_again<R>(rt: &R, target: &[u8]) -> Result<(), Fail>
where
    R: Threads + Sync + AllocGlobal + Abort,
{
    let open = target.len() == 2 * BANK + 2 && target[2 * BANK..].contains(&0xa7);
    if open {
        assert_refuses(rt, target, Status::MediumInUse { index: 1 })?;
        assert_recovers(rt, target)
    } else {
        assert_fills(rt, target)
    }
}

#[test]
fn targets_that_are_taken_or_refused(rt: HostRuntime) -> Result<(), Fail> {
    let alloc = rt.alloc();
    assert_fills(&rt, &[])?;
    assert_fills(&rt, &rubbish(alloc, 5, &[])?)?;
    assert_fills(&rt, &medium_of(alloc, THREE_BALLOTS)?)?;
    assert_fills(&rt, &rubbish(alloc, 2 * BANK + 1, &[])?)?;
    assert_fills(&rt, &rubbish(alloc, 2 * BANK, &[0, 0x3c])?)?;
    for gates in [[0xa7, 0], [0, 0xa7], [0xa7, 0xa7]] {
        assert_refuses(
            &rt,
            &rubbish(alloc, 2 * BANK, &gates)?,
            Status::MediumInUse { index: 1 },
        )?;
    }
    let size = MOST;
    assert_refuses(
        &rt,
        &rubbish(alloc, MOST as usize, &[])?,
        Status::MediumSize { index: 1, size },
    )
}

// Each call on one of the media fails in turn, until a migration makes no such call.
fn assert_each_fails<R>(rt: &R, place: u32) -> Result<(), Fail>
where
    R: Threads + Sync + AllocGlobal + Abort,
{
    let alloc = rt.alloc();
    let old = medium_of(alloc, THREE_BALLOTS)?;
    for call in 1..100 {
        let mut media = two_media(rt, alloc, &[], place, call)?;
        let (status, written) = migrate(rt, &mut media, 0)?;
        if status == Status::Ok {
            assert!(rt; call > 3, "{place}");
            return assert_media(rt, alloc, &media, &migrated(alloc)?);
        }
        assert_eq!(rt; status, fault_at(place), "{call}");
        assert_eq!(rt; written.len(), 0, "{call}");
        assert!(rt; media.old.bytes() == old.as_slice());
        assert_eq!(rt; media.more.len(), 1);
        assert_again(rt, media.more[0].bytes())?;
    }
    assert!(rt; false, "a call fails each time");
    Ok(())
}

#[test]
fn each_call_of_a_migration_fails_in_turn(rt: HostRuntime) -> Result<(), Fail> {
    assert_each_fails(&rt, 0)?;
    assert_each_fails(&rt, 1)
}

#[test]
fn a_migration_whose_sink_fails(rt: HostRuntime) -> Result<(), Fail> {
    let alloc = rt.alloc();
    let mut media = two_media(&rt, alloc, &[], 0, 0)?;
    let (status, written) = migrate(&rt, &mut media, 1)?;
    assert_eq!(rt; status, Status::WriteFault);
    assert_eq!(rt; written.len(), 0);
    assert_media(&rt, alloc, &media, &migrated(alloc)?)
}

// The target of a migration that was stopped, by what a torn write leaves.
fn assert_stops<R>(rt: &R, target: &MemoryDisk, inside: bool, torn: Torn) -> Result<(), Fail>
where
    R: Threads + Sync + AllocGlobal + Abort,
{
    let alloc = rt.alloc();
    for call in 0..target.calls() {
        let stopped = target.after_stop(alloc, call, inside, torn)?;
        assert_again(rt, stopped.bytes())?;
    }
    Ok(())
}

#[test]
fn a_migration_is_stopped_at_each_call(rt: HostRuntime) -> Result<(), Fail> {
    let alloc = rt.alloc();
    let mut media = two_media(&rt, alloc, &[], 0, 0)?;
    let (status, _) = migrate(&rt, &mut media, 0)?;
    assert_eq!(rt; status, Status::Ok);
    assert_eq!(rt; media.more.len(), 1);
    for torn in [Torn::Old, Torn::New, Torn::Fill(0x3c), Torn::Fill(0xa7)] {
        assert_stops(&rt, &media.more[0], false, torn)?;
        assert_stops(&rt, &media.more[0], true, torn)?;
    }
    Ok(())
}
