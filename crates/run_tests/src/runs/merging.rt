//! A merge of three media: each call on each of them fails in turn, and the target stops at each call.

use super::rows::{FOUR_BALLOTS, Set, THREE_BALLOTS, assert_recovers};
use super::{Failing, NOTHING, call_at, disk_of, fault_at, medium_of, run_on};
use crash_disk::{Disk, MemoryDisk, Torn};
use outside_io::NoTurns;
use run_command::Status;
use std::alloc::Global;
use std::process::Abort;
use std::test::Fail;
use std::thread::Threads;

const MERGE: &[&str] = &["medium", "election.json", "merge", "second", "third"];

// The ballots 22 and 9.
const TWO_BALLOTS: &str = "0000000000000016010000000000000000\
    0000000000000009010000000100000000";

const BEFORE_OR_AFTER: &[Set] = &[Set::ThreeBallots, Set::FourBallots];

#[derive(Drop)]
struct Media {
    target: MemoryDisk,
    more: Vec<MemoryDisk>,
}

// Further media, of which a call may fail.
fn two_more(
    rt: &impl Abort,
    alloc: Global,
    place: u32,
    call: u64,
) -> Result<Vec<MemoryDisk>, Fail> {
    let mut more = Vec::new(alloc);
    for (at, cells) in [(1, TWO_BALLOTS), (2, "")] {
        let bytes = medium_of(alloc, cells)?;
        more.push(disk_of(rt, alloc, &bytes, call_at(at, place, call))?)?;
    }
    Ok(more)
}

// A target with these bytes, and the media of two ballots and of none. On one of them, counted from 0, a call fails.
fn three_media(
    rt: &impl Abort,
    alloc: Global,
    target: &[u8],
    place: u32,
    call: u64,
) -> Result<Media, Fail> {
    let target = disk_of(rt, alloc, target, call_at(0, place, call))?;
    let more = two_more(rt, alloc, place, call)?;
    Ok(Media { target, more })
}

// How a merge of them ends whose call of this number on the sink fails, and what it wrote.
fn merge<R>(rt: &R, media: &mut Media, sink: u64) -> Result<(Status, Vec<u8>), Fail>
where
    R: Threads + Sync + AllocGlobal + Abort,
{
    let failing = Failing { sink, ..NOTHING };
    let (status, _, written) = run_on(
        rt,
        MERGE,
        "",
        failing,
        &mut media.target,
        &mut media.more,
        &NoTurns,
    )?;
    Ok((status, written))
}

// The further media have the bytes that they had.
fn assert_only_read(rt: &impl Abort, alloc: Global, media: &Media) -> Result<(), Fail> {
    assert_eq!(rt; media.more.len(), 2);
    assert!(rt; media.more[0].bytes() == medium_of(alloc, TWO_BALLOTS)?.as_slice());
    assert!(rt; media.more[1].bytes() == medium_of(alloc, "")?.as_slice());
    Ok(())
}

// The target is the medium of all four ballots.
fn assert_united(rt: &impl Abort, alloc: Global, media: &Media) -> Result<(), Fail> {
    assert!(rt; media.target.bytes() == medium_of(alloc, FOUR_BALLOTS)?.as_slice());
    assert_only_read(rt, alloc, media)
}

// The target is made that of all four ballots.
fn assert_merges<R>(rt: &R, bytes: &[u8]) -> Result<(), Fail>
where
    R: Threads + Sync + AllocGlobal + Abort,
{
    let alloc = rt.alloc();
    let mut media = three_media(rt, alloc, bytes, 0, 0)?;
    let (status, written) = merge(rt, &mut media, 0)?;
    assert_eq!(rt; status, Status::Ok);
    assert_eq!(rt; written.as_slice(), b"merged 4\n".as_slice());
    assert_united(rt, alloc, &media)
}

// Each call on one of the media fails in turn, until a merge makes no such call. The same merge again comes to its end.
fn assert_each_fails<R>(rt: &R, place: u32) -> Result<(), Fail>
where
    R: Threads + Sync + AllocGlobal + Abort,
{
    let alloc = rt.alloc();
    for call in 1..100 {
        let three = medium_of(alloc, THREE_BALLOTS)?;
        let mut media = three_media(rt, alloc, &three, place, call)?;
        let (status, written) = merge(rt, &mut media, 0)?;
        if status == Status::Ok {
            assert!(rt; call > 3, "{place}");
            return assert_united(rt, alloc, &media);
        }
        assert_eq!(rt; status, fault_at(place), "{call}");
        assert_eq!(rt; written.len(), 0, "{call}");
        assert_only_read(rt, alloc, &media)?;
        assert_recovers(rt, media.target.bytes(), BEFORE_OR_AFTER)?;
        assert_merges(rt, media.target.bytes())?;
    }
    assert!(rt; false, "a call fails each time");
    Ok(())
}

#[test]
fn each_call_of_a_merge_fails_in_turn(rt: HostRuntime) -> Result<(), Fail> {
    for place in 0..3 {
        assert_each_fails(&rt, place)?;
    }
    Ok(())
}

#[test]
fn a_merge_whose_sink_fails(rt: HostRuntime) -> Result<(), Fail> {
    let alloc = rt.alloc();
    let three = medium_of(alloc, THREE_BALLOTS)?;
    let mut media = three_media(&rt, alloc, &three, 0, 0)?;
    let (status, written) = merge(&rt, &mut media, 1)?;
    assert_eq!(rt; status, Status::WriteFault);
    assert_eq!(rt; written.len(), 0);
    assert_united(&rt, alloc, &media)
}

// The target of a merge that was stopped, by what a torn write leaves.
fn assert_stops<R>(rt: &R, target: &MemoryDisk, inside: bool, torn: Torn) -> Result<(), Fail>
where
    R: Threads + Sync + AllocGlobal + Abort,
{
    let alloc = rt.alloc();
    for call in 0..target.calls() {
        let stopped = target.after_stop(alloc, call, inside, torn)?;
        assert_recovers(rt, stopped.bytes(), BEFORE_OR_AFTER)?;
        assert_merges(rt, stopped.bytes())?;
    }
    Ok(())
}

#[test]
fn a_merge_is_stopped_at_each_call(rt: HostRuntime) -> Result<(), Fail> {
    let alloc = rt.alloc();
    let three = medium_of(alloc, THREE_BALLOTS)?;
    let mut media = three_media(&rt, alloc, &three, 0, 0)?;
    let (status, _) = merge(&rt, &mut media, 0)?;
    assert_eq!(rt; status, Status::Ok);
    for torn in [Torn::Old, Torn::New, Torn::Fill(0x3c), Torn::Fill(0xa7)] {
        assert_stops(&rt, &media.target, false, torn)?;
        assert_stops(&rt, &media.target, true, torn)?;
    }
    Ok(())
}
