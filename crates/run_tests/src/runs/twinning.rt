//! A session on two disks: how they are found, each call on each of them fails in turn, and either is lost at each moment.

use super::rows::THREE_BALLOTS;
use super::{NOTHING, call_at, disk_of, fault_at, medium_of, run_on};
use crash_disk::{Disk, MemoryDisk, Torn};
use outside_io::NoTurns;
use phase_gate::Report;
use run_command::Status;
use std::alloc::Global;
use std::process::Abort;
use std::test::Fail;
use std::thread::Threads;

const TWIN: &[&str] = &["medium", "election.json", "twin", "second"];

// A session that casts the three ballots, and all that it writes where two disks hold the same.
const CAST: &str =
    "open cast 1 | cast 1 9 1 1/- | cast 1 14 1 -/2 | cast 1 1 1 2/1,3 | close | checkpoint";

const WRITTEN: &[u8] =
    b"media equal\ncasting 1\n1 1 accepted\n1 2 accepted\n1 3 accepted\nclosed 3\ncheckpoint 3\n";

// How one of the disks begins.
#[derive(Clone, Copy)]
enum Begins {
    Empty,
    ThreeBallots,
    Lost,
    TooLarge,
}

// The bytes of a disk that begins so.
fn bytes_of(alloc: Global, begins: Begins) -> Result<Vec<u8>, Fail> {
    match begins {
        Begins::Empty => medium_of(alloc, ""),
        Begins::ThreeBallots => medium_of(alloc, THREE_BALLOTS),
        Begins::Lost => Ok(Vec::new(alloc)),
        Begins::TooLarge => {
            let mut bytes = medium_of(alloc, "")?;
            bytes.push(0)?;
            Ok(bytes)
        }
    }
}

// Two disks.
#[derive(Drop)]
struct Pair {
    first: MemoryDisk,
    more: Vec<MemoryDisk>,
}

// Two disks with these bytes. On one of them, counted from 0, a call fails.
fn two_disks(
    rt: &impl Abort,
    alloc: Global,
    bytes: (&[u8], &[u8]),
    place: u32,
    call: u64,
) -> Result<Pair, Fail> {
    let first = disk_of(rt, alloc, bytes.0, call_at(0, place, call))?;
    let mut more = Vec::new(alloc);
    more.push(disk_of(rt, alloc, bytes.1, call_at(1, place, call))?)?;
    Ok(Pair { first, more })
}

// At each checkpoint both disks had seen as many calls since they were paired.
fn is_beside(report: &Report) -> bool {
    match (
        report.begun,
        report.marks.as_slice(),
        report.others.as_slice(),
    ) {
        (_, [], []) => true,
        (Some(begun), [mark], [list]) => {
            let since = mark.wrapping_sub(begun.0);
            list.as_slice() == [begun.1.wrapping_add(since)].as_slice()
        }
        _ => false,
    }
}

// How a session on both ends that writes this text or a part of it, and how much of it it wrote.
fn twin<R>(rt: &R, pair: &mut Pair, script: &str, text: &[u8]) -> Result<(Status, usize), Fail>
where
    R: Threads + Sync + AllocGlobal + Abort,
{
    let (status, report, written) = run_on(
        rt,
        TWIN,
        script,
        NOTHING,
        &mut pair.first,
        &mut pair.more,
        &NoTurns,
    )?;
    assert!(rt; is_beside(&report) && text.starts_with(&written));
    Ok((status, written.len()))
}

// The second disk.
fn second<'a>(rt: &impl Abort, pair: &'a Pair) -> &'a MemoryDisk {
    assert!(rt; pair.more.len() == 1);
    &pair.more[0]
}

// The first disk has these bytes, and the second those.
fn assert_left(rt: &impl Abort, pair: &Pair, first: &[u8], other: &[u8]) {
    assert!(rt; pair.first.bytes() == first);
    assert!(rt; second(rt, pair).bytes() == other);
}

// How two disks begin, how a session on them ends without a line, what it writes, and how both are left, or `None` where
// they stay as they were.
type Row = (Begins, Begins, Status, &'static str, Option<Begins>);

const ROWS: [Row; 7] = [
    (
        Begins::ThreeBallots,
        Begins::ThreeBallots,
        Status::Ok,
        "media equal\n",
        Some(Begins::ThreeBallots),
    ),
    (
        Begins::ThreeBallots,
        Begins::Lost,
        Status::Ok,
        "media second-restored\n",
        Some(Begins::ThreeBallots),
    ),
    (
        Begins::ThreeBallots,
        Begins::Empty,
        Status::Ok,
        "media differed\n",
        Some(Begins::ThreeBallots),
    ),
    (
        Begins::Lost,
        Begins::ThreeBallots,
        Status::Ok,
        "media first-restored\n",
        Some(Begins::ThreeBallots),
    ),
    (Begins::Lost, Begins::Lost, Status::NoStore, "", None),
    (
        Begins::ThreeBallots,
        Begins::TooLarge,
        Status::MediumSize {
            index: 1,
            size: 611,
        },
        "",
        None,
    ),
    (
        Begins::TooLarge,
        Begins::ThreeBallots,
        Status::WrongSize { size: 611 },
        "",
        None,
    ),
];

// Two disks that begin so.
fn pair_with(rt: &impl Abort, alloc: Global, first: Begins, other: Begins) -> Result<Pair, Fail> {
    let first = bytes_of(alloc, first)?;
    let other = bytes_of(alloc, other)?;
    two_disks(rt, alloc, (&first, &other), 0, 0)
}

// Two disks are left so.
fn assert_holds(
    rt: &impl Abort,
    alloc: Global,
    pair: &Pair,
    first: Begins,
    other: Begins,
) -> Result<(), Fail> {
    let first = bytes_of(alloc, first)?;
    let other = bytes_of(alloc, other)?;
    assert_left(rt, pair, &first, &other);
    Ok(())
}

fn assert_row<R>(rt: &R, row: Row) -> Result<(), Fail>
where
    R: Threads + Sync + AllocGlobal + Abort,
{
    let alloc = rt.alloc();
    let (first, other, status, text, after) = row;
    let mut pair = pair_with(rt, alloc, first, other)?;
    let ended = twin(rt, &mut pair, "", text.as_bytes())?;
    assert!(rt; ended == (status, text.len()));
    let (first, other) = after.map_or((first, other), |both| (both, both));
    assert_holds(rt, alloc, &pair, first, other)
}

#[test]
fn how_two_disks_are_found(rt: HostRuntime) -> Result<(), Fail> {
    for row in ROWS {
        assert_row(&rt, row)?;
    }
    Ok(())
}

// One disk, with its place, has these bytes, and the other is lost.
fn left_alone(rt: &impl Abort, alloc: Global, bytes: &[u8], place: u32) -> Result<Pair, Fail> {
    if place == 0 {
        two_disks(rt, alloc, (bytes, &[]), 0, 0)
    } else {
        two_disks(rt, alloc, (&[], bytes), 0, 0)
    }
}

// How they are found.
fn restored(place: u32) -> &'static [u8] {
    if place == 0 {
        b"media second-restored\n"
    } else {
        b"media first-restored\n"
    }
}

// One disk was left with these bytes, and the other is lost: the next session finds the set of the start on it, or the one
// that was being checkpointed, and brings it back on both.
fn assert_is_enough<R>(rt: &R, bytes: &[u8], place: u32) -> Result<(), Fail>
where
    R: Threads + Sync + AllocGlobal + Abort,
{
    let alloc = rt.alloc();
    let mut pair = left_alone(rt, alloc, bytes, place)?;
    let text = restored(place);
    let ended = twin(rt, &mut pair, "", text)?;
    assert!(rt; ended == (Status::Ok, text.len()));
    let three = medium_of(alloc, THREE_BALLOTS)?;
    if pair.first.bytes() == three.as_slice() {
        assert_left(rt, &pair, &three, &three);
    } else {
        let empty = medium_of(alloc, "")?;
        assert_left(rt, &pair, &empty, &empty);
    }
    Ok(())
}

// Two disks of the empty set. On one of them, counted from 0, a call fails.
fn two_empty(rt: &impl Abort, alloc: Global, place: u32, call: u64) -> Result<Pair, Fail> {
    let empty = medium_of(alloc, "")?;
    two_disks(rt, alloc, (&empty, &empty), place, call)
}

// A session on two disks of which one failed at this call, if it made it: then either disk is enough. It answers whether it
// came to its end.
fn is_whole<R>(rt: &R, place: u32, call: u64) -> Result<bool, Fail>
where
    R: Threads + Sync + AllocGlobal + Abort,
{
    let alloc = rt.alloc();
    let mut pair = two_empty(rt, alloc, place, call)?;
    let (status, written) = twin(rt, &mut pair, CAST, WRITTEN)?;
    if status == Status::Ok {
        let three = medium_of(alloc, THREE_BALLOTS)?;
        assert!(rt; written == WRITTEN.len());
        assert_left(rt, &pair, &three, &three);
        return Ok(true);
    }
    assert!(rt; status == fault_at(place));
    assert_is_enough(rt, pair.first.bytes(), 0)?;
    assert_is_enough(rt, second(rt, &pair).bytes(), 1)?;
    Ok(false)
}

// Each call on one of the disks fails in turn, until a session makes no such call.
fn assert_each_fails<R>(rt: &R, place: u32) -> Result<(), Fail>
where
    R: Threads + Sync + AllocGlobal + Abort,
{
    for call in 1..100 {
        if is_whole(rt, place, call)? {
            assert!(rt; call > 10);
            return Ok(());
        }
    }
    assert!(rt; false, "a call fails each time");
    Ok(())
}

#[test]
fn each_call_of_a_session_on_two_disks_fails_in_turn(rt: HostRuntime) -> Result<(), Fail> {
    assert_each_fails(&rt, 0)?;
    assert_each_fails(&rt, 1)
}

// One of the disks is stopped inside each call, by what a torn write leaves, and the other is lost.
fn assert_stops<R>(rt: &R, disk: &MemoryDisk, place: u32) -> Result<(), Fail>
where
    R: Threads + Sync + AllocGlobal + Abort,
{
    let alloc = rt.alloc();
    for torn in [Torn::Old, Torn::New, Torn::Fill(0x3c), Torn::Fill(0xa7)] {
        for call in 0..disk.calls() {
            let stopped = disk.after_stop(alloc, call, true, torn)?;
            assert_is_enough(rt, stopped.bytes(), place)?;
        }
    }
    Ok(())
}

#[test]
fn either_disk_is_lost_inside_each_call(rt: HostRuntime) -> Result<(), Fail> {
    let mut pair = two_empty(&rt, rt.alloc(), 0, 0)?;
    let ended = twin(&rt, &mut pair, CAST, WRITTEN)?;
    assert!(rt; ended == (Status::Ok, WRITTEN.len()));
    assert_stops(&rt, &pair.first, 0)?;
    assert_stops(&rt, second(&rt, &pair), 1)
}
