//! A session on a store in two parts: what its media come to, workers that wait for each other, each call on each disk fails
//! in turn, and each is stopped at each call. Then the same lines again come to the same media.

use super::{HEADER, NOTHING, call_at, disk_of, ends, fault_at, lines, run_on};
use crash_disk::{Disk, MemoryDisk, Torn};
use fake_turns::Meeting;
use outside_io::{NoTurns, Turns};
use phase_gate::Report;
use recovery::MediumWhy;
use run_command::Status;
use std::alloc::Global;
use std::process::Abort;
use std::test::Fail;
use std::thread::Threads;

const PART: &[&str] = &["medium", "election.json", "part", "second"];

// The cells from cell 3 on, in hexadecimal digits: of the ballots 9 and 1 (cell 3 is empty), of the ballot of the greatest
// number, and of that ballot with a style that the election has not.
const LOW: &str = "0000000000000000000000000000000000\
    0000000000000009010000000000000000\
    0000000000000001010000000000000000";

const HIGH: &str = "ffffffffffffffff010000000000000000";

const NO_STYLE: &str = "ffffffffffffffff020000000000000000";

const OPEN: &[u8] = &[0xa7, 0xa7];

// The first gate alone is open.
const FIRST: &[u8] = &[0xa7, 0];

const CLOSED: &[u8] = &[0, 0];

// What is on a medium.
#[derive(Clone, Copy)]
enum Holds {
    Empty,
    // The ballots 1 and 9.
    Low,
    // The ballot of the greatest number.
    High,
    // The same, and the other bank is torn.
    LowTorn,
    HighTorn,
    Damaged,
    NoStore,
}

// The bank that has these digits from cell 3 on between zeros.
fn bank_of(alloc: Global, cells: &str) -> Result<Vec<u8>, Fail> {
    let mut bank = hex::decode(alloc, HEADER)?;
    bank.resize(83, 0)?;
    bank.extend_from_slice(&hex::decode(alloc, cells)?)?;
    bank.resize(304, 0)?;
    Ok(bank)
}

// The medium of two banks and two gates.
fn banks(alloc: Global, first: &str, second: &str, gates: &[u8]) -> Result<Vec<u8>, Fail> {
    let mut medium = bank_of(alloc, first)?;
    medium.extend_from_slice(&bank_of(alloc, second)?)?;
    medium.extend_from_slice(gates)?;
    Ok(medium)
}

fn bytes_of(alloc: Global, holds: Holds) -> Result<Vec<u8>, Fail> {
    match holds {
        Holds::Empty => banks(alloc, "", "", OPEN),
        Holds::Low => banks(alloc, LOW, LOW, OPEN),
        Holds::High => banks(alloc, HIGH, HIGH, OPEN),
        Holds::LowTorn => banks(alloc, LOW, NO_STYLE, FIRST),
        Holds::HighTorn => banks(alloc, HIGH, NO_STYLE, FIRST),
        Holds::Damaged => banks(alloc, NO_STYLE, NO_STYLE, OPEN),
        Holds::NoStore => banks(alloc, LOW, LOW, CLOSED),
    }
}

// The disks of two parts.
#[derive(Drop)]
struct Store {
    first: MemoryDisk,
    more: Vec<MemoryDisk>,
}

// Two disks with these bytes. On one of them, counted from 0, a call fails.
fn store_of(
    rt: &impl Abort,
    alloc: Global,
    bytes: (&[u8], &[u8]),
    place: u32,
    call: u64,
) -> Result<Store, Fail> {
    let first = disk_of(rt, alloc, bytes.0, call_at(0, place, call))?;
    let mut more = Vec::new(alloc);
    more.push(disk_of(rt, alloc, bytes.1, call_at(1, place, call))?)?;
    Ok(Store { first, more })
}

// The disk of part 1.
fn second<'a>(rt: &impl Abort, store: &'a Store) -> &'a MemoryDisk {
    assert!(rt; store.more.len() == 1);
    &store.more[0]
}

// The disks have these bytes.
fn assert_left(rt: &impl Abort, store: &Store, first: &[u8], other: &[u8]) {
    assert!(rt; store.first.bytes() == first);
    assert!(rt; second(rt, store).bytes() == other);
}

// Nothing was marked, or the last line was a checkpoint, with the calls of both disks.
fn is_beside(report: &Report, store: &Store) -> bool {
    match (
        report.begun,
        report.marks.as_slice(),
        report.others.as_slice(),
        store.more.as_slice(),
    ) {
        (None, [], [], _) => true,
        (None, [mark], [list], [other]) => {
            *mark == store.first.calls() && list.as_slice() == [other.calls()].as_slice()
        }
        _ => false,
    }
}

// How a session on both ends, and what it wrote.
fn part<R, T>(rt: &R, store: &mut Store, script: &str, turns: &T) -> Result<(Status, Vec<u8>), Fail>
where
    R: Threads + Sync + AllocGlobal + Abort,
    T: Turns,
{
    let (status, report, written) = run_on(
        rt,
        PART,
        script,
        NOTHING,
        &mut store.first,
        &mut store.more,
        turns,
    )?;
    assert!(rt; is_beside(&report, store));
    Ok((status, written))
}

// The media of the parts, a script, how it ends, what is written, and what the media hold then, or `None` where they stay as
// they were.
type Row = (
    Holds,
    Holds,
    &'static str,
    Status,
    &'static str,
    Option<(Holds, Holds)>,
);

const CAST: &str =
    "open cast 1 | cast 1 1 1 -/- | cast 1 9 1 -/- | cast 1 18446744073709551615 1 -/- | close | \
        checkpoint";

// What is written of it before its checkpoint, on two parts that hold no ballot.
const BEFORE: &str = "casting 1 | 1 1 accepted | 1 2 accepted | 1 3 accepted | closed 3";

// All that is written of it then.
const ACCEPTED: &str =
    "casting 1 | 1 1 accepted | 1 2 accepted | 1 3 accepted | closed 3 | checkpoint 3";

// The same where no ballot is held, those of part 0, and those of both parts.
static TOLD: [&str; 3] = [
    ACCEPTED,
    "casting 1 | 1 1 duplicate | 1 2 duplicate | 1 3 accepted | closed 3 | checkpoint 3",
    "casting 1 | 1 1 duplicate | 1 2 duplicate | 1 3 duplicate | closed 3 | checkpoint 3",
];

// Part 0 has room for eight ballots, and so has part 1.
const TEN: &str =
    "open cast 1 | cast 1 1 1 -/- | cast 1 2 1 -/- | cast 1 5 1 -/- | cast 1 6 1 -/- | \
    cast 1 9 1 -/- | cast 1 14 1 -/- | cast 1 17 1 -/- | cast 1 22 1 -/- | \
    cast 1 18446744073709551615 1 -/- | cast 1 3 1 -/- | close";

const TEN_TOLD: &str = "casting 1 | 1 1 accepted | 1 2 accepted | 1 3 accepted | 1 4 accepted | \
    1 5 accepted | 1 6 accepted | 1 7 accepted | 1 8 accepted | 1 9 accepted | 1 10 full | closed 9";

const EXPORTED: &str = "export 3 | 1 1 -/- | 9 1 -/- | 18446744073709551615 1 -/-";

static ROWS: [Row; 13] = [
    (
        Holds::Empty,
        Holds::Empty,
        CAST,
        Status::Ok,
        ACCEPTED,
        Some((Holds::Low, Holds::High)),
    ),
    (Holds::Empty, Holds::Empty, TEN, Status::Ok, TEN_TOLD, None),
    (
        Holds::Low,
        Holds::High,
        "export",
        Status::Ok,
        EXPORTED,
        None,
    ),
    (
        Holds::LowTorn,
        Holds::HighTorn,
        "export",
        Status::Ok,
        EXPORTED,
        Some((Holds::Low, Holds::High)),
    ),
    (
        Holds::Low,
        Holds::High,
        "open withdraw 1 | withdraw 1 18446744073709551615 | withdraw 1 9 | withdraw 1 1 | close | checkpoint",
        Status::Ok,
        "withdrawing 1 | 1 1 withdrawn | 1 2 withdrawn | 1 3 withdrawn | closed 0 | checkpoint 0",
        Some((Holds::Empty, Holds::Empty)),
    ),
    (
        Holds::High,
        Holds::Low,
        "export",
        Status::Misplaced {
            index: 0,
            number: u64::MAX,
        },
        "",
        None,
    ),
    (
        Holds::LowTorn,
        Holds::Low,
        "export",
        Status::Misplaced {
            index: 1,
            number: 1,
        },
        "",
        None,
    ),
    (
        Holds::NoStore,
        Holds::HighTorn,
        "export",
        Status::NoStore,
        "",
        None,
    ),
    (
        Holds::Damaged,
        Holds::NoStore,
        "export",
        Status::Damaged { cell: 3 },
        "",
        None,
    ),
    (
        Holds::LowTorn,
        Holds::NoStore,
        "export",
        Status::BadMedium {
            index: 1,
            why: MediumWhy::NoStore,
        },
        "",
        None,
    ),
    (
        Holds::LowTorn,
        Holds::Damaged,
        "export",
        Status::BadMedium {
            index: 1,
            why: MediumWhy::Damaged { cell: 3 },
        },
        "",
        None,
    ),
    // What is no store comes before what is misplaced.
    (
        Holds::High,
        Holds::NoStore,
        "export",
        Status::BadMedium {
            index: 1,
            why: MediumWhy::NoStore,
        },
        "",
        None,
    ),
    // A phase that is still open is dropped, and nothing is acknowledged.
    (
        Holds::Low,
        Holds::Empty,
        "open cast 1 | cast 1 18446744073709551615 1 -/-",
        Status::Ok,
        "casting 1 | dropped casting",
        None,
    ),
];

// The disks of two media that hold this.
fn store_with(rt: &impl Abort, alloc: Global, first: Holds, other: Holds) -> Result<Store, Fail> {
    let first = bytes_of(alloc, first)?;
    let other = bytes_of(alloc, other)?;
    store_of(rt, alloc, (&first, &other), 0, 0)
}

// A session with these turns ends so, and writes this.
fn assert_told<R, T>(
    rt: &R,
    store: &mut Store,
    script: &str,
    turns: &T,
    ends: (Status, &str),
) -> Result<(), Fail>
where
    R: Threads + Sync + AllocGlobal + Abort,
    T: Turns,
{
    let (status, written) = part(rt, store, script, turns)?;
    assert_eq!(rt; status, ends.0, "{script}");
    assert!(rt; written == lines(rt.alloc(), ends.1)?, "{script}");
    Ok(())
}

// The two media hold this.
fn assert_holds(
    rt: &impl Abort,
    alloc: Global,
    store: &Store,
    first: Holds,
    other: Holds,
) -> Result<(), Fail> {
    let first = bytes_of(alloc, first)?;
    let other = bytes_of(alloc, other)?;
    assert_left(rt, store, &first, &other);
    Ok(())
}

// A session with these turns comes to this.
fn assert_row<R, T>(rt: &R, row: Row, turns: &T) -> Result<(), Fail>
where
    R: Threads + Sync + AllocGlobal + Abort,
    T: Turns,
{
    let alloc = rt.alloc();
    let (first, other, script, status, told, after) = row;
    let mut store = store_with(rt, alloc, first, other)?;
    assert_told(rt, &mut store, script, turns, (status, told))?;
    let (first, other) = after.unwrap_or((first, other));
    assert_holds(rt, alloc, &store, first, other)
}

#[test]
fn what_two_parts_come_to(rt: HostRuntime) -> Result<(), Fail> {
    for row in &ROWS {
        assert_row(&rt, *row, &NoTurns)?;
    }
    Ok(())
}

// Two lists, of which each has a number of another part.
const AT_ONCE: Row = (
    Holds::Low,
    Holds::Empty,
    "open cast 2 | cast 1 22 1 -/- | cast 2 18446744073709551615 1 -/- | close | open find 2 | find 1 22 | \
        find 2 18446744073709551615 | close | open withdraw 2 | withdraw 1 22 | \
        withdraw 2 18446744073709551615 | close",
    Status::Ok,
    "casting 2 | 1 1 accepted | 2 1 accepted | closed 4 | finding 2 | 1 1 present | 2 1 present | closed 4 | \
        withdrawing 2 | 1 1 withdrawn | 2 1 withdrawn | closed 2",
    None,
);

#[test]
fn two_workers_are_at_work_at_once_in_different_parts(rt: HostRuntime) -> Result<(), Fail> {
    let meeting = Meeting::new();
    assert_row(&rt, AT_ONCE, &meeting)?;
    assert_eq!(rt; meeting.met(), 6);
    Ok(())
}

#[test]
fn two_further_media_are_no_form(rt: HostRuntime) -> Result<(), Fail> {
    let words = ["medium", "election.json", "part", "second", "third"];
    let medium = bytes_of(rt.alloc(), Holds::Empty)?;
    let ended = ends(&rt, &words, CAST, &medium, NOTHING, &NoTurns)?;
    assert_eq!(rt; ended.status, Status::Usage);
    assert_eq!(rt; (ended.written.len(), ended.disk.calls()), (0, 0));
    Ok(())
}

// It is one of these texts.
fn is_one(alloc: Global, written: &[u8], texts: &[&str]) -> Result<bool, Fail> {
    for text in texts {
        if written == lines(alloc, *text)?.as_slice() {
            return Ok(true);
        }
    }
    Ok(false)
}

// The three ballots cast again, on disks with these bytes, come to both parts, and this is written of it, or that.
fn assert_again<R>(rt: &R, first: &[u8], other: &[u8], texts: &[&str]) -> Result<(), Fail>
where
    R: Threads + Sync + AllocGlobal + Abort,
{
    let alloc = rt.alloc();
    let mut store = store_of(rt, alloc, (first, other), 0, 0)?;
    let (status, written) = part(rt, &mut store, CAST, &NoTurns)?;
    assert_eq!(rt; status, Status::Ok);
    assert!(rt; is_one(alloc, &written, texts)?);
    assert_whole(rt, alloc, &store)
}

// The disks are the media of the three ballots.
fn assert_whole(rt: &impl Abort, alloc: Global, store: &Store) -> Result<(), Fail> {
    let first = bytes_of(alloc, Holds::Low)?;
    let other = bytes_of(alloc, Holds::High)?;
    assert_left(rt, store, &first, &other);
    Ok(())
}

// Two disks of no ballot. On one of them, counted from 0, a call fails.
fn two_empty(rt: &impl Abort, alloc: Global, place: u32, call: u64) -> Result<Store, Fail> {
    let empty = bytes_of(alloc, Holds::Empty)?;
    store_of(rt, alloc, (&empty, &empty), place, call)
}

// The same lines again, once a call on a disk failed and this was written. Before the session began no ballot is held; at the
// checkpoint the part before this one is new, and this one is old or new.
fn assert_again_after<R>(rt: &R, store: &Store, written: &[u8], place: u32) -> Result<(), Fail>
where
    R: Threads + Sync + AllocGlobal + Abort,
{
    let first = store.first.bytes();
    let other = second(rt, store).bytes();
    if written.is_empty() {
        return assert_again(rt, first, other, &TOLD[..1]);
    }
    assert!(rt; written == lines(rt.alloc(), BEFORE)?.as_slice());
    if place == 0 {
        assert_again(rt, first, other, &TOLD[..2])
    } else {
        assert_again(rt, first, other, &TOLD[1..])
    }
}

// A session of whose disks one fails at this call, if it makes it. It answers whether it came to its end.
fn is_whole<R>(rt: &R, place: u32, call: u64) -> Result<bool, Fail>
where
    R: Threads + Sync + AllocGlobal + Abort,
{
    let alloc = rt.alloc();
    let mut store = two_empty(rt, alloc, place, call)?;
    let (status, written) = part(rt, &mut store, CAST, &NoTurns)?;
    if status == Status::Ok {
        assert!(rt; written == lines(alloc, ACCEPTED)?);
        assert_whole(rt, alloc, &store)?;
        return Ok(true);
    }
    assert_eq!(rt; status, fault_at(place), "{call}");
    assert_again_after(rt, &store, &written, place)?;
    Ok(false)
}

// Each call on one of the disks fails in turn, until a session makes no such call.
fn assert_each_fails<R>(rt: &R, place: u32) -> Result<(), Fail>
where
    R: Threads + Sync + AllocGlobal + Abort,
{
    for call in 1..100 {
        if is_whole(rt, place, call)? {
            assert!(rt; call > 14);
            return Ok(());
        }
    }
    assert!(rt; false, "a call fails each time");
    Ok(())
}

#[test]
fn each_call_of_a_session_on_two_parts_fails_in_turn(rt: HostRuntime) -> Result<(), Fail> {
    assert_each_fails(&rt, 0)?;
    assert_each_fails(&rt, 1)
}

// Part 0 is stopped at each call; part 1 holds no ballot yet.
fn assert_first_stops<R>(rt: &R, disk: &MemoryDisk, inside: bool, torn: Torn) -> Result<(), Fail>
where
    R: Threads + Sync + AllocGlobal + Abort,
{
    let alloc = rt.alloc();
    let empty = bytes_of(alloc, Holds::Empty)?;
    for call in 0..disk.calls() {
        let stopped = disk.after_stop(alloc, call, inside, torn)?;
        assert_again(rt, stopped.bytes(), &empty, &TOLD[..2])?;
    }
    Ok(())
}

// Part 1 is stopped at each call; part 0 holds its ballots.
fn assert_second_stops<R>(rt: &R, disk: &MemoryDisk, inside: bool, torn: Torn) -> Result<(), Fail>
where
    R: Threads + Sync + AllocGlobal + Abort,
{
    let alloc = rt.alloc();
    let low = bytes_of(alloc, Holds::Low)?;
    for call in 0..disk.calls() {
        let stopped = disk.after_stop(alloc, call, inside, torn)?;
        assert_again(rt, &low, stopped.bytes(), &TOLD[1..])?;
    }
    Ok(())
}

#[test]
fn either_part_is_stopped_at_each_call(rt: HostRuntime) -> Result<(), Fail> {
    let mut store = two_empty(&rt, rt.alloc(), 0, 0)?;
    let (status, _) = part(&rt, &mut store, CAST, &NoTurns)?;
    assert_eq!(rt; status, Status::Ok);
    for torn in [Torn::Old, Torn::New, Torn::Fill(0x3c), Torn::Fill(0xa7)] {
        for inside in [false, true] {
            assert_first_stops(&rt, &store.first, inside, torn)?;
            assert_second_stops(&rt, second(&rt, &store), inside, torn)?;
        }
    }
    Ok(())
}
