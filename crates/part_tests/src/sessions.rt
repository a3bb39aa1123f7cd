//! A session over a store in two parts, on two disks in memory: what scripts come to, with two tabulators at work at once, and
//! where each call of a disk fails in turn.

ghost use Rattle.any_store.specs.Checkpointed.{AreMedia};
ghost use Rattle.std.specs.Prelude.{◌≡◌, List, length};
ghost use Rattle.store_spec.specs.Ballot.{Ballot};

use crate::media::{EMPTY, held, opened, opening_calls, two_disks};
use any_store::Disks;
use crash_disk::{Disk, MemoryDisk};
use fake_turns::Meeting;
use image_builder::Scratch;
use outside_io::{Lines, MemorySink, MemorySource, NoTurns, Turns};
use part_session::play;
use parted_store::{Parts, PartsOf, Two};
use phase_gate::{Report, Session};
use std::alloc::Global;
use std::process::Abort;
use std::test::Fail;
use std::thread::Threads;

/// Two ballots of the first part, and one of the second.
const SCRIPT: &str = "open cast 1\n\
    cast 1 1 1 -/-\n\
    cast 1 9 1 -/-\n\
    cast 1 18446744073709551615 1 -/-\n\
    close\n\
    checkpoint\n\
    export\n";

const REPLIES: &str = "casting 1\n\
    1 1 accepted\n\
    1 2 accepted\n\
    1 3 accepted\n\
    closed 3\n\
    checkpoint 3\n\
    export 3\n\
    1 1 -/-\n\
    9 1 -/-\n\
    18446744073709551615 1 -/-\n";

/// Ten ballots of one list. The first eight fill the first part, in which the tenth finds no room; the ninth is of the second.
const TEN: &str = "open cast 1\n\
    cast 1 1 1 -/-\n\
    cast 1 2 1 -/-\n\
    cast 1 5 1 -/-\n\
    cast 1 6 1 -/-\n\
    cast 1 9 1 -/-\n\
    cast 1 14 1 -/-\n\
    cast 1 17 1 -/-\n\
    cast 1 22 1 -/-\n\
    cast 1 18446744073709551615 1 -/-\n\
    cast 1 3 1 -/-\n\
    close\n\
    checkpoint\n";

const TEN_TOLD: &str = "casting 1\n\
    1 1 accepted\n\
    1 2 accepted\n\
    1 3 accepted\n\
    1 4 accepted\n\
    1 5 accepted\n\
    1 6 accepted\n\
    1 7 accepted\n\
    1 8 accepted\n\
    1 9 accepted\n\
    1 10 full\n\
    closed 9\n\
    checkpoint 9\n";

/// In each phase two tabulators have numbers of both parts: one begins in the first part, and the other in the second.
const BOTH: &str = "open cast 2\n\
    cast 1 22 1 -/-\n\
    cast 1 9223372036854775808 1 -/-\n\
    cast 2 18446744073709551615 1 -/-\n\
    cast 2 5 1 -/-\n\
    close\n\
    open find 2\n\
    find 1 5\n\
    find 1 18446744073709551615\n\
    find 2 9223372036854775808\n\
    find 2 6\n\
    close\n\
    open withdraw 2\n\
    withdraw 1 22\n\
    withdraw 1 18446744073709551614\n\
    withdraw 2 18446744073709551615\n\
    withdraw 2 6\n\
    close\n\
    checkpoint\n";

const BOTH_TOLD: &str = "casting 2\n\
    1 1 accepted\n\
    1 2 accepted\n\
    2 1 accepted\n\
    2 2 accepted\n\
    closed 4\n\
    finding 2\n\
    1 1 present\n\
    1 2 present\n\
    2 1 present\n\
    2 2 absent\n\
    closed 4\n\
    withdrawing 2\n\
    1 1 withdrawn\n\
    1 2 absent\n\
    2 1 withdrawn\n\
    2 2 absent\n\
    closed 2\n\
    checkpoint 2\n";

/// A script, what is written of it, and how many ballots the disks hold then.
type Row = (&'static str, &'static str, usize);

static ROWS: [Row; 2] = [(SCRIPT, REPLIES, 3), (TEN, TEN_TOLD, 9)];

/// Plays a script over a store and its disks. It answers whether all went well.
fn play_on<R: Threads + Sync, M: Disks<PartsOf<Two>>, T: Turns>(
    rt: &R,
    alloc: Global,
    store: PartsOf<Two>,
    disks: &mut M,
    script: &str,
    turns: &T,
    out: &mut MemorySink,
    scratch: &mut Scratch,
) -> Result<bool, Fail>
    requires { (set : List Ballot) × AreMedia M.disks store.store.election set disks.old }
{
    store.store().bits();
    let mut lines = Lines::new(alloc)?;
    let script = Vec::from_slice(alloc, script.as_bytes())?;
    let mut source = MemorySource::new(script, Vec::new(alloc));
    let mut report = Report::new(alloc);
    let session = Session::new(alloc, store);
    let played = play(
        rt,
        alloc,
        session,
        &mut lines,
        &mut source,
        out,
        disks,
        turns,
        scratch,
        &mut report,
    );
    Ok(played.is_ok())
}

/// Opens the store on two disks, and plays a script over it. It answers the part whose disk failed.
fn open_and_play<R: Threads + Sync, A: Disk, B: Disk, T: Turns>(
    rt: &R,
    alloc: Global,
    first: &mut A,
    more: &mut [B],
    script: &str,
    turns: &T,
    out: &mut MemorySink,
) -> Result<Option<usize>, Fail>
    requires { length more.old ≡ 1 }
{
    let mut scratch = Scratch::new(alloc)?;
    let store = opened(alloc, first, more, &mut scratch)?;
    let mut disks = Parts::<Two, A, B>::new(first, more);
    let well = play_on(
        rt,
        alloc,
        store,
        &mut disks,
        script,
        turns,
        out,
        &mut scratch,
    )?;
    Ok(if well { None } else { disks.failed() })
}

/// What a session answers, how many calls each disk had seen, and how many ballots they hold then.
#[derive(Drop)]
struct Ended {
    failed: Option<usize>,
    calls: (u64, u64),
    held: usize,
}

/// A session on two disks of which these calls are to fail; none does at 0. They are the media of the empty set.
fn session_with<R: Threads + Sync + Abort, T: Turns>(
    rt: &R,
    alloc: Global,
    failing: (u64, u64),
    script: &str,
    turns: &T,
    out: &mut MemorySink,
) -> Result<Ended, Fail> {
    let (mut first, mut more) = two_disks(rt, alloc, EMPTY, EMPTY, failing)?;
    let failed = open_and_play(rt, alloc, &mut first, &mut more, script, turns, out)?;
    let calls = (first.calls(), more[0].calls());
    let held = held(alloc, &mut first, &mut more)?;
    Ok(Ended {
        failed,
        calls,
        held,
    })
}

/// A session with these turns comes to this.
fn assert_row<R: Threads + Sync + Abort, T: Turns>(
    rt: &R,
    alloc: Global,
    row: Row,
    turns: &T,
) -> Result<(), Fail> {
    let (script, told, held) = row;
    let mut out = MemorySink::new(alloc, 1000, Vec::new(alloc))?;
    let ended = session_with(rt, alloc, (0, 0), script, turns, &mut out)?;
    assert!(rt; ended.failed.is_none() && ended.held == held);
    assert!(rt; out.bytes() == told.as_bytes());
    Ok(())
}

#[test]
fn sessions_in_two_parts(rt: HostRuntime) -> Result<(), Fail> {
    let alloc = rt.alloc();
    for row in &ROWS {
        assert_row(&rt, alloc, *row, &NoTurns)?;
    }
    Ok(())
}

#[test]
fn two_tabulators_are_at_work_at_once_in_both_parts(rt: HostRuntime) -> Result<(), Fail> {
    let meeting = Meeting::new();
    assert_row(&rt, rt.alloc(), (BOTH, BOTH_TOLD, 2), &meeting)?;
    assert!(rt; meeting.met() == 6);
    Ok(())
}

/// The session of two ballots and one, of which these calls fail.
fn three_with<R: Threads + Sync + Abort>(
    rt: &R,
    alloc: Global,
    failing: (u64, u64),
) -> Result<Ended, Fail> {
    let mut out = MemorySink::new(alloc, 1000, Vec::new(alloc))?;
    session_with(rt, alloc, failing, SCRIPT, &NoTurns, &mut out)
}

/// The checkpoint of this part failed, and the disks hold what they held before it or what it was to leave.
fn assert_failed(rt: &impl Abort, ended: &Ended, part: usize, before: usize, after: usize) {
    assert!(rt; ended.failed == Some(part));
    assert!(rt; ended.held == before || ended.held == after);
}

#[test]
fn each_call_of_a_checkpoint_fails_in_turn(rt: HostRuntime) -> Result<(), Fail> {
    let alloc = rt.alloc();
    let opened = opening_calls(&rt, alloc)?;
    let calls = three_with(&rt, alloc, (0, 0))?.calls;
    for call in opened.0..calls.0 {
        let ended = three_with(&rt, alloc, (call.saturating_add(1), 0))?;
        assert_failed(&rt, &ended, 0, 0, 2);
        assert!(rt; ended.calls.1 == opened.1);
    }
    for call in opened.1..calls.1 {
        let ended = three_with(&rt, alloc, (0, call.saturating_add(1)))?;
        assert_failed(&rt, &ended, 1, 2, 3);
        assert!(rt; ended.calls.0 == calls.0);
    }
    Ok(())
}
