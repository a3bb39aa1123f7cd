//! What is seen of the workers of a session's phases at their turns: that the lists are handled at once, and that each
//! item is handled on the shared words before the next.

use super::rows::THREE_BALLOTS;
use super::{NOTHING, SESSION, ends, lines, medium_of};
use fake_turns::{Meeting, SeenWords, Turn};
use outside_io::Turns;
use run_command::Status;
use std::process::Abort;
use std::test::Fail;
use std::thread::Threads;

// A session on the medium of three ballots, with these turns, which ends well and replies so.
fn assert_replies<R, T>(rt: &R, turns: &T, script: &str, replies: &str) -> Result<(), Fail>
where
    R: Threads + Sync + AllocGlobal + Abort,
    T: Turns,
{
    let alloc = rt.alloc();
    let medium = medium_of(alloc, THREE_BALLOTS)?;
    let ended = ends(rt, SESSION, script, &medium, NOTHING, turns)?;
    assert_eq!(rt; ended.status, Status::Ok);
    assert!(rt; ended.written == lines(alloc, replies)?);
    Ok(())
}

#[test]
fn two_workers_are_at_work_at_once(rt: HostRuntime) -> Result<(), Fail> {
    let meeting = Meeting::new();
    let script =
        "open cast 2 | cast 1 22 1 -/- | cast 2 5 1 -/- | close | open find 2 | find 1 22 | \
        find 2 6 | close | open withdraw 2 | withdraw 1 9 | withdraw 2 14 | close";
    let replies = "casting 2 | 1 1 accepted | 2 1 accepted | closed 5 | finding 2 | 1 1 present | \
        2 1 absent | closed 5 | withdrawing 2 | 1 1 withdrawn | 2 1 withdrawn | closed 3";
    assert_replies(&rt, &meeting, script, replies)?;
    assert_eq!(rt; meeting.met(), 6);
    Ok(())
}

#[test]
fn each_item_is_handled_on_the_words_before_the_next(rt: HostRuntime) -> Result<(), Fail> {
    let seen = SeenWords::new();
    let script = "open cast 1 | cast 1 22 1 -/- | cast 1 17 1 -/- | close | open withdraw 1 | \
        withdraw 1 22 | withdraw 1 9 | withdraw 1 17 | withdraw 1 1 | close | open find 1 | \
        find 1 14 | close";
    let replies = "casting 1 | 1 1 accepted | 1 2 accepted | closed 5 | withdrawing 1 | \
        1 1 withdrawn | 1 2 withdrawn | 1 3 withdrawn | 1 4 withdrawn | closed 1 | finding 1 | \
        1 1 present | closed 1";
    assert_replies(&rt, &seen, script, replies)?;
    let wanted = [(0, 9), (1, 22), (0, 22), (1, 17), (2, 17), (3, 1), (0, 14)];
    assert_eq!(rt; seen.count(), wanted.len() as u64);
    for (place, (index, word)) in wanted.into_iter().enumerate() {
        let turn = Turn {
            tab: 0,
            index,
            seen: word,
        };
        assert_eq!(rt; seen.turn_at(place), Some(turn));
    }
    Ok(())
}
