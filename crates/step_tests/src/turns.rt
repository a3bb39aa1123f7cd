//! Turns of two threads, and of one.

use fake_turns::{Meeting, SeenWords, Turn};
use outside_io::Turns;
use std::test::Fail;
use std::thread::join;

#[test]
fn two_threads_meet(rt: HostRuntime) -> Result<(), Fail> {
    let meeting = Meeting::new();
    for phase in 1..=3 {
        join(&rt, || meeting.turn(0, 0, 7), || meeting.turn(1, 0, 7));
        assert_eq!(rt; meeting.met(), 2 * phase);
        meeting.turn(0, 1, 7);
        assert_eq!(rt; meeting.met(), 2 * phase);
    }
    Ok(())
}

#[test]
fn one_thread_waits_in_vain(rt: HostRuntime) -> Result<(), Fail> {
    let meeting = Meeting::new();
    meeting.turn(0, 0, 7);
    meeting.turn(1, 0, 7);
    assert_eq!(rt; meeting.met(), 1);
    Ok(())
}

#[test]
fn turns_are_kept_in_their_order(rt: HostRuntime) -> Result<(), Fail> {
    let seen = SeenWords::new();
    assert_eq!(rt; seen.turn_at(0), None);
    for place in 0..20 {
        seen.turn(place % 3, place, 100);
    }
    assert_eq!(rt; seen.count(), 20);
    assert_eq!(rt;
        seen.turn_at(5),
        Some(Turn {
            tab: 2,
            index: 5,
            seen: 100
        })
    );
    assert_eq!(rt; seen.turn_at(16), None);
    Ok(())
}
