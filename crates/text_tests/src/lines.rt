//! Lines of a session's script, as read.

mod generated;

use ballot_record::{Election, MAX_MARK_SETS, Record};
use script_lines::{Command, Entry, Line, Said, Work, read_said, read_script_line};

fn read(line: &str) -> Option<Line> {
    read_script_line(line.as_bytes(), &Election::example())
}

fn ballot(number: u64, sets: [u64; 2]) -> Record {
    let mut marks = [0; MAX_MARK_SETS];
    marks[0] = sets[0];
    marks[1] = sets[1];
    Record {
        number,
        style: 1,
        marks,
    }
}

#[test]
fn lines_for_a_list(rt: HostRuntime) {
    let casts = [
        ("cast 1 9 1 1/-", 1, ballot(9, [0b1, 0])),
        ("cast 64 14 1 -/2", 64, ballot(14, [0, 0b10])),
        (
            "cast 10 18446744073709551615 1 2/1,3",
            10,
            ballot(u64::MAX, [0b10, 0b101]),
        ),
    ];
    for (line, tab, ballot) in casts.iter() {
        let said = Line::Cast {
            tab: *tab,
            ballot: *ballot,
        };
        assert_eq!(rt; read(line), Some(said));
    }
    let others = [
        ("cast 1 9 2 1/-", Line::CastInvalid { tab: 1 }),
        ("cast 1 9 1 5/-", Line::CastInvalid { tab: 1 }),
        ("cast 64 9 1 1", Line::CastInvalid { tab: 64 }),
        ("withdraw 3 9", Line::Withdraw { tab: 3, number: 9 }),
        (
            "withdraw 64 18446744073709551615",
            Line::Withdraw {
                tab: 64,
                number: u64::MAX,
            },
        ),
        ("find 12 1", Line::Find { tab: 12, number: 1 }),
    ];
    for (line, said) in others.iter() {
        assert_eq!(rt; read(line), Some(*said));
    }
}

#[test]
fn what_lines_say(rt: HostRuntime) {
    let election = Election::example();
    let mut cast = Record::blank();
    let entries = [
        ("cast 64 14 1 -/2", 64, Entry::Cast),
        ("withdraw 3 9", 3, Entry::Withdraw { number: 9 }),
        ("find 10 1", 10, Entry::Find { number: 1 }),
    ];
    for (line, tab, entry) in entries.iter() {
        let said = Said::Item {
            tab: *tab,
            entry: *entry,
        };
        assert_eq!(rt; read_said(line.as_bytes(), &election, &mut cast), said);
    }
    assert_eq!(rt; cast, ballot(14, [0, 0b10]));
    let open = Command::Open {
        work: Work::Finding,
        tabs: 10,
    };
    let others = [
        ("", Said::Malformed),
        ("close", Said::Command(Command::Close)),
        ("open find 10", Said::Command(open)),
        (
            "cast 1 9 1 5/-",
            Said::Command(Command::CastInvalid { tab: 1 }),
        ),
        ("find 65 9", Said::Malformed),
    ];
    for (line, said) in others.iter() {
        assert_eq!(rt; read_said(line.as_bytes(), &election, &mut cast), *said);
    }
}
