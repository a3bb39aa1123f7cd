//! Ballots: which are valid, how they stand in cells, and why lines are refused.
#![tactic(auto, unfolding(store_spec::specs::Election::cell_size, store_spec::specs::Election::in_version))]

use ballot_record::{CellRead, Election, LineFault, LineWhy, MAX_MARK_SETS, Record, take_cell};
use std::test::Fail;

fn record_of(number: u64, style: u8, sets: [u64; 3]) -> Record {
    let mut marks = [0; MAX_MARK_SETS];
    marks[0] = sets[0];
    marks[1] = sets[1];
    marks[2] = sets[2];
    Record {
        number,
        style,
        marks,
    }
}

// Records of the example election, and whether each is a ballot of it.
const RECORDS: [(u64, u8, [u64; 3], bool); 8] = [
    (9, 1, [0b1, 0, 0], true),
    (u64::MAX, 1, [0b1111, 0b111, 0], true),
    (0, 1, [0b1, 0, 0], false),
    (9, 0, [0b1, 0, 0], false),
    (9, 2, [0b1, 0, 0], false),
    (9, 1, [0b10000, 0, 0], false),
    (9, 1, [0, 0b1000, 0], false),
    (9, 1, [0, 0, 0b1], false),
];

#[test]
fn valid_records(rt: HostRuntime) {
    let election = Election::example();
    for (number, style, sets, valid) in RECORDS {
        let record = record_of(number, style, sets);
        assert_eq!(rt; record.valid(&election), valid, "{number} {style} {sets:?}");
    }
}

#[test]
fn cells(rt: HostRuntime) {
    let election = Election::example();
    let held = CellRead::Held(record_of(9, 1, [0b1, 0, 0]));
    let rows = [
        (b"\0\0\0\0\0\0\0\x09\x01\0\0\0\x01\0\0\0\0", held),
        (b"\0\0\0\0\0\0\0\0\0\0\0\0\0\0\0\0\0", CellRead::Empty),
        (b"\0\0\0\0\0\0\0\0\x01\0\0\0\x01\0\0\0\0", CellRead::Bad),
        (b"\0\0\0\0\0\0\0\x09\0\0\0\0\x01\0\0\0\0", CellRead::Bad),
        (b"\0\0\0\0\0\0\0\x09\x02\0\0\0\x01\0\0\0\0", CellRead::Bad),
        (b"\0\0\0\0\0\0\0\x09\x01\0\0\0\x10\0\0\0\0", CellRead::Bad),
        (b"\0\0\0\0\0\0\0\0\0\0\0\0\0\0\0\0\x01", CellRead::Bad),
    ];
    for (cell, read) in rows {
        assert_eq!(rt; take_cell(cell, &election), read, "{cell:?}");
    }
}

#[test]
fn refusals_as_text(rt: HostRuntime) -> Result<(), Fail> {
    assert_eq!(rt;
        LineFault::Malformed.to_string(rt.alloc())?.as_str(),
        "malformed"
    );
    assert_eq!(rt;
        LineFault::Invalid.to_string(rt.alloc())?.as_str(),
        "invalid"
    );
    let all = format!(in rt.alloc();
        "{} {} {} {} {}",
        LineWhy::Malformed,
        LineWhy::Invalid,
        LineWhy::Duplicate,
        LineWhy::Conflict,
        LineWhy::Full
    )?;
    assert_eq!(rt; all.as_str(), "malformed invalid duplicate conflict full");
    Ok(())
}
