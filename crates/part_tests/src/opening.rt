//! A store in parts is opened from media of each kind, and each call of either of two disks fails in turn.

ghost use Rattle.std.specs.Prelude.{length};
ghost use Rattle.partition_store.specs.Parted.{AreFurther};

use crate::media::{EMPTY, Edit, HIGH, LOW, Set, WHOLE, disk_of, two_disks};
use ballot_record::Election;
use crash_disk::{Disk, MemoryDisk};
use image_builder::Scratch;
use partition_store::{PartFault, PartStore, part_of};
use recovery::MediumWhy;
use std::alloc::Global;
use std::process::Abort;
use std::test::Fail;

/// How many ballots are found, or why none are.
type Answer = Result<usize, PartFault>;

/// Both gates are closed.
const CLOSED: [(usize, u8); 2] = [(608, 0), (609, 0)];

/// Bank B is torn and its gate closed.
const TORN: [(usize, u8); 2] = [(400, 0x3c), (609, 0)];

const BOTH: Edit = (Set::Both, WHOLE);

/// The ballot in cell 3 has a style that the election has not.
const DAMAGED: Edit = (Set::High, [(91, 2), (91, 2)]);

/// The header has salt 1.
const OTHER: Edit = (Set::Low, [(23, 1), (23, 1)]);

const OTHER_WHY: MediumWhy = MediumWhy::OtherElection {
    header: *b"HIBSTORE\x00\x01\x03\x02\x00\x00\x00\x08\0\0\0\0\0\0\0\x01\0\0\0\0\0\0\0\0",
};

const DAMAGED_WHY: MediumWhy = MediumWhy::Damaged { cell: 3 };

/// Opens the store whose parts these disks have.
fn answer_of(alloc: Global, first: &mut MemoryDisk, more: &mut [MemoryDisk]) -> Result<Answer, Fail>
    requires { AreFurther (length more.old) }
{
    let mut scratch = Scratch::new(alloc)?;
    match PartStore::open(alloc, first, more, &Election::example(), &mut scratch) {
        Ok(store) => Ok(Ok(store.len())),
        Err(fault) => Ok(Err(fault)),
    }
}

/// The opening of the store whose parts these disks have answers this.
fn assert_answer(
    rt: &impl Abort,
    alloc: Global,
    first: &mut MemoryDisk,
    more: &mut [MemoryDisk],
    wanted: Answer,
) -> Result<(), Fail>
    requires { AreFurther (length more.old) }
{
    assert!(rt; answer_of(alloc, first, more)? == wanted);
    Ok(())
}

/// Two media, and what their opening is to answer.
type Row = (Edit, Edit, Answer);

const ROWS: [Row; 11] = [
    (LOW, HIGH, Ok(3)),
    (EMPTY, EMPTY, Ok(0)),
    ((Set::Low, TORN), (Set::High, TORN), Ok(3)),
    (
        HIGH,
        LOW,
        Err(PartFault::Misplaced {
            index: 0,
            number: u64::MAX,
        }),
    ),
    (
        LOW,
        LOW,
        Err(PartFault::Misplaced {
            index: 1,
            number: 1,
        }),
    ),
    (
        LOW,
        BOTH,
        Err(PartFault::Misplaced {
            index: 1,
            number: 9,
        }),
    ),
    (
        (Set::Low, CLOSED),
        DAMAGED,
        Err(PartFault::First {
            why: MediumWhy::NoStore,
        }),
    ),
    (OTHER, HIGH, Err(PartFault::First { why: OTHER_WHY })),
    (
        LOW,
        OTHER,
        Err(PartFault::Other {
            index: 1,
            why: OTHER_WHY,
        }),
    ),
    (
        EMPTY,
        (Set::Low, CLOSED),
        Err(PartFault::Other {
            index: 1,
            why: MediumWhy::NoStore,
        }),
    ),
    // What a later medium is refused for comes before what stands in another part.
    (
        HIGH,
        DAMAGED,
        Err(PartFault::Other {
            index: 1,
            why: DAMAGED_WHY,
        }),
    ),
];

/// Media of each kind.
fn rows() -> [Row; 11] {
    ROWS
}

/// Two disks have these media still.
fn assert_unchanged(
    rt: &impl Abort,
    alloc: Global,
    row: Row,
    first: &[u8],
    other: &[u8],
) -> Result<(), Fail> {
    let (one, two) = two_disks(rt, alloc, row.0, row.1, (0, 0))?;
    assert!(rt; first == one.bytes());
    assert!(rt; other == two[0].bytes());
    Ok(())
}

/// Opens two media. Where they are refused, both stay as they were.
fn assert_row(rt: &impl Abort, alloc: Global, row: Row) -> Result<(), Fail> {
    let (mut first, mut more) = two_disks(rt, alloc, row.0, row.1, (0, 0))?;
    assert_answer(rt, alloc, &mut first, &mut more, row.2)?;
    if row.2.is_err() {
        assert_unchanged(rt, alloc, row, first.bytes(), more[0].bytes())?;
    }
    Ok(())
}

#[test]
fn each_kind_of_media(rt: HostRuntime) -> Result<(), Fail> {
    for row in rows() {
        assert_row(&rt, rt.alloc(), row)?;
    }
    Ok(())
}

/// Opens two torn media of which these calls are to fail; none does at 0. Opened again, they hold what they held. It
/// answers how many calls each had seen.
fn calls_of(
    rt: &impl Abort,
    alloc: Global,
    failing: (u64, u64),
    wanted: Answer,
) -> Result<(u64, u64), Fail> {
    let (low, high) = ((Set::Low, TORN), (Set::High, TORN));
    let (mut first, mut more) = two_disks(rt, alloc, low, high, failing)?;
    assert_answer(rt, alloc, &mut first, &mut more, wanted)?;
    let calls = (first.calls(), more[0].calls());
    assert_answer(rt, alloc, &mut first, &mut more, Ok(3))?;
    Ok(calls)
}

#[test]
fn each_call_fails_in_turn(rt: HostRuntime) -> Result<(), Fail> {
    let alloc = rt.alloc();
    let calls = calls_of(&rt, alloc, (0, 0), Ok(3))?;
    for call in 1..=calls.0 {
        let made = calls_of(
            &rt,
            alloc,
            (call, 0),
            Err(PartFault::DiskFault { index: 0 }),
        )?;
        assert!(rt; made.0 == call);
    }
    for call in 1..=calls.1 {
        let made = calls_of(
            &rt,
            alloc,
            (0, call),
            Err(PartFault::DiskFault { index: 1 }),
        )?;
        assert!(rt; made.1 == call);
    }
    Ok(())
}

/// Opens four parts of these media.
fn answer_of_four(
    rt: &impl Abort,
    alloc: Global,
    one: Edit,
    two: Edit,
    three: Edit,
    four: Edit,
) -> Result<Answer, Fail> {
    let mut first = disk_of(rt, alloc, one, 0)?;
    let mut more = [
        disk_of(rt, alloc, two, 0)?,
        disk_of(rt, alloc, three, 0)?,
        disk_of(rt, alloc, four, 0)?,
    ];
    answer_of(alloc, &mut first, &mut more)
}

#[test]
fn four_parts(rt: HostRuntime) -> Result<(), Fail> {
    let alloc = rt.alloc();
    let opened = answer_of_four(&rt, alloc, LOW, EMPTY, EMPTY, HIGH)?;
    assert!(rt; opened == Ok(3));
    let third = answer_of_four(&rt, alloc, LOW, EMPTY, BOTH, LOW)?;
    assert!(rt;
        third
            == Err(PartFault::Misplaced {
                index: 2,
                number: 9
            })
    );
    let second = answer_of_four(&rt, alloc, LOW, HIGH, DAMAGED, DAMAGED)?;
    assert!(rt;
        second
            == Err(PartFault::Other {
                index: 2,
                why: DAMAGED_WHY
            })
    );
    Ok(())
}

#[test]
fn numbers_at_the_borders(rt: HostRuntime) {
    let two = (part_of(1, (1 << 63) - 1), part_of(1, 1 << 63));
    assert!(rt; two == (0, 1));
    let four = (part_of(2, (1 << 62) - 1), part_of(2, 1 << 62));
    assert!(rt; four == (0, 1));
    let eight = (part_of(3, (1 << 61) - 1), part_of(3, 1 << 61));
    assert!(rt; eight == (0, 1));
    let last = (
        part_of(1, u64::MAX),
        part_of(2, u64::MAX),
        part_of(3, u64::MAX),
    );
    assert!(rt; last == (1, 3, 7));
}
