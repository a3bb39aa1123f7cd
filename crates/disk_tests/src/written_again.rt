//! What a disk over a file writes again after a sync that failed.

use crate::fakes::Call;
use crate::fakes::Call::{
    Lock, Look, LookInto, OpenFolder, OpenToWrite, ReadAt, Size, SyncAll, SyncData, WriteAt,
};
use crate::files::{ALL_SYNCED, Act, Case, FOUR, Row, SYNCED, assert_case};
use std::alloc::Global;
use std::process::Abort;
use std::test::Fail;

const BEFORE_A_GOOD_SYNC: Case<'static> = Case {
    rows: &[
        (
            5,
            Act::Settle,
            false,
            &[
                Look,
                OpenToWrite,
                LookInto,
                Lock,
                SyncAll,
                Size,
                ReadAt(0, 4),
                ReadAt(3, 1),
                WriteAt(0, 4),
                WriteAt(3, 1),
            ],
        ),
        (0, Act::Put(1, 1), true, &[Size, WriteAt(1, 1)]),
        (
            1,
            Act::Settle,
            false,
            &[
                SyncAll,
                Size,
                ReadAt(0, 4),
                ReadAt(3, 1),
                WriteAt(0, 4),
                WriteAt(3, 1),
            ],
        ),
        // A folder that fails comes behind a file that is settled.
        (2, Act::Settle, false, &[SyncAll, OpenFolder]),
        (1, Act::Settle, false, &[SyncAll, Size]),
        (0, Act::Put(2, 1), true, &[WriteAt(2, 1)]),
        (
            1,
            Act::Settle,
            false,
            &[SyncAll, Size, ReadAt(2, 1), WriteAt(2, 1)],
        ),
        (0, Act::Settle, true, &SYNCED),
        (1, Act::Settle, false, &[SyncData, Size]),
    ],
    left: Some(b"axxd"),
    ..FOUR
};

const BEHIND_A_GOOD_SYNC: Case<'static> = Case {
    bytes: Some(b"abcdefghijkl"),
    most: 12,
    rows: &[
        (0, Act::Settle, true, &ALL_SYNCED),
        (0, Act::Put(4, 1), true, &[Size, WriteAt(4, 1)]),
        (0, Act::Put(8, 2), true, &[WriteAt(8, 2)]),
        (0, Act::Put(2, 1), true, &[WriteAt(2, 1)]),
        (
            1,
            Act::Settle,
            false,
            &[SyncData, Size, ReadAt(2, 8), WriteAt(2, 8)],
        ),
        // It is unsettled still.
        (
            1,
            Act::Settle,
            false,
            &[SyncAll, Size, ReadAt(2, 8), WriteAt(2, 8)],
        ),
        (0, Act::Settle, true, &[SyncAll, Look]),
        // A write that fails may have written some of it, inside the file.
        (1, Act::Put(10, 4), false, &[WriteAt(10, 4)]),
        (
            1,
            Act::Settle,
            false,
            &[SyncAll, Size, ReadAt(10, 2), WriteAt(10, 2)],
        ),
        (0, Act::Put(10, 4), true, &[Size, WriteAt(10, 4)]),
        (
            1,
            Act::Settle,
            false,
            &[SyncAll, Size, ReadAt(10, 4), WriteAt(10, 4)],
        ),
        (0, Act::Settle, true, &[SyncAll, Look]),
        (0, Act::Put(0, 1), true, &[WriteAt(0, 1)]),
        (
            1,
            Act::Settle,
            false,
            &[SyncData, Size, ReadAt(0, 1), WriteAt(0, 1)],
        ),
    ],
    left: Some(b"xbxdxfghxxxxxx"),
    ..FOUR
};

#[test]
fn what_may_be_unsettled_is_written_again(rt: HostRuntime) -> Result<(), Fail> {
    assert_case(&rt, rt.alloc(), &BEFORE_A_GOOD_SYNC)?;
    assert_case(&rt, rt.alloc(), &BEHIND_A_GOOD_SYNC)
}

/// A file of two pieces of 65,536 bytes and a rest.
const LARGE: usize = 140_000;

const PIECES: [Row<'static>; 4] = [
    (
        0,
        Act::AskSize,
        true,
        &[Look, OpenToWrite, LookInto, Call::LockShared, Size],
    ),
    (
        2,
        Act::Settle,
        false,
        &[
            Lock,
            SyncAll,
            Size,
            ReadAt(0, 65_536),
            WriteAt(0, 65_536),
            ReadAt(65_536, 65_536),
            WriteAt(65_536, 65_536),
            ReadAt(131_072, 8_928),
            WriteAt(131_072, 8_928),
        ],
    ),
    (0, Act::Settle, true, &SYNCED),
    (0, Act::AskSize, true, &[Size]),
];

/// Eight bytes on two pages are written and not settled.
const TWO_PAGES: [Row<'static>; 9] = [
    (0, Act::Put(4_090, 8), true, &[WriteAt(4_090, 8)]),
    // A piece that cannot be read, or not written, goes page by page.
    (
        1,
        Act::SettleInVain(3, 3),
        false,
        &[
            SyncData,
            Size,
            ReadAt(4_090, 8),
            ReadAt(4_090, 6),
            WriteAt(4_090, 6),
            ReadAt(4_096, 2),
            WriteAt(4_096, 2),
        ],
    ),
    (
        1,
        Act::SettleInVain(4, 4),
        false,
        &[
            SyncAll,
            Size,
            ReadAt(4_090, 8),
            WriteAt(4_090, 8),
            ReadAt(4_090, 6),
            WriteAt(4_090, 6),
            ReadAt(4_096, 2),
            WriteAt(4_096, 2),
        ],
    ),
    // A page that fails is passed over.
    (
        1,
        Act::SettleInVain(3, 4),
        false,
        &[
            SyncAll,
            Size,
            ReadAt(4_090, 8),
            ReadAt(4_090, 6),
            ReadAt(4_096, 2),
            WriteAt(4_096, 2),
        ],
    ),
    (1, Act::SettleInVain(2, 2), false, &[SyncAll, Size]),
    (
        1,
        Act::SettleInVain(3, 9),
        false,
        &[
            SyncAll,
            Size,
            ReadAt(4_090, 8),
            ReadAt(4_090, 6),
            ReadAt(4_096, 2),
        ],
    ),
    (0, Act::Settle, true, &[SyncAll, Look]),
    (1, Act::Settle, false, &[SyncData, Size]),
    (0, Act::Get(4_090, 8), true, &[ReadAt(4_090, 8)]),
];

// Makes such calls on a file of so many bytes, which may be read and written at once, and compares what they leave.
fn assert_large<'x>(
    rt: &impl Abort,
    alloc: Global,
    bytes: &'x [u8],
    rows: &'x [Row<'x>],
    left: &'x [u8],
) -> Result<(), Fail> {
    let case = Case {
        path: FOUR.path,
        folder: FOUR.folder,
        bytes: Some(bytes),
        most: LARGE,
        others: FOUR.others,
        kind: FOUR.kind,
        rows,
        left: Some(left),
    };
    assert_case(rt, alloc, &case)
}

#[test]
fn it_is_written_in_pieces(rt: HostRuntime) -> Result<(), Fail> {
    let alloc = rt.alloc();
    let mut bytes = vec![in alloc; b'a'; LARGE]?;
    for (at, byte) in bytes.iter_mut().enumerate() {
        *byte = (at % 251) as u8;
    }
    assert_large(&rt, alloc, &bytes, &PIECES, &bytes)?;
    let mut left = bytes.clone()?;
    left[4_090..4_098].copy_from_slice(b"xxxxxxxx");
    let mut rows = PIECES.to_vec(alloc)?;
    rows.extend_from_slice(&TWO_PAGES)?;
    assert_large(&rt, alloc, &bytes, &rows, &left)
}
