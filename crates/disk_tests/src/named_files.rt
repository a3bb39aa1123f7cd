//! Which files a disk takes, and what becomes of one whose path names another file, or none.

use crate::fakes::Call::{
    Lock, LockShared, Look, LookInto, OpenToWrite, ReadAt, Size, SyncAll, SyncData, WriteAt,
};
use crate::fakes::Named;
use crate::files::{ALL_SYNCED, Act, Case, FOUR, LOCKED_AND_SYNCED, SYNCED, assert_case};
use std::test::Fail;

const RENAMED: Case<'static> = Case {
    rows: &[
        (0, Act::Settle, true, &ALL_SYNCED),
        (0, Act::Name(Named::File(2)), true, &[]),
        // Only a sync looks.
        (0, Act::AskSize, true, &[Size]),
        (0, Act::Get(0, 2), true, &[ReadAt(0, 2)]),
        (0, Act::Put(0, 2), true, &[WriteAt(0, 2)]),
        (0, Act::Settle, false, &[SyncData, Look]),
        (0, Act::Settle, false, &[SyncAll, Look]),
        (0, Act::Name(Named::Nothing), true, &[]),
        (0, Act::Settle, false, &[SyncAll, Look]),
        (0, Act::Name(Named::File(1)), true, &[]),
        (2, Act::Settle, false, &[SyncAll, Look]),
        (0, Act::Settle, true, &[SyncAll, Look]),
        (0, Act::Settle, true, &[SyncData, Look]),
        // What is no regular file now has another number; one of the same number is the same file.
        (0, Act::Name(Named::NoFile(3)), true, &[]),
        (0, Act::Settle, false, &[SyncData, Look]),
    ],
    left: Some(b"xxcd"),
    ..FOUR
};

const RENAMED_AT_FIRST: Case<'static> = Case {
    rows: &[
        (
            0,
            Act::AskSize,
            true,
            &[Look, OpenToWrite, LookInto, LockShared, Size],
        ),
        (0, Act::Name(Named::File(2)), true, &[]),
        (0, Act::Settle, false, &LOCKED_AND_SYNCED),
        // The folder of the name that it had is owed still.
        (0, Act::Name(Named::File(1)), true, &[]),
        (0, Act::Settle, true, &SYNCED),
        (0, Act::Settle, true, &[SyncData, Look]),
    ],
    ..FOUR
};

const NO_REGULAR_FILE: Case<'static> = Case {
    rows: &[
        (0, Act::Name(Named::NoFile(1)), true, &[]),
        (0, Act::AskSize, false, &[Look]),
        (0, Act::Settle, false, &[Look]),
        (0, Act::Put(0, 2), false, &[Look]),
        (0, Act::Get(0, 2), false, &[Look]),
        (0, Act::Name(Named::SwappedForNoFile(1)), true, &[]),
        (0, Act::AskSize, false, &[Look, OpenToWrite, LookInto]),
        (0, Act::Settle, false, &[Look, OpenToWrite, LookInto]),
        (0, Act::Put(0, 2), false, &[Look, OpenToWrite, LookInto]),
        (0, Act::Name(Named::File(1)), true, &[]),
        (
            0,
            Act::Put(0, 2),
            true,
            &[Look, OpenToWrite, LookInto, Lock, Size, WriteAt(0, 2)],
        ),
    ],
    left: Some(b"xxcd"),
    ..FOUR
};

const SPARED: Case<'static> = Case {
    rows: &[
        (0, Act::Name(Named::File(9)), true, &[]),
        (0, Act::AskSize, false, &[Look]),
        (0, Act::Settle, false, &[Look]),
        (0, Act::Put(0, 2), false, &[Look]),
        (0, Act::Get(0, 2), false, &[Look]),
        (0, Act::Name(Named::Swapped(1)), true, &[]),
        (0, Act::AskSize, false, &[Look, OpenToWrite, LookInto]),
        (0, Act::Settle, false, &[Look, OpenToWrite, LookInto]),
        (0, Act::Put(0, 2), false, &[Look, OpenToWrite, LookInto]),
    ],
    ..FOUR
};

const MISSING: Case<'static> = Case {
    bytes: None,
    rows: &[
        (0, Act::Settle, true, &[Look]),
        (0, Act::Name(Named::File(2)), true, &[]),
        (0, Act::Settle, true, &[Look]),
        (0, Act::AskSize, true, &[Look]),
    ],
    left: None,
    ..FOUR
};

#[test]
fn a_disk_keeps_to_the_file_that_its_path_names(rt: HostRuntime) -> Result<(), Fail> {
    for case in [RENAMED, RENAMED_AT_FIRST, NO_REGULAR_FILE, SPARED, MISSING] {
        assert_case(&rt, rt.alloc(), &case)?;
    }
    Ok(())
}
