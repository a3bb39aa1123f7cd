//! Which calls a disk over a file makes, by a stand-in for the file.

use crate::fakes::Call::{
    Lock, LockShared, Look, LookInto, Make, Open, OpenFolder, OpenToWrite, ReadAt, Size, SyncAll,
    SyncData, SyncFolder, WriteAt,
};
use crate::fakes::{Call, FAULT_KINDS, FakeFiles, Named, Others, Stage};
use crate::real::{gets, puts, settles, size_of};
use file_disk::{FileDisk, FileIdentity, FileLock, LooksAtFiles};
use std::alloc::Global;
use std::io::ErrorKind;
use std::os::unix::fs::FileExt;
use std::process::Abort;
use std::test::Fail;

/// A call on a disk, or what others make of the file's lock or its path before the next.
#[derive(Clone, Copy, Debug)]
pub(crate) enum Act {
    AskSize,
    Get(u64, usize),
    Put(u64, usize),
    Settle,
    /// A sync in which calls of the system between two numbers fail too.
    SettleInVain(u64, u64),
    Meanwhile(Others),
    Name(Named),
}

/// The file that no disk may be over.
const SPARED: FileIdentity = FileIdentity {
    device: 1,
    inode: 9,
};

/// A call on a disk, in which the call of the system with this number fails, or none with 0; whether it succeeds, and
/// which calls of the system it makes.
pub(crate) type Row<'a> = (u64, Act, bool, &'a [Call]);

/// A path and its folder; a file there, or none, of which no call gives or takes more than so many bytes, and of which
/// others have such a lock; the kind of each error; the calls; and the bytes that they leave.
#[derive(Clone, Copy)]
pub(crate) struct Case<'a> {
    pub(crate) path: &'a str,
    pub(crate) folder: &'a str,
    pub(crate) bytes: Option<&'a [u8]>,
    pub(crate) most: usize,
    pub(crate) others: Others,
    pub(crate) kind: ErrorKind,
    pub(crate) rows: &'a [Row<'a>],
    pub(crate) left: Option<&'a [u8]>,
}

// Makes a call, and answers whether it succeeded. What is put is a number of letters.
fn succeeds<F: LooksAtFiles>(disk: &mut FileDisk<'_, F>, stage: &Stage, act: Act) -> bool
where
    F::File: FileExt + FileLock,
{
    let mut buf = [b'x'; 8];
    match act {
        Act::AskSize => size_of(disk).is_ok(),
        Act::Get(at, count) => gets(disk, at, &mut buf[..count.min(8)]),
        Act::Put(at, count) => puts(disk, at, &buf[..count.min(8)]),
        Act::Settle => settles(disk),
        Act::SettleInVain(first, last) => {
            stage.fail_too(first, last);
            settles(disk)
        }
        Act::Meanwhile(others) => {
            stage.lock_by_others(others);
            true
        }
        Act::Name(named) => {
            stage.name(named);
            true
        }
    }
}

// Makes the calls of a case one after another on a disk over these files, and compares what each does.
fn assert_rows<F: LooksAtFiles>(
    rt: &impl Abort,
    files: &F,
    stage: &Stage,
    case: &Case<'_>,
) -> Result<(), Fail>
where
    F::File: FileExt + FileLock,
{
    let mut disk = FileDisk::new(files, case.path, Some(SPARED));
    for (failing, act, wanted, calls) in case.rows {
        stage.fail(*failing, case.kind)?;
        let found = succeeds(&mut disk, stage, *act);
        let log = stage.log()?;
        assert_eq!(rt;
            (found, log.as_slice()),
            (*wanted, *calls),
            "{act:?} with {failing} failing"
        );
    }
    Ok(())
}

// A stage with the file of a case.
fn stage_of(alloc: Global, case: &Case<'_>) -> Result<Stage, Fail> {
    let bytes = match case.bytes {
        Some(bytes) => Some(bytes.to_vec(alloc)?),
        None => None,
    };
    let stage = Stage::new(alloc, bytes, case.most);
    stage.lock_by_others(case.others);
    Ok(stage)
}

// Makes the calls of a case, and compares what each does, and what they leave.
pub(crate) fn assert_case(rt: &impl Abort, alloc: Global, case: &Case<'_>) -> Result<(), Fail> {
    let stage = stage_of(alloc, case)?;
    let files = FakeFiles::new(alloc, &stage, case.path, case.folder);
    assert_rows(rt, &files, &stage, case)?;
    let left = stage.bytes()?;
    assert_eq!(rt; left.as_ref().map(|left| left.as_slice()), case.left);
    Ok(())
}

/// The calls of a first sync.
pub(crate) const ALL_SYNCED: [Call; 8] = [
    Look,
    OpenToWrite,
    LookInto,
    Lock,
    SyncAll,
    OpenFolder,
    SyncFolder,
    Look,
];

/// The same of a file that is open.
pub(crate) const LOCKED_AND_SYNCED: [Call; 5] = [Lock, SyncAll, OpenFolder, SyncFolder, Look];

/// The same of a file that is open and locked.
pub(crate) const SYNCED: [Call; 4] = [SyncAll, OpenFolder, SyncFolder, Look];

/// A file of four bytes.
pub(crate) const FOUR: Case<'static> = Case {
    path: "folder/file",
    folder: "folder",
    bytes: Some(b"abcd"),
    most: 3,
    others: Others::HoldNone,
    kind: ErrorKind::Other,
    rows: &[],
    left: Some(b"abcd"),
};

#[test]
fn a_sync_reaches_what_is_owed(rt: HostRuntime) -> Result<(), Fail> {
    for failing in 6..9usize {
        let rows = [
            (failing as u64, Act::Settle, false, &ALL_SYNCED[..failing]),
            (0, Act::Settle, true, &SYNCED[..]),
            (0, Act::Settle, true, &[SyncData, Look]),
            (1, Act::Settle, false, &[SyncData, Size]),
            (0, Act::Settle, true, &[SyncAll, Look]),
            (0, Act::Settle, true, &[SyncData, Look]),
        ];
        let case = Case {
            rows: &rows,
            ..FOUR
        };
        assert_case(&rt, rt.alloc(), &case)?;
    }
    Ok(())
}

const IN_NO_FOLDER: Case<'static> = Case {
    path: "file",
    folder: ".",
    rows: &[(0, Act::Settle, true, &ALL_SYNCED)],
    ..FOUR
};

const GROWN: Case<'static> = Case {
    rows: &[
        (0, Act::Settle, true, &ALL_SYNCED),
        (0, Act::Put(2, 2), true, &[Size, WriteAt(2, 2)]),
        (0, Act::Settle, true, &[SyncData, Look]),
        (0, Act::Put(3, 2), true, &[WriteAt(3, 2)]),
        (0, Act::Settle, true, &[SyncAll, Look]),
        (0, Act::Put(3, 2), true, &[WriteAt(3, 2)]),
        (0, Act::Settle, true, &[SyncData, Look]),
        (1, Act::Put(4, 2), false, &[WriteAt(4, 2)]),
        (0, Act::Settle, true, &[SyncAll, Look]),
        (
            0,
            Act::Put(5, 4),
            true,
            &[Size, WriteAt(5, 4), WriteAt(8, 1)],
        ),
        (0, Act::Settle, true, &[SyncAll, Look]),
    ],
    left: Some(b"abxxxxxxx"),
    ..FOUR
};

const SIZE_ASKED_ONCE: Case<'static> = Case {
    bytes: Some(b"abcdef"),
    rows: &[
        (
            0,
            Act::Get(1, 2),
            true,
            &[Look, OpenToWrite, LookInto, LockShared, Size, ReadAt(1, 2)],
        ),
        (0, Act::Get(0, 5), true, &[ReadAt(0, 5), ReadAt(3, 2)]),
        (0, Act::Put(6, 1), true, &[Lock, Size, WriteAt(6, 1)]),
        (0, Act::Get(5, 2), true, &[ReadAt(5, 2)]),
        // Behind a write inside the file are the same bytes as before it.
        (0, Act::Put(1, 1), true, &[WriteAt(1, 1)]),
        (0, Act::Get(5, 2), true, &[ReadAt(5, 2)]),
        (0, Act::Put(0, 1), true, &[WriteAt(0, 1)]),
        (0, Act::Put(6, 1), true, &[WriteAt(6, 1)]),
        (0, Act::AskSize, true, &[Size]),
        (0, Act::Get(6, 2), false, &[]),
        (0, Act::Get(8, 0), false, &[]),
        (0, Act::Get(u64::MAX, 2), false, &[]),
        (0, Act::Put(8, 0), false, &[]),
        (0, Act::Put(u64::MAX, 1), false, &[]),
        (1, Act::Put(0, 1), false, &[WriteAt(0, 1)]),
        (0, Act::Get(0, 2), true, &[Size, ReadAt(0, 2)]),
    ],
    left: Some(b"xxcdefx"),
    ..FOUR
};

const MADE_BY_A_WRITE: Case<'static> = Case {
    bytes: None,
    kind: ErrorKind::StorageFull,
    rows: &[
        (0, Act::AskSize, true, &[Look]),
        (0, Act::Settle, true, &[Look]),
        (0, Act::Get(0, 1), false, &[]),
        (0, Act::Put(1, 1), false, &[]),
        (1, Act::Put(0, 2), false, &[Make]),
        (
            5,
            Act::Put(0, 2),
            false,
            &[Look, Make, LookInto, Lock, WriteAt(0, 2)],
        ),
        (
            0,
            Act::Put(0, 5),
            true,
            &[Size, WriteAt(0, 5), WriteAt(3, 2)],
        ),
        (0, Act::Settle, true, &SYNCED),
    ],
    left: Some(b"xxxxx"),
    ..FOUR
};

const READ_ALONE: Case<'static> = Case {
    kind: ErrorKind::PermissionDenied,
    rows: &[
        (2, Act::Settle, false, &[Look, OpenToWrite, Open, LookInto]),
        (0, Act::AskSize, true, &[LockShared, Size]),
        (0, Act::Get(1, 2), true, &[ReadAt(1, 2)]),
        (0, Act::Settle, false, &[]),
        (0, Act::Put(0, 2), false, &[]),
        (0, Act::Put(4, 2), false, &[]),
        (0, Act::Get(1, 2), true, &[ReadAt(1, 2)]),
    ],
    ..FOUR
};

const INTERRUPTED: Case<'static> = Case {
    kind: ErrorKind::Interrupted,
    rows: &[
        (0, Act::Settle, true, &ALL_SYNCED),
        (0, Act::AskSize, true, &[Size]),
        (1, Act::Get(1, 2), true, &[ReadAt(1, 2), ReadAt(1, 2)]),
        (1, Act::Put(1, 1), true, &[WriteAt(1, 1), WriteAt(1, 1)]),
    ],
    left: Some(b"axcd"),
    ..FOUR
};

const ALSO_READ_ALONE: Case<'static> = Case {
    kind: ErrorKind::ReadOnlyFilesystem,
    ..READ_ALONE
};

const CALLS: [&Case<'static>; 7] = [
    &IN_NO_FOLDER,
    &GROWN,
    &SIZE_ASKED_ONCE,
    &MADE_BY_A_WRITE,
    &READ_ALONE,
    &ALSO_READ_ALONE,
    &INTERRUPTED,
];

#[test]
fn each_call_makes_calls_of_the_system(rt: HostRuntime) -> Result<(), Fail> {
    for case in CALLS {
        assert_case(&rt, rt.alloc(), case)?;
    }
    Ok(())
}

const OTHERS_SHARE: Case<'static> = Case {
    others: Others::Share,
    rows: &[
        (
            0,
            Act::AskSize,
            true,
            &[Look, OpenToWrite, LookInto, LockShared, Size],
        ),
        (0, Act::Get(0, 2), true, &[ReadAt(0, 2)]),
        (0, Act::Settle, false, &[Lock]),
        // The share was let go for that.
        (0, Act::Get(0, 2), true, &[LockShared, Size, ReadAt(0, 2)]),
        (0, Act::Put(0, 2), false, &[Lock]),
        (0, Act::Meanwhile(Others::HoldAlone), true, &[]),
        (0, Act::Get(0, 2), false, &[LockShared]),
        (0, Act::AskSize, false, &[LockShared]),
        (0, Act::Meanwhile(Others::HoldNone), true, &[]),
        (0, Act::Put(0, 2), true, &[Lock, Size, WriteAt(0, 2)]),
        // It is held from then on.
        (0, Act::Meanwhile(Others::HoldAlone), true, &[]),
        (0, Act::Get(0, 2), true, &[ReadAt(0, 2)]),
        (0, Act::AskSize, true, &[Size]),
        (0, Act::Put(0, 2), true, &[WriteAt(0, 2)]),
        (0, Act::Settle, true, &SYNCED),
    ],
    left: Some(b"xxcd"),
    ..FOUR
};

const ANOTHER_HOLDS_IT: Case<'static> = Case {
    others: Others::HoldAlone,
    rows: &[
        (0, Act::Settle, false, &[Look, OpenToWrite, LookInto, Lock]),
        (0, Act::AskSize, false, &[LockShared]),
        (0, Act::Get(0, 1), false, &[LockShared]),
        (0, Act::Put(0, 1), false, &[Lock]),
        (0, Act::Meanwhile(Others::HoldNone), true, &[]),
        (0, Act::Settle, true, &LOCKED_AND_SYNCED),
    ],
    ..FOUR
};

const NO_LOCKS: Case<'static> = Case {
    others: Others::HaveNoLocks,
    rows: &[
        (
            0,
            Act::AskSize,
            true,
            &[Look, OpenToWrite, LookInto, LockShared, Size],
        ),
        (0, Act::Get(0, 2), true, &[ReadAt(0, 2)]),
        (0, Act::Put(2, 2), true, &[Lock, Size, WriteAt(2, 2)]),
        (0, Act::Settle, true, &SYNCED),
        (0, Act::Put(2, 2), true, &[WriteAt(2, 2)]),
    ],
    left: Some(b"abxx"),
    ..FOUR
};

const LOCKED_ONCE_MADE: Case<'static> = Case {
    bytes: None,
    others: Others::HoldAlone,
    rows: &[
        (0, Act::Settle, true, &[Look]),
        (0, Act::Put(0, 2), false, &[Look, Make, LookInto, Lock]),
        (0, Act::Put(0, 2), false, &[Lock]),
    ],
    left: Some(b""),
    ..FOUR
};

const LOCKS: [&Case<'static>; 4] = [
    &OTHERS_SHARE,
    &ANOTHER_HOLDS_IT,
    &NO_LOCKS,
    &LOCKED_ONCE_MADE,
];

#[test]
fn the_lock_of_another_is_a_fault(rt: HostRuntime) -> Result<(), Fail> {
    for case in LOCKS {
        assert_case(&rt, rt.alloc(), case)?;
    }
    Ok(())
}

const LOCK_FAILS: Case<'static> = Case {
    rows: &[
        (
            4,
            Act::AskSize,
            true,
            &[Look, OpenToWrite, LookInto, LockShared, Size],
        ),
        (0, Act::AskSize, true, &[Size]),
        (1, Act::Settle, true, &LOCKED_AND_SYNCED),
        (0, Act::Settle, true, &[SyncData, Look]),
    ],
    ..FOUR
};

const LOCK_IS_HELD: Case<'static> = Case {
    kind: ErrorKind::WouldBlock,
    rows: &[
        (
            4,
            Act::AskSize,
            false,
            &[Look, OpenToWrite, LookInto, LockShared],
        ),
        (0, Act::AskSize, true, &[LockShared, Size]),
        (1, Act::Settle, false, &[Lock]),
        (0, Act::Settle, true, &LOCKED_AND_SYNCED),
    ],
    ..FOUR
};

#[test]
fn only_a_held_lock_is_a_fault(rt: HostRuntime) -> Result<(), Fail> {
    for kind in &FAULT_KINDS {
        let case = if *kind == ErrorKind::WouldBlock {
            LOCK_IS_HELD
        } else {
            Case {
                kind: *kind,
                ..LOCK_FAILS
            }
        };
        assert_case(&rt, rt.alloc(), &case)?;
    }
    Ok(())
}

const FAULTS: [Row<'static>; 11] = [
    (2, Act::Settle, false, &[Look, OpenToWrite]),
    (1, Act::AskSize, false, &[Look]),
    (1, Act::Put(0, 1), false, &[Look]),
    (1, Act::Settle, false, &[Look]),
    (3, Act::Settle, false, &[Look, OpenToWrite, LookInto]),
    (
        6,
        Act::Settle,
        false,
        &[Look, OpenToWrite, LookInto, Lock, SyncAll, OpenFolder],
    ),
    (4, Act::Settle, false, &SYNCED),
    (1, Act::AskSize, false, &[Size]),
    (2, Act::Get(0, 2), false, &[Size, ReadAt(0, 2)]),
    (1, Act::Put(0, 2), false, &[WriteAt(0, 2)]),
    (1, Act::AskSize, false, &[Size]),
];

#[test]
fn each_error_is_a_fault(rt: HostRuntime) -> Result<(), Fail> {
    for kind in &FAULT_KINDS {
        let skipped = match kind {
            // A file that is not found is none, and one that may not be written is opened to be read.
            ErrorKind::NotFound => 4usize,
            ErrorKind::PermissionDenied | ErrorKind::ReadOnlyFilesystem => 1,
            _ => 0,
        };
        let case = Case {
            kind: *kind,
            rows: &FAULTS[skipped..],
            ..FOUR
        };
        assert_case(&rt, rt.alloc(), &case)?;
    }
    Ok(())
}
