//! Disks over real files, which are made, locked and read back.

use crash_disk::Disk;
use file_disk::{FileDisk, FileLock, LooksAtFiles};
use outside_io::Failed;
use std::fs::{self, Files};
use std::os::unix::fs::{FileExt, PermissionsExt};
use std::process::Abort;
use std::test::Fail;

// The calls of a disk over a file, each in a function of its own: no clause of them says anything of the file.

pub(crate) fn size_of<F: LooksAtFiles>(disk: &mut FileDisk<'_, F>) -> Result<u64, Failed>
where
    F::File: FileExt + FileLock,
{
    disk.size()
}

pub(crate) fn gets<F: LooksAtFiles>(disk: &mut FileDisk<'_, F>, at: u64, buf: &mut [u8]) -> bool
where
    F::File: FileExt + FileLock,
{
    disk.read(at, buf).is_ok()
}

pub(crate) fn puts<F: LooksAtFiles>(disk: &mut FileDisk<'_, F>, at: u64, bytes: &[u8]) -> bool
where
    F::File: FileExt + FileLock,
{
    disk.write_at(at, bytes).is_ok()
}

pub(crate) fn settles<F: LooksAtFiles>(disk: &mut FileDisk<'_, F>) -> bool
where
    F::File: FileExt + FileLock,
{
    disk.sync().is_ok()
}

const REAL: &str = "crash_disk_test_medium";

/// What one of three disks over a real file does, or what stands in its folder.
#[derive(Clone, Copy, Debug)]
enum RealAct<'a> {
    Missing,
    OwnersAlone,
    Leave,
    Settle,
    HasSize(u64),
    Has(u64, &'a [u8]),
    Put(u64, &'a [u8]),
}

// Whether only the owner of the file may read and write it.
fn is_owners_alone(rt: &impl Files) -> bool {
    match fs::metadata(rt, REAL) {
        Ok(found) => found.permissions().mode() & 0o777 == 0o600,
        Err(_) => false,
    }
}

// Whether the file of a disk has these bytes at a place.
fn has<F: LooksAtFiles>(disk: &mut FileDisk<'_, F>, at: u64, bytes: &[u8]) -> bool
where
    F::File: FileExt + FileLock,
{
    let mut buf = [0; 8];
    let back = &mut buf[..bytes.len().min(8)];
    gets(disk, at, back) && &*back == bytes
}

// Whether a disk does so, or whether it stands so.
fn does<'a, R: LooksAtFiles>(rt: &'a R, disk: &mut FileDisk<'a, R>, act: RealAct<'_>) -> bool
where
    R::File: FileExt + FileLock,
{
    match act {
        RealAct::Missing => fs::metadata(rt, REAL).is_err(),
        RealAct::OwnersAlone => is_owners_alone(rt),
        RealAct::Leave => {
            *disk = FileDisk::new(rt, REAL, None);
            true
        }
        RealAct::Settle => settles(disk),
        RealAct::HasSize(size) => size_of(disk) == Ok(size),
        RealAct::Has(at, bytes) => has(disk, at, bytes),
        RealAct::Put(at, bytes) => puts(disk, at, bytes),
    }
}

// One of three disks of one process over one file, what it does, and whether it succeeds.
const TOGETHER: [(usize, RealAct<'static>, bool); 27] = [
    (0, RealAct::HasSize(0), true),
    (0, RealAct::Settle, true),
    (0, RealAct::Missing, true),
    (0, RealAct::Put(0, b"abcdefgh"), true),
    (0, RealAct::OwnersAlone, true),
    // It was locked when it was made.
    (1, RealAct::HasSize(8), false),
    (1, RealAct::Settle, false),
    (1, RealAct::Put(0, b"x"), false),
    (0, RealAct::Put(2, b"XY"), true),
    (0, RealAct::Settle, true),
    (0, RealAct::Leave, true),
    (1, RealAct::Settle, true),
    (2, RealAct::HasSize(8), false),
    (1, RealAct::HasSize(8), true),
    (1, RealAct::Has(1, b"bXYef"), true),
    // It ends at 8.
    (1, RealAct::Has(4, b"efgh\0"), false),
    (1, RealAct::Leave, true),
    // Readers share it, and lock out a writer.
    (0, RealAct::HasSize(8), true),
    (2, RealAct::Has(0, b"ab"), true),
    (1, RealAct::Has(6, b"gh"), true),
    (2, RealAct::Settle, false),
    (1, RealAct::Leave, true),
    (0, RealAct::Settle, true),
    (2, RealAct::Has(0, b"ab"), false),
    (0, RealAct::Put(8, b"i"), true),
    (0, RealAct::Leave, true),
    (2, RealAct::Has(0, b"abXYefgh"), true),
];

// Has three disks over the file do so, one after another.
fn assert_together<R: LooksAtFiles + Abort>(rt: &R)
where
    R::File: FileExt + FileLock,
{
    let mut first = FileDisk::new(rt, REAL, None);
    let mut second = FileDisk::new(rt, REAL, None);
    let mut third = FileDisk::new(rt, REAL, None);
    for (who, act, wanted) in &TOGETHER {
        let done = match who {
            0 => does(rt, &mut first, *act),
            1 => does(rt, &mut second, *act),
            _ => does(rt, &mut third, *act),
        };
        assert_eq!(rt; done, *wanted, "{who} {act:?}");
    }
}

#[test]
fn a_real_file_has_one_user_and_is_read_back(rt: HostRuntime) -> Result<(), Fail> {
    let _ = fs::remove_file(&rt, REAL);
    assert_together(&rt);
    fs::remove_file(&rt, REAL)?;
    Ok(())
}

// How many bytes the file of a path seems to have, and whether a write to it succeeds.
fn size_and_write<R: LooksAtFiles>(rt: &R, path: &str) -> (Result<u64, Failed>, bool)
where
    R::File: FileExt + FileLock,
{
    let mut disk = FileDisk::new(rt, path, None);
    (size_of(&mut disk), puts(&mut disk, 0, b"x"))
}

#[test]
fn a_path_that_is_no_file_is_a_fault(rt: HostRuntime) {
    assert_eq!(rt; size_and_write(&rt, "."), (Err(Failed), false));
    assert_eq!(rt;
        size_and_write(&rt, "/dev/null/inside"),
        (Err(Failed), false)
    );
    assert_eq!(rt; size_and_write(&rt, "a\0b"), (Err(Failed), false));
    assert_eq!(rt;
        size_and_write(&rt, "no_such_folder/medium"),
        (Ok(0), false)
    );
}
