//! A file system of one file and its folder, as a stage plays it.

use super::stage::{Call, Stage};
use file_disk::{FileIdentity, FileLock, FileLook, LooksAtFiles};
use std::alloc::{Allocator, Global};
use std::fs::{Files, Metadata, OpenFile, OpenOptions, TryLockError};
use std::io::{self, ErrorKind, Read, Seek, SeekFrom, Write};
use std::os::unix::fs::FileExt;

/// The files of a stage: one file, and its folder.
#[derive(Clone, Copy)]
pub struct FakeFiles<'a> {
    stage: &'a Stage,
    alloc: Global,
    path: &'a str,
    folder: &'a str,
}

impl<'a> FakeFiles<'a> {
    /// The file of this stage has this path, and its folder has that one.
    pub fn new(alloc: Global, stage: &'a Stage, path: &'a str, folder: &'a str) -> FakeFiles<'a> {
        FakeFiles {
            stage,
            alloc,
            path,
            folder,
        }
    }
}

/// The file or the folder of a stage, opened.
#[derive(Drop)]
pub struct FakeFile<'a> {
    stage: &'a Stage,
    identity: FileIdentity,
    is_folder: bool,
    at: usize,
}

impl FileLock for FakeFile<'_> {
    fn try_lock(&self) -> Result<(), TryLockError> {
        self.stage.lock(Call::Lock)
    }

    fn try_lock_shared(&self) -> Result<(), TryLockError> {
        self.stage.lock(Call::LockShared)
    }
}

impl LooksAtFiles for FakeFiles<'_> {
    fn look_at(&self, path: &str) -> io::Result<FileLook> {
        if path != self.path {
            return Err(ErrorKind::NotFound.into());
        }
        self.stage.look_at()
    }

    fn look_into(&self, file: &FakeFile<'_>) -> io::Result<FileLook> {
        self.stage.look_into(file.identity)
    }
}

/// A folder that cannot be listed.
#[derive(Drop)]
pub struct FakeFolder;

fn unsupported() -> io::Error {
    ErrorKind::Unsupported.into()
}

impl<'a> Files for FakeFiles<'a> {
    type File = FakeFile<'a>;

    type Dir = FakeFolder;

    fn open_file(&self, how: &OpenOptions, path: &str) -> io::Result<FakeFile<'a>> {
        how.check()?;
        let is_folder = path == self.folder && !how.asks_write();
        if !is_folder && path != self.path {
            return Err(ErrorKind::NotFound.into());
        }
        self.stage
            .step(match (is_folder, how.asks_create_new(), how.asks_write()) {
                (true, _, _) => Call::OpenFolder,
                (false, true, _) => Call::Make,
                (false, false, true) => Call::OpenToWrite,
                (false, false, false) => Call::Open,
            })?;
        if !is_folder {
            match (self.stage.size()?.is_some(), how.asks_create_new()) {
                (true, false) => {}
                (false, true) => self.stage.make(self.alloc)?,
                (true, true) => return Err(ErrorKind::AlreadyExists.into()),
                (false, false) => return Err(ErrorKind::NotFound.into()),
            }
        }
        Ok(FakeFile {
            stage: self.stage,
            identity: self.stage.opened(),
            is_folder,
            at: 0,
        })
    }

    fn open_dir(&self, _path: &str) -> io::Result<FakeFolder> {
        Err(unsupported())
    }

    fn metadata(&self, _path: &str) -> io::Result<Metadata> {
        Err(unsupported())
    }

    fn symlink_metadata(&self, _path: &str) -> io::Result<Metadata> {
        Err(unsupported())
    }

    fn copy(&self, _from: &str, _to: &str) -> io::Result<u64> {
        Err(unsupported())
    }

    fn rename(&self, _from: &str, _to: &str) -> io::Result<()> {
        Err(unsupported())
    }

    fn remove_file(&self, _path: &str) -> io::Result<()> {
        Err(unsupported())
    }

    fn create_dir(&self, _path: &str) -> io::Result<()> {
        Err(unsupported())
    }

    fn remove_dir(&self, _path: &str) -> io::Result<()> {
        Err(unsupported())
    }

    fn remove_dir_all<B: Allocator>(&self, _alloc: B, _path: &str) -> io::Result<()> {
        Err(unsupported())
    }
}

impl Read for FakeFolder {
    fn read(&mut self, _buf: &mut [u8]) -> io::Result<usize> {
        Err(unsupported())
    }
}

impl Read for FakeFile<'_> {
    fn read(&mut self, buf: &mut [u8]) -> io::Result<usize> {
        self.stage.step(Call::Read(buf.len()))?;
        let count = self.stage.give(self.at, buf)?;
        self.at = self.at.saturating_add(count);
        Ok(count)
    }
}

impl Write for FakeFile<'_> {
    fn write(&mut self, _buf: &[u8]) -> io::Result<usize> {
        self.stage.step(Call::Other)?;
        Err(unsupported())
    }

    fn flush(&mut self) -> io::Result<()> {
        Ok(())
    }
}

impl Seek for FakeFile<'_> {
    fn seek(&mut self, _to: SeekFrom) -> io::Result<u64> {
        self.stage.step(Call::Other)?;
        Err(unsupported())
    }
}

impl FileExt for FakeFile<'_> {
    fn read_at(&self, buf: &mut [u8], offset: u64) -> io::Result<usize> {
        self.stage.step(Call::ReadAt(offset, buf.len()))?;
        self.stage.give(offset as usize, buf)
    }

    fn write_at(&self, buf: &[u8], offset: u64) -> io::Result<usize> {
        self.stage.step(Call::WriteAt(offset, buf.len()))?;
        self.stage.take(offset as usize, buf)
    }
}

impl OpenFile for FakeFile<'_> {
    fn metadata(&self) -> io::Result<Metadata> {
        self.stage.step(Call::Size)?;
        Ok(Metadata::of_file(self.stage.size()?.unwrap_or(0) as u64))
    }

    fn set_len(&self, _size: u64) -> io::Result<()> {
        self.stage.step(Call::Other)?;
        Err(unsupported())
    }

    fn sync_all(&self) -> io::Result<()> {
        self.stage.step(if self.is_folder {
            Call::SyncFolder
        } else {
            Call::SyncAll
        })
    }

    fn sync_data(&self) -> io::Result<()> {
        self.stage.step(if self.is_folder {
            Call::Other
        } else {
            Call::SyncData
        })
    }
}
