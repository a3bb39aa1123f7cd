//! A disk over a file of the system. It tells nothing of its bytes.

ghost use Rattle.std.specs.Prelude.{◌≡◌, ℕ, None, true, OnOk, OnErr};
ghost use Rattle.store_spec.specs.Fault.{next_count, CountsFault};
ghost use Rattle.outside_io.specs.Count.{count_value};

use crate::identity::{FileIdentity, LooksAtFiles};
use crate::lock::FileLock;
use crate::opened::{Opened, make_new, open_existing, sync_folder};
use crate::unsettled::{Unsettled, write_again};
use crash_disk::Disk;
use outside_io::{Count, Failed};
use std::fs::{OpenFile, TryLockError};
use std::io::{self, ErrorKind};
use std::os::unix::fs::FileExt;

/// How the lock of an open file is held. What a file system without locks cannot give counts as held.
#[derive(Clone, Copy, Debug, PartialEq, Eq)]
enum Hold {
    /// Not at all: nothing of the file is asked for or written then.
    Free,
    /// With others that read.
    Shared,
    /// Alone.
    Alone,
}

/// A disk over a file, whose path is opened at the first call that finds a file there. Where none is, it has no bytes,
/// and the first write makes one. A path that names anything but a regular file is a fault of each call, and so is one
/// that names the file to spare: neither is opened. To reach outside the file is a fault.
///
/// A file that may not be written is opened to be read: each sync and each write is a fault then. So is a sync after
/// which the path names another file than the open one, or none.
///
/// An open file is locked, from the call that opened it until the disk is dropped: shared, and alone from the first
/// sync or write on. No call waits for the lock. While another holds it, each call that needs it is a fault and does
/// nothing else to the file.
///
/// When a sync of the file fails, the system may have taken for written what the device never got. So what may not be
/// on the device is written again before the call returns, for a later sync.
#[derive(Drop)]
pub struct FileDisk<'a, F: LooksAtFiles> {
    files: &'a F,
    path: &'a str,
    spared: Option<FileIdentity>,
    opened: Option<Opened<F::File>>,
    hold: Hold,
    /// The size, where it was asked for and no write failed since.
    size: Option<u64>,
    /// What the device may not have.
    unsettled: Unsettled,
    /// The next sync has to reach all that the system keeps of the file: since the last one that succeeded the file was
    /// opened, made or grown, or a sync failed.
    needs_all: bool,
    /// The folder was not synced since the file was opened or made.
    owes_folder: bool,
    calls: Count,
    faults: Count,
}

impl<'a, F: LooksAtFiles> FileDisk<'a, F> {
    /// A disk over the file of this path, unless that is the file to spare. It opens nothing yet.
    pub fn new(rt: &'a F, path: &'a str, spared: Option<FileIdentity>) -> FileDisk<'a, F>
        ensures path { result.path.now ≡ path.now }
        ensures spared { result.spared ≡ spared }
        ensures no_calls { count_value result.calls ≡ 0 }
        ensures no_faults { count_value result.faults ≡ 0 }
    {
        FileDisk {
            files: rt,
            path,
            spared,
            opened: None,
            hold: Hold::Free,
            size: None,
            unsettled: Unsettled::anywhere(),
            needs_all: false,
            owes_folder: false,
            calls: Count::zero(),
            faults: Count::zero(),
        }
    }

    /// Keeps a file that was just opened or made.
    fn keep(&mut self, opened: Opened<F::File>)
        ensures calls { self.new.calls ≡ self.old.calls }
        ensures faults { self.new.faults ≡ self.old.faults }
        ensures needs_all { self.new.needs_all ≡ true }
        ensures owes_folder { self.new.owes_folder ≡ true }
    {
        self.opened = Some(opened);
        self.hold = Hold::Free;
        self.needs_all = true;
        self.owes_folder = true;
    }

    /// Counts a call, and hands on what came of it.
    fn count<T: Drop>(&mut self, outcome: io::Result<T>) -> Result<T, Failed>
        ensures calls { count_value self.new.calls ≡ next_count (count_value self.old.calls) }
        ensures fault { CountsFault result (count_value self.old.faults) (count_value self.new.faults) }
    {
        self.calls.add_one();
        self.faults.counted(outcome)
    }

    /// Fails where a file is open and its path names another one now, or none.
    fn find_name(&self) -> io::Result<()> {
        let Some(opened) = &self.opened else {
            return Ok(());
        };
        if self.files.look_at(self.path)?.identity == opened.identity {
            Ok(())
        } else {
            Err(ErrorKind::NotFound.into())
        }
    }
}

impl<'a, F: LooksAtFiles> FileDisk<'a, F>
where
    F::File: FileExt + FileLock,
{
    /// Whether the lock is held in that way, or in a stronger one.
    fn is_held(&self, wanted: Hold) -> bool {
        self.hold == Hold::Alone || self.hold == wanted
    }

    /// Locks the file, where one is open and it is not locked so already. An answer that another holds the lock leaves it
    /// with none. To be held alone it has to be one that may be written.
    fn lock(&mut self, wanted: Hold) -> io::Result<()>
        ensures calls { self.new.calls ≡ self.old.calls }
        ensures faults { self.new.faults ≡ self.old.faults }
        ensures needs_all { self.new.needs_all ≡ self.old.needs_all }
        ensures owes_folder { self.new.owes_folder ≡ self.old.owes_folder }
    {
        let Some(opened) = &self.opened else {
            return Ok(());
        };
        if wanted == Hold::Alone && !opened.is_writable {
            return Err(ErrorKind::PermissionDenied.into());
        }
        if self.is_held(wanted) {
            return Ok(());
        }
        let answer = match wanted {
            Hold::Alone => opened.file.try_lock(),
            Hold::Shared | Hold::Free => opened.file.try_lock_shared(),
        };
        // A lock that changes is let go first, so that another may have had it in between.
        self.size = None;
        self.hold = Hold::Free;
        if let Err(TryLockError::WouldBlock) = answer {
            return Err(ErrorKind::WouldBlock.into());
        }
        self.hold = wanted;
        Ok(())
    }

    /// Opens the file, unless it is open or missing, and locks it.
    fn open(&mut self, wanted: Hold) -> io::Result<()>
        ensures calls { self.new.calls ≡ self.old.calls }
        ensures faults { self.new.faults ≡ self.old.faults }
        ensures needs_all { self.old.needs_all ≡ true → self.new.needs_all ≡ true }
        ensures owes_folder { self.old.owes_folder ≡ true → self.new.owes_folder ≡ true }
    {
        if self.opened.is_none() {
            if let Some(opened) = open_existing(self.files, self.path, self.spared)? {
                self.keep(opened);
            }
        }
        self.lock(wanted)
    }

    /// Asks how many bytes the file has.
    fn find_size(&mut self, wanted: Hold) -> io::Result<u64>
        ensures calls { self.new.calls ≡ self.old.calls }
        ensures faults { self.new.faults ≡ self.old.faults }
    {
        self.open(wanted)?;
        let size = match &self.opened {
            Some(opened) => opened.file.metadata()?.len(),
            None => 0,
        };
        self.size = Some(size);
        Ok(size)
    }

    /// Locks the file, and tells how many bytes it has. Nearly all reads and writes come where both are known, and that
    /// is told at once.
    #[inline]
    fn reach(&mut self, wanted: Hold) -> io::Result<u64>
        ensures calls { self.new.calls ≡ self.old.calls }
        ensures faults { self.new.faults ≡ self.old.faults }
    {
        match self.size {
            Some(size) if self.is_held(wanted) => Ok(size),
            _ => self.lock_and_measure(wanted),
        }
    }

    /// The same where the lock is not held yet, or the size is not known.
    #[cold]
    #[inline(never)]
    fn lock_and_measure(&mut self, wanted: Hold) -> io::Result<u64>
        ensures calls { self.new.calls ≡ self.old.calls }
        ensures faults { self.new.faults ≡ self.old.faults }
    {
        self.lock(wanted)?;
        match self.size {
            Some(size) => Ok(size),
            None => self.find_size(wanted),
        }
    }

    /// Syncs the file, and its folder where that is owed, and sees that its path still names it. A file that is missing
    /// has nothing to sync.
    fn settle(&mut self) -> io::Result<()>
        ensures calls { self.new.calls ≡ self.old.calls }
        ensures faults { self.new.faults ≡ self.old.faults }
        ensures needs_all { OnErr result (self.old.needs_all ≡ true → self.new.needs_all ≡ true) }
        ensures owes_folder { OnErr result
            (self.old.owes_folder ≡ true → self.new.owes_folder ≡ true) }
    {
        self.open(Hold::Alone)?;
        if self.opened.is_none() {
            return Ok(());
        }
        let needs_all = self.needs_all;
        self.needs_all = true;
        self.sync_or_write_again(needs_all)?;
        self.unsettled.settle();
        if self.owes_folder {
            sync_folder(self.files, self.path)?;
        }
        self.find_name()?;
        self.owes_folder = false;
        self.needs_all = false;
        Ok(())
    }

    /// Syncs the open file: its bytes, and, where all is wanted, all that the system keeps of it. Where that fails, what
    /// the device may not have is written again.
    fn sync_or_write_again(&self, needs_all: bool) -> io::Result<()> {
        let Some(Opened { file, .. }) = &self.opened else {
            return Ok(());
        };
        let outcome = if needs_all {
            file.sync_all()
        } else {
            file.sync_data()
        };
        if outcome.is_err() {
            if let Ok(found) = file.metadata() {
                write_again(file, self.unsettled.range(found.len()));
            }
        }
        outcome
    }

    fn read_range(&mut self, at: u64, buf: &mut [u8]) -> io::Result<()>
        ensures calls { self.new.calls ≡ self.old.calls }
        ensures faults { self.new.faults ≡ self.old.faults }
    {
        let size = self.reach(Hold::Shared)?;
        if at > size || buf.len() as u64 > size - at {
            return Err(ErrorKind::UnexpectedEof.into());
        }
        match &self.opened {
            Some(opened) => opened.file.read_exact_at(buf, at),
            None => Ok(()),
        }
    }

    /// Makes the file, with these bytes.
    fn make(&mut self, bytes: &[u8]) -> io::Result<()>
        ensures calls { self.new.calls ≡ self.old.calls }
        ensures faults { self.new.faults ≡ self.old.faults }
    {
        let opened = make_new(self.files, self.path)?;
        self.keep(opened);
        self.lock(Hold::Alone)?;
        match &self.opened {
            Some(opened) => opened.file.write_all_at(bytes, 0),
            None => Ok(()),
        }
    }

    fn write_range(&mut self, at: u64, bytes: &[u8]) -> io::Result<()>
        ensures calls { self.new.calls ≡ self.old.calls }
        ensures faults { self.new.faults ≡ self.old.faults }
    {
        let size = self.reach(Hold::Alone)?;
        let Some(end) = at.checked_add(bytes.len() as u64) else {
            return Err(ErrorKind::InvalidInput.into());
        };
        if at > size {
            return Err(ErrorKind::InvalidInput.into());
        }
        if end > size {
            self.needs_all = true;
        }
        self.size = None;
        self.unsettled.note(at, end);
        match &self.opened {
            Some(opened) => opened.file.write_all_at(bytes, at)?,
            None => self.make(bytes)?,
        }
        self.size = Some(end.max(size));
        Ok(())
    }
}

impl<'a, F: LooksAtFiles> Disk for FileDisk<'a, F>
where
    F::File: FileExt + FileLock,
{
    ghost seen = { λ _. None };

    ghost may_leave = { λ _ _ _. ⊥ };

    ghost calls = { λ disk. count_value disk.calls };

    ghost faults = { λ disk. count_value disk.faults };

    ghost leads_to = { λ _ _. Unit {0} };

    ghost fails_to = { λ _ _. Unit {0} };

    ghost counted_calls = { λ disk. disk.calls.within };

    ghost counted_faults = { λ disk. disk.faults.within };

    ghost seen_is_crash_image = { λ disk bytes is. Prim.cc };

    ghost crash_images_told = { λ disk m image left. absurd left };

    ghost leads_to_itself = { λ _. tt };

    ghost leads_on = { λ _ _ _ _ _. tt };

    ghost fails_on = { λ _ _ _ _ _ _. tt };

    fn size(&mut self) -> Result<u64, Failed> {
        let outcome = self.find_size(Hold::Shared);
        self.count(outcome)
    }

    fn read(&mut self, at: u64, buf: &mut [u8]) -> Result<(), Failed> {
        let outcome = self.read_range(at, buf);
        self.count(outcome)
    }

    fn write_at(&mut self, at: u64, bytes: &[u8]) -> Result<(), Failed> {
        let outcome = self.write_range(at, bytes);
        self.count(outcome)
    }

    fn sync(&mut self) -> Result<(), Failed> {
        let outcome = self.settle();
        self.count(outcome)
    }

    fn calls(&self) -> u64 {
        self.calls.value()
    }
}
