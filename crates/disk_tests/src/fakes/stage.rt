//! The stage of a test: what the system has, which call fails, and the log of all calls.

ghost use Rattle.std.specs.Prelude.{◌≤◌, length, IfOk};

use file_disk::{FileIdentity, FileLook};
use std::alloc::{AllocError, Global};
use std::cell::{Cell, RefCell};
use std::fs::TryLockError;
use std::io::{self, ErrorKind};

/// A call on the system, as a stage logs it.
#[derive(Clone, Copy, Debug, PartialEq, Eq)]
pub enum Call {
    /// The file was opened, to be read.
    Open,
    /// The file was opened, to be read and written.
    OpenToWrite,
    /// The file was made, and opened.
    Make,
    /// The folder of the file was opened.
    OpenFolder,
    /// What the path names was looked at.
    Look,
    /// The open file was looked at.
    LookInto,
    /// The open file was asked for its size.
    Size,
    /// So many of the next bytes were asked for.
    Read(usize),
    /// From such a place on so many bytes were asked for.
    ReadAt(u64, usize),
    /// So many bytes were to be written behind those before.
    Write(usize),
    /// From such a place on so many bytes were to be written.
    WriteAt(u64, usize),
    /// The file was synced, with all that the system keeps of it.
    SyncAll,
    /// The file was synced, with what it takes to read it back.
    SyncData,
    /// The folder was synced.
    SyncFolder,
    /// The lock of the file was asked for, for one alone.
    Lock,
    /// The lock of the file was asked for, to be shared.
    LockShared,
    /// Another call.
    Other,
}

/// What others have of the lock of the file of a stage.
#[derive(Clone, Copy, Debug, PartialEq, Eq)]
pub enum Others {
    /// No other has the lock.
    HoldNone,
    /// Another shares the lock.
    Share,
    /// Another has the lock alone.
    HoldAlone,
    /// The file has no lock.
    HaveNoLocks,
}

/// What the path of the file of a stage names.
#[derive(Clone, Copy, Debug, PartialEq, Eq)]
pub enum Named {
    /// The regular file of this number.
    File(u64),
    /// What is no regular file, of this number.
    NoFile(u64),
    /// The regular file of this number, in whose place one of number 9 is opened.
    Swapped(u64),
    /// The regular file of this number, in whose place what is none is opened.
    SwappedForNoFile(u64),
    /// Nothing.
    Nothing,
}

/// Each kind of error but an interruption, after which a call is made again.
pub const FAULT_KINDS: [ErrorKind; 41] = [
    ErrorKind::NotFound,
    ErrorKind::PermissionDenied,
    ErrorKind::ConnectionRefused,
    ErrorKind::ConnectionReset,
    ErrorKind::HostUnreachable,
    ErrorKind::NetworkUnreachable,
    ErrorKind::ConnectionAborted,
    ErrorKind::NotConnected,
    ErrorKind::AddrInUse,
    ErrorKind::AddrNotAvailable,
    ErrorKind::NetworkDown,
    ErrorKind::BrokenPipe,
    ErrorKind::AlreadyExists,
    ErrorKind::WouldBlock,
    ErrorKind::NotADirectory,
    ErrorKind::IsADirectory,
    ErrorKind::DirectoryNotEmpty,
    ErrorKind::ReadOnlyFilesystem,
    ErrorKind::FilesystemLoop,
    ErrorKind::StaleNetworkFileHandle,
    ErrorKind::InvalidInput,
    ErrorKind::InvalidData,
    ErrorKind::TimedOut,
    ErrorKind::WriteZero,
    ErrorKind::StorageFull,
    ErrorKind::NotSeekable,
    ErrorKind::QuotaExceeded,
    ErrorKind::FileTooLarge,
    ErrorKind::ResourceBusy,
    ErrorKind::ExecutableFileBusy,
    ErrorKind::Deadlock,
    ErrorKind::CrossesDevices,
    ErrorKind::TooManyLinks,
    ErrorKind::InvalidFilename,
    ErrorKind::ArgumentListTooLong,
    ErrorKind::Unsupported,
    ErrorKind::UnexpectedEof,
    ErrorKind::OutOfMemory,
    ErrorKind::InProgress,
    ErrorKind::Other,
    ErrorKind::Uncategorized,
];

/// What a test lays down: the bytes of a file or of a stream, and which call fails. It logs what is done to it.
#[derive(Drop)]
pub struct Stage {
    bytes: RefCell<Option<Vec<u8>>>,
    log: RefCell<Vec<Call>>,
    most: usize,
    failing: Cell<(u64, u64)>,
    failing_too: Cell<(u64, u64)>,
    kind: Cell<ErrorKind>,
    made: Cell<u64>,
    others: Cell<Others>,
    named: Cell<Named>,
}

fn in_use() -> io::Error {
    ErrorKind::ResourceBusy.into()
}

fn no_memory() -> io::Error {
    ErrorKind::OutOfMemory.into()
}

fn identity(inode: u64) -> FileIdentity {
    FileIdentity { device: 1, inode }
}

fn found(identity: FileIdentity, is_regular: bool) -> FileLook {
    FileLook {
        identity,
        is_regular,
    }
}

impl Stage {
    /// A stage with these bytes, or with no file. No call takes or gives more than so many of them at once.
    pub fn new(alloc: Global, bytes: Option<Vec<u8>>, most: usize) -> Stage {
        Stage {
            bytes: RefCell::new(bytes),
            log: RefCell::new(Vec::new(alloc)),
            most,
            failing: Cell::new((0, 0)),
            failing_too: Cell::new((0, 0)),
            kind: Cell::new(ErrorKind::Other),
            made: Cell::new(0),
            others: Cell::new(Others::HoldNone),
            named: Cell::new(Named::File(1)),
        }
    }

    /// Empties the log. The call with this number from now on, counted from 1, fails with an error of this kind, and
    /// no other; with 0 none does.
    pub fn fail(&self, call: u64, kind: ErrorKind) -> io::Result<()> {
        self.fail_between(call, call, kind)
    }

    /// The same of the calls from one with such a number to one with that number.
    pub fn fail_between(&self, first: u64, last: u64, kind: ErrorKind) -> io::Result<()> {
        self.log.try_borrow_mut().map_err(|_| in_use())?.clear();
        self.made.set(0);
        self.failing.set((first, last));
        self.failing_too.set((0, 0));
        self.kind.set(kind);
        Ok(())
    }

    /// Beside those the calls from one with such a number to one with that number fail.
    pub fn fail_too(&self, first: u64, last: u64) {
        self.failing_too.set((first, last));
    }

    /// What others have of the lock from now on.
    pub fn lock_by_others(&self, others: Others) {
        self.others.set(others);
    }

    /// What the path names from now on.
    pub fn name(&self, named: Named) {
        self.named.set(named);
    }

    /// The calls since the log was emptied.
    pub fn log(&self) -> Result<Vec<Call>, AllocError> {
        match self.log.try_borrow() {
            Ok(log) => log.clone(),
            Err(_) => Err(AllocError),
        }
    }

    /// The bytes as they are now.
    pub fn bytes(&self) -> Result<Option<Vec<u8>>, AllocError> {
        match self.bytes.try_borrow() {
            Ok(bytes) => bytes.clone(),
            Err(_) => Err(AllocError),
        }
    }

    /// Logs a call, and fails where it is the one that is to fail.
    pub(crate) fn step(&self, call: Call) -> io::Result<()> {
        let mut log = self.log.try_borrow_mut().map_err(|_| in_use())?;
        log.push(call).map_err(|_| no_memory())?;
        let made = self.made.get().saturating_add(1);
        self.made.set(made);
        let is_in = |(first, last)| first <= made && made <= last;
        if is_in(self.failing.get()) || is_in(self.failing_too.get()) {
            return Err(self.kind.get().into());
        }
        Ok(())
    }

    /// Logs that the lock was asked for, and answers whether it is had. The stage keeps no lock that is had.
    pub(crate) fn lock(&self, call: Call) -> Result<(), TryLockError> {
        match self.step(call) {
            Ok(()) => {}
            Err(error) if error.kind() == ErrorKind::WouldBlock => {
                return Err(TryLockError::WouldBlock);
            }
            Err(error) => return Err(TryLockError::Error(error)),
        }
        match (self.others.get(), call) {
            (Others::HoldNone, _) | (Others::Share, Call::LockShared) => Ok(()),
            (Others::Share | Others::HoldAlone, _) => Err(TryLockError::WouldBlock),
            (Others::HaveNoLocks, _) => Err(TryLockError::Error(ErrorKind::Unsupported.into())),
        }
    }

    /// Which file is opened by the path. Of none the number is 0.
    pub(crate) fn opened(&self) -> FileIdentity {
        identity(match self.named.get() {
            Named::File(inode) | Named::NoFile(inode) | Named::SwappedForNoFile(inode) => inode,
            Named::Swapped(_) => 9,
            Named::Nothing => 0,
        })
    }

    /// Logs that what the path names was looked at, and tells of it.
    pub(crate) fn look_at(&self) -> io::Result<FileLook> {
        self.step(Call::Look)?;
        if self.size()?.is_none() {
            return Err(ErrorKind::NotFound.into());
        }
        match self.named.get() {
            Named::File(inode) | Named::Swapped(inode) | Named::SwappedForNoFile(inode) => {
                Ok(found(identity(inode), true))
            }
            Named::NoFile(inode) => Ok(found(identity(inode), false)),
            Named::Nothing => Err(ErrorKind::NotFound.into()),
        }
    }

    /// Logs that the open file was looked at, which is this one, and tells of it.
    pub(crate) fn look_into(&self, opened: FileIdentity) -> io::Result<FileLook> {
        self.step(Call::LookInto)?;
        let is_regular = !matches!(
            self.named.get(),
            Named::NoFile(_) | Named::SwappedForNoFile(_)
        );
        Ok(found(opened, is_regular))
    }

    /// How many bytes there are, where there is a file.
    pub(crate) fn size(&self) -> io::Result<Option<usize>> {
        let bytes = self.bytes.try_borrow().map_err(|_| in_use())?;
        Ok(bytes.as_ref().map(|bytes| bytes.len()))
    }

    /// Makes a file with no bytes.
    pub(crate) fn make(&self, alloc: Global) -> io::Result<()> {
        let mut bytes = self.bytes.try_borrow_mut().map_err(|_| in_use())?;
        *bytes = Some(Vec::new(alloc));
        Ok(())
    }

    /// Gives some of the bytes from `at` on, and answers how many.
    pub(crate) fn give(&self, at: usize, buf: &mut [u8]) -> io::Result<usize>
        ensures { IfOk result (λ count. count ≤ length buf.new) }
    {
        let bytes = self.bytes.try_borrow().map_err(|_| in_use())?;
        let Some(bytes) = &*bytes else {
            return Ok(0);
        };
        let from = at.min(bytes.len());
        let count = buf.len().min(bytes.len() - from).min(self.most);
        buf[..count].copy_from_slice(&bytes[from..from + count]);
        Ok(count)
    }

    /// Takes some of these bytes from `at` on, over what is there and past its end, and answers how many.
    pub(crate) fn take(&self, at: usize, put: &[u8]) -> io::Result<usize>
        ensures { IfOk result (λ count. count ≤ length put.now) }
    {
        let mut bytes = self.bytes.try_borrow_mut().map_err(|_| in_use())?;
        let Some(bytes) = &mut *bytes else {
            return Err(ErrorKind::NotFound.into());
        };
        let count = put.len().min(self.most);
        let from = at.min(bytes.len());
        let within = count.min(bytes.len() - from);
        bytes[from..from + within].copy_from_slice(&put[..within]);
        bytes
            .extend_from_slice(&put[within..count])
            .map_err(|_| no_memory())?;
        Ok(count)
    }
}
