//! The advisory lock of a file.

use std::fs::{File, TryLockError};

/// A file with an advisory lock, for code that is generic over its files. It is asked for without waiting. Who holds it
/// and asks for the other form lets go of it first, and has none where it is refused.
pub trait FileLock {
    /// Asks for the lock for this file alone.
    fn try_lock(&self) -> Result<(), TryLockError>;

    /// Asks for the lock, which others may share.
    fn try_lock_shared(&self) -> Result<(), TryLockError>;
}

impl FileLock for File {
    fn try_lock(&self) -> Result<(), TryLockError> {
        File::try_lock(self)
    }

    fn try_lock_shared(&self) -> Result<(), TryLockError> {
        File::try_lock_shared(self)
    }
}
