//! What the system tells of a file beside its bytes: which one it is, and of what kind.

use std::fs::{Files, Metadata, OpenFile};
use std::io;
use std::os::unix::fs::MetadataExt;

/// What tells a file from all others that exist with it. Each name of one file, also by a link, leads to the same.
#[derive(Clone, Copy, Debug, PartialEq, Eq)]
pub struct FileIdentity {
    /// The number of the device that has the file.
    pub device: u64,
    /// The number of the file on its device (its inode).
    pub inode: u64,
}

/// What was seen of a file.
#[derive(Clone, Copy, Debug, PartialEq, Eq)]
pub struct FileLook {
    /// Which file it is.
    pub identity: FileIdentity,
    /// Whether it is a regular file: no folder, device, pipe or socket.
    pub is_regular: bool,
}

impl FileLook {
    fn of(found: &Metadata) -> FileLook {
        FileLook {
            identity: FileIdentity {
                device: found.dev(),
                inode: found.ino(),
            },
            is_regular: found.is_file(),
        }
    }
}

/// Files that can be looked at, for code that is generic over them: what the kit's `Metadata` tells of a stand-in has no
/// identity.
pub trait LooksAtFiles: Files {
    /// Looks at what a path names now, and follows links. It opens nothing.
    fn look_at(&self, path: &str) -> io::Result<FileLook>;

    /// Looks at an open file.
    fn look_into(&self, file: &Self::File) -> io::Result<FileLook>;
}

impl LooksAtFiles for HostRuntime {
    fn look_at(&self, path: &str) -> io::Result<FileLook> {
        Ok(FileLook::of(&self.metadata(path)?))
    }

    fn look_into(&self, file: &std::fs::File) -> io::Result<FileLook> {
        Ok(FileLook::of(&file.metadata()?))
    }
}
