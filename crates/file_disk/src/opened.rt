//! How the file of a path is opened or made, and which files are refused.

use crate::identity::{FileIdentity, FileLook, LooksAtFiles};
use std::fs::{Files, OpenFile, OpenOptions};
use std::io::{self, ErrorKind};
use std::os::unix::fs::OpenOptionsExt;
use std::path::Path;

/// Who may read and write a file that is made here: its owner alone.
const OWNER_ALONE: u32 = 0o600;

/// An open file.
#[derive(Drop)]
pub(crate) struct Opened<T: Drop> {
    pub(crate) file: T,
    pub(crate) identity: FileIdentity,
    /// It may be written too.
    pub(crate) is_writable: bool,
}

/// Opens the file of a path, where there is one: to be read and written, or, where it may not be written, to be read.
/// What is no regular file, or the one to spare, is refused before it is opened.
pub(crate) fn open_existing<F: LooksAtFiles>(
    files: &F,
    path: &str,
    spared: Option<FileIdentity>,
) -> io::Result<Option<Opened<F::File>>> {
    match files.look_at(path) {
        Ok(found) => admit(found, spared)?,
        Err(error) if error.kind() == ErrorKind::NotFound => return Ok(None),
        Err(error) => return Err(error),
    }
    let (file, is_writable) = open_to_write_or_read(files, path)?;
    let found = files.look_into(&file)?;
    admit(found, spared)?;
    Ok(Some(Opened {
        file,
        identity: found.identity,
        is_writable,
    }))
}

/// Makes a file of this path, where none is.
pub(crate) fn make_new<F: LooksAtFiles>(files: &F, path: &str) -> io::Result<Opened<F::File>> {
    let file = OpenOptions::new()
        .read(true)
        .write(true)
        .create_new(true)
        .mode(OWNER_ALONE)
        .open(files, path)?;
    let found = files.look_into(&file)?;
    Ok(Opened {
        file,
        identity: found.identity,
        is_writable: true,
    })
}

/// Refuses what is no regular file, and the one that is to be spared.
fn admit(found: FileLook, spared: Option<FileIdentity>) -> io::Result<()> {
    if !found.is_regular || spared == Some(found.identity) {
        return Err(ErrorKind::InvalidInput.into());
    }
    Ok(())
}

/// Opens a file, and answers whether it may be written.
fn open_to_write_or_read<F: Files>(files: &F, path: &str) -> io::Result<(F::File, bool)> {
    match OpenOptions::new().read(true).write(true).open(files, path) {
        Ok(file) => Ok((file, true)),
        Err(error) if is_write_refused(error.kind()) => {
            let file = OpenOptions::new().read(true).open(files, path)?;
            Ok((file, false))
        }
        Err(error) => Err(error),
    }
}

/// Whether an error says that a file may not be written.
fn is_write_refused(kind: ErrorKind) -> bool {
    matches!(
        kind,
        ErrorKind::PermissionDenied | ErrorKind::ReadOnlyFilesystem
    )
}

/// Syncs the folder of a path, so that a crash keeps the names in it.
pub(crate) fn sync_folder<F: Files>(files: &F, path: &str) -> io::Result<()> {
    let mut options = OpenOptions::new();
    let options = options.read(true);
    let folder = match Path::new(path).parent() {
        Some(folder) if !folder.as_str().is_empty() => options.open(files, folder)?,
        _ => options.open(files, ".")?,
    };
    folder.sync_all()
}
