//! The numbers 0, 1 and 2 of open files, which belong to the standard streams.

use std::fs::{Files, OpenOptions};
use std::io;
use std::os::fd::{AsRawFd, IntoRawFd};

/// Keeps these numbers from the files of a run. Where a stream was closed before the program began, /dev/null is opened
/// in its place, the wrong way round: to read such an input, or to write to such an output, is a fault.
pub fn hold_numbers<F: Files>(files: &F) -> io::Result<()>
where
    F::File: AsRawFd + IntoRawFd,
{
    for _ in 0..3 {
        let unreadable = OpenOptions::new().write(true).open(files, "/dev/null")?;
        match unreadable.as_raw_fd() {
            0 => {
                let _ = unreadable.into_raw_fd();
            }
            1 | 2 => {
                drop(unreadable);
                let unwritable = OpenOptions::new().read(true).open(files, "/dev/null")?;
                let _ = unwritable.into_raw_fd();
            }
            _ => return Ok(()),
        }
    }
    Ok(())
}
