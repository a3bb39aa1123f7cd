//! The record that a disk in memory keeps of its calls.

/// How much a disk in memory may come to hold. All of it is taken when the disk is made.
#[derive(Clone, Copy, Debug, PartialEq, Eq)]
pub struct Room {
    /// The most bytes that it may have at a time.
    pub size: u64,
    /// The most calls that may succeed: each call behind so many fails.
    pub calls: u64,
    /// The most bytes that all writes together may put.
    pub written: u64,
}

/// A call of a disk, as its record keeps it.
#[derive(Clone, Copy, Debug, PartialEq, Eq)]
pub enum DiskCall {
    Size,
    Read { at: u64, count: usize },
    Write { at: u64, count: usize },
    Sync,
}

/// A call in the record: whether it succeeded, and where the bytes that it put stand among all that were put.
#[derive(Clone, Copy, Debug)]
pub(crate) struct Entry {
    pub(crate) call: DiskCall,
    pub(crate) passed: bool,
    pub(crate) start: usize,
    pub(crate) count: usize,
}
