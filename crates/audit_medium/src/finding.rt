//! What an audit finds.

/// What an audit finds in the bytes of a medium that holds a set.
#[derive(Clone, Copy, Debug, PartialEq, Eq)]
pub enum Audit {
    /// They are the medium of a set of so many ballots.
    Canonical { held: u32 },
    /// They are not the medium of the set that they hold. This is the first byte, counted from 0, that differs from it.
    Differs { place: u64 },
}
