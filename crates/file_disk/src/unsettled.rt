//! Where a file may differ from what its device has, and how that is written again.

ghost use Rattle.std.specs.Prelude.{◌≡◌, ◌≤◌, true, false, min, max, IsTrue};

use std::io;
use std::os::unix::fs::FileExt;

/// How many bytes are written again at once.
const PIECE: usize = 65_536;

/// How many of a piece that cannot be written again whole.
const PAGE: usize = 4_096;

/// A range of a file, from one offset up to the one behind its last byte. It is empty where it ends before it begins.
#[derive(Clone, Copy, Debug, PartialEq, Eq)]
pub(crate) struct Range {
    pub(crate) from: u64,
    pub(crate) to: u64,
}

/// The range of no bytes, below which none begins and above which none ends.
const NOTHING: Range = Range {
    from: u64::MAX,
    to: 0,
};

/// Where a file may differ from what its device has, as far as one run knows.
#[derive(Clone, Copy, Debug)]
pub(crate) struct Unsettled {
    /// No sync of this run has succeeded yet: what earlier runs left is not known, so that is anywhere.
    is_anywhere: bool,
    /// All that this run wrote since the last sync that succeeded.
    written: Range,
}

impl Unsettled {
    /// What a run knows before its first sync.
    pub(crate) fn anywhere() -> Unsettled
        ensures { result.is_anywhere ≡ true }
    {
        Unsettled {
            is_anywhere: true,
            written: NOTHING,
        }
    }

    /// Notes that a write to such a range begins.
    pub(crate) fn note(&mut self, from: u64, to: u64)
        ensures is_anywhere { self.new.is_anywhere ≡ self.old.is_anywhere }
        ensures from { self.new.written.from ≡ min self.old.written.from from }
        ensures to { self.new.written.to ≡ max self.old.written.to to }
    {
        self.written = Range {
            from: self.written.from.min(from),
            to: self.written.to.max(to),
        };
    }

    /// Notes that a sync succeeded.
    pub(crate) fn settle(&mut self)
        ensures is_anywhere { self.new.is_anywhere ≡ false }
        ensures from { self.new.written.from ≡ NOTHING.from }
        ensures to { self.new.written.to ≡ NOTHING.to }
    {
        self.is_anywhere = false;
        self.written = NOTHING;
    }

    /// Where that is in a file of this size.
    pub(crate) fn range(&self, size: u64) -> Range
        ensures from { self.now.is_anywhere ≡ true → result.from ≡ 0 }
        ensures to { self.now.is_anywhere ≡ true → result.to ≡ size }
        ensures written_from { self.now.is_anywhere ≡ false → result.from ≡ self.now.written.from }
        ensures written_to { self.now.is_anywhere ≡ false
            → result.to ≡ min self.now.written.to size }
    {
        if self.is_anywhere {
            return Range { from: 0, to: size };
        }
        Range {
            from: self.written.from,
            to: self.written.to.min(size),
        }
    }
}

impl Range {
    /// What of the range lies in the block of this number, where a file is cut into blocks of so many bytes.
    fn in_block(self, number: u64, block: usize) -> Range
        ensures from { self.from ≤ result.from }
        ensures to { result.to ≤ self.to }
    {
        let start = number.saturating_mul(block as u64);
        Range {
            from: self.from.max(start),
            to: self.to.min(start.saturating_add(block as u64)),
        }
    }
}

/// Writes what a read gives of the range once more, in pieces: the system may have taken for written what the device
/// never got, and gets it to the device, or fails, at a later sync. A piece that fails goes page by page, and a page that
/// fails is passed over. It is kept out of the sync that calls it, which would else make its room each time.
#[cold]
#[inline(never)]
pub(crate) fn write_again<F: FileExt>(file: &F, range: Range) {
    let mut room = [0; PIECE];
    for piece in range.from / PIECE as u64..range.to.div_ceil(PIECE as u64) {
        let piece = range.in_block(piece, PIECE);
        if put_back(file, piece, &mut room).is_err() {
            for page in piece.from / PAGE as u64..piece.to.div_ceil(PAGE as u64) {
                let _ = put_back(file, piece.in_block(page, PAGE), &mut room);
            }
        }
    }
}

/// Writes what a read gives of a range, which has to fit into the room.
fn put_back<F: FileExt>(file: &F, range: Range, room: &mut [u8]) -> io::Result<()> {
    let count = range.to.saturating_sub(range.from).min(room.len() as u64);
    let bytes = &mut room[..count as usize];
    file.read_exact_at(bytes, range.from)?;
    file.write_all_at(bytes, range.from)
}
