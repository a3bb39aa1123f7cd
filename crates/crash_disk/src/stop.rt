//! What a stop leaves of a disk in memory.

ghost use Rattle.std.specs.Prelude.{◌≡◌, ℕ, ◌*◌, ◌+◌, ◌≤◌, ◌<◌, length, vec_capacity, IfOk, OnOk};
ghost use Rattle.crash_disk.specs.Stop.{left_as, moment_of, torn_write, MayTear, Replays};

use crate::entry::DiskCall;
use crate::recording::{Recording, overwrite};
use outside_io::Memory;
use std::alloc::Global;

/// What a stop leaves of the bytes that are not settled.
#[derive(Clone, Copy, Debug, PartialEq, Eq)]
pub enum Torn {
    /// They are as they were when they were last settled, and the size is the least.
    Old,
    /// They are as they were last written, and the size is the greatest.
    New,
    /// Each of them is this byte, and the size is the greatest.
    Fill(u8),
}

/// What a write makes of what a stop leaves.
fn tear(
    alloc: Global,
    left: &mut Vec<u8>,
    torn: Torn,
    at: usize,
    bytes: &[u8],
) -> Result<(), Memory>
    requires at { MayTear torn at left.old.items }
    requires room { at + length bytes.now ≤ vec_capacity left.old }
    ensures items { OnOk result (left.new.items ≡ torn_write torn at bytes.now left.old.items) }
    ensures capacity { vec_capacity left.old ≤ vec_capacity left.new }
{
    match torn {
        Torn::Old => {}
        Torn::New => overwrite(left, at, bytes),
        Torn::Fill(byte) => {
            let filled = vec![in alloc; byte; bytes.len()]?;
            overwrite(left, at, &filled);
        }
    }
    Ok(())
}

impl Recording {
    ghost use Rattle.crash_disk.specs.Notes.{state_of};

    /// What a stop after so many calls, or inside the next one, leaves.
    pub(crate) fn left(
        &self,
        alloc: Global,
        calls: u64,
        inside: bool,
        torn: Torn,
    ) -> Result<Vec<u8>, Memory>
        ensures left { IfOk result
            (λ left. left.items ≡ left_as torn (state_of self.now (moment_of calls inside))) }
        ensures size { IfOk result (λ left. length left.items ≤ self.now.room.size) }
    {
        let mut seen = Vec::with_capacity(alloc, self.room.size as usize)?;
        seen.extend_from_slice(&self.first)?;
        let mut left = Vec::with_capacity(alloc, self.room.size as usize)?;
        left.extend_from_slice(&self.first)?;
        for index in 0..self.calls_by(calls, inside) {
            self.replay(alloc, index, torn, &mut seen, &mut left)?;
        }
        Ok(left)
    }

    /// How many calls of the record a stop comes behind: with the call that it is inside, where that is a write.
    fn calls_by(&self, calls: u64, inside: bool) -> usize
        ensures within { result ≤ length self.now.entries.items }
        ensures state { state_of self.now (2 * result) ≡ state_of self.now (moment_of calls inside) }
    {
        match self.entries.get(calls as usize) {
            Some(entry) if inside && entry.passed => match entry.call {
                DiskCall::Write { .. } => calls as usize + 1,
                _ => calls as usize,
            },
            Some(_) => calls as usize,
            None => self.entries.len(),
        }
    }

    /// Makes one call of the record again.
    fn replay(
        &self,
        alloc: Global,
        index: usize,
        torn: Torn,
        seen: &mut Vec<u8>,
        left: &mut Vec<u8>,
    ) -> Result<(), Memory>
        requires within { index < length self.now.entries.items }
        requires before { Replays torn (state_of self.now
            (2 * index)) seen.old.items left.old.items }
        requires seen_room { self.now.room.size ≤ vec_capacity seen.old }
        requires left_room { self.now.room.size ≤ vec_capacity left.old }
        ensures after { OnOk result (Replays torn (state_of self.now
            (2 * (index + 1))) seen.new.items left.new.items) }
        ensures seen_capacity { vec_capacity seen.old ≤ vec_capacity seen.new }
        ensures left_capacity { vec_capacity left.old ≤ vec_capacity left.new }
    {
        let entry = self.entries[index];
        if !entry.passed {
            return Ok(());
        }
        match entry.call {
            DiskCall::Write { at, .. } => {
                let bytes = &self.written[entry.start..entry.start + entry.count];
                overwrite(seen, at as usize, bytes);
                tear(alloc, left, torn, at as usize, bytes)
            }
            DiskCall::Sync => {
                left.clear();
                Ok(left.extend_from_slice(seen)?)
            }
            _ => Ok(()),
        }
    }
}
