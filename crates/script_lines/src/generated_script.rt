//! The generated script as a source of bytes.

ghost use Rattle.std.specs.Prelude.{◌≡◌, ℕ, ◌-◌, ◌^◌, ◌<◌, ◌≤◌, List, [], ◌++◌, false, length, take, min, vec_len, IfOk, IsOk, IsTrue, Some};
ghost use Rattle.outside_io.specs.Stream.{Gives};
ghost use Rattle.script_lines.specs.Generated.{generated_text};
ghost use Rattle.script_lines.specs.Parts.{line_room};
ghost use Rattle.store_spec.specs.ScriptLine.{IsTab};

use crate::generated::{LINE_ROOM, put_ended_line};
use ballot_record::Election;
use outside_io::{Failed, Memory, Source};
use std::alloc::Global;

/// A source of the text of the generated script. It makes one line after another, each at the end of room that it takes at
/// first, and never fails: its count of faults is constant.
#[derive(Drop)]
pub struct GeneratedScript {
    seed: u32,
    count: u32,
    tabs: u32,
    election: Election,
    line: Vec<u8>,
    given: usize,
    index: u64,
    ghost are_tabs: { IsTab tabs },
    ghost within: { given ≤ vec_len line },
    ghost room: { vec_len line ≡ line_room },
    ghost few: { index ≤ 2 ^ 34 },
}

impl GeneratedScript {
    ghost use Rattle.script_lines.specs.Script.{script_left};

    /// The source of the script of this seed and these counts. All the memory that it needs is taken here.
    pub fn new(
        alloc: Global,
        seed: u32,
        count: u32,
        tabs: u32,
        election: &Election,
    ) -> Result<GeneratedScript, Memory>
        requires { IsTab tabs }
        ensures { IfOk result
            (λ script. script_left script ≡ generated_text election.now seed count tabs) }
    {
        Ok(GeneratedScript {
            seed,
            count,
            tabs,
            election: *election,
            line: vec![in alloc; 0; LINE_ROOM]?,
            given: LINE_ROOM,
            index: 0,
        })
    }

    /// Makes the next line with its end, once the last one was given. False past the end of the script.
    fn next_line(&mut self) -> bool
        requires { self.old.given ≡ vec_len self.old.line }
        ensures left { script_left self.new ≡ script_left self.old }
        ensures some { IsTrue result → self.new.given < vec_len self.new.line }
        ensures end { result ≡ false → script_left self.old ≡ [] }
    {
        let index = self.index + 1;
        match put_ended_line(
            index,
            self.seed,
            self.count,
            self.tabs,
            &self.election,
            &mut self.line,
        ) {
            Some(start) => {
                self.given = start;
                self.index = index;
                true
            }
            None => false,
        }
    }

    /// Gives the next bytes of the line that stands ready, as many as fit.
    fn give(&mut self, buf: &mut [u8]) -> usize
        ensures count { result
            ≡ min (length buf.old) (vec_len self.old.line - self.old.given) }
        ensures gives { script_left self.old ≡ take result buf.new ++ script_left self.new }
    {
        let count = buf.len().min(self.line.len() - self.given);
        buf[..count].copy_from_slice(&self.line[self.given..self.given + count]);
        self.given += count;
        count
    }

    /// Gives bytes of one line. None is the end of the script.
    fn next_piece(&mut self, buf: &mut [u8]) -> usize
        requires { 0 < length buf.old }
        ensures within { result ≤ length buf.old }
        ensures gives { script_left self.old ≡ take result buf.new ++ script_left self.new }
        ensures end { result ≡ 0 → script_left self.old ≡ [] }
    {
        if self.given < self.line.len() {
            return self.give(buf);
        }
        if self.next_line() {
            return self.give(buf);
        }
        0
    }
}

impl Source for GeneratedScript {
    ghost use Rattle.std.proofs.Common.{arith};
    ghost use Rattle.script_lines.specs.Script.{script_left};

    ghost left = { λ source. Some (script_left source) };

    ghost faults = { λ _. 0 };

    ghost counted = { λ _. Prim.omega arith };

    fn read(&mut self, buf: &mut [u8]) -> Result<usize, Failed>
        ensures within { IfOk result
            (λ n. n ≡ min (length buf.old) (length (script_left self.old))) }
        ensures gives { IfOk result (λ n. Gives (Some (script_left self.old)) (take n buf.new)
            (Some (script_left self.new))) }
        ensures sure { IsOk result }
    {
        let mut count = 0;
        'pieces: while count < buf.len() {
            let piece = self.next_piece(&mut buf[count..]);
            if piece == 0 {
                return Ok(count);
            }
            count += piece;
        }
        Ok(count)
    }
}
