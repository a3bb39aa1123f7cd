//! Lines, cut out of sources that give their bytes in pieces and fail.

ghost use Rattle.std.specs.Prelude.{◌≡◌, ◌≤◌, ℕ, length, vec_len, None};

use outside_io::{Count, Failed, LineEndFault, Lines, NextLine, Source, SureSource};
use std::alloc::Global;
use std::process::Abort;
use std::test::Fail;

/// Gives its bytes in pieces of at most so many, and fails once, before the call with that number.
#[derive(Drop)]
struct Pieces {
    bytes: Vec<u8>,
    at: usize,
    most: usize,
    calls: u64,
    failing: u64,
    faults: Count,
    ghost within: { at ≤ vec_len bytes },
}

impl Source for Pieces {
    ghost left = { λ _. None };

    ghost faults = { λ source. source.faults.value };

    ghost counted = { λ source. source.faults.within };

    fn read(&mut self, buf: &mut [u8]) -> Result<usize, Failed> {
        self.calls = self.calls.saturating_add(1);
        if self.calls == self.failing {
            self.faults.add_one();
            return Err(Failed);
        }
        let left = self.bytes.len() - self.at;
        let count = buf.len().min(left).min(self.most);
        buf[..count].copy_from_slice(&self.bytes[self.at..self.at + count]);
        self.at += count;
        Ok(count)
    }
}

fn in_pieces(bytes: Vec<u8>, most: usize, failing: u64) -> Pieces {
    Pieces {
        bytes,
        at: 0,
        most,
        calls: 0,
        failing,
        faults: Count::zero(),
    }
}

// What a reader of lines answers, a line each: the line in brackets, `wide`, `fault` or `long`.
fn told<S: Source>(alloc: Global, source: &mut S) -> Result<Vec<u8>, Fail> {
    let mut lines = Lines::new(alloc)?;
    let mut told = Vec::new(alloc);
    for _ in 0..100u8 {
        match lines.next_line(source) {
            Ok(NextLine::Whole) => {
                told.push(b'[')?;
                let line = lines.line();
                told.extend_from_slice(&line[..line.len().min(4)])?;
                told.push(b']')?;
            }
            Ok(NextLine::TooWide) => told.extend_from_slice(b"wide")?,
            Ok(NextLine::End) => return Ok(told),
            Err(LineEndFault::ReadFault) => told.extend_from_slice(b"fault")?,
            Err(LineEndFault::TooLong) => {
                told.extend_from_slice(b"long")?;
                return Ok(told);
            }
        }
    }
    Ok(told)
}

// So many bytes `a`, and then these.
fn padded(alloc: Global, count: usize, behind: &[u8]) -> Result<Vec<u8>, Fail> {
    let mut bytes = vec![in alloc; b'a'; count]?;
    bytes.extend_from_slice(behind)?;
    Ok(bytes)
}

// What a reader of lines answers over a source of so many bytes and more.
fn assert_told<S: Source>(
    rt: &impl Abort,
    alloc: Global,
    source: &mut S,
    want: &[u8],
    count: usize,
) -> Result<(), Fail> {
    let told = told(alloc, source)?;
    assert_eq!(rt; told.as_slice(), want, "over {count} bytes");
    Ok(())
}

// So many bytes, these behind them, and what a reader of lines answers.
const CUT: [(usize, &[u8], &[u8]); 10] = [
    (0, b"", b""),
    (0, b"\n", b"[]"),
    (1, b"", b"[a]"),
    (1, b"\n", b"[a]"),
    (1, b"\n\nb", b"[a][][b]"),
    (2, b"\r\n\n\n", b"[aa\r][][]"),
    (8192, b"\nb\n", b"[aaaa][b]"),
    (8193, b"\nb\n", b"wide[b]"),
    (8193, b"", b"wide"),
    (70000, b"\nb", b"wide[b]"),
];

// What a reader of lines answers over so many bytes and these, in pieces of each size and from a source that never
// fails.
fn assert_cut(
    rt: &impl Abort,
    alloc: Global,
    count: usize,
    behind: &[u8],
    want: &[u8],
) -> Result<(), Fail> {
    for most in [1usize, 7, 8192, 65536] {
        let mut source = in_pieces(padded(alloc, count, behind)?, most, 0);
        assert_told(rt, alloc, &mut source, want, count)?;
    }
    let mut source = SureSource::new(padded(alloc, count, behind)?);
    assert_told(rt, alloc, &mut source, want, count)
}

#[test]
fn cuts_lines_in_any_pieces(rt: HostRuntime) -> Result<(), Fail> {
    for (count, behind, want) in &CUT {
        assert_cut(&rt, rt.alloc(), *count, *behind, *want)?;
    }
    Ok(())
}

// The call that fails, and what a reader of three lines answers. The fifth call gives the end, and there is no sixth.
const GONE_ON: [(u64, &[u8]); 6] = [
    (1, b"fault[aa][b][cc]"),
    (2, b"fault[aa][b][cc]"),
    (3, b"[aa]fault[b][cc]"),
    (4, b"[aa][b]fault[cc]"),
    (5, b"[aa][b]fault[cc]"),
    (6, b"[aa][b][cc]"),
];

#[test]
fn goes_on_after_a_fault(rt: HostRuntime) -> Result<(), Fail> {
    let alloc = rt.alloc();
    for (failing, want) in &GONE_ON {
        let mut source = in_pieces(padded(alloc, 2, b"\nb\ncc")?, 2, *failing);
        assert_told(&rt, alloc, &mut source, *want, 2)?;
    }
    let mut wide = in_pieces(padded(alloc, 30000, b"\nb")?, 6000, 4);
    assert_told(&rt, alloc, &mut wide, b"faultwide[b]", 30000)
}
