//! Standard input and output, as a stage plays them.

use super::stage::{Call, Stage};
use std::alloc::Allocator;
use std::cell::Cell;
use std::fmt::Display;
use std::io::{self, BufRead, ErrorKind, Input, Lines, Read};

/// Standard input, whose bytes are those of a stage.
#[derive(Drop)]
pub struct FakeInput<'a> {
    stage: &'a Stage,
    at: Cell<usize>,
}

/// A reader of it.
#[derive(Drop)]
pub struct FakeReader<'a> {
    stage: &'a Stage,
    at: &'a Cell<usize>,
}

impl<'a> FakeInput<'a> {
    /// An input of which nothing was read.
    pub fn new(stage: &'a Stage) -> FakeInput<'a> {
        FakeInput {
            stage,
            at: Cell::new(0),
        }
    }
}

impl<'a> Input for &'a FakeInput<'a> {
    type Reader = FakeReader<'a>;

    fn read_line<A: Allocator + Clone>(&self, buf: &mut String<A>) -> io::Result<usize> {
        self.reader().read_line(buf)
    }

    fn lines<A: Allocator>(&self, alloc: A) -> Lines<FakeReader<'a>, A> {
        self.reader().lines(alloc)
    }

    fn reader(&self) -> FakeReader<'a> {
        FakeReader {
            stage: self.stage,
            at: &self.at,
        }
    }
}

impl Read for FakeReader<'_> {
    fn read(&mut self, buf: &mut [u8]) -> io::Result<usize> {
        self.stage.step(Call::Read(buf.len()))?;
        let count = self.stage.give(self.at.get(), buf)?;
        self.at.set(self.at.get().saturating_add(count));
        Ok(count)
    }
}

impl BufRead for FakeReader<'_> {
    fn fill_buf(&mut self) -> io::Result<&[u8]> {
        Err(ErrorKind::Unsupported.into())
    }

    fn consume(&mut self, _amount: usize) {}
}

/// Standard output, which writes to a stage.
#[derive(Drop)]
pub struct FakeOutput<'a> {
    stage: &'a Stage,
}

impl<'a> FakeOutput<'a> {
    /// An output behind the bytes of this stage.
    pub fn new(stage: &'a Stage) -> FakeOutput<'a> {
        FakeOutput { stage }
    }
}

impl Print for FakeOutput<'_> {
    fn print<D: Display + Drop>(&self, _value: D) -> io::Result<()> {
        self.stage.step(Call::Other)
    }

    fn println<D: Display + Drop>(&self, _value: D) -> io::Result<()> {
        self.stage.step(Call::Other)
    }

    fn write_all(&self, bytes: &[u8]) -> io::Result<()> {
        self.stage.step(Call::Write(bytes.len()))?;
        let end = self.stage.size()?.unwrap_or(0);
        self.stage.take(end, bytes)?;
        Ok(())
    }
}
