//! Sources and sinks of the system: its standard streams, and files.

ghost use Rattle.std.specs.Prelude.{◌≡◌, ◌≤◌, ℕ, length, None, IsSome, IfOk, OnOk};
ghost use Rattle.outside_io.specs.Count.{count_value};

use crate::{Count, Failed, Sink, Source};
use std::io::{ErrorKind, Read};
use std::rt::Files;
use std::{fs, io};

/// Reads the next bytes, and tries again where a signal interrupted the call. Every other error is handed on.
pub fn read_again<R: Read>(reader: &mut R, buf: &mut [u8]) -> io::Result<usize>
    ensures { IfOk result (λ count. count ≤ length buf.old) }
{
    for _ in 0..u64::MAX {
        match reader.read(buf) {
            Err(error) if error.kind() == ErrorKind::Interrupted => {}
            outcome => return outcome,
        }
    }
    Err(ErrorKind::Interrupted.into())
}

/// Standard input. No clause says what it gives: it is part of the trusted edge.
#[derive(Drop)]
pub struct StdinSource<'a, I: Input> {
    input: &'a I,
    reader: Option<I::Reader>,
    faults: Count,
}

impl<'a, I: Input> StdinSource<'a, I> {
    /// Reads nothing yet.
    pub fn new(rt: &'a I) -> StdinSource<'a, I>
        ensures { ⟦<StdinSource<'a, I> as Source>⟧.faults result ≡ 0 }
    {
        StdinSource {
            input: rt,
            reader: None,
            faults: Count::zero(),
        }
    }

    // Reads the next bytes of the input, by one reader for all calls.
    fn read_input(&mut self, buf: &mut [u8]) -> io::Result<usize>
        ensures within { IfOk result (λ count. count ≤ length buf.old) }
        ensures stays_open { IsSome self.new.reader }
        ensures faults { self.new.faults ≡ self.old.faults }
    {
        if let Some(reader) = &mut self.reader {
            return read_again(reader, buf);
        }
        let mut reader = self.input.reader();
        let outcome = read_again(&mut reader, buf);
        self.reader = Some(reader);
        outcome
    }
}

impl<I: Input> Source for StdinSource<'_, I> {
    ghost left = { λ _. None };

    ghost faults = { λ source. count_value source.faults };

    ghost counted = { λ source. source.faults.within };

    fn read(&mut self, buf: &mut [u8]) -> Result<usize, Failed> {
        let outcome = self.read_input(buf);
        self.faults.counted(outcome)
    }
}

/// A file, which is opened at the first read and stays open. No clause says what it gives: it is part of the trusted
/// edge.
#[derive(Drop)]
pub struct FileSource<'a, F: Files> {
    files: &'a F,
    path: &'a str,
    file: Option<F::File>,
    faults: Count,
}

impl<'a, F: Files> FileSource<'a, F> {
    /// Opens nothing yet. A file that is missing, or that cannot be read, is a fault of the first read; the next read
    /// then tries to open it again.
    pub fn new(rt: &'a F, path: &'a str) -> FileSource<'a, F>
        ensures { ⟦<FileSource<'a, F> as Source>⟧.faults result ≡ 0 }
    {
        FileSource {
            files: rt,
            path,
            file: None,
            faults: Count::zero(),
        }
    }

    // Reads the next bytes of the file, which it opens where that is still to be done.
    fn read_file(&mut self, buf: &mut [u8]) -> io::Result<usize>
        ensures within { IfOk result (λ count. count ≤ length buf.old) }
        ensures opens { OnOk result (IsSome self.new.file) }
        ensures stays_open { IsSome self.old.file → IsSome self.new.file }
        ensures faults { self.new.faults ≡ self.old.faults }
    {
        if let Some(file) = &mut self.file {
            return read_again(file, buf);
        }
        let mut file = fs::open(self.files, self.path)?;
        let outcome = read_again(&mut file, buf);
        self.file = Some(file);
        outcome
    }
}

impl<F: Files> Source for FileSource<'_, F> {
    ghost left = { λ _. None };

    ghost faults = { λ source. count_value source.faults };

    ghost counted = { λ source. source.faults.within };

    fn read(&mut self, buf: &mut [u8]) -> Result<usize, Failed> {
        let outcome = self.read_file(buf);
        self.faults.counted(outcome)
    }
}

/// Standard output. No clause says what it took: it is part of the trusted edge.
#[derive(Drop)]
pub struct StdoutSink<'a, P> {
    output: &'a P,
    faults: Count,
}

impl<'a, P: Print> StdoutSink<'a, P> {
    /// Writes nothing yet.
    pub fn new(rt: &'a P) -> StdoutSink<'a, P>
        ensures { ⟦<StdoutSink<'a, P> as Sink>⟧.faults result ≡ 0 }
    {
        StdoutSink {
            output: rt,
            faults: Count::zero(),
        }
    }
}

impl<P: Print> Sink for StdoutSink<'_, P> {
    ghost taken = { λ _. None };

    ghost faults = { λ sink. count_value sink.faults };

    ghost counted = { λ sink. sink.faults.within };

    fn write_all(&mut self, bytes: &[u8]) -> Result<(), Failed> {
        let outcome = self.output.write_all(bytes);
        self.faults.counted(outcome)
    }
}
