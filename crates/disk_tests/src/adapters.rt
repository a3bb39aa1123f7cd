//! The adapters, over stand-ins for files and streams and over the real ones.

use crate::fakes::{Call, FAULT_KINDS, FakeFiles, FakeInput, FakeOutput, Stage};
use crate::streams::{assert_reads, assert_writes};
use outside_io::{Failed, FileSource, Sink, Source, StdinSource, StdoutSink};
use std::alloc::Global;
use std::fs::{self, Files};
use std::io::ErrorKind;
use std::process::Abort;
use std::test::Fail;

const PATH: &str = "folder/file";

fn stage_of(alloc: Global, bytes: &[u8], most: usize) -> Result<Stage, Fail> {
    Ok(Stage::new(alloc, Some(bytes.to_vec(alloc)?), most))
}

// What was done to a stage since it was last told what fails.
fn assert_log(rt: &impl Abort, stage: &Stage, want: &[Call]) -> Result<(), Fail> {
    let log = stage.log()?;
    assert_eq!(rt; log.as_slice(), want);
    Ok(())
}

// A read whose one call fails, with an error of each kind.
fn assert_faults(
    rt: &impl Abort,
    source: &mut impl Source,
    stage: &Stage,
    call: Call,
) -> Result<(), Fail> {
    for kind in &FAULT_KINDS {
        stage.fail(1, *kind)?;
        assert_eq!(rt; source.read(&mut [0; 3]), Err(Failed), "{kind:?}");
        assert_log(rt, stage, &[call])?;
    }
    Ok(())
}

/// The calls that fail, from one to another, and with which error; what reads of three bytes answer then; what they leave
/// of three zeros; and which calls they make.
type Row<'a> = (
    (u64, u64),
    ErrorKind,
    &'a [Result<usize, Failed>],
    [u8; 3],
    &'a [Call],
);

fn assert_row(
    rt: &impl Abort,
    source: &mut impl Source,
    stage: &Stage,
    row: &Row<'_>,
) -> Result<(), Fail> {
    let ((first, last), kind, wanted, left, calls) = row;
    stage.fail_between(*first, *last, *kind)?;
    let mut buf = [0; 3];
    assert_reads(rt, source, &mut buf, *wanted);
    assert_eq!(rt; buf, *left);
    assert_log(rt, stage, *calls)
}

const READ: Call = Call::Read(3);

const FIRST_OF_A_FILE: Row<'static> = (
    (2, 2),
    ErrorKind::Other,
    &[Err(Failed), Ok(2)],
    *b"ab\0",
    // It is open from the first read on.
    &[Call::Open, READ, READ],
);

const FIRST_OF_AN_INPUT: Row<'static> = (
    (1, 1),
    ErrorKind::Other,
    &[Err(Failed), Ok(2)],
    *b"ab\0",
    &[READ, READ],
);

/// What comes then. After interruptions the call is made again.
const GOES_ON: [Row<'static>; 3] = [
    ((0, 0), ErrorKind::Other, &[Ok(2)], *b"cd\0", &[READ]),
    (
        (1, 2),
        ErrorKind::Interrupted,
        &[Ok(2)],
        *b"ef\0",
        &[READ; 3],
    ),
    (
        (2, 2),
        ErrorKind::Other,
        &[Ok(2), Err(Failed), Ok(0)],
        *b"gh\0",
        &[READ; 3],
    ),
];

// A source over `abcdefgh` in pieces of two: each read goes on where the one before it ended, also behind one that failed.
fn assert_goes_on(
    rt: &impl Abort,
    source: &mut impl Source,
    stage: &Stage,
    first: &Row<'_>,
) -> Result<(), Fail> {
    assert_row(rt, source, stage, first)?;
    assert_faults(rt, source, stage, READ)?;
    for row in &GOES_ON {
        assert_row(rt, source, stage, row)?;
    }
    Ok(())
}

// A source over a file of such bytes is opened by the first read that can.
fn assert_file(rt: &impl Abort, files: &impl Files, stage: &Stage) -> Result<(), Fail> {
    let mut source = FileSource::new(files, PATH);
    assert_log(rt, stage, &[])?;
    assert_faults(rt, &mut source, stage, Call::Open)?;
    assert_goes_on(rt, &mut source, stage, &FIRST_OF_A_FILE)
}

#[test]
fn a_file_goes_on_after_a_fault(rt: HostRuntime) -> Result<(), Fail> {
    let stage = stage_of(rt.alloc(), b"abcdefgh", 2)?;
    let files = FakeFiles::new(rt.alloc(), &stage, PATH, "folder");
    assert_file(&rt, &files, &stage)
}

// The first two reads of the file of a path.
fn read_twice(files: &impl Files, path: &str) -> [Result<usize, Failed>; 2] {
    let mut source = FileSource::new(files, path);
    [source.read(&mut [0; 2]), source.read(&mut [0; 2])]
}

#[test]
fn a_file_that_is_missing_is_a_fault(rt: HostRuntime) -> Result<(), Fail> {
    let stage = Stage::new(rt.alloc(), None, 9);
    let files = FakeFiles::new(rt.alloc(), &stage, PATH, "folder");
    assert_eq!(rt; read_twice(&files, PATH), [Err(Failed); 2]);
    assert_log(&rt, &stage, &[Call::Open, Call::Open])
}

#[test]
fn standard_input_goes_on_after_a_fault(rt: HostRuntime) -> Result<(), Fail> {
    let stage = stage_of(rt.alloc(), b"abcdefgh", 2)?;
    let input = FakeInput::new(&stage);
    let reader = &input;
    let mut source = StdinSource::new(&reader);
    assert_log(&rt, &stage, &[])?;
    assert_goes_on(&rt, &mut source, &stage, &FIRST_OF_AN_INPUT)
}

// A write whose one call fails, with an error of each kind.
fn assert_write_faults(rt: &impl Abort, sink: &mut impl Sink, stage: &Stage) -> Result<(), Fail> {
    for kind in &FAULT_KINDS {
        stage.fail(1, *kind)?;
        assert_eq!(rt; sink.write_all(b"f"), Err(Failed), "{kind:?}");
        assert_log(rt, stage, &[Call::Write(1)])?;
    }
    Ok(())
}

fn assert_bytes(rt: &impl Abort, stage: &Stage, want: &[u8]) -> Result<(), Fail> {
    let bytes = stage.bytes()?;
    assert_eq!(rt; bytes.as_ref().map(|bytes| bytes.as_slice()), Some(want));
    Ok(())
}

#[test]
fn standard_output_takes_all_or_tells(rt: HostRuntime) -> Result<(), Fail> {
    let stage = stage_of(rt.alloc(), b"", 9)?;
    let output = FakeOutput::new(&stage);
    let mut sink = StdoutSink::new(&output);
    assert_writes(&rt, &mut sink, &[(b"ab", Ok(())), (b"cde", Ok(()))]);
    assert_log(&rt, &stage, &[Call::Write(2), Call::Write(3)])?;
    assert_write_faults(&rt, &mut sink, &stage)?;
    assert_writes(&rt, &mut sink, &[(b"g", Ok(()))]);
    assert_bytes(&rt, &stage, b"abcdeg")
}

#[test]
fn a_long_write_is_one_write(rt: HostRuntime) -> Result<(), Fail> {
    let alloc = rt.alloc();
    let stage = stage_of(alloc, b"", 70_000)?;
    let long = vec![in alloc; b'a'; 70_000]?;
    let written = StdoutSink::new(&FakeOutput::new(&stage)).write_all(&long);
    assert_eq!(rt; written, Ok(()));
    assert_log(&rt, &stage, &[Call::Write(70_000)])
}

#[test]
fn reads_a_real_file(rt: HostRuntime) -> Result<(), Fail> {
    let path = "outside_io_reads_a_file";
    fs::write(&rt, path, "abc")?;
    let mut source = FileSource::new(&rt, path);
    let mut buf = [0; 2];
    for (count, bytes) in [(2usize, *b"ab"), (1, *b"cb"), (0, *b"cb")] {
        assert_eq!(rt; source.read(&mut buf), Ok(count));
        assert_eq!(rt; buf, bytes);
    }
    fs::remove_file(&rt, path)?;
    Ok(())
}

#[test]
fn a_path_that_is_no_file_is_a_fault(rt: HostRuntime) {
    for path in [".", "/dev/null/inside", "outside_io_is_missing", "", "a\0b"] {
        assert_eq!(rt; read_twice(&rt, path), [Err(Failed); 2], "{path}");
    }
}

#[test]
fn reads_and_writes_the_real_streams(rt: HostRuntime) {
    let read = StdinSource::new(&rt).read(&mut [0; 4]);
    assert_eq!(rt; read, Ok(0), "standard input is empty in a test");
    let written = StdoutSink::new(&rt).write_all(b"written by a test\n");
    assert_eq!(rt; written, Ok(()));
}
