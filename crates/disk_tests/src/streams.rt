//! Sources and sinks in memory.

use outside_io::{Failed, MemorySink, MemorySource, Sink, Source, SureSink};
use std::process::Abort;
use std::test::Fail;

// Reads into these bytes again and again, and compares what each read answers.
pub(crate) fn assert_reads(
    rt: &impl Abort,
    source: &mut impl Source,
    buf: &mut [u8],
    wanted: &[Result<usize, Failed>],
) {
    for count in wanted {
        assert_eq!(rt; source.read(buf), *count);
    }
}

// Writes these bytes one after another, and compares what each write answers.
pub(crate) fn assert_writes(
    rt: &impl Abort,
    sink: &mut impl Sink,
    writes: &[(&[u8], Result<(), Failed>)],
) {
    for (bytes, wanted) in writes {
        assert_eq!(rt; sink.write_all(*bytes), *wanted);
    }
}

#[test]
fn sources_fail_where_they_are_told(rt: HostRuntime) -> Result<(), Fail> {
    let alloc = rt.alloc();
    let mut source = MemorySource::new(b"abc".to_vec(alloc)?, vec![in alloc; 2]?);
    let mut buf = [0; 2];
    assert_reads(&rt, &mut source, &mut buf, &[Ok(2), Err(Failed), Ok(1)]);
    assert_eq!(rt; buf, *b"cb");
    assert_reads(&rt, &mut source, &mut buf, &[Ok(0)]);
    Ok(())
}

#[test]
fn sinks_fail_where_they_are_told(rt: HostRuntime) -> Result<(), Fail> {
    let alloc = rt.alloc();
    let writes: [(&[u8], Result<(), Failed>); 4] = [
        (b"ab", Ok(())),
        (b"c", Err(Failed)),
        (b"cd", Err(Failed)),
        (b"c", Ok(())),
    ];
    let mut sink = MemorySink::new(alloc, 3, vec![in alloc; 2]?)?;
    assert_writes(&rt, &mut sink, &writes);
    assert_eq!(rt; sink.bytes(), b"abc".as_slice());
    assert_writes(&rt, &mut SureSink::new(), &writes[..1]);
    Ok(())
}
