//! Runs over writers that fail as real ones do.

use super::{sink, whole};
use crate::starting::start;
use byte_sinks::{FromWrite, TestSink};
use std::alloc::Global;
use std::io;
use std::io::{ErrorKind, Write};
use std::process::Abort;
use std::sync::Wait;
use std::thread::Threads;
use trace_codec::TestSource;

/// A writer whose first write and whose flushes may fail.
#[derive(Drop)]
struct FailingWriter {
    first_write: Option<ErrorKind>,
    flush: Option<ErrorKind>,
}

impl Write for FailingWriter {
    fn write(&mut self, bytes: &[u8]) -> io::Result<usize> {
        match self.first_write.take() {
            Some(kind) => Err(kind.into()),
            None => Ok(bytes.len()),
        }
    }

    fn flush(&mut self) -> io::Result<()> {
        match self.flush {
            Some(kind) => Err(kind.into()),
            None => Ok(()),
        }
    }
}

/// The status and the faults of an image that goes to a writer.
fn ends<R: Abort + Threads + Wait + Sync>(
    rt: &R,
    alloc: Global,
    writer: FailingWriter,
) -> (u8, TestSink) {
    let words = vec![in alloc;
        "precopy".to_string(alloc).expect(rt, "memory"),
        "image".to_string(alloc).expect(rt, "memory"),
    ]
    .expect(rt, "memory");
    let mut source = TestSource::new(whole(rt, alloc), 102, None);
    let mut output = FromWrite::new(writer);
    let mut faults = sink(alloc);
    let status = start(rt, alloc, words, &mut source, &mut output, &mut faults);
    (status, faults)
}

#[test]
fn tries_an_interrupted_write_again(rt: HostRuntime) {
    let writer = FailingWriter {
        first_write: Some(ErrorKind::Interrupted),
        flush: None,
    };
    let (status, faults) = ends(&rt, rt.alloc(), writer);
    assert!(rt; status == 0 && faults.bytes().is_empty());
}

#[test]
fn tells_a_write_or_a_flush_that_failed(rt: HostRuntime) {
    const CASES: [(Option<ErrorKind>, Option<ErrorKind>); 2] = [
        (Some(ErrorKind::BrokenPipe), None),
        (None, Some(ErrorKind::StorageFull)),
    ];
    for &(first_write, flush) in &CASES {
        let writer = FailingWriter { first_write, flush };
        let (status, faults) = ends(&rt, rt.alloc(), writer);
        assert!(rt; status == 1 && faults.bytes() == "precopy: write\n".as_bytes());
    }
}
