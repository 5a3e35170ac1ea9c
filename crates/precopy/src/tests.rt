//! Worked examples of the command line: what is written, what is reported, and the status.

ghost use Rattle.std.specs.Prelude.{◌≡◌, false};

mod live;
mod report;
mod sweep;
mod writers;

use crate::starting::start;
use byte_sinks::TestSink;
use std::alloc::{AllocError, Global};
use std::process::Abort;
use std::sync::Wait;
use std::thread::Threads;
use trace_codec::TestSource;
use worked_guest::{MEMORY, TRACE, changed};

fn sink(alloc: Global) -> TestSink
    ensures { result.has_failed ≡ false }
{
    TestSink::new(Vec::new(alloc), usize::MAX, None, false)
}

/// The whole trace.
fn whole(rt: &impl Abort, alloc: Global) -> Vec<u8> {
    Vec::from_slice(alloc, &TRACE).expect(rt, "memory")
}

/// Returns the first `len` bytes of the trace, or all of them with a 0 behind.
fn cut(rt: &impl Abort, alloc: Global, len: usize) -> Vec<u8> {
    let behind: &[u8] = if len > TRACE.len() { &[0] } else { &[] };
    changed(alloc, len.min(TRACE.len()), 0, &[], behind).expect(rt, "memory")
}

/// What the program does with a line of words over some bytes: its status, its output and its faults.
fn told<R: Threads + Wait + Sync>(
    rt: &R,
    alloc: Global,
    bytes: Vec<u8>,
    line: &str,
) -> Result<(u8, TestSink, TestSink), AllocError> {
    let mut words = Vec::new(alloc);
    words.push("precopy".to_string(alloc)?)?;
    for word in line.split(' ') {
        words.push(word.to_string(alloc)?)?;
    }
    let mut source = TestSource::new(bytes, 102, None);
    let mut output = sink(alloc);
    let mut faults = sink(alloc);
    let status = start(rt, alloc, words, &mut source, &mut output, &mut faults);
    Ok((status, output, faults))
}

/// Returns whether a line of words writes this over some bytes, and tells no fault.
fn writes<R: Abort + Threads + Wait + Sync>(
    rt: &R,
    alloc: Global,
    bytes: Vec<u8>,
    line: &str,
    expected: &[u8],
) -> bool {
    let (status, output, faults) = told(rt, alloc, bytes, line).expect(rt, "memory");
    status == 0 && output.bytes() == expected && faults.bytes().is_empty()
}

/// Returns whether a line of words over some bytes writes nothing, and has this status and fault.
fn fails<R: Threads + Wait + Sync>(
    rt: &R,
    alloc: Global,
    bytes: Vec<u8>,
    line: &str,
    expected: u8,
    fault: &str,
) -> Result<bool, AllocError> {
    let (status, output, faults) = told(rt, alloc, bytes, line)?;
    let is_told = faults.bytes() == fault.as_bytes();
    Ok(status == expected && output.bytes().is_empty() && is_told)
}

/// Returns whether a line of words is refused before a trace is read: over no bytes, which would be `E1`.
fn refuses<R: Abort + Threads + Wait + Sync>(
    rt: &R,
    alloc: Global,
    line: &str,
    fault: &str,
) -> bool {
    fails(rt, alloc, Vec::new(alloc), line, 2, fault).expect(rt, "memory")
}

/// Returns whether a line of words is not taken, which `clap` tells.
fn is_not_taken<R: Abort + Threads + Wait + Sync>(rt: &R, alloc: Global, line: &str) -> bool {
    let (status, output, faults) = told(rt, alloc, Vec::new(alloc), line).expect(rt, "memory");
    let is_told = !faults.bytes().is_empty() && !faults.bytes().starts_with(b"precopy: ");
    status == 2 && output.bytes().is_empty() && is_told
}

#[test]
fn writes_an_image(rt: HostRuntime) {
    assert!(rt; writes(&rt, rt.alloc(), whole(&rt, rt.alloc()), "image", &MEMORY));
}

#[test]
fn says_why_it_ends(rt: HostRuntime) {
    const CASES: [(usize, &str); 2] = [
        (103, "precopy: trace E14\n"),
        (101, "precopy: trace E8 record 4\n"),
    ];
    let alloc = rt.alloc();
    for &(len, fault) in &CASES {
        assert!(rt;
            fails(&rt, alloc, cut(&rt, alloc, len), "image", 1, fault).expect(&rt, "memory"),
            "{fault}"
        );
    }
}

#[test]
fn shows_help(rt: HostRuntime) {
    let shown = told(&rt, rt.alloc(), whole(&rt, rt.alloc()), "--help");
    let (status, output, faults) = shown.expect(&rt, "memory");
    assert!(rt; status == 0 && !output.bytes().is_empty() && faults.bytes().is_empty());
}

#[test]
fn unknown_words_are_told(rt: HostRuntime) {
    assert!(rt; is_not_taken(&rt, rt.alloc(), "memory"));
}
