//! Damaged traces: each is refused for its first cause, whichever way it is read.

ghost use Rattle.std.specs.Prelude.{None, false};

use image_build::replay;
use std::alloc::{AllocError, Global};
use std::test::Fail;
use trace_codec::{Source, TestSource, TraceError, decode, read_trace};
use trace_readers::{HeldTrace, TouchLog};
use worked_guest::{MEMORY, TRACE};

/// Returns a write of the trace, counted from 0: to page 0 at tick 0, to page 1 at ticks 5 and 1200, to pages 3 and 1
/// at tick 2500. There is no other.
fn record(number: usize) -> &'static [u8] {
    match number {
        0 => &TRACE[16..33],
        1 => &TRACE[33..50],
        2 => &TRACE[50..67],
        3 => &TRACE[67..85],
        4 => &TRACE[85..],
        _ => &[],
    }
}

/// Returns a trace whose header counts `writes` writes, with these of the trace's writes.
pub(crate) fn trace_of(
    alloc: Global,
    writes: u32,
    records: &[usize],
) -> Result<Vec<u8>, AllocError> {
    let mut bytes = Vec::from_slice(alloc, &TRACE[..12])?;
    bytes.extend_from_slice(&writes.to_le_bytes())?;
    for number in records {
        bytes.extend_from_slice(record(*number))?;
    }
    Ok(bytes)
}

/// Returns why some bytes are refused: as a slice, as an owned trace, as a trace that is held as its bytes, and
/// as touches.
fn refusals(alloc: Global, bytes: &[u8]) -> Result<[Option<TraceError>; 4], AllocError> {
    let mut owned = TestSource::new(Vec::from_slice(alloc, bytes)?, 20, None);
    let mut held = TestSource::new(Vec::from_slice(alloc, bytes)?, 7, None);
    let mut touched = TestSource::new(Vec::from_slice(alloc, bytes)?, 33, None);
    Ok([
        decode(alloc, bytes).err(),
        read_trace(alloc, &mut owned).err(),
        HeldTrace::read(alloc, &mut held).err(),
        TouchLog::read(alloc, &mut touched).err(),
    ])
}

/// Returns why the first `len` bytes of the trace are not a trace.
fn cause_of_cut(len: usize) -> TraceError {
    match len {
        0..=15 => TraceError::ShortHeader,
        16..=32 => TraceError::ShortRecord(0),
        33..=49 => TraceError::ShortRecord(1),
        50..=66 => TraceError::ShortRecord(2),
        67..=84 => TraceError::ShortRecord(3),
        _ => TraceError::ShortRecord(4),
    }
}

#[test]
fn each_beginning_is_refused(rt: HostRuntime) -> Result<(), Fail> {
    let alloc = rt.alloc();
    for len in 0..102usize {
        let mut bytes = trace_of(alloc, 5, &[0, 1, 2, 3, 4])?;
        bytes.truncate(len);
        let cause = Some(cause_of_cut(len));
        assert_eq!(rt; refusals(alloc, &bytes)?, [cause; 4], "{len} bytes");
    }
    let whole = trace_of(alloc, 5, &[0, 1, 2, 3, 4])?;
    assert_eq!(rt; whole.len(), 102);
    assert_eq!(rt; refusals(alloc, &whole)?, [None; 4]);
    Ok(())
}

#[test]
fn records_in_another_order_are_refused(rt: HostRuntime) -> Result<(), Fail> {
    let alloc = rt.alloc();
    let exchanged = trace_of(alloc, 5, &[0, 2, 1, 3, 4])?;
    let cause = Some(TraceError::TickOrder(2));
    assert_eq!(rt; refusals(alloc, &exchanged)?, [cause; 4]);
    Ok(())
}

#[test]
fn a_write_may_come_twice(rt: HostRuntime) -> Result<(), Fail> {
    let alloc = rt.alloc();
    let bytes = trace_of(alloc, 6, &[0, 1, 2, 2, 3, 4])?;
    assert_eq!(rt; refusals(alloc, &bytes)?, [None; 4]);
    let image = replay(alloc, &decode(alloc, &bytes)?).ok().ok_or("memory")?;
    assert_eq!(rt; image.bytes(), MEMORY.as_slice());
    Ok(())
}

#[test]
fn more_writes_than_there_are_bytes_are_refused(rt: HostRuntime) -> Result<(), Fail> {
    let alloc = rt.alloc();
    let bytes = trace_of(alloc, 1_048_576, &[])?;
    let cause = Some(TraceError::ShortRecord(0));
    assert_eq!(rt; refusals(alloc, &bytes)?, [cause; 4]);
    Ok(())
}

#[test]
fn two_bytes_past_the_end_of_a_page_are_refused(rt: HostRuntime) -> Result<(), Fail> {
    let alloc = rt.alloc();
    let mut bytes = trace_of(alloc, 5, &[0])?;
    bytes.extend_from_slice(&[5, 0, 0, 0, 0, 0, 0, 0, 1, 0, 0, 0, 15, 0, 2, 0, 2, 2])?;
    for number in [2usize, 3, 4] {
        bytes.extend_from_slice(record(number))?;
    }
    let cause = Some(TraceError::OutOfPage(1));
    assert_eq!(rt; refusals(alloc, &bytes)?, [cause; 4]);
    Ok(())
}

/// A source of endless zeros.
#[derive(Drop)]
struct Zeros {
    bytes: u64,
}

impl Source for Zeros {
    ghost remaining = { λ _. None };

    ghost has_failed = { λ _. false };

    fn read(&mut self, buffer: &mut [u8]) -> Option<usize> {
        buffer.fill(0);
        self.bytes = self.bytes.saturating_add(buffer.len() as u64);
        Some(buffer.len())
    }

    fn failed(&self) -> bool {
        false
    }
}

#[test]
fn more_than_the_longest_trace_is_refused(rt: HostRuntime) -> Result<(), Fail> {
    let alloc = rt.alloc();
    let mut owned = Zeros { bytes: 0 };
    assert_eq!(rt;
        read_trace(alloc, &mut owned).err(),
        Some(TraceError::TooLong)
    );
    assert!(rt; owned.bytes > 1 << 28);
    let mut held = Zeros { bytes: 0 };
    assert_eq!(rt;
        HeldTrace::read(alloc, &mut held).err(),
        Some(TraceError::TooLong)
    );
    assert!(rt; held.bytes > 1 << 28);
    let mut touched = Zeros { bytes: 0 };
    assert_eq!(rt;
        TouchLog::read(alloc, &mut touched).err(),
        Some(TraceError::TooLong)
    );
    assert!(rt; touched.bytes > 1 << 28);
    Ok(())
}
