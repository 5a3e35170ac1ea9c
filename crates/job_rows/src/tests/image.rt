//! Memory that `image` makes in pieces, since its trace is short, and memory that it makes whole, since its trace is a
//! quarter as long or longer.

use super::{ran, refuses};
use byte_sinks::TestSink;
use migration_jobs::{Job, RunError};
use std::alloc::{AllocError, Global};
use std::sync::Wait;
use std::test::Fail;
use std::thread::Threads;
use trace_codec::{TestSource, TraceError};

/// How many bytes a guest of 8,193 pages of 4,096 bytes has: 128 pieces and one page more.
const SIZE: usize = 33_558_528;

/// Returns a trace of this guest: six writes, of its first page, one in the middle and its last one.
fn wide(alloc: Global) -> Result<Vec<u8>, AllocError> {
    let header = [
        0x50, 0x43, 0x57, 0x54, 1, 12, 0, 0, 1, 0x20, 0, 0, 6, 0, 0, 0,
    ];
    // Tick, page and offset of each write, and its two bytes.
    const WRITES: [(u64, u32, u16, [u8; 2]); 6] = [
        (0, 0, 0, [1, 2]),
        (0, 8192, 4094, [0, 3]),
        (4, 5000, 16, [4, 5]),
        (4, 0, 1, [6, 7]),
        (9, 8192, 0, [8, 0]),
        (9, 5000, 17, [9, 0]),
    ];
    let mut bytes = Vec::from_slice(alloc, &header)?;
    for &(tick, page, offset, data) in &WRITES {
        bytes.extend_from_slice(&tick.to_le_bytes())?;
        bytes.extend_from_slice(&page.to_le_bytes())?;
        bytes.extend_from_slice(&offset.to_le_bytes())?;
        bytes.extend_from_slice(&[2, 0])?;
        bytes.extend_from_slice(&data)?;
    }
    Ok(bytes)
}

/// Returns this trace in version 2, with a seventh write that releases the last page.
fn wide_released(alloc: Global) -> Result<Vec<u8>, AllocError> {
    let mut bytes = wide(alloc)?;
    if bytes.len() > 16 {
        bytes[4] = 2;
        bytes[12] = 7;
    }
    bytes.extend_from_slice(&[9, 0, 0, 0, 0, 0, 0, 0, 0, 0x20, 0, 0, 0, 0, 0, 0])?;
    Ok(bytes)
}

/// Returns the offsets of the bytes that are not 0, with these bytes.
pub(crate) fn not_zero(alloc: Global, memory: &[u8]) -> Result<Vec<(usize, u8)>, AllocError> {
    let mut found = Vec::new(alloc);
    for (offset, byte) in memory.iter().enumerate() {
        if *byte != 0 {
            found.push((offset, *byte))?;
        }
    }
    Ok(found)
}

/// Returns whether an image of these bytes, of which at most `greatest` come in one read and go in one write, has only
/// these bytes that are not 0.
fn is_written<R: Threads + Wait + Sync>(
    rt: &R,
    alloc: Global,
    bytes: Vec<u8>,
    greatest: [usize; 2],
    expected: &[(usize, u8)],
) -> Result<bool, AllocError> {
    let [read, written] = greatest;
    let source = TestSource::new(bytes, read.max(1), None);
    let sink = TestSink::new(Vec::new(alloc), written, None, false);
    let (answer, sink) = ran(rt, alloc, &Job::Image, source, sink);
    let found = not_zero(alloc, sink.bytes())?;
    Ok(answer == Ok(()) && sink.bytes().len() == SIZE && found.as_slice() == expected)
}

#[test]
fn writes_large_memory(rt: HostRuntime) -> Result<(), Fail> {
    // Page 5000 begins at byte 20,480,000, and page 8192 at byte 33,554,432.
    const EXPECTED: [(usize, u8); 7] = [
        (0, 1),
        (1, 6),
        (2, 7),
        (20_480_016, 4),
        (20_480_017, 9),
        (33_554_432, 8),
        (33_558_527, 3),
    ];
    let bytes = wide(rt.alloc())?;
    assert!(rt; is_written(&rt, rt.alloc(), bytes, [33, 1_000_000], &EXPECTED)?);
    Ok(())
}

#[test]
fn writes_large_memory_with_a_released_page(rt: HostRuntime) -> Result<(), Fail> {
    const EXPECTED: [(usize, u8); 5] = [(0, 1), (1, 6), (2, 7), (20_480_016, 4), (20_480_017, 9)];
    let bytes = wide_released(rt.alloc())?;
    assert!(rt; is_written(&rt, rt.alloc(), bytes, [usize::MAX; 2], &EXPECTED)?);
    Ok(())
}

#[test]
fn writes_a_beginning_of_large_memory(rt: HostRuntime) -> Result<(), Fail> {
    let alloc = rt.alloc();
    let source = TestSource::new(wide(alloc)?, usize::MAX, None);
    // The fourth write fails, after three of 100,000 bytes.
    let sink = TestSink::new(Vec::new(alloc), 100_000, Some(4), false);
    let (answer, sink) = ran(&rt, alloc, &Job::Image, source, sink);
    let found = not_zero(alloc, sink.bytes())?;
    assert!(rt;
        answer == Err(RunError::Write)
            && found.as_slice() == [(0, 1), (1, 6), (2, 7)].as_slice()
            && (200_000..=300_000).contains(&sink.bytes().len())
    );
    Ok(())
}

/// Returns whether these bytes with one more are refused.
fn refuses_one_more<R: Threads + Wait + Sync>(
    rt: &R,
    alloc: Global,
    mut bytes: Vec<u8>,
) -> Result<bool, AllocError> {
    bytes.push(0)?;
    Ok(refuses(rt, alloc, &Job::Image, bytes, TraceError::TrailingBytes))
}

#[test]
fn refuses_large_memory_before_it_writes(rt: HostRuntime) -> Result<(), Fail> {
    let bytes = wide(rt.alloc())?;
    assert!(rt; refuses_one_more(&rt, rt.alloc(), bytes)?);
    Ok(())
}

/// Returns a trace of 512 pages of 4,096 bytes, 2 MiB: `count` writes of whole pages, one page after another and then
/// again from the first. Write `n` has bytes `n % 255 + 1`.
fn pages_in_turn(alloc: Global, count: u16) -> Result<Vec<u8>, AllocError> {
    let mut bytes = Vec::from_slice(alloc, &[80, 67, 87, 84, 1, 12, 0, 0, 0, 2, 0, 0])?;
    bytes.extend_from_slice(&u32::from(count).to_le_bytes())?;
    for number in 0..count {
        bytes.extend_from_slice(&u64::from(number).to_le_bytes())?;
        bytes.extend_from_slice(&u32::from(number % 512).to_le_bytes())?;
        bytes.extend_from_slice(&[0, 0, 0, 0x10])?;
        let end = bytes.len().saturating_add(4096);
        bytes.resize(end, (number % 255 + 1) as u8)?;
    }
    Ok(bytes)
}

/// Returns whether each page of memory has the bytes of its last write, after `count` writes in turn.
fn are_last_written(memory: &[u8], count: u16) -> bool {
    for page in 0..512u16 {
        let place = page as usize * 4096;
        let last = if page.saturating_add(512) < count {
            page.saturating_add(512)
        } else {
            page
        };
        let byte = if page < count {
            (last % 255 + 1) as u8
        } else {
            0
        };
        let Some(bytes) = memory.get(place..place + 4096) else {
            return false;
        };
        if !bytes.iter().all(|found| *found == byte) {
            return false;
        }
    }
    memory.len() == 2_097_152
}

#[test]
fn writes_memory_that_is_shorter_or_longer_than_its_trace(rt: HostRuntime) -> Result<(), Fail> {
    let alloc = rt.alloc();
    // 520 writes have 2,138,256 bytes, more than the memory; 130 have a quarter as many, and 4 have fewer.
    for count in [4u16, 130, 520] {
        for greatest in [100_000, usize::MAX] {
            let source = TestSource::new(pages_in_turn(alloc, count)?, greatest, None);
            let sink = TestSink::new(Vec::new(alloc), usize::MAX, None, false);
            let (answer, sink) = ran(&rt, alloc, &Job::Image, source, sink);
            assert!(rt;
                answer == Ok(()) && are_last_written(sink.bytes(), count),
                "{count}"
            );
        }
    }
    Ok(())
}

#[test]
fn refuses_a_longer_trace_before_it_writes(rt: HostRuntime) -> Result<(), Fail> {
    let bytes = pages_in_turn(rt.alloc(), 520)?;
    assert!(rt; refuses_one_more(&rt, rt.alloc(), bytes)?);
    Ok(())
}
