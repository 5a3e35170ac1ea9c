//! The touches of a trace, read from sources that give its bytes in pieces of many sizes.

ghost use Rattle.std.specs.Prelude.{None, false};

use super::{ran, sink, whole};
use migration_jobs::{Job, RunError};
use std::alloc::{AllocError, Global};
use std::test::Fail;
use trace_codec::{Source, TestSource, Timeline, TraceError};
use trace_readers::TouchLog;
use worked_guest::{changed, refused};

/// A source of endless bytes, which leaves the buffer as it is.
#[derive(Drop)]
struct Endless {
    reads: u64,
}

impl Source for Endless {
    ghost remaining = { λ _. None };

    ghost has_failed = { λ _. false };

    fn read(&mut self, buffer: &mut [u8]) -> Option<usize> {
        self.reads = self.reads.saturating_add(1);
        Some(buffer.len())
    }

    fn failed(&self) -> bool {
        false
    }
}

/// Returns the log of some bytes that come at most `greatest` in one read, one of which may fail.
fn log_of(
    alloc: Global,
    bytes: Vec<u8>,
    greatest: usize,
    failing_call: Option<u64>,
) -> Result<TouchLog, TraceError> {
    let mut source = TestSource::new(bytes, greatest.max(1), failing_call);
    TouchLog::read(alloc, &mut source)
}

/// Returns ticks and pages in order.
fn touches(alloc: Global, log: &TouchLog) -> Result<Vec<(u64, u32)>, AllocError> {
    let mut touches = Vec::new(alloc);
    for index in 0..log.touch_count() {
        let touch = log.touch(index);
        touches.push((touch.tick, touch.page))?;
    }
    Ok(touches)
}

#[test]
fn logs_pieces_of_every_size(rt: HostRuntime) -> Result<(), Fail> {
    let alloc = rt.alloc();
    let expected = [(0, 0), (5, 1), (1200, 1), (2500, 3), (2500, 1)];
    for greatest in [1, 2, 7, 15, 16, 17, 33, 49, 101, 102, 1000] {
        let log = log_of(alloc, changed(alloc, 102, 0, &[], &[])?, greatest, None)?;
        let shape = (log.shape().shift, log.page_count());
        let found = touches(alloc, &log)?;
        assert!(rt;
            shape == (4, 4) && found.as_slice() == expected.as_slice(),
            "{greatest}"
        );
    }
    Ok(())
}

#[test]
fn logs_bytes_that_stand_whole(rt: HostRuntime) -> Result<(), Fail> {
    let alloc = rt.alloc();
    let log = TouchLog::parse(alloc, &whole(alloc)?)?;
    let found = touches(alloc, &log)?;
    let expected = [(0, 0), (5, 1), (1200, 1), (2500, 3), (2500, 1)];
    assert!(rt; found.as_slice() == expected.as_slice());
    Ok(())
}

#[test]
fn refuses_the_first_cause_in_pieces(rt: HostRuntime) -> Result<(), Fail> {
    let alloc = rt.alloc();
    for (change, cause) in refused() {
        for greatest in [1, 20, 102, 1000] {
            let log = log_of(alloc, change.bytes(alloc)?, greatest, None);
            assert!(rt; matches!(log, Err(error) if error == cause));
        }
    }
    Ok(())
}

#[test]
fn a_failed_read_comes_before_a_cause(rt: HostRuntime) -> Result<(), Fail> {
    let alloc = rt.alloc();
    for failing in 1..=6 {
        for (place, patch) in [(0, 0x51), (41, 4), (12, 4), (12, 6), (102, 0)] {
            let bytes = changed(alloc, 102, place, &[patch], &[])?;
            let log = log_of(alloc, bytes, 20, Some(failing));
            // Six reads give 102 bytes, and the seventh is the end.
            assert!(rt; matches!(log, Err(TraceError::ReadFault)));
        }
    }
    Ok(())
}

#[test]
fn a_sweep_writes_nothing_where_a_read_fails(rt: HostRuntime) -> Result<(), Fail> {
    let alloc = rt.alloc();
    let source = TestSource::new(changed(alloc, 102, 41, &[4], &[])?, 51, Some(3));
    let job = Job::Sweep {
        cases: Vec::new(alloc),
        workers: 1,
    };
    let (answer, sink) = ran(&rt, alloc, &job, source, sink(alloc));
    let fault = Err(RunError::Trace(TraceError::ReadFault));
    assert!(rt; answer == fault && sink.bytes().is_empty());
    Ok(())
}

#[test]
fn reads_past_the_longest_trace_and_no_further(rt: HostRuntime) -> Result<(), Fail> {
    let mut source = Endless { reads: 0 };
    let log = TouchLog::read(rt.alloc(), &mut source);
    assert!(rt; matches!(log, Err(TraceError::TooLong)));
    // 2^10 pieces of 2^18 bytes, and one more.
    assert!(rt; source.reads == 1025);
    Ok(())
}

/// Returns a trace of 200 writes of whole pages of 4,096 bytes: 822,416 bytes.
fn long(alloc: Global) -> Result<Vec<u8>, AllocError> {
    let header = [80, 67, 87, 84, 1, 12, 0, 0, 1, 0, 0, 0, 200, 0, 0, 0];
    let mut bytes = Vec::from_slice(alloc, &header)?;
    for tick in 0..200u64 {
        bytes.extend_from_slice(&tick.to_le_bytes())?;
        bytes.extend_from_slice(&[0, 0, 0, 0, 0, 0, 0, 0x10])?;
        for _ in 0..256 {
            bytes.extend_from_slice(&[0xff; 16])?;
        }
    }
    Ok(bytes)
}

#[test]
fn logs_more_than_one_room(rt: HostRuntime) -> Result<(), Fail> {
    let alloc = rt.alloc();
    for greatest in [100_000, usize::MAX] {
        let log = log_of(alloc, long(alloc)?, greatest, None)?;
        let touches = touches(alloc, &log)?;
        let are_all = touches
            .iter()
            .zip(0..200u64)
            .all(|(touch, tick)| *touch == (tick, 0));
        assert!(rt; are_all && log.touch_count() == 200);
    }
    Ok(())
}
