//! Traces of version 2, in which a write of no bytes releases its page.

ghost use Rattle.std.specs.Prelude.{◌≡◌, ◌≤◌, IfOk, false};

use super::live::{MANY, ONE_ROUND, leaves};
use super::writes;
use image_build::{replay, replay_before, replay_bytes, replay_view};
use live_engine::{OpenGate, migrate};
use migration_jobs::Job;
use rate_limit::Settings;
use std::alloc::{AllocError, Global};
use std::test::Fail;
use trace_codec::{TestSource, Trace, TraceError, TraceView, WriteLog, decode, encode, read_trace};
use trace_readers::{HeldTrace, TouchLog};
use worked_guest::{ASKED, MEMORY, MEMORY_AT_2000, REPORT, TRACE};

/// The tests' trace in version 2, except that its last write releases page 1.
pub(crate) static RELEASED: [u8; 101] = [
    0x50, 0x43, 0x57, 0x54, 2, 4, 0, 0, 4, 0, 0, 0, 5, 0, 0, 0, //
    0, 0, 0, 0, 0, 0, 0, 0, 0, 0, 0, 0, 0, 0, 1, 0, 1, //
    5, 0, 0, 0, 0, 0, 0, 0, 1, 0, 0, 0, 15, 0, 1, 0, 2, //
    0xb0, 4, 0, 0, 0, 0, 0, 0, 1, 0, 0, 0, 0, 0, 1, 0, 3, //
    0xc4, 9, 0, 0, 0, 0, 0, 0, 3, 0, 0, 0, 2, 0, 2, 0, 4, 5, //
    0xc4, 9, 0, 0, 0, 0, 0, 0, 1, 0, 0, 0, 0, 0, 0, 0,
];

/// Its memory after all writes.
static MEMORY_RELEASED: [u8; 64] = [
    1, 0, 0, 0, 0, 0, 0, 0, 0, 0, 0, 0, 0, 0, 0, 0, //
    0, 0, 0, 0, 0, 0, 0, 0, 0, 0, 0, 0, 0, 0, 0, 0, //
    0, 0, 0, 0, 0, 0, 0, 0, 0, 0, 0, 0, 0, 0, 0, 0, //
    0, 0, 4, 5, 0, 0, 0, 0, 0, 0, 0, 0, 0, 0, 0, 0,
];

/// Returns the bytes with one of them changed.
fn with_byte(alloc: Global, bytes: &[u8], offset: usize, byte: u8) -> Result<Vec<u8>, AllocError> {
    let mut bytes = Vec::from_slice(alloc, bytes)?;
    if offset < bytes.len() {
        bytes[offset] = byte;
    }
    Ok(bytes)
}

fn source(alloc: Global, bytes: &[u8], greatest: usize) -> Result<TestSource, AllocError>
    requires { 1 ≤ greatest }
    ensures { IfOk result (λ source. source.has_failed ≡ false) }
{
    Ok(TestSource::new(Vec::from_slice(alloc, bytes)?, greatest, None))
}

/// Returns the versions that readers of whole traces report.
fn versions(alloc: Global, bytes: &[u8]) -> Result<[u8; 4], Fail> {
    let held = HeldTrace::parse(alloc, Vec::from_slice(alloc, bytes)?)?.version();
    Ok([
        held,
        decode(alloc, bytes)?.version,
        TraceView::parse(bytes)?.version(),
        TouchLog::parse(alloc, bytes)?.version(),
    ])
}

/// Returns the versions that readers of pieces report.
fn versions_read(alloc: Global, bytes: &[u8]) -> Result<[u8; 2], Fail> {
    let held = HeldTrace::read(alloc, &mut source(alloc, bytes, 20)?)?.version();
    Ok([
        held,
        TouchLog::read(alloc, &mut source(alloc, bytes, 20)?)?.version(),
    ])
}

/// Returns whether all readers report this version.
fn is_version(alloc: Global, bytes: &[u8], version: u8) -> Result<bool, Fail> {
    Ok(versions(alloc, bytes)? == [version; 4] && versions_read(alloc, bytes)? == [version; 2])
}

#[test]
fn readers_tell_the_version(rt: HostRuntime) -> Result<(), Fail> {
    let alloc = rt.alloc();
    assert!(rt; is_version(alloc, &TRACE, 1)? && is_version(alloc, &RELEASED, 2)?);
    let later = with_byte(alloc, &TRACE, 4, 2)?;
    assert!(rt; is_version(alloc, &later, 2)?);
    Ok(())
}

/// Returns what all readers refuse the bytes for.
pub(crate) fn refusals(alloc: Global, bytes: &[u8]) -> Result<[Option<TraceError>; 7], AllocError> {
    Ok([
        decode(alloc, bytes).err(),
        read_trace(alloc, &mut source(alloc, bytes, 20)?).err(),
        TraceView::parse(bytes).err(),
        HeldTrace::parse(alloc, Vec::from_slice(alloc, bytes)?).err(),
        HeldTrace::read(alloc, &mut source(alloc, bytes, 20)?).err(),
        TouchLog::parse(alloc, bytes).err(),
        TouchLog::read(alloc, &mut source(alloc, bytes, 20)?).err(),
    ])
}

#[test]
fn refuses_what_is_no_release(rt: HostRuntime) -> Result<(), Fail> {
    let alloc = rt.alloc();
    const CASES: [(usize, u8, TraceError); 4] = [
        (4, 1, TraceError::EmptyWrite(4)),
        (97, 1, TraceError::EmptyWrite(4)),
        (4, 3, TraceError::BadVersion),
        (4, 0, TraceError::BadVersion),
    ];
    for &(offset, byte, error) in &CASES {
        let bytes = with_byte(alloc, &RELEASED, offset, byte)?;
        assert!(rt; refusals(alloc, &bytes)? == [Some(error); 7]);
    }
    Ok(())
}

/// Returns whether each way makes this memory from the bytes.
fn makes(alloc: Global, bytes: &[u8], memory: &[u8]) -> Result<bool, Fail> {
    let view = TraceView::parse(bytes)?;
    let of_trace = replay(alloc, &decode(alloc, bytes)?)?;
    let of_view = replay_view(alloc, &view)?;
    let of_bytes = replay_bytes(alloc, bytes)?;
    Ok(of_trace.bytes() == memory && of_view.bytes() == memory && of_bytes.bytes() == memory)
}

#[test]
fn a_released_page_is_zeros(rt: HostRuntime) -> Result<(), Fail> {
    let alloc = rt.alloc();
    assert!(rt; makes(alloc, &RELEASED, &MEMORY_RELEASED)?);
    let later = with_byte(alloc, &TRACE, 4, 2)?;
    assert!(rt; makes(alloc, &later, &MEMORY)?);
    Ok(())
}

#[test]
fn a_page_that_is_released_later_is_not_zeros(rt: HostRuntime) -> Result<(), Fail> {
    let trace = decode(rt.alloc(), &RELEASED)?;
    let before = replay_before(rt.alloc(), &trace, 2000)?;
    assert!(rt; before.bytes() == MEMORY_AT_2000.as_slice());
    Ok(())
}

/// Returns whether the trace of these bytes is encoded as these bytes.
fn comes_back(alloc: Global, bytes: &[u8]) -> Result<bool, Fail> {
    let again = encode(alloc, &decode(alloc, bytes)?)?;
    Ok(again.as_slice() == bytes)
}

#[test]
fn encodes_its_own_version(rt: HostRuntime) -> Result<(), Fail> {
    let alloc = rt.alloc();
    let later = with_byte(alloc, &TRACE, 4, 2)?;
    assert!(rt; comes_back(alloc, &RELEASED)? && comes_back(alloc, &later)?);
    Ok(())
}

/// Returns why the writes of the trace with a release are refused in this version.
fn refusal_of_writes(alloc: Global, version: u8) -> Result<Option<TraceError>, Fail> {
    let Trace { writes, .. } = decode(alloc, &RELEASED)?;
    Ok(Trace::new(version, 4, 4, writes).err())
}

#[test]
fn traces_from_writes_with_a_release(rt: HostRuntime) -> Result<(), Fail> {
    let alloc = rt.alloc();
    let found = [
        refusal_of_writes(alloc, 2)?,
        refusal_of_writes(alloc, 1)?,
        refusal_of_writes(alloc, 3)?,
    ];
    let expected = [
        None,
        Some(TraceError::EmptyWrite(4)),
        Some(TraceError::BadVersion),
    ];
    assert!(rt; found == expected);
    Ok(())
}

#[test]
fn jobs_take_a_release_for_a_write(rt: HostRuntime) -> Result<(), Fail> {
    let report = Job::Report(Settings::new(ASKED)?);
    assert!(rt; writes(&rt, rt.alloc(), &Job::Image, &RELEASED, &MEMORY_RELEASED)?);
    assert!(rt; writes(&rt, rt.alloc(), &report, &RELEASED, REPORT.as_bytes())?);
    Ok(())
}

#[test]
fn live_runs_leave_a_released_page_zeros(rt: HostRuntime) -> Result<(), Fail> {
    let alloc = rt.alloc();
    let zeros = &MEMORY_RELEASED;
    assert!(rt; leaves(&rt, alloc, &RELEASED, ASKED, zeros, zeros)?);
    assert!(rt; leaves(&rt, alloc, &RELEASED, MANY, zeros, zeros)?);
    assert!(rt; leaves(&rt, alloc, &RELEASED, ONE_ROUND, &MEMORY_AT_2000, zeros)?);
    Ok(())
}

#[test]
fn a_live_run_with_a_release_stops_where_its_plan_does(rt: HostRuntime) -> Result<(), Fail> {
    let alloc = rt.alloc();
    let trace = HeldTrace::parse(alloc, Vec::from_slice(alloc, &RELEASED)?)?;
    let settings = Settings::new(ASKED)?;
    let stopped = migrate(&rt, alloc, &trace, &settings, &OpenGate)?;
    assert!(rt; (stopped.stop, stopped.versions.as_slice()) == (3667, [1, 5, 0, 4].as_slice()));
    Ok(())
}
