//! Reads and writes of one byte a call that fail, at each call in turn, in each job.

ghost use Rattle.std.specs.Prelude.{◌≡◌, IfOk, false};

use crate::input_rows::trace_of;
use byte_sinks::TestSink;
use live_engine::OpenGate;
use migration_jobs::{Job, RunError, Show, run};
use rate_limit::{Asked, Settings};
use std::alloc::{AllocError, Global};
use std::sync::Wait;
use std::test::Fail;
use std::thread::Threads;
use trace_codec::{TestSource, TraceError, read_trace};
use trace_readers::{HeldTrace, IncomingTrace, TouchLog};
use worked_guest::{ASKED, MEMORY};

/// How many jobs there are.
const JOBS: usize = 5;

/// Returns slow rates, at which the plan has three rounds and stops at tick 3667.
fn settings() -> Result<Settings, Fail> {
    Ok(Settings::new(Asked {
        workers: 2,
        streams: 2,
        replayers: 2,
        ..ASKED
    })?)
}

/// Returns the job of this number: an image, a report, live runs to the end and to the stop, or a sweep.
fn job(alloc: Global, number: usize) -> Result<Job, Fail> {
    match number {
        0 => Ok(Job::Image),
        1 => Ok(Job::Report(settings()?)),
        2 => Ok(Job::Live(settings()?, Show::End)),
        3 => Ok(Job::Live(settings()?, Show::Stop)),
        _ => {
            let mut cases = Vec::new(alloc);
            cases.push(settings()?)?;
            Ok(Job::Sweep { cases, workers: 2 })
        }
    }
}

/// Returns a source that gives one byte a call, and fails at a call.
fn source(alloc: Global, failing_call: Option<u64>) -> Result<TestSource, AllocError>
    ensures { IfOk result (λ s. s.has_failed ≡ false) }
{
    let bytes = trace_of(alloc, 5, &[0, 1, 2, 3, 4])?;
    Ok(TestSource::new(bytes, 1, failing_call))
}

/// Returns what `run` returns for a job over these, and what it leaves written.
fn ran<R: Threads + Wait + Sync>(
    rt: &R,
    alloc: Global,
    number: usize,
    failing_read: Option<u64>,
    mut sink: TestSink,
) -> Result<(Result<(), RunError>, TestSink), Fail>
    requires { sink.has_failed ≡ false }
{
    let job = job(alloc, number)?;
    let mut source = source(alloc, failing_read)?;
    let answer = run(rt, alloc, &job, &mut source, &mut sink, &OpenGate);
    Ok((answer, sink))
}

/// Whether `run` refuses a job over these for this, and leaves these bytes written.
fn is_refused<R: Threads + Wait + Sync>(
    rt: &R,
    alloc: Global,
    number: usize,
    failing_read: Option<u64>,
    sink: TestSink,
    why: RunError,
    written: &[u8],
) -> Result<bool, Fail>
    requires { sink.has_failed ≡ false }
{
    let (answer, sink) = ran(rt, alloc, number, failing_read, sink)?;
    Ok(answer == Err(why) && sink.bytes() == written)
}

/// Returns the whole output of a job.
fn whole<R: Threads + Wait + Sync>(rt: &R, alloc: Global, number: usize) -> Result<Vec<u8>, Fail> {
    let sink = TestSink::new(Vec::new(alloc), usize::MAX, None, false);
    let (answer, sink) = ran(rt, alloc, number, None, sink)?;
    answer?;
    Ok(Vec::from_slice(alloc, sink.bytes())?)
}

#[test]
fn all_jobs_write_their_output(rt: HostRuntime) -> Result<(), Fail> {
    let alloc = rt.alloc();
    for number in [0usize, 2, 3] {
        assert_eq!(rt; whole(&rt, alloc, number)?.as_slice(), MEMORY.as_slice());
    }
    let lengths = [64usize, 389, 64, 64, 100];
    for (number, length) in lengths.into_iter().enumerate() {
        assert_eq!(rt; whole(&rt, alloc, number)?.len(), length, "job {number}");
    }
    Ok(())
}

#[test]
fn each_read_that_fails_is_told(rt: HostRuntime) -> Result<(), Fail> {
    let alloc = rt.alloc();
    for number in 0..JOBS {
        // 102 calls give the bytes, and one more would report the end.
        for call in 1..=103u64 {
            let sink = TestSink::new(Vec::new(alloc), usize::MAX, None, false);
            let fault = RunError::Trace(TraceError::ReadFault);
            let told = is_refused(&rt, alloc, number, Some(call), sink, fault, &[])?;
            assert!(rt; told, "job {number}, read {call}");
        }
    }
    Ok(())
}

/// Returns a source that gives one byte a call of a trace whose first byte is wrong, and fails at a call.
fn damaged(alloc: Global, failing_call: Option<u64>) -> Result<TestSource, AllocError>
    ensures { IfOk result (λ s. s.has_failed ≡ false) }
{
    let mut bytes = trace_of(alloc, 5, &[0, 1, 2, 3, 4])?;
    if let Some(first) = bytes.first_mut() {
        *first = 0x51;
    }
    Ok(TestSource::new(bytes, 1, failing_call))
}

/// Opens an incoming trace, tests its header, and holds it whatever the header is. Returns why the header is refused,
/// and then why the trace is.
fn held_after_header(
    alloc: Global,
    mut source: TestSource,
) -> Result<(Option<TraceError>, Option<TraceError>), TraceError>
    requires { source.has_failed ≡ false }
{
    let incoming = IncomingTrace::open(alloc, &mut source)?;
    let cause = incoming.header().err();
    Ok((cause, incoming.hold(alloc, &mut source).err()))
}

/// Returns why each reader that reads to the end refuses a damaged trace, one of whose reads fails.
fn refusals(
    alloc: Global,
    failing_call: Option<u64>,
) -> Result<[Option<TraceError>; 3], AllocError> {
    Ok([
        read_trace(alloc, &mut damaged(alloc, failing_call)?).err(),
        HeldTrace::read(alloc, &mut damaged(alloc, failing_call)?).err(),
        TouchLog::read(alloc, &mut damaged(alloc, failing_call)?).err(),
    ])
}

#[test]
fn a_read_that_fails_behind_a_cause_is_told(rt: HostRuntime) -> Result<(), Fail> {
    let alloc = rt.alloc();
    let cause = Some(TraceError::BadMagic);
    let fault = Some(TraceError::ReadFault);
    assert_eq!(rt; refusals(alloc, None)?, [cause; 3]);
    assert_eq!(rt;
        held_after_header(alloc, damaged(alloc, None)?),
        Ok((cause, cause))
    );
    for call in 1..=103u64 {
        let held = held_after_header(alloc, damaged(alloc, Some(call))?);
        // The first 16 calls give the header.
        let expected = if call <= 16 {
            Err(TraceError::ReadFault)
        } else {
            Ok((cause, fault))
        };
        assert_eq!(rt; refusals(alloc, Some(call))?, [fault; 3], "read {call}");
        assert_eq!(rt; held, expected, "read {call}");
    }
    Ok(())
}

#[test]
fn each_write_that_fails_leaves_a_beginning(rt: HostRuntime) -> Result<(), Fail> {
    let alloc = rt.alloc();
    for number in 0..JOBS {
        let output = whole(&rt, alloc, number)?;
        for count in 0..output.len() {
            let sink = TestSink::new(Vec::new(alloc), 1, Some(count as u64 + 1), false);
            let begun = &output[..count];
            let told = is_refused(&rt, alloc, number, None, sink, RunError::Write, begun)?;
            assert!(rt; told, "job {number}, {count} bytes");
        }
    }
    Ok(())
}

#[test]
fn a_writer_that_takes_nothing_has_failed(rt: HostRuntime) -> Result<(), Fail> {
    let alloc = rt.alloc();
    for number in 0..JOBS {
        let sink = TestSink::new(Vec::new(alloc), 0, None, false);
        let told = is_refused(&rt, alloc, number, None, sink, RunError::Write, &[])?;
        assert!(rt; told, "job {number}");
    }
    Ok(())
}

#[test]
fn a_flush_that_fails_is_told(rt: HostRuntime) -> Result<(), Fail> {
    let alloc = rt.alloc();
    for number in 0..JOBS {
        let output = whole(&rt, alloc, number)?;
        let sink = TestSink::new(Vec::new(alloc), 64, None, true);
        let told = is_refused(&rt, alloc, number, None, sink, RunError::Write, &output)?;
        assert!(rt; told, "job {number}");
    }
    Ok(())
}
