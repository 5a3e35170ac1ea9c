//! Worked examples, with results worked out by hand.

ghost use Rattle.std.specs.Prelude.{◌≡◌, false};

mod image;
mod incoming;
mod live;
mod piece;
mod released;
mod sweep;
mod version;
mod warm;

use self::image::not_zero;
use byte_sinks::TestSink;
use image_build::{Image, replay, replay_before, replay_bytes, replay_view};
use live_engine::OpenGate;
use migration_jobs::{Job, RunError, run};
use std::alloc::{AllocError, Global};
use std::sync::Wait;
use std::test::Fail;
use std::thread::Threads;
use trace_codec::{TestSource, Trace, TraceError, TraceView, decode, encode, read_trace};
use worked_guest::{MEMORY, MEMORY_AT_2000, NO_WRITES, TRACE, changed};

fn sink(alloc: Global) -> TestSink
    ensures { result.has_failed ≡ false }
{
    TestSink::new(Vec::new(alloc), usize::MAX, None, false)
}

/// Returns the whole trace.
fn whole(alloc: Global) -> Result<Vec<u8>, AllocError> {
    Vec::from_slice(alloc, &TRACE)
}

/// Returns what `run` returns for a job over a source, and the sink afterwards.
fn ran<R: Threads + Wait + Sync>(
    rt: &R,
    alloc: Global,
    job: &Job,
    mut source: TestSource,
    mut sink: TestSink,
) -> (Result<(), RunError>, TestSink)
    requires unread { source.has_failed ≡ false }
    requires unwritten { sink.has_failed ≡ false }
{
    let answer = run(rt, alloc, job, &mut source, &mut sink, &OpenGate);
    (answer, sink)
}

/// Returns whether a job over these bytes, of which at most 7 come in one read, succeeds and writes this.
fn writes<R: Threads + Wait + Sync>(
    rt: &R,
    alloc: Global,
    job: &Job,
    bytes: &[u8],
    output: &[u8],
) -> Result<bool, AllocError> {
    let source = TestSource::new(Vec::from_slice(alloc, bytes)?, 7, None);
    let (answer, sink) = ran(rt, alloc, job, source, sink(alloc));
    Ok(answer == Ok(()) && sink.bytes() == output)
}

/// Returns whether a job over these bytes is refused for this cause, and writes nothing.
fn refuses<R: Threads + Wait + Sync>(
    rt: &R,
    alloc: Global,
    job: &Job,
    bytes: Vec<u8>,
    cause: TraceError,
) -> bool {
    let source = TestSource::new(bytes, usize::MAX, None);
    let (answer, sink) = ran(rt, alloc, job, source, sink(alloc));
    answer == Err(RunError::Trace(cause)) && sink.bytes().is_empty()
}

/// Returns the memory of the trace after all writes and before tick 2000, and the number of its writes.
fn replayed(alloc: Global) -> Result<(Image, Image, u32), Fail> {
    let trace = decode(alloc, &TRACE)?;
    let before = replay_before(alloc, &trace, 2000)?;
    Ok((replay(alloc, &trace)?, before, trace.shape().writes))
}

#[test]
fn replays_memory(rt: HostRuntime) -> Result<(), Fail> {
    let (memory, before, writes) = replayed(rt.alloc())?;
    assert!(rt; memory.bytes() == MEMORY.as_slice() && before.bytes() == MEMORY_AT_2000.as_slice());
    assert!(rt; writes == 5);
    Ok(())
}

#[test]
fn writes_memory(rt: HostRuntime) -> Result<(), Fail> {
    let alloc = rt.alloc();
    let source = TestSource::new(whole(alloc)?, 7, None);
    let sink = TestSink::new(Vec::new(alloc), 10, None, false);
    let (answer, sink) = ran(&rt, alloc, &Job::Image, source, sink);
    assert!(rt; answer == Ok(()) && sink.bytes() == MEMORY.as_slice());
    Ok(())
}

#[test]
fn writes_nothing_of_an_empty_trace(rt: HostRuntime) -> Result<(), Fail> {
    assert!(rt; writes(&rt, rt.alloc(), &Job::Image, &NO_WRITES, &[0; 64])?);
    Ok(())
}

/// The same writes in a guest of 16,384 pages of 4,096 bytes.
#[test]
fn writes_large_memory(rt: HostRuntime) -> Result<(), Fail> {
    let alloc = rt.alloc();
    let source = TestSource::new(changed(alloc, 102, 5, &[12, 0, 0, 0, 0x40], &[])?, 50, None);
    let (answer, sink) = ran(&rt, alloc, &Job::Image, source, sink(alloc));
    let set = not_zero(alloc, sink.bytes())?;
    assert!(rt; answer == Ok(()) && sink.bytes().len() == 1 << 26);
    assert!(rt; set.as_slice() == [(0, 1), (4_111, 2), (12_290, 4), (12_291, 5)].as_slice());
    Ok(())
}

/// Why a changed trace is refused.
fn refusal(
    alloc: Global,
    len: usize,
    place: usize,
    patch: &[u8],
    more: &[u8],
) -> Result<Option<TraceError>, AllocError> {
    let bytes = changed(alloc, len, place, patch, more)?;
    Ok(decode(alloc, &bytes).err())
}

#[test]
fn refuses_headers(rt: HostRuntime) -> Result<(), Fail> {
    let alloc = rt.alloc();
    const CHANGES: [(usize, usize, &[u8], TraceError); 14] = [
        (0, 0, &[], TraceError::ShortHeader),
        (15, 0, &[], TraceError::ShortHeader),
        (102, 0, &[0x51], TraceError::BadMagic),
        (102, 4, &[3], TraceError::BadVersion),
        (102, 5, &[3], TraceError::BadShift),
        (102, 5, &[13], TraceError::BadShift),
        (102, 6, &[1], TraceError::BadReserved),
        (102, 8, &[0, 0, 0, 0], TraceError::BadPages),
        (102, 8, &[1, 0, 1, 0], TraceError::BadPages),
        (102, 12, &[1, 0, 16, 0], TraceError::TooManyWrites),
        (102, 12, &[6, 0, 0, 0], TraceError::ShortRecord(5)),
        (102, 12, &[4, 0, 0, 0], TraceError::TrailingBytes),
        (102, 0, &[0x51, 0x43, 0x57, 0x54, 2], TraceError::BadMagic),
        (102, 12, &[0, 0, 16, 0], TraceError::ShortRecord(5)),
    ];
    for &(len, place, patch, error) in &CHANGES {
        assert!(rt;
            refusal(alloc, len, place, patch, &[])? == Some(error),
            "{len} bytes, at {place}"
        );
    }
    Ok(())
}

#[test]
fn refuses_records(rt: HostRuntime) -> Result<(), Fail> {
    let alloc = rt.alloc();
    // First the trace without its last byte, and with one byte more.
    const CHANGES: [(usize, usize, &[u8], &[u8], TraceError); 9] = [
        (101, 0, &[], &[], TraceError::ShortRecord(4)),
        (102, 0, &[], &[0], TraceError::TrailingBytes),
        (102, 99, &[255, 255], &[], TraceError::ShortRecord(4)),
        (102, 67, &[0xaf, 4], &[], TraceError::TickOrder(3)),
        (
            102,
            85,
            &[0, 0, 0, 0, 0, 1, 0, 0],
            &[],
            TraceError::TickTooLarge(4),
        ),
        (102, 75, &[4, 0, 0, 0], &[], TraceError::PageOutOfRange(3)),
        (102, 30, &[0, 0], &[], TraceError::EmptyWrite(0)),
        (102, 45, &[16, 0], &[], TraceError::OutOfPage(1)),
        (102, 31, &[9], &[], TraceError::ShortRecord(0)),
    ];
    for &(len, place, patch, more, error) in &CHANGES {
        assert!(rt;
            refusal(alloc, len, place, patch, more)? == Some(error),
            "{len} bytes, at {place}"
        );
    }
    Ok(())
}

/// Returns the trace from a source of pieces of at most `greatest` bytes, one of whose reads may fail.
fn read_in_pieces(
    alloc: Global,
    greatest: usize,
    failing_call: Option<u64>,
) -> Result<Trace, TraceError> {
    let bytes = changed(alloc, 102, 0, &[], &[])?;
    let mut source = TestSource::new(bytes, greatest.max(1), failing_call);
    read_trace(alloc, &mut source)
}

#[test]
fn reads_to_the_end(rt: HostRuntime) -> Result<(), Fail> {
    let alloc = rt.alloc();
    let trace = read_in_pieces(alloc, 1, None)?;
    let found = (trace.shift, trace.pages, trace.writes.len());
    let failed = read_in_pieces(alloc, 50, Some(2)).err();
    assert!(rt; (found, failed) == ((4, 4, 5), Some(TraceError::ReadFault)));
    Ok(())
}

#[test]
fn writes_nothing_where_a_read_fails(rt: HostRuntime) -> Result<(), Fail> {
    let alloc = rt.alloc();
    let source = TestSource::new(whole(alloc)?, 50, Some(2));
    let (answer, sink) = ran(&rt, alloc, &Job::Image, source, sink(alloc));
    let fault = Err(RunError::Trace(TraceError::ReadFault));
    assert!(rt; answer == fault && sink.bytes().is_empty());
    Ok(())
}

#[test]
fn leaves_a_beginning_where_a_write_fails(rt: HostRuntime) -> Result<(), Fail> {
    let alloc = rt.alloc();
    let source = TestSource::new(whole(alloc)?, 102, None);
    let sink = TestSink::new(Vec::new(alloc), 10, Some(2), false);
    let (answer, sink) = ran(&rt, alloc, &Job::Image, source, sink);
    assert!(rt; answer == Err(RunError::Write) && sink.bytes() == &MEMORY[..10]);
    Ok(())
}

#[test]
fn tells_that_a_flush_failed(rt: HostRuntime) -> Result<(), Fail> {
    let alloc = rt.alloc();
    let source = TestSource::new(whole(alloc)?, 102, None);
    let sink = TestSink::new(Vec::new(alloc), 64, None, true);
    let (answer, _) = ran(&rt, alloc, &Job::Image, source, sink);
    assert!(rt; answer == Err(RunError::Write));
    Ok(())
}

/// Why the writes of the trace are refused in this version, in a guest of `pages` pages of this size.
fn refusal_of_writes(
    alloc: Global,
    version: u8,
    shift: u8,
    pages: u32,
) -> Result<Option<TraceError>, Fail> {
    let Trace { writes, .. } = decode(alloc, &TRACE)?;
    Ok(Trace::new(version, shift, pages, writes).err())
}

#[test]
fn traces_from_writes(rt: HostRuntime) -> Result<(), Fail> {
    let alloc = rt.alloc();
    assert!(rt;
        (
            refusal_of_writes(alloc, 1, 4, 4)?,
            refusal_of_writes(alloc, 2, 4, 3)?,
            refusal_of_writes(alloc, 0, 13, 3)?,
            Trace::new(1, 13, 4, Vec::new(alloc)).err(),
            Trace::new(1, 4, 0, Vec::new(alloc)).err(),
            Trace::new(1, 4, 1, Vec::new(alloc)).err()
        ) == (
            None,
            Some(TraceError::PageOutOfRange(3)),
            Some(TraceError::BadVersion),
            Some(TraceError::BadShift),
            Some(TraceError::BadPages),
            None
        )
    );
    Ok(())
}

#[test]
fn encodes_what_it_decodes(rt: HostRuntime) -> Result<(), Fail> {
    let alloc = rt.alloc();
    let trace = decode(alloc, &TRACE)?;
    let bytes = encode(alloc, &trace)?;
    assert!(rt; bytes.as_slice() == TRACE.as_slice());
    Ok(())
}

/// The memory of the trace, made from its records in place and from its bytes.
fn replayed_in_place(alloc: Global) -> Result<(Image, Image), Fail> {
    let view = TraceView::parse(&TRACE)?;
    Ok((replay_view(alloc, &view)?, replay_bytes(alloc, &TRACE)?))
}

#[test]
fn memory_of_bytes_where_they_stand(rt: HostRuntime) -> Result<(), Fail> {
    let (image, of_bytes) = replayed_in_place(rt.alloc())?;
    let bytes = of_bytes.into_bytes();
    assert!(rt; image.bytes() == MEMORY.as_slice() && bytes.as_slice() == MEMORY.as_slice());
    Ok(())
}

#[test]
fn pages_of_an_image(rt: HostRuntime) -> Result<(), Fail> {
    let alloc = rt.alloc();
    let trace = decode(alloc, &TRACE)?;
    let shape = trace.shape();
    let image = replay(alloc, &trace)?;
    if !image.fits(&shape) || shape.pages != 4 {
        return Err(Fail::from("an image of 4 pages"));
    }
    assert!(rt; image.page(3) == &MEMORY[48..]);
    Ok(())
}

#[test]
fn views_show_each_page(rt: HostRuntime) -> Result<(), Fail> {
    let view = TraceView::parse(&TRACE)?;
    let mut pages = Vec::new(rt.alloc());
    for write in view.records() {
        pages.push(write.page)?;
    }
    assert!(rt; pages.as_slice() == [0, 1, 1, 3, 1].as_slice());
    Ok(())
}

#[test]
fn views_become_traces(rt: HostRuntime) -> Result<(), Fail> {
    let trace = TraceView::parse(&TRACE)?.to_trace(rt.alloc())?;
    let is_fourth = trace.writes.get(3).is_some_and(|write| {
        write.tick == 2500 && write.offset == 2 && write.bytes.as_slice() == [4, 5].as_slice()
    });
    assert!(rt; is_fourth);
    Ok(())
}
