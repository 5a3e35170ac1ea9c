//! Streams of a migration, checked against a trace.

ghost use Rattle.std.specs.Prelude.{◌≡◌, ◌≢◌, ◌≤◌, IfErr, OnErr, OnOk, length, sum};
ghost use Rattle.migration_model.specs.Trace.{GuestTrace, Spells};
ghost use Rattle.stream_check.specs.Streams.{IsAllRight, cut_by};
ghost use Rattle.c_answers.specs.StreamChecks.{AreAllRight, RefusesStreams, finding_after, finding_of, frame_finding};
ghost use Rattle.c_answers.specs.StreamChecks.{number_of_cause, number_of_stamp, number_of_streams, number_of_thing};
ghost use Rattle.c_answers.specs.StreamChecks.{page_finding, record_beside};
ghost use Rattle.c_answers.specs.declared.checking.StreamsRefusal.TheVariants.{Memory as OutOfMemory};
ghost use Rattle.c_answers.specs.declared.checking.StreamsRefusal.TheVariants.{Trace as OfTrace, Wrong as OfThing};

use crate::answers::Refusal;
use c_layout::refuse_trace;
use page_versions::{IndexError, PageIndex};
use std::alloc::{AllocError, AllocFailed, Global};
use stream_check::{FrameCause, StreamsError, WrongFrame, WrongPage, check_streams};
use trace_codec::TraceError;
use trace_readers::HeldTrace;

/// What is wrong in streams: C's `struct precopy_finding`.
#[derive(Clone, Copy)]
#[repr(C)]
pub struct StreamFinding {
    /// The number of the stream, from 0.
    pub stream: usize,
    /// The number of the frame in it, from 0.
    pub frame: usize,
    /// The byte of the stream at which the frame begins.
    pub offset: usize,
    /// The tick of the missing write.
    pub tick: u64,
    /// The page.
    pub page: u32,
    /// The stamp of the frame, or the greatest with which the page came.
    pub stamp: u32,
    /// The stamp that was to be.
    pub wanted: u32,
    /// The place of the first write that the page lacks.
    pub missing: u32,
}

/// Why streams are not found to be all right.
#[derive(Clone, Copy)]
pub enum StreamsRefusal {
    /// The sizes of the streams are not those of their bytes.
    Sizes,
    /// The bytes are not a trace.
    Trace(TraceError),
    /// Memory ran out.
    Memory,
    /// Something is wrong in the streams.
    Wrong(StreamsError),
}

impl From<TraceError> for StreamsRefusal {
    ghost from_gives = { λ e r. r ≡ OfTrace e };

    fn from(error: TraceError) -> StreamsRefusal {
        StreamsRefusal::Trace(error)
    }
}

impl From<StreamsError> for StreamsRefusal {
    ghost from_gives = { λ e r. r ≡ OfThing e };

    fn from(error: StreamsError) -> StreamsRefusal {
        StreamsRefusal::Wrong(error)
    }
}

impl From<AllocError> for StreamsRefusal {
    ghost from_gives = { λ _ r. r ≡ OutOfMemory };

    fn from(_error: AllocError) -> StreamsRefusal {
        StreamsRefusal::Memory
    }
}

impl<T: Drop> From<AllocFailed<T>> for StreamsRefusal {
    ghost from_gives = { λ _ r. r ≡ OutOfMemory };

    fn from(_error: AllocFailed<T>) -> StreamsRefusal {
        StreamsRefusal::Memory
    }
}

impl From<IndexError> for StreamsRefusal {
    ghost from_gives = { λ _ r. r ≡ OutOfMemory };

    fn from(_error: IndexError) -> StreamsRefusal {
        StreamsRefusal::Memory
    }
}

/// Returns the number of what is wrong with a frame.
pub(crate) fn cause_number(cause: FrameCause) -> u32
    ensures number { result ≡ number_of_cause cause }
    ensures some { 1 ≤ result }
{
    match cause {
        FrameCause::Refused(error) => Refusal::Frame(error).number(),
        FrameCause::NoVersion => 71,
        FrameCause::AfterStop => 72,
        FrameCause::Older => 73,
        FrameCause::Bytes => 74,
    }
}

/// Returns the number of a page that is not at its version, of which this is the greatest stamp that came.
pub(crate) fn stamp_number(stamp: Option<u32>) -> u32
    ensures number { result ≡ number_of_stamp stamp }
    ensures some { 1 ≤ result }
{
    match stamp {
        Some(_) => 75,
        None => 65,
    }
}

/// Returns the number of what is wrong in streams.
fn thing_number(thing: StreamsError) -> u32
    ensures number { result ≡ number_of_thing thing }
    ensures some { 1 ≤ result }
{
    match thing {
        StreamsError::Memory => Refusal::Memory.number(),
        StreamsError::Frame(_, found) => cause_number(found.fault.cause),
        StreamsError::Page(found) => stamp_number(found.stamp),
    }
}

/// Returns a wrong frame as C sees it.
pub(crate) fn finding_of_frame(stream: usize, found: &WrongFrame) -> StreamFinding
    ensures { result ≡ frame_finding stream found.now }
{
    StreamFinding {
        stream,
        frame: found.number,
        offset: found.offset,
        tick: 0,
        page: found.fault.page,
        stamp: found.fault.stamp,
        wanted: found.fault.wanted,
        missing: 0,
    }
}

/// Returns a wrong page as C sees it.
pub(crate) fn finding_of_page(found: &WrongPage) -> StreamFinding
    ensures { result ≡ page_finding found.now }
{
    StreamFinding {
        stream: 0,
        frame: 0,
        offset: 0,
        tick: found.tick,
        page: found.page,
        stamp: found.stamp.unwrap_or(0),
        wanted: found.wanted,
        missing: found.missing,
    }
}

/// Tells what is wrong in streams.
fn tell(thing: StreamsError, found: &mut StreamFinding)
    ensures { found.new ≡ finding_of thing found.old }
{
    match thing {
        StreamsError::Memory => (),
        StreamsError::Frame(stream, wrong) => *found = finding_of_frame(stream, &wrong),
        StreamsError::Page(wrong) => *found = finding_of_page(&wrong),
    }
}

impl StreamsRefusal {
    ghost use Rattle.std.specs.Prelude.{◌≡◌, ◌≤◌};
    ghost use Rattle.c_answers.specs.StreamChecks.{finding_after, number_of_streams, record_beside};

    /// Tells C of this refusal: sets `found` to what is wrong, or `record` to the record of a trace that is named. It
    /// returns the number of the refusal.
    pub fn told(self, found: &mut StreamFinding, record: &mut u32) -> u32
        ensures number { result ≡ number_of_streams self }
        ensures some { 1 ≤ result }
        ensures found { found.new ≡ finding_after self found.old }
        ensures record { record.new ≡ record_beside self record.old }
    {
        match self {
            StreamsRefusal::Sizes => 66,
            StreamsRefusal::Trace(error) => refuse_trace(error, record),
            StreamsRefusal::Memory => Refusal::Memory.number(),
            StreamsRefusal::Wrong(thing) => {
                tell(thing, found);
                thing_number(thing)
            }
        }
    }
}

/// Tests that streams of these sizes have all the bytes.
fn test_sizes(sizes: &[usize], bytes: &[u8]) -> Result<(), StreamsRefusal>
    ensures whole { OnOk result (sum sizes.now ≡ length bytes.now) }
    ensures refused { IfErr result (λ e. e ≡ StreamsRefusal.Sizes) }
    ensures other { OnErr result (sum sizes.now ≢ length bytes.now) }
{
    let mut left = bytes.len();
    for size in sizes {
        if *size > left {
            return Err(StreamsRefusal::Sizes);
        }
        left -= *size;
    }
    if left > 0 {
        return Err(StreamsRefusal::Sizes);
    }
    Ok(())
}

/// Checks streams against the trace that the bytes encode.
pub fn checked(
    alloc: Global,
    trace: &[u8],
    stop: u32,
    bytes: &[u8],
    sizes: &[usize],
) -> Result<(), StreamsRefusal>
    ensures right { OnOk result (AreAllRight trace.now stop bytes.now sizes.now) }
    ensures refused { IfErr result (RefusesStreams trace.now stop bytes.now sizes.now) }
    ensures only { (t : GuestTrace) → Spells trace.now t → sum sizes.now ≡ length bytes.now
        → IsAllRight t stop (cut_by sizes.now bytes.now) → IfErr result (λ e. number_of_streams e ≡ 16) }
{
    test_sizes(sizes, bytes)?;
    let held = HeldTrace::parse(alloc, Vec::from_slice(alloc, trace)?)?;
    let index = PageIndex::build_alone(alloc, &held)?;
    Ok(check_streams(alloc, &held, &index, stop, bytes, sizes)?)
}
