//! All streams of a migration, checked at once.

// `IsWrongIn` holds of one value alone: `one_first_thing`. `IsWrongAtEnd` does: `one_first_thing`.

ghost use Rattle.std.specs.Prelude.{◌≡◌, ◌≤◌, IfErr, OnOk, length, sum};
ghost use Rattle.page_versions.specs.Index.{IsIndexOf};
ghost use Rattle.stream_check.specs.Streams.{IsAllRight, IsFirstThing, cut_by};

use crate::checker::StreamChecker;
use crate::error::StreamsError;
use guest_log::WriteLog;
use page_versions::PageIndex;
use std::alloc::Global;

/// Checks the streams of a migration that stops its guest after the first `stop` writes of the trace. `bytes` are those
/// of all streams, one after the other, and `sizes` is how many each has. The error is the first thing that is wrong,
/// stream by stream, and then page by page.
pub fn check_streams<W: WriteLog>(
    alloc: Global,
    trace: &W,
    index: &PageIndex,
    stop: u32,
    bytes: &[u8],
    sizes: &[usize],
) -> Result<(), StreamsError>
    requires of { IsIndexOf index.now (W.trace trace.now) }
    requires sizes { sum sizes.now ≤ length bytes.now }
    ensures right { OnOk result (IsAllRight (W.trace trace.now) stop (cut_by sizes.now bytes.now)) }
    ensures wrong { IfErr result (IsFirstThing (W.trace trace.now) stop (cut_by sizes.now bytes.now)) }
    ensures only { IsAllRight (W.trace trace.now) stop (cut_by sizes.now bytes.now)
        → IfErr result (λ e. e ≡ StreamsError.Memory) }
{
    let mut checker = StreamChecker::new(alloc, trace.shape(), stop)?;
    let mut rest = bytes;
    for stream in 0..sizes.len() {
        let (front, behind) = rest.split_at(sizes[stream]);
        if let Err(found) = checker.take_last(trace, index, front) {
            return Err(StreamsError::Frame(stream, found));
        }
        rest = behind;
    }
    checker.finish(trace, index)?;
    Ok(())
}
