//! Stamps of pages, in words, and those of frames.

ghost use Rattle.std.specs.Prelude.{◌≡◌, ◌<◌, ◌≤◌, IfErr, OnOk, length};
ghost use Rattle.stream_check.specs.Faults.{IsRightStamp, IsStampFault};
ghost use Rattle.open_checks.specs.Kept.{stamp_in};

use open_traces::OpenTrace;
use stream_check::{FrameCause, FrameFault};

/// Returns the stamp in the word of a page, if the page came.
pub(crate) fn stamp_of(word: u32) -> Option<u32>
    ensures { result ≡ stamp_in word }
{
    if word == 0 {
        return None;
    }
    Some(word - 1)
}

/// Tests the stamp of a frame, which comes after one of its page with the stamp `last`, if any. If it is right, it
/// looks at one write of the trace.
pub(crate) fn test_stamp(
    trace: &OpenTrace<'_>,
    stop: u32,
    last: Option<u32>,
    page: u32,
    stamp: u32,
) -> Result<(), FrameFault>
    requires page { page < trace.now.pages }
    requires stamp { stamp ≤ length trace.now.writes }
    ensures right { OnOk result (IsRightStamp trace.now stop last page stamp) }
    ensures wrong { IfErr result (λ fault. (fault.page ≡ page) × (fault.stamp ≡ stamp)
        × IsStampFault trace.now stop last page stamp fault.cause fault.wanted) }
{
    if !trace.is_version(page, stamp) {
        return Err(FrameFault {
            cause: FrameCause::NoVersion,
            page,
            stamp,
            wanted: trace.version_after(page, stamp),
        });
    }
    if stamp > stop {
        return Err(FrameFault {
            cause: FrameCause::AfterStop,
            page,
            stamp,
            wanted: trace.version_after(page, stop),
        });
    }
    match last {
        Some(came) if stamp < came => Err(FrameFault {
            cause: FrameCause::Older,
            page,
            stamp,
            wanted: came,
        }),
        Some(_) => Ok(()),
        None => Ok(()),
    }
}
