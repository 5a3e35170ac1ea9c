//! One frame, tested.

ghost use Rattle.std.specs.Prelude.{◌≡◌, ◌^◌, IfErr, OnOk, length};
ghost use Rattle.migration_model.specs.Final.{shape_of_trace};
ghost use Rattle.migration_model.specs.Frames.{IsFrame};
ghost use Rattle.page_versions.specs.Index.{IsIndexOf};
ghost use Rattle.stream_check.specs.Faults.{IsFault, IsRight};

use crate::bytes::has_page;
use crate::faults::{FrameCause, FrameFault};
use crate::stamps::test_stamp;
use guest_log::WriteLog;
use page_message::FrameView;
use page_versions::PageIndex;

/// Tests a frame, which comes after one of its page with the stamp `last`, if any: its stamp, and then its
/// bytes, beside which those of the trace are made in a room that is lent.
pub(crate) fn test_frame<W: WriteLog>(
    trace: &W,
    index: &PageIndex,
    stop: u32,
    last: Option<u32>,
    view: &FrameView<'_>,
    room: &mut [u8],
) -> Result<(), FrameFault>
    requires of { IsIndexOf index.now (W.trace trace.now) }
    requires fits { IsFrame (shape_of_trace (W.trace trace.now)) view.now }
    requires room { length room.old ≡ 2 ^ (W.trace trace.now).shift }
    ensures right { OnOk result (IsRight (W.trace trace.now) stop last view.now) }
    ensures wrong { IfErr result (λ fault. (fault.page ≡ view.now.page) × (fault.stamp ≡ view.now.stamp)
        × IsFault (W.trace trace.now) stop last view.now fault.cause fault.wanted) }
{
    let page = view.page;
    let stamp = view.stamp;
    test_stamp(index, stop, last, page, stamp)?;
    if !has_page(trace, index, view, room) {
        return Err(FrameFault {
            cause: FrameCause::Bytes,
            page,
            stamp,
            wanted: stamp,
        });
    }
    Ok(())
}
