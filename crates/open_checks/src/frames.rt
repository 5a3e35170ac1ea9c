//! One frame, tested beside its page in memory.

ghost use Rattle.std.specs.Prelude.{◌≡◌, ◌↔◌, ◌*◌, ◌^◌, if◌then◌else◌, max, IfErr, IsTrue, OnErr, OnOk, length};
ghost use Rattle.migration_model.specs.Final.{shape_of_trace};
ghost use Rattle.migration_model.specs.Frames.{IsFrame, content_of};
ghost use Rattle.migration_model.specs.Memory.{memory_with, page_of, put};
ghost use Rattle.migration_model.specs.Versions.{page_at};
ghost use Rattle.page_versions.specs.Index.{version_after};
ghost use Rattle.stream_check.specs.Faults.{IsFault, IsRight};

use crate::stamps::test_stamp;
use guest_log::WriteLog;
use open_traces::OpenTrace;
use page_message::FrameView;
use stream_check::{FrameCause, FrameFault, has_bytes};

/// Returns the version at which a page is kept after a frame of it: the later one, if the frame is right.
fn kept_after(is_right: bool, version: u32, stamp: u32) -> u32
    ensures { result ≡ (if is_right then max version stamp else version) }
{
    if is_right {
        return version.max(stamp);
    }
    version
}

/// Returns whether a frame has the bytes of its page at its stamp. It makes these from the page at a version, which
/// stays in the same room: as it was, or at the frame's stamp, if this is later and the frame has its bytes.
fn has_page(trace: &OpenTrace<'_>, view: &FrameView<'_>, version: u32, content: &mut [u8]) -> bool
    requires fits { IsFrame (shape_of_trace trace.now) view.now }
    requires stamp { view.now.stamp ≡ version_after trace.now view.now.page view.now.stamp }
    requires version { version ≡ version_after trace.now view.now.page version }
    requires content { content.old ≡ page_at trace.now view.now.page version }
    ensures has { IsTrue result ↔ (content_of (shape_of_trace trace.now) view.now
        ≡ page_at trace.now view.now.page view.now.stamp) }
    ensures kept { content.new ≡ page_at trace.now view.now.page
        (if result then max version view.now.stamp else version) }
{
    // For the proof: `shape` promises that this is a trace.
    let _ = trace.shape();
    trace.turn_page(view.page, version, view.stamp, content);
    let has = has_bytes(view, content);
    trace.turn_page(
        view.page,
        view.stamp,
        kept_after(has, version, view.stamp),
        content,
    );
    has
}

/// Tests a frame, which comes after one of its page with the stamp `last`, if any, beside the page at a version.
fn test_frame(
    trace: &OpenTrace<'_>,
    stop: u32,
    last: Option<u32>,
    view: &FrameView<'_>,
    version: u32,
    content: &mut [u8],
) -> Result<(), FrameFault>
    requires fits { IsFrame (shape_of_trace trace.now) view.now }
    requires version { version ≡ version_after trace.now view.now.page version }
    requires content { content.old ≡ page_at trace.now view.now.page version }
    ensures right { OnOk result (IsRight trace.now stop last view.now) }
    ensures wrong { IfErr result (λ fault. (fault.page ≡ view.now.page) × (fault.stamp ≡ view.now.stamp)
        × IsFault trace.now stop last view.now fault.cause fault.wanted) }
    ensures kept { OnOk result (content.new ≡ page_at trace.now view.now.page (max version view.now.stamp)) }
    ensures unchanged { OnErr result (content.new ≡ content.old) }
{
    let page = view.page;
    let stamp = view.stamp;
    test_stamp(trace, stop, last, page, stamp)?;
    if !has_page(trace, view, version, content) {
        return Err(FrameFault {
            cause: FrameCause::Bytes,
            page,
            stamp,
            wanted: stamp,
        });
    }
    Ok(())
}

/// Tests a frame beside its page in memory, which has the page at a version, and then at the frame's stamp, if this is
/// later and the frame is right.
pub(crate) fn test_in_memory(
    trace: &OpenTrace<'_>,
    stop: u32,
    last: Option<u32>,
    view: &FrameView<'_>,
    version: u32,
    memory: &mut [u8],
) -> Result<(), FrameFault>
    requires fits { IsFrame (shape_of_trace trace.now) view.now }
    requires version { version ≡ version_after trace.now view.now.page version }
    requires memory { length memory.old ≡ trace.now.pages * 2 ^ trace.now.shift }
    requires content { page_of (memory_with trace.now.shift trace.now.pages memory.old) view.now.page
        ≡ page_at trace.now view.now.page version }
    ensures right { OnOk result (IsRight trace.now stop last view.now) }
    ensures wrong { IfErr result (λ fault. (fault.page ≡ view.now.page) × (fault.stamp ≡ view.now.stamp)
        × IsFault trace.now stop last view.now fault.cause fault.wanted) }
    ensures kept { OnOk result (memory.new ≡ put memory.old (view.now.page * 2 ^ trace.now.shift)
        (page_at trace.now view.now.page (max version view.now.stamp))) }
    ensures unchanged { OnErr result (memory.new ≡ memory.old) }
{
    let size = trace.shape().page_size();
    let (_, rest) = memory.split_at_mut(view.page as usize * size);
    let (content, _) = rest.split_at_mut(size);
    test_frame(trace, stop, last, view, version, content)
}
