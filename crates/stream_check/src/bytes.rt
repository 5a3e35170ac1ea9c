//! The bytes of a frame, and those that a trace gives.

ghost use Rattle.std.specs.Prelude.{◌≡◌, ◌↔◌, ◌<◌, ◌≤◌, ◌^◌, IsTrue, length, replicate, unwrap_or};
ghost use Rattle.migration_model.specs.Final.{shape_of_trace};
ghost use Rattle.migration_model.specs.Frames.{IsFrame, content_of};
ghost use Rattle.migration_model.specs.Versions.{page_at};
ghost use Rattle.page_versions.specs.Index.{IsIndexOf};

use guest_log::WriteLog;
use page_message::FrameView;
use page_versions::{PageIndex, PageProgress};
use zero_pages::is_zero;

/// A page before its first write.
const UNWRITTEN: PageProgress = PageProgress {
    version: 0,
    writes: 0,
};

/// Returns whether these are the bytes of a frame's page.
pub fn has_bytes(view: &FrameView<'_>, bytes: &[u8]) -> bool
    ensures { IsTrue result ↔ (unwrap_or view.now.body (replicate (length bytes.now) 0) ≡ bytes.now) }
{
    match view.body {
        None => is_zero(bytes),
        Some(body) => body == bytes,
    }
}

/// Fills a room with zeros.
fn clear(room: &mut [u8])
    ensures { room.new ≡ replicate (length room.old) 0 }
{
    room.fill(0);
}

/// Makes the bytes of a page at a version. What is in the room for them is lost.
fn make_page<W: WriteLog>(trace: &W, index: &PageIndex, page: u32, version: u32, room: &mut [u8])
    requires of { IsIndexOf index.now (W.trace trace.now) }
    requires page { page < index.now.pages }
    requires version { version ≤ length (W.trace trace.now).writes }
    requires room { length room.old ≡ 2 ^ (W.trace trace.now).shift }
    ensures { room.new ≡ page_at (W.trace trace.now) page version }
{
    // For the proof: `shape` promises that the log describes a trace.
    let _ = trace.shape();
    clear(room);
    let _ = index.bring_on(trace, page, UNWRITTEN, version, room);
}

/// Returns whether a frame has the bytes of its page at its stamp. It makes these in a room that is lent.
pub(crate) fn has_page<W: WriteLog>(
    trace: &W,
    index: &PageIndex,
    view: &FrameView<'_>,
    room: &mut [u8],
) -> bool
    requires of { IsIndexOf index.now (W.trace trace.now) }
    requires fits { IsFrame (shape_of_trace (W.trace trace.now)) view.now }
    requires room { length room.old ≡ 2 ^ (W.trace trace.now).shift }
    ensures { IsTrue result ↔ (content_of (shape_of_trace (W.trace trace.now)) view.now
        ≡ page_at (W.trace trace.now) view.now.page view.now.stamp) }
{
    // For the proof: `shape` promises that the log describes a trace.
    let _ = trace.shape();
    make_page(trace, index, view.page, view.stamp, room);
    has_bytes(view, room)
}
