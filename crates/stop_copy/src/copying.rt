//! The final copy: the stop-and-copy phase of Clark and others (2005), section 3.1.

ghost use Rattle.std.specs.Prelude.{◌≡◌, ◌≤◌, IfOk, length};
ghost use Rattle.std.specs.List.{All};
ghost use Rattle.page_bitmap.specs.Pages.{in_words};
ghost use Rattle.dirty_words.specs.Closing.{FitsPages};
ghost use Rattle.migration_model.specs.Final.{IsFinalCopy, shape_of_trace};
ghost use Rattle.page_versions.specs.Index.{IsIndexOf};

use crate::dealing::{deal_out, know_parts};
use crate::error::CopyError;
use crate::frames::CurrentPages;
use crate::workers::frames_by_workers;
use collector::Part;
use dirty_words::Closed;
use guest_log::WriteLog;
use page_bitmap::pages_in;
use page_versions::PageIndex;
use std::alloc::Global;
use std::sync::Wait;
use std::thread::Threads;
use stream_split::Dealer;

/// Sends each page that is still marked once more, at its version, to one of the parts, one for each stream. Returns
/// the parts. Up to `workers` threads make the frames, which are dealt out in page order. After an error the parts are
/// dropped. The error is `Thread` only if a thread could not be started.
pub fn final_copy<R: Threads + Wait + Sync, W: WriteLog + Sync>(
    rt: &R,
    alloc: Global,
    trace: &W,
    index: &PageIndex,
    closed: &Closed,
    workers: usize,
    streams: usize,
    mut parts: Vec<Part>,
) -> Result<Vec<Part>, CopyError>
    requires of { IsIndexOf index.now (W.trace trace.now) }
    requires closed { FitsPages closed.now (W.trace trace.now).pages (length (W.trace trace.now).writes) }
    requires some_workers { 1 ≤ workers }
    requires few_workers { workers ≤ 16 }
    requires some_streams { 1 ≤ streams }
    requires few_streams { streams ≤ 16 }
    requires parts { length parts.items ≡ streams }
    requires shapes { All (λ part. part.shape ≡ shape_of_trace (W.trace trace.now)) parts.items }
    ensures { IfOk result (λ copied. IsFinalCopy (W.trace trace.now) closed.now.versions (in_words closed.now.dirty)
        parts.items copied.items) }
{
    // For the proof: `shape` promises that a guest has at most 65,536 pages.
    let _ = trace.shape();
    let marked = pages_in(alloc, &closed.dirty)?;
    let current = CurrentPages {
        trace,
        index,
        versions: &closed.versions,
    };
    let frames = frames_by_workers(rt, alloc, &current, &marked, workers)?;
    know_parts(&parts);
    let mut dealer = Dealer::new(streams);
    deal_out(&mut dealer, &mut parts, frames)?;
    Ok(parts)
}
