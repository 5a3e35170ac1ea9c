//! The two parts of an index.

ghost use Rattle.std.specs.Prelude.{◌≡◌, ◌↔◌, IfOk, IsTrue};
ghost use Rattle.migration_model.specs.Touches.{AreTouches};
ghost use Rattle.page_versions.specs.Layout.{IsLaidOut};
ghost use Rattle.page_versions.specs.Runs.{AreSortedRuns};

use crate::error::IndexError;
use crate::laying::{Parts, lay_out};
use crate::runs::{Run, runs_of, sort_alone, sort_runs};
use guest_log::{Timeline, Touch};
use std::alloc::{AllocError, Global};
use std::thread::Threads;

/// Returns all touches in order.
pub(crate) fn touches_in<T: Timeline>(alloc: Global, timeline: &T) -> Result<Vec<Touch>, AllocError>
    ensures { IfOk result (λ v. v.items ≡ T.touches timeline.now) }
{
    let count = timeline.touch_count();
    let mut touches = Vec::with_capacity(alloc, count)?;
    for index in 0..count {
        touches.push(timeline.touch(index))?;
    }
    Ok(touches)
}

/// Returns the places of all touches, page by page, from their sorted runs.
fn parts_from<T: Timeline>(alloc: Global, timeline: &T, runs: &[Run]) -> Result<Parts, IndexError>
    requires fits { AreTouches (T.pages timeline.now) (T.touches timeline.now) }
    requires sorted { AreSortedRuns (T.pages timeline.now) (T.touches timeline.now) runs.now }
    ensures { IfOk result (λ parts. IsLaidOut (T.pages timeline.now) (T.touches timeline.now) parts.starts.items
        parts.places.items) }
{
    let pages = timeline.page_count();
    Ok(lay_out(alloc, pages, timeline.touch_count(), runs)?)
}

/// Returns the places of all touches, page by page, from runs of touches that several threads sort by page.
pub(crate) fn parts_of<T: Timeline>(
    rt: &(impl Threads + Sync),
    alloc: Global,
    timeline: &T,
) -> Result<Parts, IndexError>
    ensures { IfOk result (λ parts. IsLaidOut (T.pages timeline.now) (T.touches timeline.now) parts.starts.items
        parts.places.items) }
{
    let mut runs = runs_of(alloc, timeline)?;
    sort_runs(rt, &mut runs);
    parts_from(alloc, timeline, &runs)
}

/// Returns the places of all touches, page by page, made in this thread.
pub(crate) fn parts_alone<T: Timeline>(alloc: Global, timeline: &T) -> Result<Parts, IndexError>
    ensures { IfOk result (λ parts. IsLaidOut (T.pages timeline.now) (T.touches timeline.now) parts.starts.items
        parts.places.items) }
{
    let mut runs = runs_of(alloc, timeline)?;
    sort_alone(&mut runs);
    parts_from(alloc, timeline, &runs)
}

/// Returns whether these are all touches of the timeline, in order.
pub(crate) fn are_touches<T: Timeline>(touches: &[Touch], timeline: &T) -> bool
    ensures { IsTrue result ↔ (touches.now ≡ T.touches timeline.now) }
{
    if touches.len() != timeline.touch_count() {
        return false;
    }
    for i in 0..touches.len() {
        let touch = touches[i];
        let other = timeline.touch(i);
        if touch.tick != other.tick || touch.page != other.page {
            return false;
        }
    }
    true
}
