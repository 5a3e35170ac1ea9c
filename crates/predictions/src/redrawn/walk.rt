//! The drawn pages that a round sends.

ghost use Rattle.std.specs.Prelude.{◌≡◌, ◌≤◌, ◌<◌, ◌+◌, ◌*◌, ◌/◌, ◌^◌, ◌&&◌, not, if◌then◌else◌, length};
ghost use Rattle.std.specs.List.{count_by};
ghost use Rattle.migration_model.specs.Touches.{is_written};
ghost use Rattle.page_bitmap.specs.Pages.{in_words};
ghost use Rattle.look_planner.specs.DrawnPages.{AreDrawn, places_in, redrawn_touches};
ghost use Rattle.predictions.specs.Redrawn.Rounds.{CountsSent};
ghost use Rattle.round_planner.specs.Scanning.{IsScan, IsScanWithin};

use guest_log::Timeline;
use page_bitmap::has_page;
use round_planner::{Step, mark_until};

/// Returns how many of the drawn pages are in a set.
pub(crate) fn count_in(drawn: &[u32], set: &[u64]) -> u32
    requires { length drawn.now ≤ 65_536 }
    ensures count { result ≡ count_by (in_words set.now) drawn.now }
    ensures few { result ≤ length drawn.now }
{
    let mut count = 0u32;
    for page in drawn {
        count += u32::from(has_page(set, *page));
    }
    count
}

/// A round on its way: it has sent some pages, and the walk has passed the touches before index `next`.
#[derive(Clone, Copy)]
pub(crate) struct Walk {
    pub(crate) next: usize,
    pub(crate) sent: u32,
}

/// Looks at one drawn page. It is sent if the round has it and it was not written yet. The walk goes on to where the
/// round was.
fn look<T: Timeline>(
    timeline: &T,
    listed: &[u64],
    marks: &mut [u64],
    step: Step,
    page: u32,
    walk: Walk,
) -> Walk
    requires scan { IsScanWithin (T.pages timeline.now) (T.touches timeline.now) step.from
        (step.from + 1_000 * walk.sent / step.rate) walk.next marks.old }
    requires page { page < T.pages timeline.now }
    requires rate { 1 ≤ step.rate }
    requires from { step.from < 2 ^ 42 }
    requires few { walk.sent < 65_536 }
    ensures sent { result.sent ≡ (if in_words listed.now page && not (is_written (T.touches timeline.now) step.from
        (step.from + 1_000 * walk.sent / step.rate) page) then walk.sent + 1 else walk.sent) }
    ensures scan { IsScanWithin (T.pages timeline.now) (T.touches timeline.now) step.from
        (step.from + 1_000 * result.sent / step.rate) result.next marks.new }
{
    if !has_page(listed, page) {
        return walk;
    }
    let tick = step.from + 1000 * walk.sent as u64 / step.rate;
    let next = mark_until(timeline, marks, walk.next, tick);
    if has_page(marks, page) {
        return Walk { next, ..walk };
    }
    Walk {
        next,
        sent: walk.sent + 1,
    }
}

/// Returns how far a round is when all of its pages are looked at, of which those soon written again are skipped. The
/// walk begins before the round, and goes on to where the scan of the last page ends.
pub(crate) fn count_sent<T: Timeline>(
    timeline: &T,
    drawn: &[u32],
    listed: &[u64],
    marks: &mut [u64],
    next: usize,
    step: Step,
) -> Walk
    requires drawn { AreDrawn (T.pages timeline.now) drawn.now }
    requires scan { IsScan (T.pages timeline.now) (T.touches timeline.now) step.from step.from next marks.old }
    requires rate { 1 ≤ step.rate }
    requires from { step.from < 2 ^ 42 }
    ensures sent { CountsSent (redrawn_touches drawn.now (T.touches timeline.now)) step.from step.rate
        (places_in drawn.now listed.now) result.sent }
    ensures scan { IsScanWithin (T.pages timeline.now) (T.touches timeline.now) step.from
        (step.from + 1_000 * result.sent / step.rate) result.next marks.new }
{
    let mut walk = Walk { next, sent: 0 };
    for page in drawn {
        walk = look(timeline, listed, marks, step, *page, walk);
    }
    walk
}
