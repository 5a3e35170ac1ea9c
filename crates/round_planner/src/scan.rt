//! A walk over the touches from a round's first tick on, which marks their pages.

ghost use Rattle.std.specs.Prelude.{◌≡◌, ◌≤◌, ◌<◌, ◌+◌, ◌*◌, ◌/◌, ◌^◌, not, ℕ, IfSome, None, if◌then◌else◌, true};
ghost use Rattle.std.specs.Prelude.{length, slice_index_or, take};
ghost use Rattle.migration_model.specs.Touches.{AreTouches, is_written, no_touch};
ghost use Rattle.migration_model.specs.Rounds.{IsSent};
ghost use Rattle.round_planner.specs.Scanning.{HasRoom, IsNextBefore, IsPace, IsPageList, IsProgress, IsScan};
ghost use Rattle.round_planner.specs.Scanning.{IsScanWithin};

use crate::numbers::RoundNumbers;
use crate::pace::{Pace, Progress};
use guest_log::Timeline;
use page_bitmap::{add_page, has_page};

/// Returns the page of touch `next`, if there is one and it is before the tick.
fn page_before<T: Timeline>(timeline: &T, next: usize, tick: u64) -> Option<u32>
    ensures some { IfSome result (λ page. IsNextBefore (T.pages timeline.now) (T.touches timeline.now) next tick page) }
    ensures none { result ≡ None → next < length (T.touches timeline.now)
        → tick ≤ (slice_index_or (T.touches timeline.now) next no_touch).tick }
    ensures fits { AreTouches (T.pages timeline.now) (T.touches timeline.now) }
{
    if next >= timeline.touch_count() {
        return None;
    }
    let touch = timeline.touch(next);
    if touch.tick < tick {
        Some(touch.page)
    } else {
        None
    }
}

/// Marks the pages of the touches from index `next` on and before a tick. Returns the index of the next touch. It takes
/// the walk's fields as arguments, so that they can be kept in registers.
pub fn mark_until<T: Timeline>(timeline: &T, marks: &mut [u64], next: usize, tick: u64) -> usize
    requires { HasRoom (T.pages timeline.now) (T.touches timeline.now) next marks.old }
    ensures room { HasRoom (T.pages timeline.now) (T.touches timeline.now) result marks.new }
    ensures walked { (from upto : ℕ) → upto ≤ tick → IsScan (T.pages timeline.now) (T.touches timeline.now) from
        upto next marks.old
        → IsScan (T.pages timeline.now) (T.touches timeline.now) from tick result marks.new }
{
    let mut at = next;
    while let Some(page) = page_before(timeline, at, tick) {
        add_page(marks, page);
        at += 1;
    }
    at
}

/// A walk on its way through a round: it has passed the touches before index `next`, and the round has come this far.
#[derive(Clone, Copy)]
pub(crate) struct Walk {
    pub(crate) next: usize,
    pub(crate) at: Progress,
}

/// Looks at one page of a round. Returns how far the round is then. The walk goes on to where the round was.
fn look<T: Timeline>(timeline: &T, marks: &mut [u64], pace: &Pace, page: u32, walk: Walk) -> Walk
    requires scan { IsScanWithin (T.pages timeline.now) (T.touches timeline.now) pace.now.from walk.at.tick
        walk.next marks.old }
    requires page { page < T.pages timeline.now }
    requires pace { IsPace pace.now }
    requires at { IsProgress pace.now walk.at }
    requires few { walk.at.sent < 65_536 }
    ensures sent { result.at.sent ≡ (if not (is_written (T.touches timeline.now) pace.now.from walk.at.tick page) then
        walk.at.sent + 1 else walk.at.sent) }
    ensures at { IsProgress pace.now result.at }
    ensures scan { IsScanWithin (T.pages timeline.now) (T.touches timeline.now) pace.now.from result.at.tick
        result.next marks.new }
{
    let next = mark_until(timeline, marks, walk.next, walk.at.tick);
    if has_page(marks, page) {
        return Walk { next, at: walk.at };
    }
    Walk {
        next,
        at: pace.send(walk.at),
    }
}

/// Sends the pages of a round that the front of `room` lists, but for those soon written again, and lists those sent in
/// their place. Returns how far the round is then. The walk begins before the round, and goes on to where the scan of
/// the last page ends.
pub(crate) fn skim<T: Timeline>(
    timeline: &T,
    marks: &mut [u64],
    room: &mut [u32],
    now: &RoundNumbers,
) -> Walk
    requires scan { IsScan (T.pages timeline.now) (T.touches timeline.now) now.now.step.from now.now.step.from
        now.now.next marks.old }
    requires pages { IsPageList (T.pages timeline.now) (take now.now.listed room.old) }
    requires listed { now.now.listed ≤ length room.old }
    requires rate { 1 ≤ now.now.step.rate }
    requires from { now.now.step.from < 2 ^ 42 }
    ensures sent { IsSent true (T.touches timeline.now) now.now.step.from now.now.step.rate
        (take now.now.listed room.old) (take result.at.sent room.new) }
    ensures count { result.at.sent ≤ now.now.listed }
    ensures room { length room.new ≡ length room.old }
    ensures scan { IsScanWithin (T.pages timeline.now) (T.touches timeline.now) now.now.step.from
        (now.now.step.from + 1_000 * result.at.sent / now.now.step.rate) result.next marks.new }
{
    let pace = Pace::new(now.step.from, now.step.rate);
    let mut walk = Walk {
        next: now.next,
        at: pace.begin(),
    };
    for index in 0..now.listed as usize {
        let page = room[index];
        room[walk.at.sent as usize] = page;
        walk = look(timeline, marks, &pace, page, walk);
    }
    walk
}
