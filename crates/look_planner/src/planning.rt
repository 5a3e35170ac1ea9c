//! A plan, list by list.

// `IsHypervisorPlan` holds of one value alone: `one_look_plan`.

ghost use Rattle.std.specs.Prelude.{◌≡◌, ◌≤◌, ℕ, IfErr, IfOk, length, nat_lt, not, take};
ghost use Rattle.std.specs.Option.{option_map};
ghost use Rattle.migration_model.specs.Looks.{end_after, is_most};
ghost use Rattle.migration_model.specs.Rounds.{pages_lacking};
ghost use Rattle.page_bitmap.specs.Listing.{pages_of, word_count};
ghost use Rattle.look_planner.specs.Bitmaps.{IsFirst, IsReady};
ghost use Rattle.look_planner.specs.Plans.{AreNumbers, end_of};

use crate::bitmap::{ListNumbers, list_marked, look, mark_lacking};
use crate::pace::{Sent, send_list};
use crate::parts::{ListRow, LookPlan, PlanEnd};
use crate::settings::LookSettings;
use guest_log::Timeline;
use page_bitmap::word_count;
use rate_limit::duration;
use round_planner::PlanError;
use std::alloc::{AllocError, Global};

/// Returns whether there is a greatest number of looks, and these are so many.
fn is_most(most: Option<u64>, looks: usize) -> bool
    ensures { result ≡ is_most most looks }
{
    match most {
        Some(most) => looks as u64 == most,
        None => false,
    }
}

/// Returns why a plan ends with a list that was sent so, if it does. With the look so many looks are done, and it finds
/// so many pages.
pub(crate) fn end_with(
    settings: &LookSettings,
    sent: Sent,
    found: u32,
    looks: usize,
) -> Option<PlanEnd>
    ensures { (tick : ℕ) → sent.is_look ≡ not (nat_lt settings.now.end tick)
        → option_map end_of result ≡ end_after settings.now tick found looks }
{
    let asked = settings.asked();
    if !sent.is_look {
        return Some(PlanEnd::Record);
    }
    if (found as u64) < asked.threshold {
        return Some(PlanEnd::Few);
    }
    if is_most(asked.looks, looks) {
        return Some(PlanEnd::Looks);
    }
    None
}

/// Returns the first list, whose pages the front of `room` has then. They are marked before.
pub(crate) fn first_list<T: Timeline>(
    timeline: &T,
    settings: &LookSettings,
    marks: &mut [u64],
    room: &mut [u32],
) -> ListNumbers
    requires marks { length marks.old ≡ word_count (T.pages timeline.now) }
    requires lacking { pages_of marks.old ≡ pages_lacking (T.pages timeline.now) (T.touches timeline.now)
        settings.now.base settings.now.start }
    requires room { length room.old ≡ T.pages timeline.now }
    requires few { T.pages timeline.now ≤ 65_536 }
    ensures first { IsFirst (T.pages timeline.now) (T.touches timeline.now) settings.now result room.new }
    ensures ready { IsReady (T.pages timeline.now) (T.touches timeline.now) result marks.new }
{
    let start = settings.asked().start;
    let listed = list_marked(marks, room);
    ListNumbers {
        from: start,
        next: timeline.before(start),
        listed,
    }
}

/// Returns the plan that begins with a list.
fn plan_lists<T: Timeline>(
    alloc: Global,
    timeline: &T,
    settings: &LookSettings,
    first: ListNumbers,
    marks: &mut [u64],
    room: &mut [u32],
) -> Result<LookPlan, AllocError>
    requires first { IsFirst (T.pages timeline.now) (T.touches timeline.now) settings.now first room.old }
    requires ready { IsReady (T.pages timeline.now) (T.touches timeline.now) first marks.old }
    ensures { IfOk result (λ plan. AreNumbers (T.pages timeline.now) (T.touches timeline.now) settings.now plan) }
{
    let rate = settings.asked().rate;
    let mut rows = Vec::new(alloc);
    let mut total = 0u64;
    let mut now = first;
    loop {
        let sent = send_list(settings, now.from, now.listed);
        let found = look(timeline, now, sent, marks, room);
        total += sent.count as u64;
        rows.push(ListRow {
            from: now.from,
            to: sent.to,
            pages: now.listed as u64,
            sent: sent.count as u64,
            left: found.pages as u64,
        })?;
        if let Some(end) = end_with(settings, sent, found.pages, rows.len()) {
            let last = Vec::from_slice(alloc, &room[..found.pages as usize])?;
            return Ok(LookPlan {
                rows,
                end,
                stop: sent.to,
                last,
                down: duration(found.pages, rate),
                sent: total,
            });
        }
        now = ListNumbers {
            from: sent.to,
            next: found.next,
            listed: found.pages,
        };
    }
}

/// Returns the plan of a hypervisor. The error is `Memory`, if memory runs out for its bitmap of 33 bits a page, for
/// the numbers of its lists, or for the last one.
///
/// It costs as much as the touches in the ticks of its lists, the pages that are left of them, and a walk over one word
/// for 64 pages at each look. It finds the first of those touches by binary search. If the settings have a base, the
/// touches from there on count too.
pub fn look_plan<T: Timeline>(
    alloc: Global,
    timeline: &T,
    settings: &LookSettings,
) -> Result<LookPlan, PlanError>
    ensures answer { IfOk result (λ plan. AreNumbers (T.pages timeline.now) (T.touches timeline.now) settings.now
        plan) }
    ensures refusal { IfErr result (λ e. e ≡ PlanError.Memory) }
{
    let pages = timeline.page_count() as usize;
    let mut marks = Vec::from_elem(alloc, 0, word_count(pages))?;
    let mut room = Vec::from_elem(alloc, 0, pages)?;
    mark_lacking(timeline, settings, &mut marks);
    let first = first_list(timeline, settings, &mut marks, &mut room);
    let plan = plan_lists(alloc, timeline, settings, first, &mut marks, &mut room)?;
    Ok(plan)
}
