//! A plan, list by list, of which only the sums are kept.

// `AreSums` holds of one value alone: `one_set_of_sums`.

ghost use Rattle.std.specs.Prelude.{◌≡◌, ◌<◌, ◌≤◌, ◌+◌, ◌^◌, length, min, nat_lt};
ghost use Rattle.migration_model.specs.Rates.{duration_of};
ghost use Rattle.page_bitmap.specs.Listing.{word_count};
ghost use Rattle.look_planner.specs.Bitmaps.{IsFirst, IsReady};
ghost use Rattle.look_planner.specs.Plans.{end_of, looks_of};
ghost use Rattle.look_planner.specs.Sums.{AreSums};

use crate::bitmap::{ListNumbers, look, mark_lacking};
use crate::pace::{Sent, send_list};
use crate::parts::{PlanEnd, looks_of};
use crate::planning::{end_with, first_list};
use crate::settings::LookSettings;
use crate::sums::LookSums;
use guest_log::Timeline;
use rate_limit::duration;

/// The sums of the lists so far.
#[derive(Clone, Copy)]
pub(crate) struct ListSums {
    /// How many there are.
    pub(crate) lists: usize,
    /// How many pages they send.
    pub(crate) sent: u64,
    /// The fewest pages of a list after the first, or `u32::MAX` if there is none.
    pub(crate) fewest: u32,
}

impl ListSums {
    /// The sums of no list.
    pub(crate) const NONE: ListSums = ListSums {
        lists: 0,
        sent: 0,
        fewest: u32::MAX,
    };

    /// Returns the sums with one more list, of which so many pages are sent.
    pub(crate) fn with(self, now: ListNumbers, sent: Sent) -> ListSums
        requires lists { self.lists < 2 ^ 60 }
        requires sent { self.sent < 2 ^ 60 }
        ensures lists { result.lists ≡ self.lists + 1 }
        ensures sent { result.sent ≡ self.sent + sent.count }
        ensures first { self.lists ≡ 0 → result.fewest ≡ self.fewest }
        ensures later { 1 ≤ self.lists → result.fewest ≡ min self.fewest now.listed }
    {
        let fewest = if self.lists == 0 {
            self.fewest
        } else {
            self.fewest.min(now.listed)
        };
        ListSums {
            lists: self.lists + 1,
            sent: self.sent + sent.count as u64,
            fewest,
        }
    }

    /// Returns the sums of a plan that ends with one more list, of which so many pages are sent and are left.
    pub(crate) fn ended(
        self,
        settings: &LookSettings,
        end: PlanEnd,
        now: ListNumbers,
        sent: Sent,
        left: u32,
    ) -> LookSums
        requires lists { self.lists < 2 ^ 60 }
        requires sent { self.sent < 2 ^ 60 }
        requires left { left < 65_537 }
        ensures end { result.end ≡ end }
        ensures looks { result.looks ≡ looks_of (end_of end) (self.lists + 1) }
        ensures stop { result.stop ≡ sent.to }
        ensures total { result.total ≡ self.sent + sent.count + left }
        ensures left { result.left ≡ left }
        ensures down { result.down ≡ duration_of left settings.now.rate }
        ensures shortens { result.shortens ≡ nat_lt now.listed self.fewest }
    {
        LookSums {
            end,
            looks: looks_of(end, self.lists + 1) as u64,
            stop: sent.to,
            total: self.sent + sent.count as u64 + left as u64,
            left: left as u64,
            down: duration(left, settings.asked().rate),
            shortens: now.listed < self.fewest,
        }
    }
}

/// Returns the sums of the plan that begins with a list.
fn sum_lists<T: Timeline>(
    timeline: &T,
    settings: &LookSettings,
    first: ListNumbers,
    marks: &mut [u64],
    room: &mut [u32],
) -> LookSums
    requires first { IsFirst (T.pages timeline.now) (T.touches timeline.now) settings.now first room.old }
    requires ready { IsReady (T.pages timeline.now) (T.touches timeline.now) first marks.old }
    ensures { AreSums (T.pages timeline.now) (T.touches timeline.now) settings.now result }
{
    let mut sums = ListSums::NONE;
    let mut now = first;
    loop {
        let sent = send_list(settings, now.from, now.listed);
        let found = look(timeline, now, sent, marks, room);
        if let Some(end) = end_with(settings, sent, found.pages, sums.lists + 1) {
            return sums.ended(settings, end, now, sent, found.pages);
        }
        sums = sums.with(now, sent);
        now = ListNumbers {
            from: sent.to,
            next: found.next,
            listed: found.pages,
        };
    }
}

/// Returns the sums of the plan of a hypervisor. It allocates nothing: the caller lends a bit of `marks` and a slot of
/// `room` for each page. What they hold does not matter.
///
/// It costs as much as the touches in the ticks of its lists, the pages that are left of them, and a walk over one word
/// for 64 pages at each look. If the settings have a base, the touches from there on count too.
pub fn look_sums<T: Timeline>(
    timeline: &T,
    settings: &LookSettings,
    marks: &mut [u64],
    room: &mut [u32],
) -> LookSums
    requires marks { length marks.old ≡ word_count (T.pages timeline.now) }
    requires room { length room.old ≡ T.pages timeline.now }
    ensures { AreSums (T.pages timeline.now) (T.touches timeline.now) settings.now result }
{
    mark_lacking(timeline, settings, marks);
    let first = first_list(timeline, settings, marks, room);
    sum_lists(timeline, settings, first, marks, room)
}
