//! The bitmap that the hypervisor looks at, and the list of the pages that it finds there.

ghost use Rattle.std.specs.Prelude.{◌≡◌, ◌≤◌, ◌<◌, ◌/◌, ◌||◌, ℕ, Some, length, replicate, take};
ghost use Rattle.std.specs.List.{All, range_with_len};
ghost use Rattle.migration_model.specs.Looks.{SentList, is_among, pages_left};
ghost use Rattle.migration_model.specs.Rounds.{pages_lacking};
ghost use Rattle.page_bitmap.specs.Listing.{pages_of, word_count};
ghost use Rattle.page_bitmap.specs.Pages.{in_words};
ghost use Rattle.look_planner.specs.Bitmaps.{IsListOf, IsListed, IsReady};

use crate::pace::Sent;
use crate::settings::LookSettings;
use guest_log::Timeline;
use page_bitmap::{add_page, list_pages};
use round_planner::mark_until;

/// A list that is sent, by its numbers.
#[derive(Clone, Copy)]
pub(crate) struct ListNumbers {
    /// The tick at which it begins.
    pub(crate) from: u64,
    /// How many touches there are before that.
    pub(crate) next: usize,
    /// How many pages it has.
    pub(crate) listed: u32,
}

/// What a look finds.
#[derive(Clone, Copy)]
pub(crate) struct Found {
    /// How many pages.
    pub(crate) pages: u32,
    /// How many touches there are before the look.
    pub(crate) next: usize,
}

/// Marks these pages.
pub(crate) fn mark_pages(marks: &mut [u64], pages: &[u32])
    requires { All (λ page. page / 64 < length marks.old) pages.now }
    ensures pages { (page : ℕ) → in_words marks.new page ≡ (in_words marks.old page || is_among page pages.now) }
    ensures len { length marks.new ≡ length marks.old }
{
    for page in pages {
        add_page(marks, *page);
    }
}

/// Lists the marked pages, and clears the marks. Returns how many pages there were.
pub(crate) fn list_marked(marks: &mut [u64], room: &mut [u32]) -> u32
    requires marks { length marks.old ≤ 1_024 }
    requires room { length (pages_of marks.old) ≤ length room.old }
    ensures list { take result room.new ≡ pages_of marks.old }
    ensures count { result ≡ length (pages_of marks.old) }
    ensures clear { marks.new ≡ replicate (length marks.old) 0 }
    ensures room { length room.new ≡ length room.old }
{
    let count = list_pages(marks, room);
    marks.fill(0);
    count as u32
}

/// Marks all pages of a guest, if none is marked.
pub(crate) fn mark_all(marks: &mut [u64], pages: u32)
    requires len { length marks.old ≡ word_count pages }
    requires clear { marks.old ≡ replicate (word_count pages) 0 }
    ensures len { length marks.new ≡ length marks.old }
    ensures pages { pages_of marks.new ≡ range_with_len 0 pages }
{
    for page in 0..pages {
        add_page(marks, page);
    }
}

/// Marks the pages that are written from a base on and before a tick, if none is marked.
fn mark_since<T: Timeline>(timeline: &T, base: u64, tick: u64, marks: &mut [u64])
    requires order { base ≤ tick }
    requires clear { marks.old ≡ replicate (word_count (T.pages timeline.now)) 0 }
    ensures len { length marks.new ≡ length marks.old }
    ensures pages { pages_of marks.new ≡ pages_lacking (T.pages timeline.now) (T.touches timeline.now) (Some base)
        tick }
{
    let next = timeline.before(base);
    mark_until(timeline, marks, next, tick);
}

/// Marks the pages that the destination lacks at the first tick, and no others.
pub(crate) fn mark_lacking<T: Timeline>(timeline: &T, settings: &LookSettings, marks: &mut [u64])
    requires { length marks.old ≡ word_count (T.pages timeline.now) }
    ensures len { length marks.new ≡ length marks.old }
    ensures pages { pages_of marks.new ≡ pages_lacking (T.pages timeline.now) (T.touches timeline.now)
        settings.now.base settings.now.start }
    ensures few { T.pages timeline.now ≤ 65_536 }
{
    let pages = timeline.page_count();
    let asked = settings.asked();
    marks.fill(0);
    match asked.base {
        Some(base) => mark_since(timeline, base, asked.start, marks),
        None => mark_all(marks, pages),
    }
}

/// Looks at the bitmap after a list that was sent so: lists the pages that are left of it, and those that were written
/// meanwhile. The front of `room` lists its pages, and then those.
pub(crate) fn look<T: Timeline>(
    timeline: &T,
    now: ListNumbers,
    sent: Sent,
    marks: &mut [u64],
    room: &mut [u32],
) -> Found
    requires ready { IsReady (T.pages timeline.now) (T.touches timeline.now) now marks.old }
    requires listed { IsListed (T.pages timeline.now) now.listed room.old }
    requires order { now.from ≤ sent.to }
    requires count { sent.count ≤ now.listed }
    ensures list { (list : SentList) → IsListOf now sent room.old list
        → take result.pages room.new ≡ pages_left (T.pages timeline.now) (T.touches timeline.now) list }
    ensures count { (list : SentList) → IsListOf now sent room.old list
        → result.pages ≡ length (pages_left (T.pages timeline.now) (T.touches timeline.now) list) }
    ensures ready { (later : ListNumbers) → later.from ≡ sent.to → later.next ≡ result.next
        → IsReady (T.pages timeline.now) (T.touches timeline.now) later marks.new }
    ensures listed { IsListed (T.pages timeline.now) result.pages room.new }
{
    let next = mark_until(timeline, marks, now.next, sent.to);
    mark_pages(marks, &room[sent.count as usize..now.listed as usize]);
    let pages = list_marked(marks, room);
    Found { pages, next }
}
