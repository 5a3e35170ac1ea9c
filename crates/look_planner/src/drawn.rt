//! The plan of a guest that consists of drawn pages, of which only the sums are kept.

// `AreSums` holds of one value alone: `one_set_of_sums`.

ghost use Rattle.std.specs.Prelude.{◌≡◌, ◌≤◌, ◌<◌, ◌/◌, ◌==◌, ◌&&◌, ◌||◌, ℕ, Some, length, replicate};
ghost use Rattle.std.specs.Prelude.{slice_index, take};
ghost use Rattle.migration_model.specs.Looks.{SentList, pages_left};
ghost use Rattle.migration_model.specs.Rounds.{pages_lacking};
ghost use Rattle.page_bitmap.specs.Listing.{pages_of, word_count};
ghost use Rattle.page_bitmap.specs.Pages.{in_words};
ghost use Rattle.look_planner.specs.Bitmaps.{IsFirst, IsListOf, IsListed, IsReady};
ghost use Rattle.look_planner.specs.DrawnPages.{AreDrawn, redrawn_touches};
ghost use Rattle.look_planner.specs.Sums.{AreSums};

use crate::bitmap::{Found, ListNumbers, list_marked, mark_all, mark_pages};
use crate::pace::{Sent, send_list};
use crate::planning::end_with;
use crate::settings::LookSettings;
use crate::summing::ListSums;
use crate::sums::LookSums;
use guest_log::Timeline;
use page_bitmap::{add_page, has_page};
use round_planner::mark_until;

/// Marks a place, if it is to be marked.
fn mark_place(places: &mut [u64], place: u32, is_marked: bool)
    requires { place / 64 < length places.old }
    ensures places { (other : ℕ) → in_words places.new other
        ≡ (in_words places.old other || ((other == place) && is_marked)) }
    ensures len { length places.new ≡ length places.old }
{
    if is_marked {
        add_page(places, place);
    }
}

/// Marks the places of the drawn pages that are marked.
fn mark_places(drawn: &[u32], marks: &[u64], places: &mut [u64])
    requires few { length drawn.now ≤ 65_536 }
    requires len { length places.old ≡ word_count (length drawn.now) }
    ensures len { length places.new ≡ length places.old }
    ensures marked { (place : ℕ) → place < length drawn.now → in_words places.new place
        ≡ (in_words places.old place || in_words marks.now (slice_index drawn.now place)) }
    ensures others { (place : ℕ) → length drawn.now ≤ place
        → in_words places.new place ≡ in_words places.old place }
{
    for place in 0..drawn.len() {
        mark_place(places, place as u32, has_page(marks, drawn[place]));
    }
}

/// Marks the places of the drawn pages that are written from a base on and before a tick, if nothing is marked.
fn mark_drawn_since<T: Timeline>(
    timeline: &T,
    base: u64,
    tick: u64,
    drawn: &[u32],
    marks: &mut [u64],
    places: &mut [u64],
)
    requires order { base ≤ tick }
    requires drawn { AreDrawn (T.pages timeline.now) drawn.now }
    requires marks { marks.old ≡ replicate (word_count (T.pages timeline.now)) 0 }
    requires places { places.old ≡ replicate (word_count (length drawn.now)) 0 }
    ensures marks { marks.new ≡ replicate (word_count (T.pages timeline.now)) 0 }
    ensures len { length places.new ≡ length places.old }
    ensures places { pages_of places.new ≡ pages_lacking (length drawn.now)
        (redrawn_touches drawn.now (T.touches timeline.now)) (Some base) tick }
{
    let next = timeline.before(base);
    mark_until(timeline, marks, next, tick);
    mark_places(drawn, marks, places);
    marks.fill(0);
}

/// Marks the places of the drawn pages that the destination lacks at the first tick, and no others. Then no page is
/// marked.
fn mark_drawn_lacking<T: Timeline>(
    timeline: &T,
    settings: &LookSettings,
    drawn: &[u32],
    marks: &mut [u64],
    places: &mut [u64],
)
    requires drawn { AreDrawn (T.pages timeline.now) drawn.now }
    requires marks { length marks.old ≡ word_count (T.pages timeline.now) }
    requires places { length places.old ≡ word_count (length drawn.now) }
    ensures marks { marks.new ≡ replicate (word_count (T.pages timeline.now)) 0 }
    ensures len { length places.new ≡ length places.old }
    ensures places { pages_of places.new ≡ pages_lacking (length drawn.now)
        (redrawn_touches drawn.now (T.touches timeline.now)) settings.now.base settings.now.start }
{
    let asked = settings.asked();
    marks.fill(0);
    places.fill(0);
    match asked.base {
        Some(base) => mark_drawn_since(timeline, base, asked.start, drawn, marks, places),
        None => mark_all(places, drawn.len() as u32),
    }
}

/// Returns the first list of drawn pages, whose places the front of `room` has then. Then nothing is marked.
fn first_drawn<T: Timeline>(
    timeline: &T,
    settings: &LookSettings,
    drawn: &[u32],
    marks: &mut [u64],
    places: &mut [u64],
    room: &mut [u32],
) -> ListNumbers
    requires drawn { AreDrawn (T.pages timeline.now) drawn.now }
    requires marks { length marks.old ≡ word_count (T.pages timeline.now) }
    requires places { length places.old ≡ word_count (length drawn.now) }
    requires room { length room.old ≡ length drawn.now }
    ensures first { IsFirst (length drawn.now) (redrawn_touches drawn.now (T.touches timeline.now)) settings.now result
        room.new }
    ensures ready { IsReady (T.pages timeline.now) (T.touches timeline.now) result marks.new }
    ensures places { places.new ≡ replicate (word_count (length drawn.now)) 0 }
{
    mark_drawn_lacking(timeline, settings, drawn, marks, places);
    let start = settings.asked().start;
    let listed = list_marked(places, room);
    ListNumbers {
        from: start,
        next: timeline.before(start),
        listed,
    }
}

/// Looks at the bitmap after a list of drawn pages that was sent so: lists the places that are left of it, and those of
/// the pages that were written meanwhile. The front of `room` lists its places, and then those.
fn look_drawn<T: Timeline>(
    timeline: &T,
    drawn: &[u32],
    now: ListNumbers,
    sent: Sent,
    marks: &mut [u64],
    places: &mut [u64],
    room: &mut [u32],
) -> Found
    requires drawn { AreDrawn (T.pages timeline.now) drawn.now }
    requires ready { IsReady (T.pages timeline.now) (T.touches timeline.now) now marks.old }
    requires places { places.old ≡ replicate (word_count (length drawn.now)) 0 }
    requires listed { IsListed (length drawn.now) now.listed room.old }
    requires order { now.from ≤ sent.to }
    requires count { sent.count ≤ now.listed }
    ensures list { (list : SentList) → IsListOf now sent room.old list → take result.pages room.new
        ≡ pages_left (length drawn.now) (redrawn_touches drawn.now (T.touches timeline.now)) list }
    ensures count { (list : SentList) → IsListOf now sent room.old list → result.pages
        ≡ length (pages_left (length drawn.now) (redrawn_touches drawn.now (T.touches timeline.now)) list) }
    ensures ready { (later : ListNumbers) → later.from ≡ sent.to → later.next ≡ result.next
        → IsReady (T.pages timeline.now) (T.touches timeline.now) later marks.new }
    ensures places { places.new ≡ replicate (word_count (length drawn.now)) 0 }
    ensures listed { IsListed (length drawn.now) result.pages room.new }
{
    let next = mark_until(timeline, marks, now.next, sent.to);
    mark_pages(places, &room[sent.count as usize..now.listed as usize]);
    mark_places(drawn, marks, places);
    marks.fill(0);
    let pages = list_marked(places, room);
    Found { pages, next }
}

/// Returns the sums of the plan of drawn pages that begins with a list.
fn sum_drawn<T: Timeline>(
    timeline: &T,
    settings: &LookSettings,
    drawn: &[u32],
    first: ListNumbers,
    marks: &mut [u64],
    places: &mut [u64],
    room: &mut [u32],
) -> LookSums
    requires drawn { AreDrawn (T.pages timeline.now) drawn.now }
    requires first { IsFirst (length drawn.now) (redrawn_touches drawn.now (T.touches timeline.now)) settings.now first
        room.old }
    requires ready { IsReady (T.pages timeline.now) (T.touches timeline.now) first marks.old }
    requires places { places.old ≡ replicate (word_count (length drawn.now)) 0 }
    ensures { AreSums (length drawn.now) (redrawn_touches drawn.now (T.touches timeline.now)) settings.now result }
{
    let mut sums = ListSums::NONE;
    let mut now = first;
    loop {
        let sent = send_list(settings, now.from, now.listed);
        let found = look_drawn(timeline, drawn, now, sent, marks, places, room);
        if let Some(end) = end_with(settings, sent, found.pages, sums.lists + 1) {
            return sums.ended(settings, end, now, sent, found.pages);
        }
        sums = sums.with(now, sent);
        now = ListNumbers {
            from: sent.to,
            next: found.next,
            listed: found.pages,
        };
    }
}

/// Returns the sums of a hypervisor's plan of a guest that consists of drawn pages: page `n` of it is written whenever
/// page `drawn[n]` of the timeline is.
///
/// It allocates nothing: the caller lends a bit of `marks` for each page of the timeline, and a bit of `places` and a
/// slot of `room` for each page that is drawn. What they hold does not matter. It costs as much as the touches in the
/// ticks of its lists, and a walk over the drawn pages at each look.
pub fn redrawn_sums<T: Timeline>(
    timeline: &T,
    settings: &LookSettings,
    drawn: &[u32],
    marks: &mut [u64],
    places: &mut [u64],
    room: &mut [u32],
) -> LookSums
    requires drawn { AreDrawn (T.pages timeline.now) drawn.now }
    requires marks { length marks.old ≡ word_count (T.pages timeline.now) }
    requires places { length places.old ≡ word_count (length drawn.now) }
    requires room { length room.old ≡ length drawn.now }
    ensures { AreSums (length drawn.now) (redrawn_touches drawn.now (T.touches timeline.now)) settings.now result }
{
    let first = first_drawn(timeline, settings, drawn, marks, places, room);
    sum_drawn(timeline, settings, drawn, first, marks, places, room)
}
