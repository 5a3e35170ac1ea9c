//! The sums of a plan of redrawn pages.

// `IsPlan` holds of one value alone: `one_plan`.

ghost use Rattle.std.specs.Prelude.{◌≡◌, ◌↔◌, ◌≤◌, ◌<◌, ◌+◌, ℕ, IsTrue, List, length, true};
ghost use Rattle.std.specs.Prelude.{slice_index};
ghost use Rattle.migration_model.specs.Rounds.{NextRound, first_round};
ghost use Rattle.migration_model.specs.Rates.{AreSettings};
ghost use Rattle.migration_model.specs.Sweeps.{IsOutcome};
ghost use Rattle.migration_model.specs.Touches.{GuestTouch};
ghost use Rattle.page_bitmap.specs.Pages.{in_words};
ghost use Rattle.page_bitmap.specs.Listing.{word_count};
ghost use Rattle.look_planner.specs.DrawnPages.{AreDrawn, places_in, redrawn_touches};
ghost use Rattle.predictions.specs.Redrawn.Rounds.{HasRunTo, HasSent, IsStanding, StandsAt};
ghost use Rattle.round_planner.specs.Scanning.{IsScan};

use crate::redrawn::walk::{count_in, count_sent};
use guest_log::Timeline;
use page_bitmap::add_page;
use rate_limit::{Settings, duration};
use round_planner::{Following, Outcome, RoundNumbers, RoundSums, SentPages, mark_until, may_skip};

/// Sends the pages of a round.
fn send_pages<T: Timeline>(
    timeline: &T,
    settings: &Settings,
    drawn: &[u32],
    now: &RoundNumbers,
    listed: &[u64],
    marks: &mut [u64],
) -> SentPages
    requires drawn { AreDrawn (T.pages timeline.now) drawn.now }
    requires now { IsStanding (T.pages timeline.now) (T.touches timeline.now) drawn.now settings.now now.now
        listed.now marks.old }
    ensures { (coming : NextRound) → StandsAt (T.pages timeline.now) (T.touches timeline.now) drawn.now settings.now
        coming now.now listed.now marks.old
        → HasSent (T.pages timeline.now) (T.touches timeline.now) drawn.now settings.now coming result marks.new }
{
    if !may_skip(settings, now.step.done) {
        return SentPages {
            count: now.listed,
            next: now.next,
        };
    }
    let walk = count_sent(timeline, drawn, listed, marks, now.next, now.step);
    SentPages {
        count: walk.sent,
        next: walk.next,
    }
}

/// Runs a round. Then the pages that are written meanwhile are marked.
fn run_round<T: Timeline>(
    timeline: &T,
    settings: &Settings,
    drawn: &[u32],
    now: &RoundNumbers,
    listed: &[u64],
    marks: &mut [u64],
) -> RoundSums
    requires drawn { AreDrawn (T.pages timeline.now) drawn.now }
    requires now { IsStanding (T.pages timeline.now) (T.touches timeline.now) drawn.now settings.now now.now
        listed.now marks.old }
    ensures ran { (coming : NextRound) → StandsAt (T.pages timeline.now) (T.touches timeline.now) drawn.now settings.now
        coming now.now listed.now marks.old
        → HasRunTo (T.pages timeline.now) (T.touches timeline.now) drawn.now settings.now coming result marks.new }
    ensures few { result.dirtied ≤ 65_536 }
{
    let sent = send_pages(timeline, settings, drawn, now, listed, marks);
    let to = now.step.from + duration(sent.count, now.step.rate);
    let next = mark_until(timeline, marks, sent.next, to);
    let dirtied = count_in(drawn, marks);
    RoundSums {
        sent: sent.count,
        to,
        next,
        dirtied,
    }
}

/// Marks the drawn pages.
fn mark_drawn(drawn: &[u32], listed: &mut [u64], pages: u32)
    requires drawn { AreDrawn pages drawn.now }
    requires listed { length listed.old ≡ word_count pages }
    ensures each { (place : ℕ) → place < length drawn.now
        → in_words listed.new (slice_index drawn.now place) ≡ true }
{
    for page in drawn {
        add_page(listed, *page);
    }
}

/// Marks the pages that the destination lacks at the first tick: all that are drawn, or, if it begins with the memory
/// before a base, those written since.
fn mark_lacking<T: Timeline>(timeline: &T, settings: &Settings, drawn: &[u32], listed: &mut [u64])
    requires drawn { AreDrawn (T.pages timeline.now) drawn.now }
    requires listed { length listed.old ≡ word_count (T.pages timeline.now) }
    ensures listed { (first_round (length drawn.now) (redrawn_touches drawn.now (T.touches timeline.now))
        settings.now).pages ≡ places_in drawn.now listed.new }
{
    listed.fill(0);
    let asked = settings.asked();
    match asked.base {
        Some(base) => {
            let next = timeline.before(base);
            mark_until(timeline, listed, next, asked.start);
        }
        None => mark_drawn(drawn, listed, timeline.page_count()),
    }
}

/// Returns the numbers of the first round, whose pages are marked in `listed`. No page is marked in `marks`.
fn first_redrawn<T: Timeline>(
    timeline: &T,
    settings: &Settings,
    drawn: &[u32],
    listed: &mut [u64],
    marks: &mut [u64],
) -> RoundNumbers
    requires drawn { AreDrawn (T.pages timeline.now) drawn.now }
    requires listed { length listed.old ≡ word_count (T.pages timeline.now) }
    requires marks { length marks.old ≡ word_count (T.pages timeline.now) }
    ensures stands { StandsAt (T.pages timeline.now) (T.touches timeline.now) drawn.now settings.now
        (first_round (length drawn.now) (redrawn_touches drawn.now (T.touches timeline.now)) settings.now)
        result listed.new marks.new }
    ensures in_range { AreSettings settings.now }
    ensures done { result.step.done ≡ 0 }
    ensures total { result.total ≡ 0 }
{
    mark_lacking(timeline, settings, drawn, listed);
    marks.fill(0);
    let asked = settings.asked();
    let next = timeline.before(asked.start);
    RoundNumbers::first(settings, next, count_in(drawn, listed))
}

/// The pages that were written are those of the next round, and no page is marked.
fn turn(listed: &mut [u64], marks: &mut [u64])
    requires { length listed.old ≡ length marks.old }
    ensures listed { listed.new ≡ marks.old }
    ensures marks { (pages from tick next : ℕ) (touches : List GuestTouch)
        → IsScan pages touches from tick next marks.old
        → IsScan pages touches tick tick next marks.new }
{
    listed.copy_from_slice(marks);
    marks.fill(0);
}

/// Returns whether these are pages of a guest, and no more of them than a guest may have.
pub fn are_drawn(drawn: &[u32], pages: u32) -> bool
    ensures { IsTrue result ↔ AreDrawn pages drawn.now }
{
    drawn.len() <= 65_536 && drawn.iter().all(|page| *page < pages)
}

/// Returns the sums of the plan of a guest that consists of drawn pages: page `n` of it is written whenever page
/// `drawn[n]` of the timeline is. If pages may be skipped, they are looked at in the order in which they are drawn.
///
/// It allocates nothing: the caller lends two bits for each page. What they hold does not matter. It costs as much as
/// the touches in the ticks of its rounds, and a walk over the drawn pages in each round.
pub fn redrawn_outcome<T: Timeline>(
    timeline: &T,
    settings: &Settings,
    drawn: &[u32],
    listed: &mut [u64],
    marks: &mut [u64],
) -> Outcome
    requires drawn { AreDrawn (T.pages timeline.now) drawn.now }
    requires listed { length listed.old ≡ word_count (T.pages timeline.now) }
    requires marks { length marks.old ≡ word_count (T.pages timeline.now) }
    ensures outcome { IsOutcome (length drawn.now) (redrawn_touches drawn.now (T.touches timeline.now))
        settings.now result }
    ensures total { result.total ≤ 4_259_840 }
    ensures stop { result.stop ≤ settings.now.start + 4_194_304_000 }
    ensures down { result.down ≤ 65_536_000 }
{
    let mut now = first_redrawn(timeline, settings, drawn, listed, marks);
    loop {
        let ran = run_round(timeline, settings, drawn, &now, listed, marks);
        match now.after(settings, &ran) {
            Following::Round(next) => {
                turn(listed, marks);
                now = next;
            }
            Following::Stop(outcome) => return outcome,
        }
    }
}
