//! A plan whose rounds are found by marks: its sums, and the numbers of its rounds, in memory that is lent.

// `IsPlan` holds of one value alone: `one_plan`.

ghost use Rattle.std.specs.Prelude.{◌≡◌, ◌≤◌, ◌&&◌, ℕ, IfSome, List, Some, length, nat_le, take};
ghost use Rattle.std.specs.List.{range_with_len};
ghost use Rattle.migration_model.specs.Rounds.{IsSent, NextRound, pages_lacking};
ghost use Rattle.migration_model.specs.Sweeps.{IsOutcome};
ghost use Rattle.migration_model.specs.Touches.{GuestTouch};
ghost use Rattle.page_bitmap.specs.Listing.{pages_of, word_count};
ghost use Rattle.round_planner.specs.Indexing.{AreMarksOf, CanEnd, CanMark, HasSentOf, IsFirst, IsMarkedAt, IsTurned};
ghost use Rattle.round_planner.specs.Indexing.{RanTo, StandsAt};
ghost use Rattle.round_planner.specs.Known.{AreKnown, IsAhead};
ghost use Rattle.round_planner.specs.Rows.{IsPlanned};
ghost use Rattle.round_planner.specs.Scanning.{IsScan};

use crate::known::{Ahead, KnownRound, RoundStart, remember};
use crate::numbers::{Following, RoundNumbers, RoundSums};
use crate::parts::{Outcome, RoundRow};
use crate::planning::may_skip;
use crate::scan::{mark_until, skim};
use guest_log::Timeline;
use page_bitmap::list_pages;
use rate_limit::{Settings, duration};

/// What a round has sent.
#[derive(Clone, Copy)]
pub struct SentPages {
    /// How many pages.
    pub count: u32,
    /// How many touches the walk has passed then.
    pub next: usize,
}

/// Sends the pages of a round. If the front of `room` lists its pages, it lists those sent then.
pub(crate) fn send_pages<T: Timeline>(
    timeline: &T,
    settings: &Settings,
    now: &RoundNumbers,
    marks: &mut [u64],
    room: &mut [u32],
) -> SentPages
    requires marks { CanMark (T.pages timeline.now) (T.touches timeline.now) settings.now now.now marks.old room.old }
    ensures sent { (coming : NextRound) → IsMarkedAt (T.pages timeline.now) (T.touches timeline.now) settings.now
        coming now.now marks.old room.old
        → HasSentOf (T.pages timeline.now) (T.touches timeline.now) settings.now coming result marks.new }
    ensures list { (coming : NextRound) → IsMarkedAt (T.pages timeline.now) (T.touches timeline.now) settings.now
        coming now.now marks.old room.old → coming.pages ≡ take now.now.listed room.old
        → IsSent (settings.now.skip && nat_le 1 coming.done) (T.touches timeline.now) coming.from coming.rate
        coming.pages (take result.count room.new) }
    ensures few { result.count ≤ now.now.listed }
    ensures room { length room.new ≡ T.pages timeline.now }
{
    if !may_skip(settings, now.step.done) {
        return SentPages {
            count: now.listed,
            next: now.next,
        };
    }
    let walk = skim(timeline, marks, room, now);
    SentPages {
        count: walk.at.sent,
        next: walk.next,
    }
}

/// Lists the marked pages, and clears the marks. Returns how many pages there were.
fn turn(marks: &mut [u64], room: &mut [u32]) -> u32
    requires marks { length marks.old ≤ 1_024 }
    requires room { length (pages_of marks.old) ≤ length room.old }
    ensures turned { (pages from tick next : ℕ) (touches : List GuestTouch)
        → IsScan pages touches from tick next marks.old
        → IsTurned pages touches from tick result next marks.new room.new }
    ensures count { result ≡ length (pages_of marks.old) }
    ensures room { length room.new ≡ length room.old }
{
    let count = list_pages(marks, room);
    marks.fill(0);
    count as u32
}

/// Ends a round that has sent its pages. The pages written meanwhile are listed then, and no page is marked. The
/// settings are an argument only for the contract.
pub(crate) fn end_round<T: Timeline>(
    timeline: &T,
    _settings: &Settings,
    now: &RoundNumbers,
    sent: SentPages,
    marks: &mut [u64],
    room: &mut [u32],
) -> RoundSums
    requires sent { CanEnd (T.pages timeline.now) (T.touches timeline.now) _settings.now now.now sent marks.old
        room.old }
    ensures ran { (coming : NextRound) → StandsAt (T.pages timeline.now) (T.touches timeline.now) _settings.now
        coming now.now
        → HasSentOf (T.pages timeline.now) (T.touches timeline.now) _settings.now coming sent marks.old
        → RanTo (T.pages timeline.now) (T.touches timeline.now) _settings.now coming result }
    ensures sent { result.sent ≡ sent.count }
    ensures room { length room.new ≡ T.pages timeline.now }
    ensures turned { IsTurned (T.pages timeline.now) (T.touches timeline.now) now.now.step.from result.to
        result.dirtied result.next marks.new room.new }
{
    let to = now.step.from + duration(sent.count, now.step.rate);
    let next = mark_until(timeline, marks, sent.next, to);
    let dirtied = turn(marks, room);
    RoundSums {
        sent: sent.count,
        to,
        next,
        dirtied,
    }
}

/// Returns the sums of the plan that begins with a round, and writes the numbers of its rounds over the front of
/// `rows`.
pub(crate) fn marked_rounds<T: Timeline>(
    timeline: &T,
    settings: &Settings,
    first: RoundNumbers,
    marks: &mut [u64],
    room: &mut [u32],
    rows: &mut [RoundRow],
) -> Outcome
    requires first { IsFirst (T.pages timeline.now) (T.touches timeline.now) settings.now first }
    requires marks { AreMarksOf (T.pages timeline.now) marks.old room.old }
    requires rows { settings.now.rounds ≤ length rows.old }
    ensures planned { IsPlanned (T.pages timeline.now) (T.touches timeline.now) settings.now result rows.old rows.new }
    ensures marks { AreMarksOf (T.pages timeline.now) marks.new room.new }
    ensures rows { length rows.new ≡ length rows.old }
{
    marks.fill(0);
    let mut now = first;
    loop {
        let sent = send_pages(timeline, settings, &now, marks, room);
        let ran = end_round(timeline, settings, &now, sent, marks, room);
        rows[now.step.done as usize] = now.row(&ran);
        match now.after(settings, &ran) {
            Following::Round(next) => now = next,
            Following::Stop(outcome) => return outcome,
        }
    }
}

/// Returns the sums of the plan that goes on with a round, and remembers its rounds.
pub(crate) fn marked_on<T: Timeline>(
    timeline: &T,
    settings: &Settings,
    ahead: Ahead,
    marks: &mut [u64],
    room: &mut [u32],
    known: &mut [Option<KnownRound>],
) -> Outcome
    requires ahead { IsAhead (T.pages timeline.now) (T.touches timeline.now) settings.now ahead }
    requires marks { AreMarksOf (T.pages timeline.now) marks.old room.old }
    requires known { AreKnown (T.pages timeline.now) (T.touches timeline.now) known.old }
    requires slots { length known.old ≡ 64 }
    ensures outcome { IsOutcome (T.pages timeline.now) (T.touches timeline.now) settings.now result }
    ensures marks { AreMarksOf (T.pages timeline.now) marks.new room.new }
    ensures known { AreKnown (T.pages timeline.now) (T.touches timeline.now) known.new }
    ensures slots { length known.new ≡ 64 }
{
    let Ahead {
        numbers: mut now,
        mut since,
    } = ahead;
    if now.step.done >= 1 {
        list_lacking(timeline, since, now.step.from, marks, room);
    }
    marks.fill(0);
    loop {
        let start = RoundStart::new(settings, &now, since);
        let sent = send_pages(timeline, settings, &now, marks, room);
        let ran = end_round(timeline, settings, &now, sent, marks, room);
        remember(known, now.step.done, start, &ran);
        match now.after(settings, &ran) {
            Following::Round(next) => {
                since = Some(now.step.from);
                now = next;
            }
            Following::Stop(outcome) => return outcome,
        }
    }
}

/// Lists the pages that are written from a base on and before a tick. Returns how many there are.
fn list_since<T: Timeline>(
    timeline: &T,
    base: u64,
    tick: u64,
    marks: &mut [u64],
    room: &mut [u32],
) -> u32
    requires order { base ≤ tick }
    requires few { T.pages timeline.now ≤ 65_536 }
    requires marks { AreMarksOf (T.pages timeline.now) marks.old room.old }
    ensures list { take result room.new ≡ pages_lacking (T.pages timeline.now) (T.touches timeline.now) (Some base)
        tick }
    ensures count { result ≡ length (pages_lacking (T.pages timeline.now) (T.touches timeline.now) (Some base) tick) }
    ensures marks { AreMarksOf (T.pages timeline.now) marks.new room.new }
{
    let next = timeline.before(base);
    marks.fill(0);
    mark_until(timeline, marks, next, tick);
    turn(marks, room)
}

/// Lists all pages.
fn list_all(room: &mut [u32], count: u32)
    requires { count ≡ length room.old }
    ensures { room.new ≡ range_with_len 0 count }
{
    for page in 0..count {
        room[page as usize] = page;
    }
}

/// Lists the pages that a destination lacks at a tick: all, or, if it begins with the memory before a base, those
/// written since. Returns how many there are.
fn list_lacking<T: Timeline>(
    timeline: &T,
    base: Option<u64>,
    tick: u64,
    marks: &mut [u64],
    room: &mut [u32],
) -> u32
    requires order { IfSome base (λ b. b ≤ tick) }
    requires marks { AreMarksOf (T.pages timeline.now) marks.old room.old }
    ensures list { take result room.new ≡ pages_lacking (T.pages timeline.now) (T.touches timeline.now) base tick }
    ensures count { result ≡ length (pages_lacking (T.pages timeline.now) (T.touches timeline.now) base tick) }
    ensures few { T.pages timeline.now ≤ 65_536 }
    ensures marks { AreMarksOf (T.pages timeline.now) marks.new room.new }
{
    let all = timeline.page_count();
    match base {
        Some(base) => list_since(timeline, base, tick, marks, room),
        None => {
            list_all(room, all);
            all
        }
    }
}

/// Returns the numbers of the first round, whose pages the front of `room` lists.
pub(crate) fn first_marked<T: Timeline>(
    timeline: &T,
    settings: &Settings,
    marks: &mut [u64],
    room: &mut [u32],
) -> RoundNumbers
    requires marks { AreMarksOf (T.pages timeline.now) marks.old room.old }
    ensures first { IsFirst (T.pages timeline.now) (T.touches timeline.now) settings.now result }
    ensures list { take result.listed room.new ≡ pages_lacking (T.pages timeline.now) (T.touches timeline.now)
        settings.now.base settings.now.start }
    ensures marks { AreMarksOf (T.pages timeline.now) marks.new room.new }
{
    let asked = settings.asked();
    let listed = list_lacking(timeline, asked.base, asked.start, marks, room);
    RoundNumbers::first(settings, timeline.before(asked.start), listed)
}

/// Returns the sums of the plan of some settings, and writes the numbers of its rounds, in order, over the front of
/// `rows`. It allocates nothing: the caller lends a bit of `marks` for each page, and a slot of `room`. What they hold
/// does not matter.
///
/// It marks the pages of the touches in the ticks of its rounds, and walks over one word for 64 pages in each round. If
/// the settings have a base, the touches from there on count too, and one more walk.
pub fn plan_rows<T: Timeline>(
    timeline: &T,
    settings: &Settings,
    marks: &mut [u64],
    room: &mut [u32],
    rows: &mut [RoundRow],
) -> Outcome
    requires marks { length marks.old ≡ word_count (T.pages timeline.now) }
    requires room { length room.old ≡ T.pages timeline.now }
    requires rows { settings.now.rounds ≤ length rows.old }
    ensures { IsPlanned (T.pages timeline.now) (T.touches timeline.now) settings.now result rows.old rows.new }
{
    let first = first_marked(timeline, settings, marks, room);
    marked_rounds(timeline, settings, first, marks, room, rows)
}
