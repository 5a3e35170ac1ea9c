//! The search for the share of a link at which the verdict turns.

// `IsLinkShare` holds of one value alone: `one_link_share`.

ghost use Rattle.std.specs.Prelude.{◌≡◌, ◌↔◌, ◌≤◌, IfOk, IsTrue, length, min};
ghost use Rattle.std.specs.Option.{option_map};
ghost use Rattle.page_bitmap.specs.Listing.{word_count};
ghost use Rattle.predictions.specs.Shares.{IsLinkShare, IsVerdict, VerdictAt, link_at, over_share};

use crate::course::{MOST_ROUNDS, NO_ROW};
use crate::remedies::Trial;
use crate::shares::share::LinkShare;
use crate::units::Limits;
use crate::verdict::Verdict;
use guest_log::{Timeline, last_tick};
use page_bitmap::word_count;
use round_planner::RoundRow;
use std::alloc::{AllocError, Global};

/// Returns a share of a link, in per cent and rounded down.
fn link_at(link: u64, percent: u64) -> u64
    requires { percent ≤ 100 }
    ensures { result ≡ link_at link percent }
{
    (link as u128 * percent as u128 / 100) as u64
}

/// Returns the rate of the first round, if it is given, no faster than a link.
fn first_within(first: Option<u64>, link: u64) -> Option<u64>
    ensures { result ≡ option_map (λ first. min first link) first }
{
    match first {
        Some(first) => Some(first.min(link)),
        None => None,
    }
}

/// Returns a trial over a share of its link.
fn over_share(trial: &Trial, percent: u64) -> Trial
    requires { percent ≤ 100 }
    ensures { result ≡ over_share trial.now percent }
{
    let link = link_at(trial.limits.link, percent);
    Trial {
        limits: Limits {
            link,
            first: first_within(trial.limits.first, link),
            ..trial.limits
        },
        ..*trial
    }
}

/// Returns whether a trial converges, over a timeline. One whose limits make no settings does not. It costs as much as
/// a plan.
fn converges<T: Timeline>(
    timeline: &T,
    trial: &Trial,
    marks: &mut [u64],
    list: &mut [u32],
    rows: &mut [RoundRow],
) -> Verdict
    requires marks { length marks.old ≡ word_count (T.pages timeline.now) }
    requires list { length list.old ≡ T.pages timeline.now }
    requires rows { 64 ≤ length rows.old }
    ensures { IsVerdict (T.pages timeline.now) (T.touches timeline.now) trial.now result }
{
    match trial.settings() {
        Some(settings) => {
            let course = trial.course(timeline, &settings, marks, list, rows);
            course.verdict(last_tick(timeline))
        }
        None => Verdict::No,
    }
}

/// Returns whether a trial converges over a share of its link, in per cent. It costs as much as a plan.
///
/// It allocates nothing: the caller lends a bit of `marks` and a slot of `list` for each page, and 64 slots of `rows`.
/// What they hold does not matter.
fn verdict_at<T: Timeline>(
    timeline: &T,
    trial: &Trial,
    percent: u64,
    marks: &mut [u64],
    list: &mut [u32],
    rows: &mut [RoundRow],
) -> Verdict
    requires share { percent ≤ 100 }
    requires marks { length marks.old ≡ word_count (T.pages timeline.now) }
    requires list { length list.old ≡ T.pages timeline.now }
    requires rows { 64 ≤ length rows.old }
    ensures { VerdictAt (T.pages timeline.now) (T.touches timeline.now) trial.now percent result }
{
    let made = over_share(trial, percent);
    converges(timeline, &made, marks, list, rows)
}

/// Returns whether two verdicts are the same.
fn is_same(a: Verdict, b: Verdict) -> bool
    ensures { IsTrue result ↔ (a ≡ b) }
{
    a == b
}

/// Returns whether a trial converges at all of its link, and down to which share of it the verdict is the same. It
/// costs as much as a plan for each share that is tried, and so at most 51.
///
/// It allocates nothing: the caller lends a bit of `marks` and a slot of `list` for each page, and 64 slots of `rows`.
/// What they hold does not matter.
pub fn link_share_of<T: Timeline>(
    timeline: &T,
    trial: &Trial,
    marks: &mut [u64],
    list: &mut [u32],
    rows: &mut [RoundRow],
) -> LinkShare
    requires marks { length marks.old ≡ word_count (T.pages timeline.now) }
    requires list { length list.old ≡ T.pages timeline.now }
    requires rows { 64 ≤ length rows.old }
    ensures { IsLinkShare (VerdictAt (T.pages timeline.now) (T.touches timeline.now) trial.now) result }
{
    let verdict = verdict_at(timeline, trial, 100, marks, list, rows);
    for steps in 0..50u64 {
        let other = verdict_at(timeline, trial, 99 - steps, marks, list, rows);
        if !is_same(other, verdict) {
            return LinkShare {
                verdict,
                share: 100 - steps,
                below: Some(other),
            };
        }
    }
    LinkShare {
        verdict,
        share: 50,
        below: None,
    }
}

impl LinkShare {
    /// Returns what `link_share_of` does. The only error is that memory runs out.
    pub fn of_trace<T: Timeline>(
        alloc: Global,
        timeline: &T,
        trial: &Trial,
    ) -> Result<LinkShare, AllocError>
        ensures { IfOk result (IsLinkShare (VerdictAt (T.pages timeline.now) (T.touches timeline.now) trial.now)) }
    {
        let pages = timeline.page_count() as usize;
        let mut marks = Vec::from_elem(alloc, 0, word_count(pages))?;
        let mut list = Vec::from_elem(alloc, 0, pages)?;
        let mut rows = Vec::from_elem(alloc, NO_ROW, MOST_ROUNDS)?;
        Ok(link_share_of(timeline, trial, &mut marks, &mut list, &mut rows))
    }
}
