//! The answers of the plans from several starts.

ghost use Rattle.std.specs.Prelude.{◌≡◌, ◌≤◌, length, IfOk};
ghost use Rattle.page_bitmap.specs.Listing.{word_count};
ghost use Rattle.predictions.specs.Agreements.{AreStartCounts};

use crate::agreement::counts::AnswerCounts;
use crate::course::{MOST_ROUNDS, NO_ROW, course_in};
use crate::measure::Measure;
use crate::starts::{spread_case, spread_count};
use guest_log::{Timeline, last_tick};
use page_bitmap::word_count;
use rate_limit::Settings;
use round_planner::RoundRow;
use std::alloc::{AllocError, Global};

/// Of at most 21 starts, spread evenly over a trace, returns from how many the plan ends within it, converges, and
/// keeps its limit.
///
/// It allocates nothing: the caller lends a bit of `marks` and a slot of `list` for each page, and 64 slots of `rows`.
/// What they hold does not matter. It costs as much as 21 plans.
pub fn start_counts<T: Timeline>(
    timeline: &T,
    settings: &Settings,
    measure: &Measure,
    marks: &mut [u64],
    list: &mut [u32],
    rows: &mut [RoundRow],
) -> AnswerCounts
    requires marks { length marks.old ≡ word_count (T.pages timeline.now) }
    requires list { length list.old ≡ T.pages timeline.now }
    requires rows { 64 ≤ length rows.old }
    ensures { AreStartCounts measure.now.manner (T.pages timeline.now) (T.touches timeline.now) settings.now
        measure.now.scale measure.now.limits result }
{
    let Measure {
        scale,
        limits,
        manner,
    } = measure;
    let last = last_tick(timeline);
    let count = spread_count(settings, last);
    let mut counts = AnswerCounts::NONE;
    for number in 0..count {
        let case = spread_case(settings, last, number);
        let course = course_in(timeline, &case, scale, *manner, marks, list, rows);
        counts = counts.with(scale, limits, &course, last);
    }
    counts.of_known()
}

impl AnswerCounts {
    /// Returns what `start_counts` does. The only error is that memory runs out.
    pub fn of_starts<T: Timeline>(
        alloc: Global,
        timeline: &T,
        settings: &Settings,
        measure: &Measure,
    ) -> Result<AnswerCounts, AllocError>
        ensures { IfOk result (AreStartCounts measure.now.manner (T.pages timeline.now) (T.touches timeline.now)
            settings.now measure.now.scale measure.now.limits) }
    {
        let pages = timeline.page_count() as usize;
        let mut marks = Vec::from_elem(alloc, 0, word_count(pages))?;
        let mut list = Vec::from_elem(alloc, 0, pages)?;
        let mut rows = Vec::from_elem(alloc, NO_ROW, MOST_ROUNDS)?;
        let counts = start_counts(
            timeline, settings, measure, &mut marks, &mut list, &mut rows,
        );
        Ok(counts)
    }
}
