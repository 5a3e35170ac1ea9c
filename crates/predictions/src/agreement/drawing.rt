//! The answers of the plans of a sample's draws.

ghost use Rattle.std.specs.Prelude.{◌≡◌, ◌≤◌, ◌+◌, ◌*◌, length, IfOk};
ghost use Rattle.page_bitmap.specs.Listing.{word_count};
ghost use Rattle.predictions.specs.Agreements.{AreCountsOf, AreDrawCounts};
ghost use Rattle.predictions.specs.Redrawn.Errors.{HasErrors};

use crate::agreement::asking::asked_of_draws;
use crate::agreement::counts::AnswerCounts;
use crate::course::Course;
use crate::measure::Measure;
use crate::redrawn::{drawn_course, has_errors};
use guest_log::{Timeline, last_tick};
use page_bitmap::word_count;
use rate_limit::Settings;
use std::alloc::{AllocError, Global};

/// How many draws there are.
const DRAWS: u64 = 20;

/// Returns how many of the plans of 20 draws from the pages of a trace end within it, converge, and keep their limit.
/// The settings are those of `asked_of_draws`.
///
/// It allocates nothing: the caller lends two slots of `room` for each page of the sample, and in whole words two bits
/// of `bits` for each page of the trace and one for each of the sample. What they hold does not matter. It costs as
/// much as 20 plans.
pub fn draw_counts<T: Timeline>(
    timeline: &T,
    settings: &Settings,
    measure: &Measure,
    room: &mut [u32],
    bits: &mut [u64],
) -> AnswerCounts
    requires sampled { HasErrors measure.now.scale }
    requires room { 2 * measure.now.scale.sampled ≤ length room.old }
    requires bits { 2 * word_count (T.pages timeline.now) + word_count measure.now.scale.sampled ≤ length bits.old }
    ensures { AreCountsOf measure.now.manner (T.pages timeline.now) (T.touches timeline.now) settings.now
        measure.now.scale measure.now.limits 20 result }
{
    let Measure {
        scale,
        limits,
        manner,
    } = measure;
    let last = last_tick(timeline);
    let mut counts = AnswerCounts::NONE;
    let mut state = 0;
    for _plan in 0..DRAWS {
        let (after, course) = drawn_course(timeline, settings, scale, *manner, state, room, bits);
        counts = counts.with(scale, limits, &course, last);
        state = after;
    }
    counts
}

impl AnswerCounts {
    /// Returns what `draw_counts` does with these settings, if pages were sampled. The only error is that memory runs
    /// out. It costs as much as 21 plans.
    pub fn of_draws<T: Timeline>(
        alloc: Global,
        timeline: &T,
        settings: &Settings,
        measure: &Measure,
    ) -> Result<Option<AnswerCounts>, AllocError>
        ensures { IfOk result (AreDrawCounts measure.now.manner (T.pages timeline.now) (T.touches timeline.now)
            settings.now measure.now.scale measure.now.limits) }
    {
        if !has_errors(&measure.scale) {
            return Ok(None);
        }
        let sampled = measure.scale.sampled() as usize;
        let words = 2 * word_count(timeline.page_count() as usize) + word_count(sampled);
        let course = Course::of_trace(alloc, timeline, settings, &measure.scale, measure.manner)?;
        let asked = asked_of_draws(&course, settings);
        let mut room = Vec::from_elem(alloc, 0, 2 * sampled)?;
        let mut bits = Vec::from_elem(alloc, 0, words)?;
        let counts = draw_counts(timeline, &asked, measure, &mut room, &mut bits);
        Ok(Some(counts))
    }
}
