//! Cases, and what their plans come to.

// `AreCases` holds of one value alone: `one_list_of_cases`.

ghost use Rattle.std.specs.Prelude.{◌≡◌, ◌≤◌, [], IfOk, OnOk, length, map};
ghost use Rattle.page_bitmap.specs.Listing.{word_count};
ghost use Rattle.predictions.specs.Starts.Cases.{AreCases, case_of_line};

use crate::course::{Course, MOST_ROUNDS, NO_ROW, course_in};
use crate::measure::Measure;
use guest_log::Timeline;
use page_bitmap::word_count;
use rate_limit::Settings;
use round_planner::{Outcome, RoundRow};
use std::alloc::{AllocError, Global};
use sweep_report::Line;

/// A case, and what its plan comes to.
#[derive(Clone, Copy, Debug, PartialEq, Eq)]
pub struct PlannedCase {
    /// The settings of the migration.
    pub settings: Settings,
    /// What its plan comes to.
    pub course: Course,
}

impl PlannedCase {
    ghost use Rattle.std.specs.Prelude.{◌≡◌};
    ghost use Rattle.predictions.specs.Starts.Cases.{case_of_line};

    /// Returns the case of a line of a sweep, which has the sums of Clark's plan.
    pub fn of_line(line: &Line) -> PlannedCase
        ensures { result ≡ case_of_line line.now }
    {
        let outcome = Outcome {
            rounds: line.rounds,
            reason: line.reason,
            stop: line.stop,
            down: line.down,
            total: line.total,
        };
        PlannedCase {
            settings: line.settings,
            course: Course::of_outcome(&outcome),
        }
    }
}

/// Returns the case of each line of a sweep, in order.
pub fn cases_of_lines(alloc: Global, lines: &[Line]) -> Result<Vec<PlannedCase>, AllocError>
    ensures { IfOk result (λ cases. cases.items ≡ map case_of_line lines.now) }
{
    let mut cases = Vec::with_capacity(alloc, lines.len())?;
    for line in lines {
        cases.push(PlannedCase::of_line(line))?;
    }
    Ok(cases)
}

/// Plans a migration with each of some settings, one after another, and appends the cases.
///
/// The caller lends a bit of `marks` and a slot of `list` for each page, and 64 slots of `rows`. What they hold does not
/// matter.
fn push_cases<T: Timeline>(
    cases: &mut Vec<PlannedCase>,
    timeline: &T,
    settings: &[Settings],
    measure: &Measure,
    marks: &mut [u64],
    list: &mut [u32],
    rows: &mut [RoundRow],
) -> Result<(), AllocError>
    requires empty { cases.old.items ≡ [] }
    requires marks { length marks.old ≡ word_count (T.pages timeline.now) }
    requires list { length list.old ≡ T.pages timeline.now }
    requires rows { 64 ≤ length rows.old }
    ensures { OnOk result (AreCases measure.now.manner (T.pages timeline.now) (T.touches timeline.now)
        measure.now.scale settings.now cases.new.items) }
{
    let Measure { scale, manner, .. } = measure;
    for case in settings {
        let course = course_in(timeline, case, scale, *manner, marks, list, rows);
        let settings = *case;
        cases.push(PlannedCase { settings, course })?;
    }
    Ok(())
}

/// Returns a case for each of some settings, in order, each planned by itself. The only error is that memory runs out.
pub fn cases_by<T: Timeline>(
    alloc: Global,
    timeline: &T,
    settings: &[Settings],
    measure: &Measure,
) -> Result<Vec<PlannedCase>, AllocError>
    ensures { IfOk result (λ cases. AreCases measure.now.manner (T.pages timeline.now) (T.touches timeline.now)
        measure.now.scale settings.now cases.items) }
{
    let pages = timeline.page_count() as usize;
    let mut marks = Vec::from_elem(alloc, 0, word_count(pages))?;
    let mut list = Vec::from_elem(alloc, 0, pages)?;
    let mut rows = Vec::from_elem(alloc, NO_ROW, MOST_ROUNDS)?;
    let mut cases = Vec::with_capacity(alloc, settings.len())?;
    push_cases(
        &mut cases, timeline, settings, measure, &mut marks, &mut list, &mut rows,
    )?;
    Ok(cases)
}
