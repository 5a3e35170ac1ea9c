//! What the plan of a trace comes to and predicts: that of a hypervisor's looks, or of Clark's rounds.

ghost use Rattle.std.specs.Prelude.{◌≡◌, ◌≤◌, ◌<◌, ◌^◌, length, take};
ghost use Rattle.look_planner.specs.Sums.{AreSums};
ghost use Rattle.migration_model.specs.Looks.{AreHypervisorSettings};
ghost use Rattle.migration_model.specs.Touches.{last_tick_of};
ghost use Rattle.migration_model.specs.Trace.{last_by};
ghost use Rattle.page_bitmap.specs.Listing.{word_count};
ghost use Rattle.predictions.specs.Courses.{course_settings};
ghost use Rattle.predictions.specs.Courses.Ends.{course_of_looks, look_ending, stop_after};
ghost use Rattle.predictions.specs.Predictions.{prediction_with};
ghost use Rattle.predictions.specs.Predictions.Traces.{prediction_of_sums};
ghost use Rattle.predictions.specs.declared.course.Manner.TheVariants as manners;
ghost use Rattle.browser_planner.specs.Predictions.{AreRowsBy, IsForetold};

use crate::touches::LentLog;
use guest_log::{Timeline, last_tick};
use look_planner::{LookAsked, LookSettings, LookSums, PlanEnd, look_sums};
use page_bitmap::word_count;
use predictions::{Course, CourseEnd, Manner, Measure, Prediction, Terms};
use round_planner::{Outcome, RoundRow, plan_rows};

/// How often a hypervisor asks how many pages are left, in microseconds.
const WINDOW: u64 = 100_000;

/// After so many looks the planner gives up.
const MOST_LOOKS: u64 = 2_000;

/// How long a record is at most, in ticks.
const LONGEST: u64 = 4_194_303_999;

/// What a plan comes to, and what it predicts.
#[derive(Drop)]
pub(crate) struct Foretold {
    pub(crate) course: Course,
    pub(crate) prediction: Prediction,
}

/// Returns the settings of a hypervisor that gives up after 2,000 looks, over a record with this last tick.
fn look_settings(terms: &Terms, last: u64) -> LookSettings
    requires { last < 2 ^ 40 }
    ensures settings { result ≡ course_settings terms.now.scale terms.now.settings last }
    ensures in_range { AreHypervisorSettings result }
{
    let Terms {
        scale,
        settings,
        ..
    } = terms;
    let asked = settings.asked();
    let start = asked.start;
    let looks = LookAsked {
        start,
        base: asked.base,
        rate: asked.max,
        window: scale.ticks(WINDOW),
        threshold: asked.threshold,
        looks: Some(MOST_LOOKS),
        end: start.max(last.min(start + LONGEST)),
    };
    let Ok(settings) = LookSettings::new(looks) else {
        unreachable!()
    };
    settings
}

/// Returns the sums of a hypervisor's plan of a log.
fn sums_over(log: &LentLog<'_>, terms: &Terms, marks: &mut [u64], list: &mut [u32]) -> LookSums
    requires marks { length marks.old ≡ word_count log.now.pages }
    requires list { length list.old ≡ log.now.pages }
    ensures sums { AreSums log.now.pages log.now.touches (course_settings terms.now.scale terms.now.settings
        (last_tick_of log.now.touches)) result }
    ensures low { result.stop ≤ 2 ^ 40 }
{
    let _pages = log.page_count();
    let looks = look_settings(terms, last_tick(log));
    look_sums(log, &looks, marks, list)
}

/// Returns why a hypervisor's plan ends, by whether its lists shorten.
fn ending_of(end: PlanEnd, shortens: bool) -> CourseEnd
    ensures { result ≡ look_ending end shortens }
{
    match end {
        PlanEnd::Few => CourseEnd::Fits,
        PlanEnd::Looks => CourseEnd::Looks,
        PlanEnd::Record => {
            if shortens {
                CourseEnd::Cut
            } else {
                CourseEnd::Level
            }
        }
    }
}

/// Returns when a plan stops that ends so at a tick.
fn stop_of(ending: CourseEnd, tick: u64) -> u64
    requires { tick ≤ 2 ^ 40 }
    ensures { result ≡ stop_after ending tick }
{
    match ending {
        CourseEnd::Cut => tick + 1,
        CourseEnd::Few => tick,
        CourseEnd::Fits => tick,
        CourseEnd::Fast => tick,
        CourseEnd::Rounds => tick,
        CourseEnd::Looks => tick,
        CourseEnd::Level => tick,
    }
}

/// Returns what a hypervisor's plan with these sums comes to.
fn course_of(sums: &LookSums) -> Course
    requires { sums.now.stop ≤ 2 ^ 40 }
    ensures { result ≡ course_of_looks sums.now }
{
    let ending = ending_of(sums.end, sums.shortens);
    Course {
        ending,
        steps: sums.looks,
        stop: stop_of(ending, sums.stop),
        down: sums.down,
        total: sums.total,
    }
}

/// Returns what a hypervisor's plan with these sums predicts, over a record with this last tick.
fn prediction_of(terms: &Terms, sums: &LookSums, last: u64) -> Prediction
    requires { sums.now.stop ≤ 2 ^ 40 }
    ensures { result ≡ prediction_of_sums terms.now.scale terms.now.limits terms.now.settings.start sums.now last }
{
    let Terms {
        scale,
        limits,
        settings,
        ..
    } = terms;
    let measure = Measure {
        scale: *scale,
        limits: *limits,
        manner: Manner::Looks,
    };
    let start = settings.asked().start;
    Prediction::of_course(&measure, start, &course_of(sums), sums.left, last)
}

/// Returns what a hypervisor's plan of a log comes to and predicts.
fn by_looks(log: &LentLog<'_>, terms: &Terms, marks: &mut [u64], list: &mut [u32]) -> Foretold
    requires marks { length marks.old ≡ word_count log.now.pages }
    requires list { length list.old ≡ log.now.pages }
    ensures { IsForetold manners.Looks terms.now log.now.pages log.now.touches result }
{
    let sums = sums_over(log, terms, marks, list);
    Foretold {
        course: course_of(&sums),
        prediction: prediction_of(terms, &sums, last_tick(log)),
    }
}

/// Returns how many pages were dirtied in the last round of a plan with this result, whose rounds are at the front of a
/// buffer.
fn last_dirtied(rounds: &[RoundRow], outcome: &Outcome) -> u64
    requires { outcome.now.rounds ≤ length rounds.now }
    ensures { result ≡ last_by (λ row. row.dirtied) (take outcome.now.rounds rounds.now) }
{
    let (front, _) = rounds.split_at(outcome.rounds as usize);
    let mut last = 0u64;
    for row in front {
        last = row.dirtied;
    }
    last
}

/// Returns what Clark's plan of a log with this result predicts that leaves so many pages.
fn outlook_of(log: &LentLog<'_>, terms: &Terms, outcome: &Outcome, left: u64) -> Prediction
    ensures { result ≡ prediction_with terms.now.scale terms.now.limits terms.now.settings.start outcome.now left
        (last_tick_of log.now.touches) }
{
    let Terms {
        scale,
        limits,
        settings,
        ..
    } = terms;
    let start = settings.asked().start;
    Prediction::of_outcome(scale, limits, start, outcome, left, last_tick(log))
}

/// Returns what Clark's plan of a log comes to and predicts, and writes its rounds over the front of a buffer.
fn by_rounds(
    log: &LentLog<'_>,
    terms: &Terms,
    marks: &mut [u64],
    list: &mut [u32],
    rounds: &mut [RoundRow],
) -> Foretold
    requires marks { length marks.old ≡ word_count log.now.pages }
    requires list { length list.old ≡ log.now.pages }
    requires rounds { terms.now.settings.rounds ≤ length rounds.old }
    ensures foretold { IsForetold manners.Rounds terms.now log.now.pages log.now.touches result }
    ensures rows { AreRowsBy manners.Rounds terms.now log.now.pages log.now.touches rounds.old rounds.new }
{
    let outcome = plan_rows(log, &terms.settings, marks, list, rounds);
    let left = last_dirtied(rounds, &outcome);
    Foretold {
        course: Course::of_outcome(&outcome),
        prediction: outlook_of(log, terms, &outcome, left),
    }
}

/// Returns what the plan of a log comes to and predicts, by the manner of a question. If it is Clark's, writes its
/// rounds over the front of a buffer.
pub(crate) fn foretold_over(
    log: &LentLog<'_>,
    terms: &Terms,
    marks: &mut [u64],
    list: &mut [u32],
    rounds: &mut [RoundRow],
) -> Foretold
    requires marks { word_count log.now.pages ≤ length marks.old }
    requires list { log.now.pages ≤ length list.old }
    requires rounds { terms.now.settings.rounds ≤ length rounds.old }
    ensures foretold { IsForetold terms.now.manner terms.now log.now.pages log.now.touches result }
    ensures rows { AreRowsBy terms.now.manner terms.now log.now.pages log.now.touches rounds.old rounds.new }
{
    let pages = log.page_count() as usize;
    let (marks, _) = marks.split_at_mut(word_count(pages));
    let (list, _) = list.split_at_mut(pages);
    match terms.manner {
        Manner::Looks => by_looks(log, terms, marks, list),
        Manner::Rounds => by_rounds(log, terms, marks, list, rounds),
    }
}
