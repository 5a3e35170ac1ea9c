//! What a plan comes to, by a hypervisor's looks or by Clark's rounds.

// `IsCourse` holds of one value alone: `one_course`.

ghost use Rattle.std.specs.Prelude.{◌≡◌, ◌≤◌, ◌<◌, ◌^◌, ℕ, List, length};
ghost use Rattle.migration_model.specs.Looks.{AreHypervisorSettings};
ghost use Rattle.migration_model.specs.Rates.{MigrationSettings};
ghost use Rattle.look_planner.specs.Sums.{AreSums};
ghost use Rattle.migration_model.specs.Touches.{GuestTouch, last_tick_of};
ghost use Rattle.page_bitmap.specs.Listing.{word_count};
ghost use Rattle.predictions.specs.Courses.{IsCourse, IsCourseOver, course_settings, record_end};
ghost use Rattle.predictions.specs.Courses.Ends.{look_ending, round_ending, stop_after};
ghost use Rattle.predictions.specs.Units.Scales.{TraceScale};
ghost use Rattle.predictions.specs.declared.course.Manner.TheVariants as manners;
ghost use Rattle.rate_limit.specs.Pacing.{reason_of};

use crate::looks::look_asked;
use crate::units::{Limits, Scale};
use crate::verdict::Verdict;
use guest_log::{Timeline, last_tick};
use look_planner::{LookAsked, LookSettings, LookSums, PlanEnd, look_sums};
use page_bitmap::word_count;
use rate_limit::{Reason, Settings};
use round_planner::{Outcome, RoundRow, plan_rows};
use std::alloc::{AllocError, Global};

/// After so many looks the planner gives up.
const MOST_LOOKS: u64 = 2_000;

/// How long a record is at most, in ticks. Clark's rounds last no longer than that and one tick more.
const LONGEST: u64 = 4_194_303_999;

/// An empty row of a round.
pub(crate) const NO_ROW: RoundRow = RoundRow {
    from: 0,
    to: 0,
    rate: 0,
    pages: 0,
    sent: 0,
    dirtied: 0,
};

/// The most rounds.
pub(crate) const MOST_ROUNDS: usize = 64;

/// By whose plan a migration goes.
#[derive(Clone, Copy, Debug, PartialEq, Eq)]
pub enum Manner {
    /// That of a hypervisor, which looks at its dirty bitmap when few pages are left.
    Looks,
    /// Clark's, round by round.
    Rounds,
}

/// Why a plan ends.
#[derive(Clone, Copy, Debug, PartialEq, Eq)]
pub enum CourseEnd {
    /// Few pages are left after a round.
    Few,
    /// What is left at a look fits the limit, so a hypervisor stops the guest.
    Fits,
    /// A round dirtied more pages in a time than the link sends.
    Fast,
    /// There were as many rounds as there may be.
    Rounds,
    /// There were as many looks as there may be.
    Looks,
    /// The record ends first, and the list under way then is the shortest yet, but perhaps for the first one.
    Cut,
    /// The record ends first, and a list between the first one and that under way then is no longer than it.
    Level,
}

/// What a plan comes to.
#[derive(Clone, Copy, Debug, PartialEq, Eq)]
pub struct Course {
    /// Why it ends.
    pub ending: CourseEnd,
    /// How many rounds or looks there are.
    pub steps: u64,
    /// The tick at which the guest is stopped. If the record ends first and the lists got shorter, the tick after that.
    pub stop: u64,
    /// The downtime, in ticks.
    pub down: u64,
    /// How many pages are sent in all.
    pub total: u64,
}

impl CourseEnd {
    ghost use Rattle.std.specs.Prelude.{◌≡◌};
    ghost use Rattle.predictions.specs.Courses.Ends.{converges, end_number, end_word, is_bounded, stops_guest};

    /// Returns the end as a word: `few`, `fast`, `rounds`, `looks`, `cut` or `level`.
    pub fn word(&self) -> &'static str
        ensures { result.now ≡ end_word self.now }
    {
        match self {
            CourseEnd::Few => "few",
            CourseEnd::Fits => "few",
            CourseEnd::Fast => "fast",
            CourseEnd::Rounds => "rounds",
            CourseEnd::Looks => "looks",
            CourseEnd::Cut => "cut",
            CourseEnd::Level => "level",
        }
    }

    /// Returns whether a plan that ends so converges.
    pub(crate) fn converges(&self) -> bool
        ensures { result ≡ converges self.now }
    {
        matches!(self, CourseEnd::Few | CourseEnd::Fits)
    }

    /// Returns whether the guest is stopped only when what is left fits the limit.
    pub(crate) fn is_bounded(&self) -> bool
        ensures { result ≡ is_bounded self.now }
    {
        matches!(self, CourseEnd::Fits)
    }

    /// Returns whether the guest is stopped: by looks only when what is left fits the limit.
    pub(crate) fn stops_guest(&self) -> bool
        ensures { result ≡ stops_guest self.now }
    {
        matches!(
            self,
            CourseEnd::Few | CourseEnd::Fits | CourseEnd::Fast | CourseEnd::Rounds
        )
    }

    /// Returns the number of the end: 0 to 5.
    pub fn number(&self) -> u64
        ensures { result ≡ end_number self.now }
    {
        match self {
            CourseEnd::Few => 0,
            CourseEnd::Fits => 0,
            CourseEnd::Fast => 1,
            CourseEnd::Rounds => 2,
            CourseEnd::Looks => 3,
            CourseEnd::Cut => 4,
            CourseEnd::Level => 5,
        }
    }
}

/// Returns the tick at which the record of a plan of looks ends, of a record with this last tick.
fn record_end(start: u64, last: u64) -> u64
    requires { start < 2 ^ 40 }
    ensures { result ≡ record_end start last }
{
    start.max(last.min(start + LONGEST))
}

/// Returns the settings of a hypervisor that gives up after 2,000 looks, over a record with this last tick.
pub(crate) fn course_settings(scale: &Scale, settings: &Settings, last: u64) -> LookSettings
    requires { last < 2 ^ 40 }
    ensures settings { result ≡ course_settings scale.now settings.now last }
    ensures in_range { AreHypervisorSettings result }
{
    let start = settings.asked().start;
    let asked = LookAsked {
        looks: Some(MOST_LOOKS),
        ..look_asked(scale, settings, record_end(start, last))
    };
    let Ok(settings) = LookSettings::new(asked) else {
        unreachable!()
    };
    settings
}

/// Returns why a plan of rounds ends.
fn round_ending(reason: Reason) -> CourseEnd
    ensures { result ≡ round_ending (reason_of reason) }
{
    match reason {
        Reason::Few => CourseEnd::Few,
        Reason::Fast => CourseEnd::Fast,
        Reason::Rounds => CourseEnd::Rounds,
    }
}

/// Returns why a plan of looks ends, by whether its lists shorten.
fn look_ending(end: PlanEnd, shortens: bool) -> CourseEnd
    ensures { result ≡ look_ending end shortens }
{
    match end {
        PlanEnd::Few => CourseEnd::Fits,
        PlanEnd::Looks => CourseEnd::Looks,
        PlanEnd::Record => {
            if shortens {
                CourseEnd::Cut
            } else {
                CourseEnd::Level
            }
        }
    }
}

/// Returns when a plan stops that ends so at a tick.
fn stop_after(ending: CourseEnd, tick: u64) -> u64
    requires { tick ≤ 2 ^ 40 }
    ensures { result ≡ stop_after ending tick }
{
    match ending {
        CourseEnd::Cut => tick + 1,
        CourseEnd::Few => tick,
        CourseEnd::Fits => tick,
        CourseEnd::Fast => tick,
        CourseEnd::Rounds => tick,
        CourseEnd::Looks => tick,
        CourseEnd::Level => tick,
    }
}

impl Course {
    ghost use Rattle.std.specs.Prelude.{◌≡◌, ◌≤◌, ◌^◌, IfOk};
    ghost use Rattle.predictions.specs.Courses.{IsCourseOver, course_verdict};
    ghost use Rattle.predictions.specs.Courses.Ends.{course_of_looks, course_of_rounds};
    ghost use Rattle.predictions.specs.Predictions.{keeps_limit};

    /// Returns whether it keeps the limit: it stops the guest, and for no longer.
    pub(crate) fn keeps_limit(&self, scale: &Scale, limits: &Limits) -> bool
        ensures { result ≡ keeps_limit scale.now limits.now self.now }
    {
        let downtime = scale.micros(self.down) + limits.reserve as u128;
        self.ending.stops_guest() && downtime <= limits.downtime as u128
    }

    /// Returns what a plan of rounds with these sums comes to.
    pub fn of_outcome(outcome: &Outcome) -> Course
        ensures { result ≡ course_of_rounds outcome.now }
    {
        Course {
            ending: round_ending(outcome.reason),
            steps: outcome.rounds,
            stop: outcome.stop,
            down: outcome.down,
            total: outcome.total,
        }
    }

    /// Returns what a plan of looks with these sums comes to.
    pub(crate) fn of_sums(sums: &LookSums) -> Course
        requires { sums.now.stop ≤ 2 ^ 40 }
        ensures { result ≡ course_of_looks sums.now }
    {
        let ending = look_ending(sums.end, sums.shortens);
        Course {
            ending,
            steps: sums.looks,
            stop: stop_after(ending, sums.stop),
            down: sums.down,
            total: sums.total,
        }
    }

    /// Returns what the plan of a trace comes to, by a manner. The only error is that memory runs out.
    pub fn of_trace<T: Timeline>(
        alloc: Global,
        timeline: &T,
        settings: &Settings,
        scale: &Scale,
        manner: Manner,
    ) -> Result<Course, AllocError>
        ensures { IfOk result (IsCourseOver manner (T.pages timeline.now) (T.touches timeline.now) scale.now
            settings.now) }
    {
        let pages = timeline.page_count() as usize;
        let mut marks = Vec::from_elem(alloc, 0, word_count(pages))?;
        let mut list = Vec::from_elem(alloc, 0, pages)?;
        let mut rows = Vec::from_elem(alloc, NO_ROW, MOST_ROUNDS)?;
        let course = course_in(
            timeline, settings, scale, manner, &mut marks, &mut list, &mut rows,
        );
        Ok(course)
    }

    /// Returns whether the migration converges, over a record with this last tick.
    pub fn verdict(&self, last_tick: u64) -> Verdict
        ensures { result ≡ course_verdict self.now last_tick }
    {
        Verdict::new(last_tick < self.stop, self.ending.converges())
    }
}

/// Returns the sums of a hypervisor's plan of a trace.
pub(crate) fn trace_sums<T: Timeline>(
    timeline: &T,
    settings: &Settings,
    scale: &Scale,
    marks: &mut [u64],
    list: &mut [u32],
) -> LookSums
    requires marks { length marks.old ≡ word_count (T.pages timeline.now) }
    requires list { length list.old ≡ T.pages timeline.now }
    ensures sums { AreSums (T.pages timeline.now) (T.touches timeline.now)
        (course_settings scale.now settings.now (last_tick_of (T.touches timeline.now))) result }
    ensures low { result.stop ≤ 2 ^ 40 }
{
    let _pages = timeline.page_count();
    let looks = course_settings(scale, settings, last_tick(timeline));
    look_sums(timeline, &looks, marks, list)
}

/// Returns what a hypervisor's plan of a trace comes to.
fn look_course<T: Timeline>(
    timeline: &T,
    settings: &Settings,
    scale: &Scale,
    marks: &mut [u64],
    list: &mut [u32],
) -> Course
    requires marks { length marks.old ≡ word_count (T.pages timeline.now) }
    requires list { length list.old ≡ T.pages timeline.now }
    ensures { IsCourseOver manners.Looks (T.pages timeline.now) (T.touches timeline.now) scale.now settings.now result }
{
    Course::of_sums(&trace_sums(timeline, settings, scale, marks, list))
}

/// Returns what Clark's plan of a trace comes to.
fn round_course<T: Timeline>(
    timeline: &T,
    settings: &Settings,
    marks: &mut [u64],
    list: &mut [u32],
    rows: &mut [RoundRow],
) -> Course
    requires marks { length marks.old ≡ word_count (T.pages timeline.now) }
    requires list { length list.old ≡ T.pages timeline.now }
    requires rows { 64 ≤ length rows.old }
    ensures { (scale : TraceScale) → IsCourseOver manners.Rounds (T.pages timeline.now) (T.touches timeline.now) scale
        settings.now result }
{
    let _in_range = settings.asked();
    Course::of_outcome(&plan_rows(timeline, settings, marks, list, rows))
}

/// Returns what the plan of a trace comes to, by a manner.
///
/// It allocates nothing: the caller lends a bit of `marks` and a slot of `list` for each page, and 64 slots of `rows`.
/// What they hold does not matter.
pub fn course_in<T: Timeline>(
    timeline: &T,
    settings: &Settings,
    scale: &Scale,
    manner: Manner,
    marks: &mut [u64],
    list: &mut [u32],
    rows: &mut [RoundRow],
) -> Course
    requires marks { length marks.old ≡ word_count (T.pages timeline.now) }
    requires list { length list.old ≡ T.pages timeline.now }
    requires rows { 64 ≤ length rows.old }
    ensures { IsCourseOver manner (T.pages timeline.now) (T.touches timeline.now) scale.now settings.now result }
{
    match manner {
        Manner::Looks => look_course(timeline, settings, scale, marks, list),
        Manner::Rounds => round_course(timeline, settings, marks, list, rows),
    }
}

/// The plan of a guest by a manner comes to one thing.
pub fn one_course()
    ensures { (manner : Manner) (pages last_tick : ℕ) (touches : List GuestTouch) (scale : TraceScale)
        (s : MigrationSettings) (a b : Course) → IsCourse manner pages touches scale s last_tick a
        → IsCourse manner pages touches scale s last_tick b → a ≡ b }
{}
