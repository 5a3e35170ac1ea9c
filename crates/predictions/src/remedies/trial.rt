//! Migrations that are tried.

ghost use Rattle.std.specs.Prelude.{◌≡◌, ◌↔◌, ◌≤◌, IfSome, IsTrue, None, length};
ghost use Rattle.predictions.specs.Courses.{IsCourseOver};
ghost use Rattle.predictions.specs.Remedies.Trials.{ComesTo, EndsWell, KeepsLimit, MakesSettings, Reaches, settings_of};
ghost use Rattle.page_bitmap.specs.Listing.{word_count};

use crate::cost::Cost;
use crate::course::{Course, Manner, course_in};
use crate::remedies::aim::Aim;
use crate::units::{Limits, Scale};
use crate::verdict::Verdict;
use guest_log::{Timeline, last_tick};
use rate_limit::{Asked, Settings};
use round_planner::RoundRow;
use std::marker::Model;

/// A migration that is tried.
#[derive(Clone, Copy, Debug, PartialEq, Eq)]
pub struct Trial {
    /// What ticks and pages of the trace stand for.
    pub scale: Scale,
    /// What the migration may take.
    pub limits: Limits,
    /// What is added to a dirtying rate, in pages per 1,000 ticks; a tenth of what the link has above the first round
    /// if none is given.
    pub increment: Option<u64>,
    /// The settings that the limits do not make.
    pub others: Asked,
    /// By whose plan it goes.
    pub manner: Manner,
}

impl Model for Trial {
    ghost use Rattle.predictions.specs.Remedies.Trials.{MigrationTrial};

    ghost Value = { MigrationTrial };

    ghost view = { λ t. record {
      scale = t.scale;
      limits = t.limits;
      increment = t.increment;
      others = t.others;
      manner = t.manner;
    } };

    ghost inverse = { λ t. record {
      scale = t.scale;
      limits = t.limits;
      increment = t.increment;
      others = t.others;
      manner = t.manner;
    } };
}

impl Trial {
    /// Returns the settings of the trial, if its limits make any.
    pub(crate) fn settings(&self) -> Option<Settings>
        ensures made { IfSome result (λ settings. settings ≡ settings_of self.now) }
        ensures some { IfSome result (λ settings. MakesSettings self.now) }
        ensures none { result ≡ None → ¬ MakesSettings self.now }
    {
        match self
            .limits
            .settings(&self.scale, self.increment, self.others)
        {
            Ok(settings) => Some(settings),
            Err(_) => None,
        }
    }

    /// Returns what the plan of these settings comes to by the manner of the trial, over a timeline.
    pub(crate) fn course<T: Timeline>(
        &self,
        timeline: &T,
        settings: &Settings,
        marks: &mut [u64],
        list: &mut [u32],
        rows: &mut [RoundRow],
    ) -> Course
        requires marks { length marks.old ≡ word_count (T.pages timeline.now) }
        requires list { length list.old ≡ T.pages timeline.now }
        requires rows { 64 ≤ length rows.old }
        ensures { IsCourseOver self.now.manner (T.pages timeline.now) (T.touches timeline.now) self.now.scale
            settings.now result }
    {
        course_in(
            timeline,
            settings,
            &self.scale,
            self.manner,
            marks,
            list,
            rows,
        )
    }

    /// Returns whether the trial ends well if its plan comes to this, over a trace with this last tick.
    fn ends_well(&self, course: &Course, last_tick: u64) -> bool
        ensures { IsTrue result ↔ EndsWell self.now course.now last_tick }
    {
        let start = self.others.start;
        let cost = Cost::new(&self.scale, &self.limits, start, course, last_tick);
        course.ending.converges() && matches!(cost.kept(), Verdict::Yes)
    }

    /// Returns whether the trial comes to what is aimed at if its plan comes to this, over a trace with this last tick.
    fn comes_to(&self, aim: Aim, course: &Course, last_tick: u64) -> bool
        ensures { IsTrue result ↔ ComesTo aim self.now course.now last_tick }
    {
        match aim {
            Aim::Limit => self.ends_well(course, last_tick),
            Aim::End => course.stop <= last_tick,
        }
    }
}

/// Returns whether a trial reaches an aim, over a timeline. It costs as much as a plan.
pub(crate) fn reaches<T: Timeline>(
    timeline: &T,
    trial: &Trial,
    aim: Aim,
    marks: &mut [u64],
    list: &mut [u32],
    rows: &mut [RoundRow],
) -> bool
    requires marks { length marks.old ≡ word_count (T.pages timeline.now) }
    requires list { length list.old ≡ T.pages timeline.now }
    requires rows { 64 ≤ length rows.old }
    ensures { IsTrue result ↔ Reaches aim (T.pages timeline.now) (T.touches timeline.now) trial.now }
{
    match trial.settings() {
        Some(settings) => {
            let course = trial.course(timeline, &settings, marks, list, rows);
            trial.comes_to(aim, &course, last_tick(timeline))
        }
        None => false,
    }
}

/// Returns whether a trial keeps its limit, over a timeline.
///
/// It allocates nothing: the caller lends a bit of `marks` and a slot of `list` for each page, and 64 slots of `rows`.
/// What they hold does not matter. It costs as much as a plan.
pub fn keeps_limit<T: Timeline>(
    timeline: &T,
    trial: &Trial,
    marks: &mut [u64],
    list: &mut [u32],
    rows: &mut [RoundRow],
) -> bool
    requires marks { length marks.old ≡ word_count (T.pages timeline.now) }
    requires list { length list.old ≡ T.pages timeline.now }
    requires rows { 64 ≤ length rows.old }
    ensures { IsTrue result ↔ KeepsLimit (T.pages timeline.now) (T.touches timeline.now) trial.now }
{
    reaches(timeline, trial, Aim::Limit, marks, list, rows)
}
