//! What a migration costs, in time and bytes.

use crate::course::Course;
use crate::units::{Limits, Scale};
use crate::verdict::Verdict;
use round_planner::Outcome;
use std::marker::Model;
use sweep_report::Line;

/// What a migration costs: how long it takes, how much it sends, and how long the guest does not run.
#[derive(Clone, Copy, Debug, PartialEq, Eq)]
pub struct Cost {
    /// How many rounds or looks there are.
    pub steps: u64,
    /// From the start until the guest runs again, in microseconds.
    pub time: u128,
    /// How many bytes of the guest are sent, before the stop and after it.
    pub bytes: u128,
    /// How long the guest does not run, in microseconds.
    pub downtime: u128,
    /// Whether the plan stops the guest, and for no longer than the limit.
    pub is_kept: bool,
    /// Whether the guest is stopped only when what is left fits the limit, so that chance moves the downtime no further.
    pub is_bounded: bool,
    /// Whether the stop comes after the trace's last tick.
    pub is_late: bool,
}

impl Model for Cost {
    ghost use Rattle.predictions.specs.Predictions.{MigrationCost};
    ghost use Rattle.std.specs.Prelude.{◌<◌, ◌^◌};

    ghost Value = { MigrationCost };

    ghost view = { λ c. record {
      steps = c.steps;
      time = c.time;
      bytes = c.bytes;
      downtime = c.downtime;
      is_kept = c.is_kept;
      is_bounded = c.is_bounded;
      is_late = c.is_late;
    } };

    ghost invariant = { λ c. c.bytes < 2 ^ 110 };

    ghost inverse = { λ c. record {
      steps = c.steps;
      time = c.time;
      bytes = c.bytes;
      downtime = c.downtime;
      is_kept = c.is_kept;
      is_bounded = c.is_bounded;
      is_late = c.is_late;
    } };
}

impl Cost {
    ghost use Rattle.std.specs.Prelude.{◌≡◌};
    ghost use Rattle.predictions.specs.Courses.Ends.{course_of_rounds};
    ghost use Rattle.predictions.specs.Predictions.{cost_of, kept_of};

    /// Returns what a migration costs that begins at a tick and whose plan comes to this, over a trace of this scale
    /// and with this last tick.
    pub fn new(scale: &Scale, limits: &Limits, start: u64, course: &Course, last_tick: u64) -> Cost
        ensures { result ≡ cost_of scale.now limits.now start course.now last_tick }
    {
        let downtime = scale.micros(course.down) + limits.reserve as u128;
        Cost {
            steps: course.steps,
            time: scale.micros(course.stop.saturating_sub(start)) + downtime,
            bytes: scale.bytes(course.total),
            downtime,
            is_kept: course.keeps_limit(scale, limits),
            is_bounded: course.ending.is_bounded(),
            is_late: last_tick < course.stop,
        }
    }

    /// Returns whether the migration keeps its limit.
    pub fn kept(&self) -> Verdict
        ensures { result ≡ kept_of self.now }
    {
        Verdict::new(self.is_late, self.is_kept)
    }

    /// Returns what the migration of a line of a sweep costs.
    pub fn of_line(scale: &Scale, limits: &Limits, line: &Line, last_tick: u64) -> Cost
        ensures { result ≡ cost_of scale.now limits.now line.now.settings.start (course_of_rounds line.now.outcome)
            last_tick }
    {
        let outcome = Outcome {
            rounds: line.rounds,
            reason: line.reason,
            stop: line.stop,
            down: line.down,
            total: line.total,
        };
        Cost::new(
            scale,
            limits,
            line.settings.asked().start,
            &Course::of_outcome(&outcome),
            last_tick,
        )
    }
}
