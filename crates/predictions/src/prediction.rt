//! What a plan predicts.

// `IsPrediction` holds of one value alone: `one_prediction`.

ghost use Rattle.std.specs.Prelude.{◌≡◌, ℕ, IfOk, List};
ghost use Rattle.migration_model.specs.Rates.{MigrationSettings};
ghost use Rattle.migration_model.specs.Touches.{GuestTouch};
ghost use Rattle.predictions.specs.Predictions.{GuestPrediction};
ghost use Rattle.predictions.specs.Predictions.Traces.{IsForetold, IsPrediction};
ghost use Rattle.predictions.specs.Units.Scales.{TraceScale};
ghost use Rattle.predictions.specs.declared.course.Manner.{Manner};
ghost use Rattle.predictions.specs.declared.course.Manner.TheVariants as manners;
ghost use Rattle.predictions.specs.declared.units.limits.Limits.{Limits};

use crate::cost::Cost;
use crate::course::{Course, CourseEnd, Manner, trace_sums};
use crate::measure::Measure;
use crate::units::{Limits, Scale};
use crate::verdict::Verdict;
use guest_log::{Timeline, last_tick};
use look_planner::LookSums;
use page_bitmap::word_count;
use rate_limit::Settings;
use round_planner::{Outcome, Plan, plan};
use std::alloc::{AllocError, Global};
use std::marker::Model;

/// What a migration will be: how it ends, and what it costs.
#[derive(Debug, Drop)]
pub struct Prediction {
    /// By whose plan it goes.
    pub manner: Manner,
    /// Why that ends.
    pub ending: CourseEnd,
    /// What it costs, in time and bytes.
    pub cost: Cost,
    /// How many pages of the trace are sent after the stop.
    pub left: u64,
    /// How long the trace goes on after the start, in microseconds.
    pub recorded: u128,
}

impl Model for Prediction {
    ghost use Rattle.predictions.specs.Predictions.{GuestPrediction};

    ghost Value = { GuestPrediction };

    ghost view = { λ p. record {
      manner = p.manner;
      ending = p.ending;
      cost = p.cost;
      left = p.left;
      recorded = p.recorded;
    } };
}

impl Prediction {
    ghost use Rattle.std.specs.Prelude.{◌≡◌, ◌≤◌, ◌^◌, IfOk};
    ghost use Rattle.predictions.specs.Predictions.{prediction_by, prediction_of, prediction_with, verdict_of};
    ghost use Rattle.predictions.specs.Predictions.Traces.{IsPrediction, prediction_of_sums};

    /// Returns what a plan predicts that begins at a tick, by what it comes to and the number of pages that it leaves,
    /// over a trace with this last tick.
    pub fn of_course(
        measure: &Measure,
        start: u64,
        course: &Course,
        left: u64,
        last_tick: u64,
    ) -> Prediction
        ensures { result ≡ prediction_by measure.now.manner measure.now.scale measure.now.limits start course.now left
            last_tick }
    {
        let Measure {
            scale,
            limits,
            manner,
        } = measure;
        Prediction {
            manner: *manner,
            ending: course.ending,
            cost: Cost::new(scale, limits, start, course, last_tick),
            left,
            recorded: scale.micros(last_tick.saturating_sub(start)),
        }
    }

    /// Returns what Clark's plan predicts that begins at a tick, over a trace of this scale and with this last tick.
    pub fn new(
        scale: &Scale,
        limits: &Limits,
        start: u64,
        plan: &Plan,
        last_tick: u64,
    ) -> Prediction
        ensures { result ≡ prediction_of scale.now limits.now start plan.now last_tick }
    {
        Prediction::of_outcome(
            scale,
            limits,
            start,
            &plan.outcome(),
            plan.last.len() as u64,
            last_tick,
        )
    }

    /// Returns what Clark's plan predicts that begins at a tick, by its sums and the number of pages that it leaves,
    /// over a trace of this scale and with this last tick.
    pub fn of_outcome(
        scale: &Scale,
        limits: &Limits,
        start: u64,
        outcome: &Outcome,
        left: u64,
        last_tick: u64,
    ) -> Prediction
        ensures { result ≡ prediction_with scale.now limits.now start outcome.now left last_tick }
    {
        let measure = Measure {
            scale: *scale,
            limits: *limits,
            manner: Manner::Rounds,
        };
        let course = Course::of_outcome(outcome);
        Prediction::of_course(&measure, start, &course, left, last_tick)
    }

    /// Returns what a hypervisor's plan predicts that begins at a tick, by its sums, over a trace of this scale and
    /// with this last tick.
    fn of_sums(
        scale: &Scale,
        limits: &Limits,
        start: u64,
        sums: &LookSums,
        last_tick: u64,
    ) -> Prediction
        requires { sums.now.stop ≤ 2 ^ 40 }
        ensures { result ≡ prediction_of_sums scale.now limits.now start sums.now last_tick }
    {
        let measure = Measure {
            scale: *scale,
            limits: *limits,
            manner: Manner::Looks,
        };
        let course = Course::of_sums(sums);
        Prediction::of_course(&measure, start, &course, sums.left, last_tick)
    }

    /// Returns what the plan of a trace predicts, by a manner. The only error is that memory runs out.
    pub fn of_trace<T: Timeline>(
        alloc: Global,
        timeline: &T,
        settings: &Settings,
        measure: &Measure,
    ) -> Result<Prediction, AllocError>
        ensures { IfOk result (IsPrediction measure.now.manner (T.pages timeline.now) (T.touches timeline.now)
            measure.now.scale measure.now.limits settings.now) }
    {
        let foretold = Foretold::of_trace(alloc, timeline, settings, measure)?;
        Ok(foretold.prediction)
    }

    /// Returns whether the migration converges.
    pub fn verdict(&self) -> Verdict
        ensures { result ≡ verdict_of self.now }
    {
        Verdict::new(self.cost.is_late, self.ending.converges())
    }
}

/// What a plan comes to, and what it predicts.
#[derive(Debug, Drop)]
pub(crate) struct Foretold {
    pub(crate) course: Course,
    pub(crate) prediction: Prediction,
}

/// Returns what a hypervisor's plan of a trace comes to and predicts.
fn by_looks<T: Timeline>(
    alloc: Global,
    timeline: &T,
    settings: &Settings,
    scale: &Scale,
    limits: &Limits,
) -> Result<Foretold, AllocError>
    ensures { IfOk result (IsForetold manners.Looks (T.pages timeline.now) (T.touches timeline.now) scale.now
        limits.now settings.now) }
{
    let pages = timeline.page_count() as usize;
    let mut marks = Vec::from_elem(alloc, 0, word_count(pages))?;
    let mut list = Vec::from_elem(alloc, 0, pages)?;
    let sums = trace_sums(timeline, settings, scale, &mut marks, &mut list);
    let start = settings.asked().start;
    let last = last_tick(timeline);
    Ok(Foretold {
        course: Course::of_sums(&sums),
        prediction: Prediction::of_sums(scale, limits, start, &sums, last),
    })
}

/// Returns what Clark's plan of a trace comes to and predicts.
fn by_rounds<T: Timeline>(
    alloc: Global,
    timeline: &T,
    settings: &Settings,
    scale: &Scale,
    limits: &Limits,
) -> Result<Foretold, AllocError>
    ensures { IfOk result (IsForetold manners.Rounds (T.pages timeline.now) (T.touches timeline.now) scale.now
        limits.now settings.now) }
{
    let plan = plan(alloc, timeline, settings).or(Err(AllocError))?;
    let start = settings.asked().start;
    let last = last_tick(timeline);
    Ok(Foretold {
        course: Course::of_outcome(&plan.outcome()),
        prediction: Prediction::new(scale, limits, start, &plan, last),
    })
}

impl Foretold {
    ghost use Rattle.std.specs.Prelude.{IfOk};
    ghost use Rattle.predictions.specs.Predictions.Traces.{IsForetold};

    /// Returns what the plan of a trace comes to and predicts, by a manner. The only error is that memory runs out.
    pub(crate) fn of_trace<T: Timeline>(
        alloc: Global,
        timeline: &T,
        settings: &Settings,
        measure: &Measure,
    ) -> Result<Foretold, AllocError>
        ensures { IfOk result (IsForetold measure.now.manner (T.pages timeline.now) (T.touches timeline.now)
            measure.now.scale measure.now.limits settings.now) }
    {
        let Measure {
            scale,
            limits,
            manner,
        } = measure;
        match manner {
            Manner::Looks => by_looks(alloc, timeline, settings, scale, limits),
            Manner::Rounds => by_rounds(alloc, timeline, settings, scale, limits),
        }
    }
}

/// The plan of a guest by a manner predicts one thing.
pub fn one_prediction()
    ensures { (manner : Manner) (pages : ℕ) (touches : List GuestTouch) (scale : TraceScale) (limits : Limits)
        (s : MigrationSettings) (a b : GuestPrediction) → IsPrediction manner pages touches scale limits s a
        → IsPrediction manner pages touches scale limits s b → a ≡ b }
{}
