//! Answers to questions about a migration, in the numbers that C and a web page have.

ghost use Rattle.std.specs.Prelude.{◌≡◌};
ghost use Rattle.predictions.specs.Questions.{capped, reason_number, verdict_number};
ghost use Rattle.rate_limit.specs.Pacing.{reason_of};

use crate::course::Course;
use crate::measure::Measure;
use crate::prediction::{Foretold, Prediction};
use crate::question::Terms;
use crate::redrawn::Errors;
use crate::verdict::Verdict;
use guest_log::Timeline;
use rate_limit::Reason;
use std::alloc::{AllocError, Global};

/// What a migration will be. It is laid out as C's `struct precopy_prediction`.
#[derive(Clone, Copy, Debug, PartialEq, Eq)]
#[repr(C)]
pub struct Answer {
    /// How many rounds or looks there are.
    pub rounds: u64,
    /// Why there are no more: 0 if few pages remain, 1 if the next rate is too high, 2 after the last round, 3 after the
    /// last look, 4 if the trace ends first, 5 if it does and a list between the first and the last has no more pages
    /// than the last.
    pub reason: u64,
    /// The tick at which the guest is stopped.
    pub stop: u64,
    /// How long the pages that are left take, in ticks.
    pub down: u64,
    /// How many pages of the trace are sent, before the stop and after it.
    pub total: u64,
    /// How many of them are sent after the stop.
    pub left: u64,
    /// From the start until the guest runs again, in microseconds.
    pub time: u64,
    /// How many bytes of the guest are sent.
    pub bytes: u64,
    /// How long the guest does not run, in microseconds.
    pub downtime: u64,
    /// How long the trace goes on after the start, in microseconds.
    pub recorded: u64,
    /// Whether the migration converges: 0 for yes, 1 for no, and 2 if the trace ends before the migration does.
    pub converges: u32,
    /// Whether it keeps the downtime limit, in the same numbers.
    pub kept: u32,
}

/// Standard errors of a prediction. It is laid out as C's `struct precopy_errors`.
#[derive(Clone, Copy, Debug, PartialEq, Eq)]
#[repr(C)]
pub struct ErrorNumbers {
    /// Of the bytes of the guest that are sent.
    pub bytes: u64,
    /// Of the time, in microseconds.
    pub time: u64,
    /// Of the downtime, in microseconds.
    pub downtime: u64,
    /// Whether there are standard errors: 0 if no pages were sampled, or all.
    pub has_errors: u32,
}

/// Returns a number, or else the greatest that 64 bits hold.
fn capped(number: u128) -> u64
    ensures { result ≡ capped number }
{
    number.min(u64::MAX as u128) as u64
}

/// Returns the number of a reason: 0 to 2.
pub fn number_of_reason(reason: Reason) -> u64
    ensures { result ≡ reason_number (reason_of reason) }
{
    match reason {
        Reason::Few => 0,
        Reason::Fast => 1,
        Reason::Rounds => 2,
    }
}

/// Returns the number of a verdict.
pub(crate) fn number_of_verdict(verdict: Verdict) -> u32
    ensures { result ≡ verdict_number verdict }
{
    match verdict {
        Verdict::Yes => 0,
        Verdict::No => 1,
        Verdict::Unknown => 2,
        Verdict::Uncertain => 3,
    }
}

impl Answer {
    ghost use Rattle.std.specs.Prelude.{◌≡◌, IfOk};
    ghost use Rattle.predictions.specs.Questions.{answer_of};
    ghost use Rattle.predictions.specs.Questions.Answers.{IsAnswer};

    /// Returns the answer of a plan that comes to this and predicts this.
    pub fn new(course: &Course, prediction: &Prediction) -> Answer
        ensures { result ≡ answer_of course.now prediction.now }
    {
        let cost = &prediction.cost;
        Answer {
            rounds: course.steps,
            reason: prediction.ending.number(),
            stop: course.stop,
            down: course.down,
            total: course.total,
            left: prediction.left,
            time: capped(cost.time),
            bytes: capped(cost.bytes),
            downtime: capped(cost.downtime),
            recorded: capped(prediction.recorded),
            converges: number_of_verdict(prediction.verdict()),
            kept: number_of_verdict(cost.kept()),
        }
    }

    /// Returns the answer to a question over a trace, which is one (`one_answer`). The only error is that memory runs
    /// out.
    pub fn of_trace<T: Timeline>(
        alloc: Global,
        timeline: &T,
        terms: &Terms,
    ) -> Result<Answer, AllocError>
        ensures { IfOk result (IsAnswer terms.now (T.pages timeline.now) (T.touches timeline.now)) }
    {
        let measure = Measure {
            scale: terms.scale,
            limits: terms.limits,
            manner: terms.manner,
        };
        let foretold = Foretold::of_trace(alloc, timeline, &terms.settings, &measure)?;
        Ok(Answer::new(&foretold.course, &foretold.prediction))
    }
}

impl ErrorNumbers {
    ghost use Rattle.std.specs.Prelude.{◌≡◌};
    ghost use Rattle.predictions.specs.Questions.{error_numbers};

    /// Returns standard errors, or zeros if there are none.
    pub fn new(errors: &Option<Errors>) -> ErrorNumbers
        ensures { result ≡ error_numbers errors.now }
    {
        match errors {
            Some(errors) => ErrorNumbers {
                bytes: capped(errors.bytes),
                time: capped(errors.time),
                downtime: capped(errors.downtime),
                has_errors: 1,
            },
            None => ErrorNumbers {
                bytes: 0,
                time: 0,
                downtime: 0,
                has_errors: 0,
            },
        }
    }
}
