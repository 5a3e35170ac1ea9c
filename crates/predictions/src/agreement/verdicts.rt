//! Answers that stand only if nearly all agree.

ghost use Rattle.std.specs.Prelude.{◌≡◌, IfOk};
ghost use Rattle.predictions.specs.Agreements.{IsAgreement, converge_as, for_draws, if_sure, keep_as, sure_kept};
ghost use Rattle.predictions.specs.Agreements.{sure_verdict, withstands};

use crate::agreement::counts::AnswerCounts;
use crate::cost::Cost;
use crate::measure::Measure;
use crate::prediction::Prediction;
use crate::redrawn::Errors;
use crate::starts::{StartCost, is_likely};
use crate::verdict::Verdict;
use guest_log::Timeline;
use rate_limit::Settings;
use std::alloc::{AllocError, Global};

/// In how many draws of a sample, and from how many starts, a migration converges and keeps its limit.
#[derive(Clone, Copy, Debug, PartialEq, Eq)]
pub struct Agreement {
    /// The answers of the plans of draws, if pages were sampled.
    pub draws: Option<AnswerCounts>,
    /// The answers of the plans from the starts that the record allows.
    pub starts: AnswerCounts,
}

/// Returns an answer if it is sure.
fn if_sure(sure: bool, verdict: Verdict) -> Verdict
    ensures { result ≡ if_sure sure verdict }
{
    match verdict {
        Verdict::Yes => {
            if sure {
                Verdict::Yes
            } else {
                Verdict::Uncertain
            }
        }
        Verdict::No => {
            if sure {
                Verdict::No
            } else {
                Verdict::Uncertain
            }
        }
        Verdict::Uncertain => Verdict::Uncertain,
        Verdict::Unknown => Verdict::Unknown,
    }
}

/// Returns whether a limit that the plan keeps is kept with two standard errors of the downtime.
pub(crate) fn withstands(limit: u64, cost: &Cost, errors: &Option<Errors>) -> bool
    ensures { result ≡ withstands limit cost.now errors.now }
{
    let at = StartCost {
        start: 0,
        cost: *cost,
        errors: *errors,
    };
    !cost.is_kept || is_likely(limit, &at)
}

/// Returns whether nearly all draws converge as an answer says, if there are any.
fn draws_converge(draws: &Option<AnswerCounts>, verdict: Verdict) -> bool
    ensures { result ≡ for_draws (converge_as verdict) draws.now }
{
    match draws {
        Some(counts) => counts.converge_as(verdict),
        None => true,
    }
}

/// Returns whether nearly all draws keep the limit as an answer says, if there are any.
fn draws_keep(draws: &Option<AnswerCounts>, verdict: Verdict) -> bool
    ensures { result ≡ for_draws (keep_as verdict) draws.now }
{
    match draws {
        Some(counts) => counts.keep_as(verdict),
        None => true,
    }
}

impl Agreement {
    /// Returns in how many draws, and from how many starts, a migration converges and keeps its limit. The only error
    /// is that memory runs out. It costs as much as 42 plans, or 21 if no pages were sampled.
    pub fn of_trace<T: Timeline>(
        alloc: Global,
        timeline: &T,
        settings: &Settings,
        measure: &Measure,
    ) -> Result<Agreement, AllocError>
        ensures { IfOk result (IsAgreement measure.now.manner (T.pages timeline.now) (T.touches timeline.now)
            settings.now measure.now.scale measure.now.limits) }
    {
        let draws = AnswerCounts::of_draws(alloc, timeline, settings, measure)?;
        let starts = AnswerCounts::of_starts(alloc, timeline, settings, measure)?;
        Ok(Agreement { draws, starts })
    }

    /// Returns whether a migration converges, if it is sure.
    pub fn verdict(&self, prediction: &Prediction) -> Verdict
        ensures { result ≡ sure_verdict self.now prediction.now }
    {
        let verdict = prediction.verdict();
        let sure = draws_converge(&self.draws, verdict) && self.starts.converge_as(verdict);
        if_sure(sure, verdict)
    }

    /// Returns whether a migration keeps a limit, if it is sure.
    pub fn kept(&self, limit: u64, cost: &Cost, errors: &Option<Errors>) -> Verdict
        ensures { result ≡ sure_kept limit self.now cost.now errors.now }
    {
        let verdict = cost.kept();
        let agree = draws_keep(&self.draws, verdict) && self.starts.keep_as(verdict);
        let sure = agree && withstands(limit, cost, errors);
        if_sure(sure, verdict)
    }
}
