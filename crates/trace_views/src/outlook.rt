//! What is predicted of a migration over a log of touches.

ghost use Rattle.std.specs.Prelude.{◌≡◌, IfErr, IfOk};
ghost use Rattle.predictions.specs.Looks.{IsForecast};
ghost use Rattle.trace_views.specs.Outlooks.{AreRangesOver, IsOutlook, is_cut, measure_of, tells_of, trial_of};

use crate::case_planning::cases_over;
use crate::error::ViewError;
use guest_log::last_tick;
use look_planner::PlanEnd;
use predictions::agreement::Agreement;
use predictions::looks::LookForecast;
use predictions::redrawn::Errors;
use predictions::remedies::{Remedies, Trial};
use predictions::shares::LinkShare;
use predictions::starts::{StartRanges, ranges_over, spread_cases};
use predictions::{Manner, Measure, Prediction};
use rate_limit::Settings;
use std::alloc::Global;
use std::thread::Threads;
use trace_readers::TouchLog;
use view_kinds::AskedPrediction;

/// What is predicted of a migration.
#[derive(Debug, Drop)]
pub struct Outlook {
    /// What its plan predicts, by the manner that is asked for.
    pub prediction: Prediction,
    /// How far chance moves that, if pages were sampled.
    pub errors: Option<Errors>,
    /// What comes of it if the hypervisor looks as QEMU does, if it begins within the trace.
    pub looks: Option<LookForecast>,
    /// What it costs from several starts, if it is known from any.
    pub ranges: Option<StartRanges>,
    /// In how many draws, and from how many starts, its answers are the same.
    pub agreement: Agreement,
    /// Down to which share of its link the verdict is the same.
    pub share: LinkShare,
    /// What is enough for its limit, and to end within the trace.
    pub remedies: Remedies,
}

/// Returns whether a forecast is told beside a prediction by a manner.
fn tells_of(manner: Manner, forecast: &Option<LookForecast>) -> bool
    ensures { result ≡ tells_of manner forecast.now }
{
    match (manner, forecast) {
        (Manner::Rounds, _) => true,
        (Manner::Looks, Some(forecast)) => is_cut(forecast),
        (Manner::Looks, None) => false,
    }
}

/// Returns whether the trace ends before a hypervisor's migration.
fn is_cut(forecast: &LookForecast) -> bool
    ensures { result ≡ is_cut forecast.now.end }
{
    matches!(forecast.end, PlanEnd::Record)
}

impl Outlook {
    ghost use Rattle.std.specs.Prelude.{◌≡◌};
    ghost use Rattle.trace_views.specs.Outlooks.{tells_looks};

    /// Returns whether it is told what comes of it if the hypervisor looks as QEMU does. Beside a prediction by looks
    /// that would say the same twice, unless the trace ends first.
    pub(crate) fn tells_looks(&self) -> bool
        ensures { result ≡ tells_looks self.now }
    {
        tells_of(self.prediction.manner, &self.looks)
    }
}

/// Returns the ranges of what a migration over a log costs from several starts.
fn ranges_from<R: Threads + Sync>(
    rt: &R,
    alloc: Global,
    settings: &Settings,
    measure: &Measure,
    log: &TouchLog,
) -> Result<Option<StartRanges>, ViewError>
    ensures made { IfOk result (AreRangesOver log.now settings.now measure.now) }
    ensures refused { IfErr result (λ e. e ≡ ViewError.Memory) }
{
    let last = last_tick(log);
    let starts = spread_cases(alloc, settings, last)?;
    let workers = settings.asked().workers as usize;
    let cases = cases_over(rt, alloc, &starts, measure, workers, log)?;
    Ok(ranges_over(alloc, measure, &cases, last)?)
}

/// Returns what comes of a migration over a log if the hypervisor looks as QEMU does.
fn looks_over(
    alloc: Global,
    asked: &AskedPrediction,
    log: &TouchLog,
) -> Result<Option<LookForecast>, ViewError>
    ensures made { IfOk result (IsForecast log.now.pages log.now.touches asked.now.scale asked.now.limits
        asked.now.settings) }
    ensures refused { IfErr result (λ e. e ≡ ViewError.Memory) }
{
    let (scale, limits) = (&asked.scale, &asked.limits);
    let made = LookForecast::of_trace(alloc, log, &asked.settings, scale, limits);
    Ok(made.or(Err(ViewError::Memory))?)
}

/// Returns the migration that is asked for, as one whose limits are changed.
fn trial_of(asked: &AskedPrediction) -> Trial
    ensures { result ≡ trial_of asked.now }
{
    Trial {
        scale: asked.scale,
        limits: asked.limits,
        increment: asked.increment,
        others: *asked.settings.asked(),
        manner: asked.manner,
    }
}

/// Returns by what the migration that is asked for is judged.
fn measure_of(asked: &AskedPrediction) -> Measure
    ensures { result ≡ measure_of asked.now }
{
    Measure {
        scale: asked.scale,
        limits: asked.limits,
        manner: asked.manner,
    }
}

/// Returns what is predicted of a migration over a log.
pub(crate) fn outlook_over<R: Threads + Sync>(
    rt: &R,
    alloc: Global,
    asked: &AskedPrediction,
    log: &TouchLog,
) -> Result<Outlook, ViewError>
    ensures made { IfOk result (IsOutlook log.now asked.now) }
    ensures refused { IfErr result (λ e. e ≡ ViewError.Memory) }
{
    let measure = measure_of(asked);
    let prediction = Prediction::of_trace(alloc, log, &asked.settings, &measure)?;
    let errors = Errors::of_trace(alloc, log, &asked.settings, &asked.scale, asked.manner)?;
    let looks = looks_over(alloc, asked, log)?;
    let ranges = ranges_from(rt, alloc, &asked.settings, &measure, log)?;
    let agreement = Agreement::of_trace(alloc, log, &asked.settings, &measure)?;
    let trial = trial_of(asked);
    let share = LinkShare::of_trace(alloc, log, &trial)?;
    let remedies = Remedies::of_trace(alloc, log, &trial)?;
    Ok(Outlook {
        prediction,
        errors,
        looks,
        ranges,
        agreement,
        share,
        remedies,
    })
}
