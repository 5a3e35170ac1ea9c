//! What comes of a migration if its hypervisor goes on as QEMU does.

// `IsForecast` holds of one value alone: `one_forecast`.
// `RefusesPrediction` holds of one value alone: `one_refused_prediction`.

ghost use Rattle.std.specs.Prelude.{◌≡◌, IfErr, IfOk, OnOk};
ghost use Rattle.predictions.specs.Questions.{Fits, scale_in};
ghost use Rattle.c_answers.specs.Forecasts.{IsForecastOf, IsForecastOver};
ghost use Rattle.c_answers.specs.Predictions.{IsAsked, RefusesPrediction, number_of_question};

use crate::inquiries::{Inquiry, inquiry_of};
use crate::questions::{QuestionRefusal, SizedQuestion};
use c_layout::ForecastNumbers;
use open_traces::OpenTrace;
use predictions::Terms;
use predictions::looks::LookForecast;
use round_planner::PlanError;
use std::alloc::Global;
use trace_readers::TouchLog;

/// Returns what comes of a question over a log.
fn forecast_over(alloc: Global, terms: &Terms, log: &TouchLog) -> Result<ForecastNumbers, PlanError>
    ensures { IfOk result (IsForecastOver terms.now log.now) }
{
    let Terms {
        scale,
        limits,
        settings,
        ..
    } = terms;
    let forecast = LookForecast::of_trace(alloc, log, settings, scale, limits)?;
    Ok(ForecastNumbers::new(&forecast))
}

/// Returns what comes of a question over a trace. The question is tested first.
pub fn foretold(
    alloc: Global,
    trace: &OpenTrace<'_>,
    asked: &SizedQuestion,
) -> Result<ForecastNumbers, QuestionRefusal>
    ensures made { IfOk result (IsForecastOf trace.now asked.now.question) }
    ensures accepted { OnOk result (IsAsked asked.now) }
    ensures refused { IfErr result (RefusesPrediction trace.now asked.now) }
    ensures only { IsAsked asked.now → Fits (scale_in asked.now.question) trace.now.shift trace.now.pages
        → IfErr result (λ e. number_of_question e ≡ 16) }
{
    let Inquiry { terms, log } = inquiry_of(alloc, trace, asked)?;
    let found = forecast_over(alloc, &terms, &log)?;
    Ok(found)
}
