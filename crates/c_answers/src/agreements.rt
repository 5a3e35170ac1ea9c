//! How sure a prediction is: in how many draws of a sample, and from how many starts, its answers are the same.

// `IsPrediction` holds of one value alone: `one_prediction`.
// `IsAgreement` holds of one value alone: `one_agreement`.
// `RefusesPrediction` holds of one value alone: `one_refused_prediction`.

ghost use Rattle.std.specs.Prelude.{◌≡◌, IfErr, IfOk, OnOk};
ghost use Rattle.predictions.specs.Questions.{Fits, scale_in};
ghost use Rattle.c_answers.specs.Agreements.{IsAgreementOf};
ghost use Rattle.c_layout.specs.Agreements.{IsAgreementOver};
ghost use Rattle.c_answers.specs.Predictions.{IsAsked, RefusesPrediction, number_of_question};

use crate::inquiries::{Inquiry, inquiry_of};
use crate::questions::{QuestionRefusal, SizedQuestion};
use open_traces::OpenTrace;
use predictions::agreement::{Agreement, AgreementNumbers};
use predictions::redrawn::Errors;
use predictions::{Measure, Prediction, Terms};
use std::alloc::{AllocError, Global};
use trace_readers::TouchLog;

/// Returns how sure the answer to a question is over a log.
fn agreement_over(
    alloc: Global,
    terms: &Terms,
    log: &TouchLog,
) -> Result<AgreementNumbers, AllocError>
    ensures { IfOk result (IsAgreementOver terms.now.manner terms.now log.now) }
{
    let Terms {
        scale,
        limits,
        manner,
        settings,
    } = terms;
    let measure = Measure {
        scale: *scale,
        limits: *limits,
        manner: *manner,
    };
    let prediction = Prediction::of_trace(alloc, log, settings, &measure)?;
    let errors = Errors::of_trace(alloc, log, settings, scale, *manner)?;
    let agreement = Agreement::of_trace(alloc, log, settings, &measure)?;
    Ok(AgreementNumbers::new(limits.downtime, &agreement, &prediction, &errors))
}

/// Returns how sure the answer to a question is over a trace. The question is tested first.
pub fn agreed(
    alloc: Global,
    trace: &OpenTrace<'_>,
    asked: &SizedQuestion,
) -> Result<AgreementNumbers, QuestionRefusal>
    ensures made { IfOk result (IsAgreementOf trace.now asked.now.question) }
    ensures accepted { OnOk result (IsAsked asked.now) }
    ensures refused { IfErr result (RefusesPrediction trace.now asked.now) }
    ensures only { IsAsked asked.now → Fits (scale_in asked.now.question) trace.now.shift trace.now.pages
        → IfErr result (λ e. number_of_question e ≡ 16) }
{
    let Inquiry { terms, log } = inquiry_of(alloc, trace, asked)?;
    let found = agreement_over(alloc, &terms, &log)?;
    Ok(found)
}
