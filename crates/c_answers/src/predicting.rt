//! Predictions: what a migration with given limits will be, in time and bytes, and how far a sample's draw moves that.

// `IsAnswer` holds of one value alone: `one_answer`.
// `RefusesPrediction` holds of one value alone: `one_refused_prediction`.

ghost use Rattle.std.specs.Prelude.{◌≡◌, IfErr, IfOk, OnOk};
ghost use Rattle.predictions.specs.Questions.{Fits, scale_in};
ghost use Rattle.c_answers.specs.Predictions.{AreNumbersOver, IsAsked, IsPredictionOf};
ghost use Rattle.c_answers.specs.Predictions.{RefusesPrediction, number_of_question};

use crate::inquiries::{Inquiry, inquiry_of};
use crate::questions::{QuestionRefusal, SizedQuestion};
use open_traces::OpenTrace;
use predictions::redrawn::Errors;
use predictions::{Answer, ErrorNumbers, Terms};
use std::alloc::{AllocError, Global};
use trace_readers::TouchLog;

/// What is told of a migration.
#[derive(Clone, Copy)]
pub struct ToldPrediction {
    pub answer: Answer,
    pub errors: ErrorNumbers,
}

/// Returns the standard errors of the answer to a question over a log.
fn numbers(alloc: Global, terms: &Terms, log: &TouchLog) -> Result<ErrorNumbers, AllocError>
    ensures { IfOk result (AreNumbersOver terms.now log.now) }
{
    let errors = Errors::of_trace(alloc, log, &terms.settings, &terms.scale, terms.manner)?;
    Ok(ErrorNumbers::new(&errors))
}

/// Returns what is told of a migration over a trace. The question is tested first.
pub fn predicted(
    alloc: Global,
    trace: &OpenTrace<'_>,
    asked: &SizedQuestion,
) -> Result<ToldPrediction, QuestionRefusal>
    ensures made { IfOk result (λ told. IsPredictionOf trace.now asked.now.question told.answer told.errors) }
    ensures accepted { OnOk result (IsAsked asked.now) }
    ensures refused { IfErr result (RefusesPrediction trace.now asked.now) }
    ensures only { IsAsked asked.now → Fits (scale_in asked.now.question) trace.now.shift trace.now.pages
        → IfErr result (λ e. number_of_question e ≡ 16) }
{
    let Inquiry { terms, log } = inquiry_of(alloc, trace, asked)?;
    let answer = Answer::of_trace(alloc, &log, &terms)?;
    let errors = numbers(alloc, &terms, &log)?;
    Ok(ToldPrediction { answer, errors })
}
