//! A question of an open trace: what it comes to, and the touches.

ghost use Rattle.std.specs.Prelude.{◌≡◌, IfErr, IfOk};
ghost use Rattle.predictions.specs.Questions.{Fits, scale_in};
ghost use Rattle.c_answers.specs.Predictions.{IsAsked, IsInquiry, RefusesPrediction, number_of_question};

use crate::questions::{QuestionRefusal, SIZE, SizedQuestion};
use open_traces::OpenTrace;
use predictions::{Terms, check_fit};
use std::alloc::Global;
use trace_codec::WriteLog;
use trace_readers::TouchLog;

/// A question in range, and the touches of a trace that has its scale.
#[derive(Drop)]
pub(crate) struct Inquiry {
    pub(crate) terms: Terms,
    pub(crate) log: TouchLog,
}

/// Returns what a question comes to, and the touches of a trace. The question is tested first.
pub(crate) fn inquiry_of(
    alloc: Global,
    trace: &OpenTrace<'_>,
    asked: &SizedQuestion,
) -> Result<Inquiry, QuestionRefusal>
    ensures made { IfOk result (IsInquiry trace.now asked.now) }
    ensures refused { IfErr result (RefusesPrediction trace.now asked.now) }
    ensures only { IsAsked asked.now → Fits (scale_in asked.now.question) trace.now.shift trace.now.pages
        → IfErr result (λ e. number_of_question e ≡ 16) }
{
    if asked.size != SIZE {
        return Err(QuestionRefusal::Size);
    }
    let terms = asked.question.terms()?;
    check_fit(&terms.scale, &trace.shape())?;
    let log = TouchLog::of_log(alloc, trace)?;
    Ok(Inquiry { terms, log })
}
