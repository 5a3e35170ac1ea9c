//! What is enough for the downtime limit of a migration, or how far it is kept.

// `RefusesPrediction` holds of one value alone: `one_refused_prediction`.

ghost use Rattle.std.specs.Prelude.{◌≡◌, IfErr, IfOk, OnOk};
ghost use Rattle.predictions.specs.Questions.{Fits, scale_in};
ghost use Rattle.c_answers.specs.Enough.{AreAmountsOf, AreAmountsOver};
ghost use Rattle.c_answers.specs.Predictions.{IsAsked, RefusesPrediction, number_of_question};

use crate::inquiries::{Inquiry, inquiry_of};
use crate::questions::{QuestionRefusal, SizedQuestion};
use open_traces::OpenTrace;
use predictions::remedies::{Remedies, RemedyNumbers, Trial};
use std::alloc::{AllocError, Global};
use trace_readers::TouchLog;

/// Returns whether a migration keeps its limit over a log, and what does.
fn amounts(alloc: Global, trial: &Trial, log: &TouchLog) -> Result<RemedyNumbers, AllocError>
    ensures { IfOk result (AreAmountsOver trial.now log.now) }
{
    let found = Remedies::of_trace(alloc, log, trial)?;
    Ok(RemedyNumbers::new(&found))
}

/// Returns whether the migration of a question keeps its limit over a trace, and what does. The
/// question is tested first.
pub fn enough(
    alloc: Global,
    trace: &OpenTrace<'_>,
    asked: &SizedQuestion,
) -> Result<RemedyNumbers, QuestionRefusal>
    ensures made { IfOk result (AreAmountsOf trace.now asked.now.question) }
    ensures accepted { OnOk result (IsAsked asked.now) }
    ensures refused { IfErr result (RefusesPrediction trace.now asked.now) }
    ensures only { IsAsked asked.now → Fits (scale_in asked.now.question) trace.now.shift trace.now.pages
        → IfErr result (λ e. number_of_question e ≡ 16) }
{
    let Inquiry { log, .. } = inquiry_of(alloc, trace, asked)?;
    let trial = Trial::of_question(&asked.question)?;
    let found = amounts(alloc, &trial, &log)?;
    Ok(found)
}
