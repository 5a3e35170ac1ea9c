//! Down to which share of its link a migration has the verdict that it has at all of it.

// `IsLinkShare` holds of one value alone: `one_link_share`.
// `RefusesPrediction` holds of one value alone: `one_refused_prediction`.

ghost use Rattle.std.specs.Prelude.{◌≡◌, IfErr, IfOk, OnOk};
ghost use Rattle.predictions.specs.Questions.{Fits, scale_in};
ghost use Rattle.c_answers.specs.LinkShares.{AreSharesOf, AreSharesOver};
ghost use Rattle.c_answers.specs.Predictions.{IsAsked, RefusesPrediction, number_of_question};

use crate::inquiries::{Inquiry, inquiry_of};
use crate::questions::{QuestionRefusal, SizedQuestion};
use c_layout::ShareNumbers;
use open_traces::OpenTrace;
use predictions::remedies::Trial;
use predictions::shares::LinkShare;
use std::alloc::{AllocError, Global};
use trace_readers::TouchLog;

/// Returns the shares of a trial's link over a log.
fn shares_over(alloc: Global, trial: &Trial, log: &TouchLog) -> Result<ShareNumbers, AllocError>
    ensures { IfOk result (AreSharesOver trial.now log.now) }
{
    let found = LinkShare::of_trace(alloc, log, trial)?;
    Ok(ShareNumbers::new(&found))
}

/// Returns the shares of the link of a question over a trace. The question is tested first.
pub fn shares_of(
    alloc: Global,
    trace: &OpenTrace<'_>,
    asked: &SizedQuestion,
) -> Result<ShareNumbers, QuestionRefusal>
    ensures made { IfOk result (AreSharesOf trace.now asked.now.question) }
    ensures accepted { OnOk result (IsAsked asked.now) }
    ensures refused { IfErr result (RefusesPrediction trace.now asked.now) }
    ensures only { IsAsked asked.now → Fits (scale_in asked.now.question) trace.now.shift trace.now.pages
        → IfErr result (λ e. number_of_question e ≡ 16) }
{
    let Inquiry { log, .. } = inquiry_of(alloc, trace, asked)?;
    let trial = Trial::of_question(&asked.question)?;
    let found = shares_over(alloc, &trial, &log)?;
    Ok(found)
}
