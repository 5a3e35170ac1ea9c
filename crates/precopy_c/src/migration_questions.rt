//! Predictions over a trace that stays open: what a migration will be, how sure that is, what is enough for its limit,
//! and its best start.

// `IsAnswer` holds of one value alone: `one_answer`.
// `RefusesPrediction` holds of one value alone: `one_refused_prediction`.
// `Spells`, and so `Shows`, holds of one value alone: `one_trace`.
// `IsPrediction` holds of one value alone: `one_prediction`.
// `IsAgreement` holds of one value alone: `one_agreement`.
// `IsForecast` holds of one value alone: `one_forecast`.
// `IsLinkShare` holds of one value alone: `one_link_share`.
// `AreCases` holds of one value alone: `one_list_of_cases`.
// `IsBest` holds of one value alone: `one_best`.

ghost use Rattle.std.specs.Prelude.{◌≡◌, ◌≢◌, ◌⊎◌};
ghost use Rattle.migration_model.specs.Trace.{GuestTrace};
ghost use Rattle.predictions.specs.Questions.{Fits, scale_in};
ghost use Rattle.c_answers.specs.Agreements.{IsAgreementOf};
ghost use Rattle.c_answers.specs.Enough.{AreAmountsOf};
ghost use Rattle.c_answers.specs.Forecasts.{IsForecastOf};
ghost use Rattle.c_answers.specs.LinkShares.{AreSharesOf};
ghost use Rattle.c_answers.specs.Opened.{IsOpened, Shows};
ghost use Rattle.c_answers.specs.Predictions.{IsAsked, IsNumberOfQuestion, IsPredictionOf, RefusesPrediction};
ghost use Rattle.c_answers.specs.Starts.{IsAskedOfBest, IsBestOf, IsNumberOfBest, RefusesBest};

use c_answers::agreements::agreed;
use c_answers::enough::enough;
use c_answers::forecasts::foretold;
use c_answers::link_shares::shares_of;
use c_answers::opened::TraceHandle;
use c_answers::predicting::predicted;
use c_answers::questions::SizedQuestion;
use c_answers::starts::{SizedStarts, best_told};
use c_layout::{BestStartNumbers, ForecastNumbers, ShareNumbers};
use predictions::agreement::AgreementNumbers;
use predictions::remedies::RemedyNumbers;
use predictions::{Answer, ErrorNumbers};
use std::alloc::Global;

/// Sets what the migration of a trace will be with the limits of a question, and the standard errors of that if pages
/// were sampled.
#[unsafe(no_mangle)]
pub extern "C" fn precopy_trace_predict(
    alloc: Global,
    trace: &TraceHandle<'_>,
    question: &SizedQuestion,
    prediction: &mut Answer,
    errors: &mut ErrorNumbers,
) -> u32
    requires { IsOpened trace.now }
    ensures made { result ≡ 0 → (t : GuestTrace) × Shows trace.now t
        × IsPredictionOf t question.now.question prediction.new errors.new }
    ensures accepted { result ≡ 0 → IsAsked question.now }
    ensures refused { result ≢ 0 → (t : GuestTrace) × Shows trace.now t
        × IsNumberOfQuestion result (RefusesPrediction t question.now) }
    ensures only { (t : GuestTrace) → Shows trace.now t → IsAsked question.now
        → Fits (scale_in question.now.question) t.shift t.pages → (result ≡ 0) ⊎ (result ≡ 16) }
    ensures unchanged { result ≢ 0 → (prediction.new ≡ prediction.old) × (errors.new ≡ errors.old) }
{
    match predicted(alloc, &trace.opened(), question) {
        Ok(told) => {
            *prediction = told.answer;
            *errors = told.errors;
            0
        }
        Err(refusal) => refusal.number(),
    }
}

/// Sets whether the migration of a trace keeps the limit of a question; the least link and the least downtime that do,
/// each by itself; how much the guest has to be slowed if it is not kept; and the least link and the latest start that
/// end it within the trace if it does not.
#[unsafe(no_mangle)]
pub extern "C" fn precopy_trace_enough(
    alloc: Global,
    trace: &TraceHandle<'_>,
    question: &SizedQuestion,
    amounts: &mut RemedyNumbers,
) -> u32
    requires { IsOpened trace.now }
    ensures made { result ≡ 0 → (t : GuestTrace) × Shows trace.now t
        × AreAmountsOf t question.now.question amounts.new }
    ensures accepted { result ≡ 0 → IsAsked question.now }
    ensures refused { result ≢ 0 → (t : GuestTrace) × Shows trace.now t
        × IsNumberOfQuestion result (RefusesPrediction t question.now) }
    ensures only { (t : GuestTrace) → Shows trace.now t → IsAsked question.now
        → Fits (scale_in question.now.question) t.shift t.pages → (result ≡ 0) ⊎ (result ≡ 16) }
    ensures unchanged { result ≢ 0 → amounts.new ≡ amounts.old }
{
    match enough(alloc, &trace.opened(), question) {
        Ok(found) => {
            *amounts = found;
            0
        }
        Err(refusal) => refusal.number(),
    }
}

/// Sets in how many draws, and from how many starts, the migration of a question converges and keeps its limit, and
/// whether it surely does.
#[unsafe(no_mangle)]
pub extern "C" fn precopy_trace_agreement(
    alloc: Global,
    trace: &TraceHandle<'_>,
    question: &SizedQuestion,
    agreement: &mut AgreementNumbers,
) -> u32
    requires { IsOpened trace.now }
    ensures made { result ≡ 0 → (t : GuestTrace) × Shows trace.now t
        × IsAgreementOf t question.now.question agreement.new }
    ensures accepted { result ≡ 0 → IsAsked question.now }
    ensures refused { result ≢ 0 → (t : GuestTrace) × Shows trace.now t
        × IsNumberOfQuestion result (RefusesPrediction t question.now) }
    ensures only { (t : GuestTrace) → Shows trace.now t → IsAsked question.now
        → Fits (scale_in question.now.question) t.shift t.pages → (result ≡ 0) ⊎ (result ≡ 16) }
    ensures unchanged { result ≢ 0 → agreement.new ≡ agreement.old }
{
    match agreed(alloc, &trace.opened(), question) {
        Ok(found) => {
            *agreement = found;
            0
        }
        Err(refusal) => refusal.number(),
    }
}

/// Sets what comes of the migration of a question if its hypervisor looks at its dirty bitmap again only when few pages
/// are left, as QEMU does.
#[unsafe(no_mangle)]
pub extern "C" fn precopy_trace_forecast(
    alloc: Global,
    trace: &TraceHandle<'_>,
    question: &SizedQuestion,
    forecast: &mut ForecastNumbers,
) -> u32
    requires { IsOpened trace.now }
    ensures made { result ≡ 0 → (t : GuestTrace) × Shows trace.now t
        × IsForecastOf t question.now.question forecast.new }
    ensures accepted { result ≡ 0 → IsAsked question.now }
    ensures refused { result ≢ 0 → (t : GuestTrace) × Shows trace.now t
        × IsNumberOfQuestion result (RefusesPrediction t question.now) }
    ensures only { (t : GuestTrace) → Shows trace.now t → IsAsked question.now
        → Fits (scale_in question.now.question) t.shift t.pages → (result ≡ 0) ⊎ (result ≡ 16) }
    ensures unchanged { result ≢ 0 → forecast.new ≡ forecast.old }
{
    match foretold(alloc, &trace.opened(), question) {
        Ok(found) => {
            *forecast = found;
            0
        }
        Err(refusal) => refusal.number(),
    }
}

/// Sets whether the migration of a question converges, and down to which share of its link each whole per cent has that
/// verdict.
#[unsafe(no_mangle)]
pub extern "C" fn precopy_trace_link_shares(
    alloc: Global,
    trace: &TraceHandle<'_>,
    question: &SizedQuestion,
    shares: &mut ShareNumbers,
) -> u32
    requires { IsOpened trace.now }
    ensures made { result ≡ 0 → (t : GuestTrace) × Shows trace.now t
        × AreSharesOf t question.now.question shares.new }
    ensures accepted { result ≡ 0 → IsAsked question.now }
    ensures refused { result ≢ 0 → (t : GuestTrace) × Shows trace.now t
        × IsNumberOfQuestion result (RefusesPrediction t question.now) }
    ensures only { (t : GuestTrace) → Shows trace.now t → IsAsked question.now
        → Fits (scale_in question.now.question) t.shift t.pages → (result ≡ 0) ⊎ (result ≡ 16) }
    ensures unchanged { result ≢ 0 → shares.new ≡ shares.old }
{
    match shares_of(alloc, &trace.opened(), question) {
        Ok(found) => {
            *shares = found;
            0
        }
        Err(refusal) => refusal.number(),
    }
}

/// Sets the best of the starts of the migration of a question, and the standard errors of what it costs from there if
/// pages were sampled. The question's start is the first.
#[unsafe(no_mangle)]
pub extern "C" fn precopy_trace_best_start(
    alloc: Global,
    trace: &TraceHandle<'_>,
    question: &SizedQuestion,
    starts: &SizedStarts,
    best: &mut BestStartNumbers,
    errors: &mut ErrorNumbers,
) -> u32
    requires { IsOpened trace.now }
    ensures made { result ≡ 0 → (t : GuestTrace) × Shows trace.now t
        × IsBestOf t question.now.question starts.now best.new errors.new }
    ensures accepted { result ≡ 0 → IsAsked question.now }
    ensures size { result ≡ 0 → starts.now.size ≡ 32 }
    ensures refused { result ≢ 0 → (t : GuestTrace) × Shows trace.now t
        × IsNumberOfBest result (RefusesBest t question.now starts.now) }
    ensures only { (t : GuestTrace) → Shows trace.now t → IsAskedOfBest t question.now starts.now
        → (result ≡ 0) ⊎ (result ≡ 16) }
    ensures unchanged { result ≢ 0 → (best.new ≡ best.old) × (errors.new ≡ errors.old) }
{
    match best_told(alloc, &trace.opened(), question, starts) {
        Ok(told) => {
            *best = told.best;
            *errors = told.errors;
            0
        }
        Err(refusal) => refusal.number(),
    }
}
