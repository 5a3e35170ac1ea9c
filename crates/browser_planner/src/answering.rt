//! Predictions: what a question about a migration comes to, and its answer over a trace.

// `IsAnswer` holds of one value alone: `one_answer`.
// `IsPlan` holds of one value alone: `one_plan`.
// `Spells` holds of one value alone: `one_trace`.

ghost use Rattle.std.specs.Prelude.{◌≡◌, ◌≢◌, IfErr, IfOk, IsOk, OnErr, length};
ghost use Rattle.predictions.specs.declared.units.error.UnitsError.{UnitsError};
ghost use Rattle.migration_model.specs.Trace.{GuestTrace, Spells};
ghost use Rattle.predictions.specs.Questions.{AcceptsQuestion, Fits, RefusesQuestion, scale_in};
ghost use Rattle.predictions.specs.Questions.{settings_of, terms_of};
ghost use Rattle.c_layout.specs.Refusals.{number_of_units};
ghost use Rattle.c_layout.specs.Settings.{settings_told};
ghost use Rattle.browser_planner.specs.Answers.{IsNumberOf};
ghost use Rattle.browser_planner.specs.Plans.{HasRoom, room_of};
ghost use Rattle.browser_planner.specs.Predictions.{IsAnswerTo, OfTrace, RefusesAsked};

use crate::answers::Refusal;
use crate::foretelling::foretold_over;
use crate::plans::PlanRoom;
use crate::touches::{LentLog, LentTouch, put_touches};
use c_layout::{PlanSettings, units_number};
use predictions::{Answer, Question, Terms, check_fit};
use round_planner::RoundRow;
use trace_codec::TraceView;

/// Answers the settings that the limits of a question make, or the number of what is out of its range.
#[unsafe(no_mangle)]
pub extern "C" fn lent_question(question: &Question, settings: &mut PlanSettings) -> u32
    ensures made { result ≡ 0 → settings.new ≡ settings_told (settings_of question.now) }
    ensures accepted { result ≡ 0 → AcceptsQuestion question.now }
    ensures refused { result ≢ 0 → (e : UnitsError) × (result ≡ number_of_units e) × RefusesQuestion question.now e }
    ensures only { AcceptsQuestion question.now → result ≡ 0 }
    ensures unchanged { result ≢ 0 → settings.new ≡ settings.old }
{
    match question.terms() {
        Ok(terms) => {
            *settings = PlanSettings::of(&terms.settings);
            0
        }
        Err(error) => units_number(error),
    }
}

/// Returns the answer to a question about a trace. If it goes by Clark's rounds, writes these over the front of a
/// buffer.
fn answer_in(
    trace: &TraceView<'_>,
    terms: &Terms,
    touches: &mut [LentTouch],
    marks: &mut [u64],
    list: &mut [u32],
    rounds: &mut [RoundRow],
) -> Answer
    requires { HasRoom trace.now terms.now.settings (room_of (length touches.old) (length marks.old) (length list.old)
        (length rounds.old)) }
    ensures { IsAnswerTo terms.now result rounds.old rounds.new trace.now }
{
    put_touches(trace, touches);
    let log = LentLog::of(trace, touches);
    let foretold = foretold_over(&log, terms, marks, list, rounds);
    Answer::new(&foretold.course, &foretold.prediction)
}

/// Returns the answer to a question about the trace that the bytes encode. If it goes by Clark's rounds, writes these
/// over the front of a buffer. The question is tested first, and the room last.
fn predicted(
    bytes: &[u8],
    question: &Question,
    touches: &mut [LentTouch],
    marks: &mut [u64],
    list: &mut [u32],
    rounds: &mut [RoundRow],
) -> Result<Answer, Refusal>
    ensures made { IfOk result (λ answer. OfTrace bytes.now question.now (IsAnswerTo (terms_of question.now) answer
        rounds.old rounds.new)) }
    ensures accepted { IfOk result (λ answer. AcceptsQuestion question.now) }
    ensures refused { IfErr result (RefusesAsked bytes.now question.now (λ trace. HasRoom trace
        (settings_of question.now) (room_of (length touches.old) (length marks.old) (length list.old)
        (length rounds.old)))) }
    ensures only { (t : GuestTrace) → Spells bytes.now t → AcceptsQuestion question.now
        → Fits (scale_in question.now) t.shift t.pages → HasRoom t (settings_of question.now)
        (room_of (length touches.old) (length marks.old) (length list.old) (length rounds.old)) → IsOk result }
    ensures unchanged { OnErr result ((rounds.new ≡ rounds.old) × (touches.new ≡ touches.old)
        × (marks.new ≡ marks.old) × (list.new ≡ list.old)) }
{
    let terms = question.terms()?;
    let trace = TraceView::parse(bytes)?;
    check_fit(&terms.scale, &trace.shape())?;
    let room = PlanRoom {
        touches: touches.len(),
        marks: marks.len(),
        list: list.len(),
        rounds: rounds.len(),
    };
    if !room.is_enough(&trace, &terms.settings) {
        return Err(Refusal::ShortBuffer);
    }
    Ok(answer_in(&trace, &terms, touches, marks, list, rounds))
}

/// Answers what the migration of a trace will be with the limits of a question. If that goes by Clark's rounds, writes
/// their numbers, in order, over the front of a buffer. It is refused if anything lent is too short: a slot of
/// `touches` for each write, a bit of `marks` and a slot of `list` for each page, and a slot of `rounds` for each round
/// that the question allows.
#[unsafe(no_mangle)]
pub extern "C" fn lent_predict(
    trace: &[u8],
    question: &Question,
    touches: &mut [LentTouch],
    marks: &mut [u64],
    list: &mut [u32],
    rounds: &mut [RoundRow],
    answer: &mut Answer,
) -> u32
    ensures made { result ≡ 0 → OfTrace trace.now question.now (IsAnswerTo (terms_of question.now) answer.new
        rounds.old rounds.new) }
    ensures accepted { result ≡ 0 → AcceptsQuestion question.now }
    ensures refused { result ≢ 0 → IsNumberOf result (RefusesAsked trace.now question.now (λ t. HasRoom t
        (settings_of question.now) (room_of (length touches.old) (length marks.old) (length list.old)
        (length rounds.old)))) }
    ensures only { (t : GuestTrace) → Spells trace.now t → AcceptsQuestion question.now
        → Fits (scale_in question.now) t.shift t.pages → HasRoom t (settings_of question.now)
        (room_of (length touches.old) (length marks.old) (length list.old) (length rounds.old)) → result ≡ 0 }
    ensures unchanged { result ≢ 0 → (answer.new ≡ answer.old) × (rounds.new ≡ rounds.old)
        × (touches.new ≡ touches.old) × (marks.new ≡ marks.old) × (list.new ≡ list.old) }
{
    match predicted(trace, question, touches, marks, list, rounds) {
        Ok(found) => {
            *answer = found;
            0
        }
        Err(refusal) => refusal.number(),
    }
}
