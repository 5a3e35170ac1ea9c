//! How sure an answer is: in how many draws of a sample, and from how many starts, it is the same.

// `IsAgreement` holds of one value alone: `one_agreement`.
// `IsPrediction` holds of one value alone: `one_prediction`.
// `Spells` holds of one value alone: `one_trace`.

ghost use Rattle.std.specs.Prelude.{◌≡◌, ◌≢◌, ◌≤◌, ◌↔◌, IfErr, IfOk, IsOk, IsTrue, OnErr, length};
ghost use Rattle.migration_model.specs.Trace.{GuestTrace, Spells};
ghost use Rattle.predictions.specs.Agreements.{AreDrawCounts, AreStartCounts};
ghost use Rattle.predictions.specs.Courses.{IsCourseOver};
ghost use Rattle.predictions.specs.Questions.{AcceptsQuestion, Fits, scale_in, terms_of};
ghost use Rattle.predictions.specs.Redrawn.Errors.{AreErrors};
ghost use Rattle.browser_planner.specs.Agreements.{HasRoomToAgree, IsAgreementFor};
ghost use Rattle.browser_planner.specs.Answers.{IsNumberOf};
ghost use Rattle.browser_planner.specs.Plans.{room_of};
ghost use Rattle.browser_planner.specs.Predictions.{IsForetold, OfTrace, RefusesAsked};

use crate::answers::Refusal;
use crate::foretelling::{Foretold, foretold_over};
use crate::plans::PlanRoom;
use crate::touches::{LentLog, LentTouch, put_touches};
use guest_log::{Shape, Timeline};
use page_bitmap::word_count;
use predictions::agreement::{
    Agreement, AgreementNumbers, AnswerCounts, asked_of_draws, draw_counts, start_counts,
};
use predictions::redrawn::{Errors, has_errors, sample_errors};
use predictions::{Course, Measure, Question, Terms, check_fit};
use round_planner::RoundRow;
use trace_codec::TraceView;

/// How many words of marks and slots of a list are enough for the plans of draws from 65,536 pages, and how many slots
/// of rounds for any plan.
const ENOUGH: PlanRoom = PlanRoom {
    touches: 0,
    marks: 3_072,
    list: 131_072,
    rounds: 64,
};

/// Returns whether room is enough for the plans that tell how sure an answer about a trace is.
fn is_enough(room: &PlanRoom, trace: &TraceView<'_>) -> bool
    ensures { IsTrue result ↔ HasRoomToAgree room.now trace.now }
{
    let Shape { writes, .. } = trace.shape();
    writes as usize <= room.touches
        && ENOUGH.marks <= room.marks
        && ENOUGH.list <= room.list
        && ENOUGH.rounds <= room.rounds
}

/// Returns the standard errors of what the plan of a log predicts, if pages were sampled.
fn errors_over(
    log: &LentLog<'_>,
    terms: &Terms,
    marks: &mut [u64],
    list: &mut [u32],
) -> Option<Errors>
    requires marks { 3_072 ≤ length marks.old }
    requires list { 131_072 ≤ length list.old }
    ensures { AreErrors terms.now.manner log.now.pages log.now.touches terms.now.settings terms.now.scale result }
{
    let _pages = log.page_count();
    if !has_errors(&terms.scale) {
        return None;
    }
    let Terms {
        scale,
        manner,
        settings,
        ..
    } = terms;
    Some(sample_errors(log, settings, scale, *manner, list, marks))
}

/// Returns the answers of the plans of a sample's draws, if pages were sampled, by what the plan of the sample comes to.
fn draws_over(
    log: &LentLog<'_>,
    terms: &Terms,
    measure: &Measure,
    course: &Course,
    marks: &mut [u64],
    list: &mut [u32],
) -> Option<AnswerCounts>
    requires course { IsCourseOver measure.now.manner log.now.pages log.now.touches measure.now.scale
        terms.now.settings course.now }
    requires marks { 3_072 ≤ length marks.old }
    requires list { 131_072 ≤ length list.old }
    ensures { AreDrawCounts measure.now.manner log.now.pages log.now.touches terms.now.settings measure.now.scale
        measure.now.limits result }
{
    let _pages = log.page_count();
    if !has_errors(&measure.scale) {
        return None;
    }
    let asked = asked_of_draws(course, &terms.settings);
    Some(draw_counts(log, &asked, measure, list, marks))
}

/// Returns the answers of the plans from the starts that a log allows.
fn starts_over(
    log: &LentLog<'_>,
    terms: &Terms,
    measure: &Measure,
    marks: &mut [u64],
    list: &mut [u32],
    rounds: &mut [RoundRow],
) -> AnswerCounts
    requires marks { 3_072 ≤ length marks.old }
    requires list { 131_072 ≤ length list.old }
    requires rounds { 64 ≤ length rounds.old }
    ensures { AreStartCounts measure.now.manner log.now.pages log.now.touches terms.now.settings measure.now.scale
        measure.now.limits result }
{
    let pages = log.page_count() as usize;
    let (marks, _) = marks.split_at_mut(word_count(pages));
    let (list, _) = list.split_at_mut(pages);
    start_counts(log, &terms.settings, measure, marks, list, rounds)
}

/// Returns what the plan of a log comes to and predicts.
fn plan_over(
    log: &LentLog<'_>,
    terms: &Terms,
    marks: &mut [u64],
    list: &mut [u32],
    rounds: &mut [RoundRow],
) -> Foretold
    requires marks { 3_072 ≤ length marks.old }
    requires list { 131_072 ≤ length list.old }
    requires rounds { 64 ≤ length rounds.old }
    ensures { IsForetold terms.now.manner terms.now log.now.pages log.now.touches result }
{
    let _pages = log.page_count();
    let _in_range = terms.settings.asked();
    foretold_over(log, terms, marks, list, rounds)
}

/// Returns how sure the answer to a question about a trace is.
fn agreement_in(
    trace: &TraceView<'_>,
    terms: &Terms,
    touches: &mut [LentTouch],
    marks: &mut [u64],
    list: &mut [u32],
    rounds: &mut [RoundRow],
) -> AgreementNumbers
    requires { HasRoomToAgree (room_of (length touches.old) (length marks.old) (length list.old)
        (length rounds.old)) trace.now }
    ensures { IsAgreementFor terms.now result trace.now }
{
    put_touches(trace, touches);
    let log = LentLog::of(trace, touches);
    let measure = Measure {
        scale: terms.scale,
        limits: terms.limits,
        manner: terms.manner,
    };
    let Foretold { course, prediction } = plan_over(&log, terms, marks, list, rounds);
    let errors = errors_over(&log, terms, marks, list);
    let agreement = Agreement {
        draws: draws_over(&log, terms, &measure, &course, marks, list),
        starts: starts_over(&log, terms, &measure, marks, list, rounds),
    };
    AgreementNumbers::new(terms.limits.downtime, &agreement, &prediction, &errors)
}

/// Returns how sure the answer to a question about the trace that the bytes encode is. The question is tested first,
/// and the room last.
fn asked_agreement(
    bytes: &[u8],
    question: &Question,
    touches: &mut [LentTouch],
    marks: &mut [u64],
    list: &mut [u32],
    rounds: &mut [RoundRow],
) -> Result<AgreementNumbers, Refusal>
    ensures made { IfOk result (λ numbers. OfTrace bytes.now question.now (IsAgreementFor (terms_of question.now)
        numbers)) }
    ensures accepted { IfOk result (λ numbers. AcceptsQuestion question.now) }
    ensures refused { IfErr result (RefusesAsked bytes.now question.now (HasRoomToAgree (room_of (length touches.old)
        (length marks.old) (length list.old) (length rounds.old)))) }
    ensures only { (t : GuestTrace) → Spells bytes.now t → AcceptsQuestion question.now
        → Fits (scale_in question.now) t.shift t.pages → HasRoomToAgree (room_of (length touches.old)
        (length marks.old) (length list.old) (length rounds.old)) t → IsOk result }
    ensures unchanged { OnErr result ((touches.new ≡ touches.old) × (marks.new ≡ marks.old) × (list.new ≡ list.old)
        × (rounds.new ≡ rounds.old)) }
{
    let terms = question.terms()?;
    let trace = TraceView::parse(bytes)?;
    check_fit(&terms.scale, &trace.shape())?;
    let room = PlanRoom {
        touches: touches.len(),
        marks: marks.len(),
        list: list.len(),
        rounds: rounds.len(),
    };
    if !is_enough(&room, &trace) {
        return Err(Refusal::ShortBuffer);
    }
    Ok(agreement_in(&trace, &terms, touches, marks, list, rounds))
}

/// Answers how sure the answer to a question about a trace is: in how many of 20 draws of a sample, and from how many
/// of at most 21 starts, the migration converges and keeps its limit, and whether nearly all agree. It costs as much as
/// some 62 plans, or 22 if no pages were sampled. It is refused if anything lent is too short: a slot of `touches` for
/// each write, 3,072 words of `marks`, 131,072 slots of `list`, and 64 slots of `rounds`.
#[unsafe(no_mangle)]
pub extern "C" fn lent_agreement(
    trace: &[u8],
    question: &Question,
    touches: &mut [LentTouch],
    marks: &mut [u64],
    list: &mut [u32],
    rounds: &mut [RoundRow],
    agreement: &mut AgreementNumbers,
) -> u32
    ensures made { result ≡ 0 → OfTrace trace.now question.now (IsAgreementFor (terms_of question.now) agreement.new) }
    ensures accepted { result ≡ 0 → AcceptsQuestion question.now }
    ensures refused { result ≢ 0 → IsNumberOf result (RefusesAsked trace.now question.now (HasRoomToAgree (room_of
        (length touches.old) (length marks.old) (length list.old) (length rounds.old)))) }
    ensures only { (t : GuestTrace) → Spells trace.now t → AcceptsQuestion question.now
        → Fits (scale_in question.now) t.shift t.pages → HasRoomToAgree (room_of (length touches.old)
        (length marks.old) (length list.old) (length rounds.old)) t → result ≡ 0 }
    ensures unchanged { result ≢ 0 → (agreement.new ≡ agreement.old) × (touches.new ≡ touches.old)
        × (marks.new ≡ marks.old) × (list.new ≡ list.old) × (rounds.new ≡ rounds.old) }
{
    match asked_agreement(trace, question, touches, marks, list, rounds) {
        Ok(found) => {
            *agreement = found;
            0
        }
        Err(refusal) => refusal.number(),
    }
}
