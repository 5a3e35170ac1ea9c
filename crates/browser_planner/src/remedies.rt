//! What keeps the limit of a migration, or how far it is kept.

ghost use Rattle.std.specs.Prelude.{◌≡◌, ◌≢◌, ◌↔◌, IfErr, IfOk, IsOk, IsTrue, OnErr, length};
ghost use Rattle.predictions.specs.Remedies.{AreRemedies};
ghost use Rattle.predictions.specs.Remedies.Questions.{trial_in};
ghost use Rattle.migration_model.specs.Touches.{touches_of};
ghost use Rattle.migration_model.specs.Trace.{GuestTrace, Spells};
ghost use Rattle.predictions.specs.Questions.{AcceptsQuestion, Fits, scale_in};
ghost use Rattle.browser_planner.specs.Answers.{IsNumberOf};
ghost use Rattle.browser_planner.specs.Plans.{room_of};
ghost use Rattle.browser_planner.specs.Predictions.{OfTrace, RefusesAsked};
ghost use Rattle.browser_planner.specs.Remedies.{AreNumbersFor, HasRoomToSearch};

use crate::answers::Refusal;
use crate::plans::PlanRoom;
use crate::touches::{LentLog, LentTouch, put_touches};
use guest_log::Shape;
use page_bitmap::word_count;
use predictions::remedies::{Remedies, RemedyNumbers, Trial, remedies_of};
use predictions::{Question, check_fit};
use round_planner::RoundRow;
use trace_codec::TraceView;

/// The most rounds of a plan.
const MOST_ROUNDS: usize = 64;

/// Returns whether room is enough for the plans of a search over a trace.
fn is_enough(room: &PlanRoom, trace: &TraceView<'_>) -> bool
    ensures { IsTrue result ↔ HasRoomToSearch room.now trace.now }
{
    let Shape { pages, writes, .. } = trace.shape();
    writes as usize <= room.touches
        && word_count(pages as usize) <= room.marks
        && pages as usize <= room.list
        && MOST_ROUNDS <= room.rounds
}

/// Returns whether a migration keeps its limit over a trace, and what does.
fn remedies_in(
    trace: &TraceView<'_>,
    trial: &Trial,
    touches: &mut [LentTouch],
    marks: &mut [u64],
    list: &mut [u32],
    rounds: &mut [RoundRow],
) -> Remedies
    requires { HasRoomToSearch (room_of (length touches.old) (length marks.old) (length list.old)
        (length rounds.old)) trace.now }
    ensures { AreRemedies trace.now.pages (touches_of trace.now) trial.now result }
{
    let pages = trace.shape().pages as usize;
    put_touches(trace, touches);
    let log = LentLog::of(trace, touches);
    let (marks, _) = marks.split_at_mut(word_count(pages));
    let (list, _) = list.split_at_mut(pages);
    remedies_of(&log, trial, marks, list, rounds)
}

/// Returns what keeps the limit of a question about the trace that the bytes encode. The question is tested first, and
/// the room last.
fn asked_remedies(
    bytes: &[u8],
    question: &Question,
    touches: &mut [LentTouch],
    marks: &mut [u64],
    list: &mut [u32],
    rounds: &mut [RoundRow],
) -> Result<Remedies, Refusal>
    ensures made { IfOk result (λ found. OfTrace bytes.now question.now (λ trace. AreRemedies trace.pages
        (touches_of trace) (trial_in question.now) found)) }
    ensures accepted { IfOk result (λ found. AcceptsQuestion question.now) }
    ensures refused { IfErr result (RefusesAsked bytes.now question.now (HasRoomToSearch (room_of (length touches.old)
        (length marks.old) (length list.old) (length rounds.old)))) }
    ensures only { (t : GuestTrace) → Spells bytes.now t → AcceptsQuestion question.now
        → Fits (scale_in question.now) t.shift t.pages → HasRoomToSearch (room_of (length touches.old)
        (length marks.old) (length list.old) (length rounds.old)) t → IsOk result }
    ensures unchanged { OnErr result ((touches.new ≡ touches.old) × (marks.new ≡ marks.old) × (list.new ≡ list.old)
        × (rounds.new ≡ rounds.old)) }
{
    let terms = question.terms()?;
    let trace = TraceView::parse(bytes)?;
    check_fit(&terms.scale, &trace.shape())?;
    let room = PlanRoom {
        touches: touches.len(),
        marks: marks.len(),
        list: list.len(),
        rounds: rounds.len(),
    };
    if !is_enough(&room, &trace) {
        return Err(Refusal::ShortBuffer);
    }
    let trial = Trial::of_question(question)?;
    Ok(remedies_in(&trace, &trial, touches, marks, list, rounds))
}

/// Answers whether the migration of a trace keeps the limit of a question, and the least link and the least downtime
/// that do, each by itself; how much the guest has to be slowed if it is not kept; and the least link and the latest
/// start that end it within the trace if it does not. It costs as much as some 35 plans, and at most 187. It is refused
/// if anything lent is too short: a slot of `touches` for each write, a bit of `marks` and a slot of `list` for each
/// page, and 64 slots of `rounds`.
#[unsafe(no_mangle)]
pub extern "C" fn lent_remedies(
    trace: &[u8],
    question: &Question,
    touches: &mut [LentTouch],
    marks: &mut [u64],
    list: &mut [u32],
    rounds: &mut [RoundRow],
    remedies: &mut RemedyNumbers,
) -> u32
    ensures made { result ≡ 0 → OfTrace trace.now question.now (AreNumbersFor question.now remedies.new) }
    ensures accepted { result ≡ 0 → AcceptsQuestion question.now }
    ensures refused { result ≢ 0 → IsNumberOf result (RefusesAsked trace.now question.now (HasRoomToSearch (room_of
        (length touches.old) (length marks.old) (length list.old) (length rounds.old)))) }
    ensures only { (t : GuestTrace) → Spells trace.now t → AcceptsQuestion question.now
        → Fits (scale_in question.now) t.shift t.pages → HasRoomToSearch (room_of (length touches.old)
        (length marks.old) (length list.old) (length rounds.old)) t → result ≡ 0 }
    ensures unchanged { result ≢ 0 → (remedies.new ≡ remedies.old) × (touches.new ≡ touches.old)
        × (marks.new ≡ marks.old) × (list.new ≡ list.old) × (rounds.new ≡ rounds.old) }
{
    match asked_remedies(trace, question, touches, marks, list, rounds) {
        Ok(found) => {
            *remedies = RemedyNumbers::new(&found);
            0
        }
        Err(refusal) => refusal.number(),
    }
}
