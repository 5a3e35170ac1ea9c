//! Standard errors of predictions, if pages were sampled.

ghost use Rattle.std.specs.Prelude.{◌≡◌, ◌≢◌, IfErr, IfOk, IsOk, OnErr, None, Some, length};
ghost use Rattle.migration_model.specs.Touches.{touches_of};
ghost use Rattle.migration_model.specs.Trace.{GuestTrace, Spells};
ghost use Rattle.predictions.specs.Questions.{AcceptsQuestion, Fits, scale_in, terms_of};
ghost use Rattle.predictions.specs.Redrawn.Errors.{AreErrors, AreErrorsOf, HasErrors};
ghost use Rattle.browser_planner.specs.Answers.{IsNumberOf};
ghost use Rattle.browser_planner.specs.Errors.{AreNumbersOf, HasRoom, HasRoomFor, room_of};
ghost use Rattle.browser_planner.specs.Predictions.{OfTrace, RefusesAsked};

use crate::answers::Refusal;
use crate::touches::{LentLog, LentTouch, put_touches};
use guest_log::Shape;
use page_bitmap::word_count;
use predictions::redrawn::{Errors, has_errors, sample_errors};
use predictions::{ErrorNumbers, Question, Terms, check_fit};
use trace_codec::TraceView;

/// How long what is lent for standard errors is.
#[derive(Clone, Copy)]
pub(crate) struct ErrorRoom {
    touches: usize,
    sample: usize,
    bits: usize,
}

impl ErrorRoom {
    ghost use Rattle.std.specs.Prelude.{◌↔◌, IsTrue};
    ghost use Rattle.browser_planner.specs.Errors.{HasRoom};

    /// Returns whether that is enough for the plans of a trace's redrawn pages.
    fn is_enough(&self, trace: &TraceView<'_>, terms: &Terms) -> bool
        ensures { IsTrue result ↔ HasRoom terms.now self.now trace.now }
    {
        let Shape { pages, writes, .. } = trace.shape();
        let _in_range = terms.scale.guest();
        let sampled = terms.scale.sampled() as usize;
        let words = 2 * word_count(pages as usize) + word_count(sampled);
        writes as usize <= self.touches && 2 * sampled <= self.sample && words <= self.bits
    }
}

/// Returns the standard errors of what the plan of a trace predicts.
fn errors_in(
    trace: &TraceView<'_>,
    terms: &Terms,
    touches: &mut [LentTouch],
    sample: &mut [u32],
    bits: &mut [u64],
) -> Errors
    requires sampled { HasErrors terms.now.scale }
    requires room { HasRoom terms.now (room_of (length touches.old) (length sample.old) (length bits.old))
        trace.now }
    ensures { AreErrorsOf terms.now.manner trace.now.pages (touches_of trace.now) terms.now.settings terms.now.scale
        result }
{
    put_touches(trace, touches);
    let log = LentLog::of(trace, touches);
    sample_errors(
        &log,
        &terms.settings,
        &terms.scale,
        terms.manner,
        sample,
        bits,
    )
}

/// Returns the standard errors of the answer to a question about the trace that the bytes encode, if there are any. The
/// question is tested first, and the room last.
fn asked_errors(
    bytes: &[u8],
    question: &Question,
    touches: &mut [LentTouch],
    sample: &mut [u32],
    bits: &mut [u64],
) -> Result<Option<Errors>, Refusal>
    ensures made { IfOk result (λ errors. OfTrace bytes.now question.now (λ trace. AreErrors
        (terms_of question.now).manner trace.pages (touches_of trace) (terms_of question.now).settings
        (terms_of question.now).scale errors)) }
    ensures accepted { IfOk result (λ errors. AcceptsQuestion question.now) }
    ensures refused { IfErr result (RefusesAsked bytes.now question.now (HasRoomFor (terms_of question.now)
        (room_of (length touches.old) (length sample.old) (length bits.old)))) }
    ensures only { (t : GuestTrace) → Spells bytes.now t → AcceptsQuestion question.now
        → Fits (scale_in question.now) t.shift t.pages → HasRoomFor (terms_of question.now)
        (room_of (length touches.old) (length sample.old) (length bits.old)) t → IsOk result }
    ensures unchanged { OnErr result ((touches.new ≡ touches.old) × (sample.new ≡ sample.old)
        × (bits.new ≡ bits.old)) }
{
    let terms = question.terms()?;
    let trace = TraceView::parse(bytes)?;
    check_fit(&terms.scale, &trace.shape())?;
    if !has_errors(&terms.scale) {
        return Ok(None);
    }
    let room = ErrorRoom {
        touches: touches.len(),
        sample: sample.len(),
        bits: bits.len(),
    };
    if !room.is_enough(&trace, &terms) {
        return Err(Refusal::ShortBuffer);
    }
    Ok(Some(errors_in(&trace, &terms, touches, sample, bits)))
}

/// Answers the standard errors of what the migration of a trace will be: how far the draw of a sample moves them. If
/// pages were sampled it is refused if anything lent is too short: a slot of `touches` for each write, two of `sample`
/// for each page of the sample, and in whole words two bits of `bits` for each page and one for each of the sample.
#[unsafe(no_mangle)]
pub extern "C" fn lent_errors(
    trace: &[u8],
    question: &Question,
    touches: &mut [LentTouch],
    sample: &mut [u32],
    bits: &mut [u64],
    errors: &mut ErrorNumbers,
) -> u32
    ensures made { result ≡ 0 → OfTrace trace.now question.now (AreNumbersOf (terms_of question.now) errors.new) }
    ensures accepted { result ≡ 0 → AcceptsQuestion question.now }
    ensures refused { result ≢ 0 → IsNumberOf result (RefusesAsked trace.now question.now (HasRoomFor
        (terms_of question.now) (room_of (length touches.old) (length sample.old) (length bits.old)))) }
    ensures only { (t : GuestTrace) → Spells trace.now t → AcceptsQuestion question.now
        → Fits (scale_in question.now) t.shift t.pages → HasRoomFor (terms_of question.now)
        (room_of (length touches.old) (length sample.old) (length bits.old)) t → result ≡ 0 }
    ensures unchanged { result ≢ 0 → (errors.new ≡ errors.old) × (touches.new ≡ touches.old)
        × (sample.new ≡ sample.old) × (bits.new ≡ bits.old) }
{
    match asked_errors(trace, question, touches, sample, bits) {
        Ok(found) => {
            *errors = ErrorNumbers::new(&found);
            0
        }
        Err(refusal) => refusal.number(),
    }
}
