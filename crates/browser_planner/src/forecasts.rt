//! What comes of a migration if its hypervisor goes on as QEMU does.

// `IsForecast` holds of one value alone: `one_forecast`.

ghost use Rattle.std.specs.Prelude.{◌≡◌, ◌≢◌, IfErr, IfOk, IsOk, OnErr, length};
ghost use Rattle.migration_model.specs.Touches.{touches_of};
ghost use Rattle.migration_model.specs.Trace.{GuestTrace, Spells};
ghost use Rattle.predictions.specs.Looks.{IsForecast};
ghost use Rattle.predictions.specs.Questions.{AcceptsQuestion, Fits, scale_in, terms_of};
ghost use Rattle.browser_planner.specs.Answers.{IsNumberOf};
ghost use Rattle.browser_planner.specs.Forecasts.{HasRoomToLook, IsForecastFor, room_of};
ghost use Rattle.browser_planner.specs.Predictions.{OfTrace, RefusesAsked};

use crate::answers::Refusal;
use crate::touches::{LentLog, LentTouch, put_touches};
use c_layout::ForecastNumbers;
use guest_log::Shape;
use page_bitmap::word_count;
use predictions::looks::LookForecast;
use predictions::{Question, Terms, check_fit};
use trace_codec::TraceView;

/// How long what is lent for a forecast is.
#[derive(Clone, Copy)]
pub(crate) struct LookRoom {
    touches: usize,
    marks: usize,
    list: usize,
}

impl LookRoom {
    ghost use Rattle.std.specs.Prelude.{◌↔◌, IsTrue};
    ghost use Rattle.browser_planner.specs.Forecasts.{HasRoomToLook};

    /// Returns whether that is enough for the plan of a trace.
    fn is_enough(&self, trace: &TraceView<'_>) -> bool
        ensures { IsTrue result ↔ HasRoomToLook self.now trace.now }
    {
        let Shape { pages, writes, .. } = trace.shape();
        writes as usize <= self.touches
            && word_count(pages as usize) <= self.marks
            && pages as usize <= self.list
    }
}

/// Returns what comes of a migration over a trace, or None if it begins after the last tick.
fn forecast_in(
    trace: &TraceView<'_>,
    terms: &Terms,
    touches: &mut [LentTouch],
    marks: &mut [u64],
    list: &mut [u32],
) -> Option<LookForecast>
    requires { HasRoomToLook (room_of (length touches.old) (length marks.old) (length list.old)) trace.now }
    ensures { IsForecast trace.now.pages (touches_of trace.now) terms.now.scale terms.now.limits terms.now.settings
        result }
{
    let pages = trace.shape().pages as usize;
    put_touches(trace, touches);
    let log = LentLog::of(trace, touches);
    let (marks, _) = marks.split_at_mut(word_count(pages));
    let (list, _) = list.split_at_mut(pages);
    let Terms {
        scale,
        limits,
        settings,
        ..
    } = terms;
    LookForecast::over(&log, settings, scale, limits, marks, list)
}

/// Returns what comes of a question about the trace that the bytes encode. The question is tested first, and the room
/// last.
fn asked_forecast(
    bytes: &[u8],
    question: &Question,
    touches: &mut [LentTouch],
    marks: &mut [u64],
    list: &mut [u32],
) -> Result<Option<LookForecast>, Refusal>
    ensures made { IfOk result (λ forecast. OfTrace bytes.now question.now (λ trace. IsForecast trace.pages
        (touches_of trace) (terms_of question.now).scale (terms_of question.now).limits
        (terms_of question.now).settings forecast)) }
    ensures accepted { IfOk result (λ forecast. AcceptsQuestion question.now) }
    ensures refused { IfErr result (RefusesAsked bytes.now question.now (HasRoomToLook
        (room_of (length touches.old) (length marks.old) (length list.old)))) }
    ensures only { (t : GuestTrace) → Spells bytes.now t → AcceptsQuestion question.now
        → Fits (scale_in question.now) t.shift t.pages → HasRoomToLook
        (room_of (length touches.old) (length marks.old) (length list.old)) t → IsOk result }
    ensures unchanged { OnErr result ((touches.new ≡ touches.old) × (marks.new ≡ marks.old)
        × (list.new ≡ list.old)) }
{
    let terms = question.terms()?;
    let trace = TraceView::parse(bytes)?;
    check_fit(&terms.scale, &trace.shape())?;
    let room = LookRoom {
        touches: touches.len(),
        marks: marks.len(),
        list: list.len(),
    };
    if !room.is_enough(&trace) {
        return Err(Refusal::ShortBuffer);
    }
    Ok(forecast_in(&trace, &terms, touches, marks, list))
}

/// Answers what comes of the migration of a trace if its hypervisor looks at its dirty bitmap again only when few pages
/// are left, as QEMU does. It is refused if anything lent is too short: a slot of `touches` for each write, and a bit
/// of `marks` and a slot of `list` for each page.
#[unsafe(no_mangle)]
pub extern "C" fn lent_forecast(
    trace: &[u8],
    question: &Question,
    touches: &mut [LentTouch],
    marks: &mut [u64],
    list: &mut [u32],
    forecast: &mut ForecastNumbers,
) -> u32
    ensures made { result ≡ 0 → OfTrace trace.now question.now (IsForecastFor (terms_of question.now) forecast.new) }
    ensures accepted { result ≡ 0 → AcceptsQuestion question.now }
    ensures refused { result ≢ 0 → IsNumberOf result (RefusesAsked trace.now question.now (HasRoomToLook
        (room_of (length touches.old) (length marks.old) (length list.old)))) }
    ensures only { (t : GuestTrace) → Spells trace.now t → AcceptsQuestion question.now
        → Fits (scale_in question.now) t.shift t.pages → HasRoomToLook
        (room_of (length touches.old) (length marks.old) (length list.old)) t → result ≡ 0 }
    ensures unchanged { result ≢ 0 → (forecast.new ≡ forecast.old) × (touches.new ≡ touches.old)
        × (marks.new ≡ marks.old) × (list.new ≡ list.old) }
{
    match asked_forecast(trace, question, touches, marks, list) {
        Ok(found) => {
            *forecast = ForecastNumbers::new(&found);
            0
        }
        Err(refusal) => refusal.number(),
    }
}
