//! The windows of a trace.

// `RefusesWindows` holds of one value alone: `one_refusal_of_windows`.
// `Spells` holds of one value alone: `one_trace`.

ghost use Rattle.std.specs.Prelude.{◌≡◌, ◌≢◌, IfErr, IfOk, IsOk, OnErr, OnOk, length};
ghost use Rattle.migration_model.specs.Rates.{AreSettings};
ghost use Rattle.migration_model.specs.Trace.{GuestTrace, Spells};
ghost use Rattle.c_layout.specs.Settings.{settings_in};
ghost use Rattle.browser_planner.specs.Answers.{IsNumberOf};
ghost use Rattle.browser_planner.specs.Windows.{ArePut, AreWindowsOf, HasRoom, RefusesWindows, room_of};

use crate::answers::Refusal;
use crate::touches::{LentLog, LentTouch, put_touches};
use c_layout::PlanSettings;
use guest_log::Shape;
use rate_limit::Settings;
use trace_codec::TraceView;
use working_sets::{PageSeen, WindowNumbers, has_rows, window_rows};

/// How long the room that is lent for windows is.
#[derive(Clone, Copy)]
pub(crate) struct WindowRoom {
    touches: usize,
    marks: usize,
    rows: usize,
}

/// Writes the rows of the windows of a trace over the front of a buffer, if there is room for them. Returns how many
/// there are.
fn put_windows(
    trace: &TraceView<'_>,
    settings: &Settings,
    touches: &mut [LentTouch],
    marks: &mut [PageSeen],
    rows: &mut [WindowNumbers],
) -> Result<usize, Refusal>
    ensures made { IfOk result (λ count. ArePut trace.now settings.now count rows.old rows.new) }
    ensures refused { IfErr result (λ e. e ≡ Refusal.ShortBuffer) }
    ensures short { OnErr result (HasRoom trace.now settings.now (room_of (length touches.old) (length marks.old)
        (length rows.old)) → ⊥) }
    ensures unchanged { OnErr result (rows.new ≡ rows.old) }
{
    let Shape { pages, writes, .. } = trace.shape();
    if touches.len() < writes as usize || marks.len() < pages as usize {
        return Err(Refusal::ShortBuffer);
    }
    put_touches(trace, touches);
    let log = LentLog::of(trace, touches);
    if !has_rows(&log, settings, rows.len()) {
        return Err(Refusal::ShortBuffer);
    }
    Ok(window_rows(&log, settings, marks, rows))
}

/// Writes the rows of the windows of the trace that the bytes encode. The settings are tested first, and the room last.
fn windows(
    bytes: &[u8],
    settings: &PlanSettings,
    touches: &mut [LentTouch],
    marks: &mut [PageSeen],
    rows: &mut [WindowNumbers],
) -> Result<usize, Refusal>
    ensures made { IfOk result (λ count. AreWindowsOf bytes.now (settings_in settings.now) count rows.old rows.new) }
    ensures given { OnOk result (AreSettings (settings_in settings.now)) }
    ensures refused { IfErr result (RefusesWindows bytes.now (settings_in settings.now) (room_of (length touches.old)
        (length marks.old) (length rows.old))) }
    ensures only { (t : GuestTrace) → Spells bytes.now t → AreSettings (settings_in settings.now)
        → HasRoom t (settings_in settings.now) (room_of (length touches.old) (length marks.old) (length rows.old))
        → IsOk result }
    ensures unchanged { OnErr result (rows.new ≡ rows.old) }
{
    let settings = settings.checked()?;
    let trace = TraceView::parse(bytes)?;
    put_windows(&trace, &settings, touches, marks, rows)
}

/// Writes the rows of the windows of a trace that have a write, in ascending order, over the front of a buffer, and
/// answers how many there are. It is refused if anything lent is too short: a slot of `touches` for each write, one of
/// `marks` for each page, and one of `rows` for each write, or else for each window that begins up to the last write.
#[unsafe(no_mangle)]
pub extern "C" fn lent_windows(
    trace: &[u8],
    settings: &PlanSettings,
    touches: &mut [LentTouch],
    marks: &mut [PageSeen],
    rows: &mut [WindowNumbers],
    count: &mut usize,
) -> u32
    ensures made { result ≡ 0 → AreWindowsOf trace.now (settings_in settings.now) count.new rows.old rows.new }
    ensures given { result ≡ 0 → AreSettings (settings_in settings.now) }
    ensures refused { result ≢ 0 → IsNumberOf result (RefusesWindows trace.now (settings_in settings.now)
        (room_of (length touches.old) (length marks.old) (length rows.old))) }
    ensures only { (t : GuestTrace) → Spells trace.now t → AreSettings (settings_in settings.now)
        → HasRoom t (settings_in settings.now) (room_of (length touches.old) (length marks.old) (length rows.old))
        → result ≡ 0 }
    ensures unchanged { result ≢ 0 → (count.new ≡ count.old) × (rows.new ≡ rows.old) }
{
    match windows(trace, settings, touches, marks, rows) {
        Ok(found) => {
            *count = found;
            0
        }
        Err(refusal) => refusal.number(),
    }
}
