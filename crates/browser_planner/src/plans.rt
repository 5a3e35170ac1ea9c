//! The plan of a trace: its sums, and the numbers of its rounds.

// `IsPlan` holds of one value alone: `one_plan`.
// `RefusesPlan` holds of one value alone: `one_refused_plan`.
// `Spells` holds of one value alone: `one_trace`.

ghost use Rattle.std.specs.Prelude.{◌≡◌, ◌≢◌, IfErr, IfOk, IsOk, OnErr, OnOk, length};
ghost use Rattle.migration_model.specs.Rates.{AreSettings};
ghost use Rattle.migration_model.specs.Trace.{GuestTrace, Spells};
ghost use Rattle.c_layout.specs.Settings.{settings_in};
ghost use Rattle.c_layout.specs.Sums.{sums_of};
ghost use Rattle.browser_planner.specs.Answers.{IsNumberOf};
ghost use Rattle.browser_planner.specs.Plans.{HasRoom, IsPlannedOf, IsSummedOf, RefusesPlan, room_of};
ghost use Rattle.migration_model.specs.Touches.{touches_of};
ghost use Rattle.round_planner.specs.Rows.{IsPlanned};

use crate::answers::Refusal;
use crate::touches::{LentLog, LentTouch, put_touches};
use c_layout::{PlanSettings, PlanSums};
use guest_log::Shape;
use page_bitmap::word_count;
use rate_limit::Settings;
use round_planner::{Outcome, RoundRow, plan_rows};
use trace_codec::TraceView;

/// How long what is lent for a plan is.
#[derive(Clone, Copy)]
pub(crate) struct PlanRoom {
    pub(crate) touches: usize,
    pub(crate) marks: usize,
    pub(crate) list: usize,
    pub(crate) rounds: usize,
}

impl PlanRoom {
    ghost use Rattle.std.specs.Prelude.{◌↔◌, IsTrue};
    ghost use Rattle.browser_planner.specs.Plans.{HasRoom};

    /// Returns whether that is enough for a plan of a trace.
    pub(crate) fn is_enough(&self, trace: &TraceView<'_>, settings: &Settings) -> bool
        ensures { IsTrue result ↔ HasRoom trace.now settings.now self.now }
    {
        let Shape { pages, writes, .. } = trace.shape();
        writes as usize <= self.touches
            && word_count(pages as usize) <= self.marks
            && pages as usize <= self.list
            && settings.asked().rounds <= self.rounds as u64
    }
}

/// Returns the sums of the plan of a trace, and writes its rounds over the front of a buffer.
fn plan_of(
    trace: &TraceView<'_>,
    settings: &Settings,
    touches: &mut [LentTouch],
    marks: &mut [u64],
    list: &mut [u32],
    rounds: &mut [RoundRow],
) -> Outcome
    requires { HasRoom trace.now settings.now (room_of (length touches.old) (length marks.old) (length list.old)
        (length rounds.old)) }
    ensures { IsPlanned trace.now.pages (touches_of trace.now) settings.now result rounds.old rounds.new }
{
    let pages = trace.shape().pages as usize;
    put_touches(trace, touches);
    let log = LentLog::of(trace, touches);
    let (marks, _) = marks.split_at_mut(word_count(pages));
    let (list, _) = list.split_at_mut(pages);
    plan_rows(&log, settings, marks, list, rounds)
}

/// Returns the sums of the plan of the trace that the bytes encode, and writes its rounds over the front of a buffer.
/// The settings are tested first, and the room last.
fn planned(
    bytes: &[u8],
    settings: &PlanSettings,
    touches: &mut [LentTouch],
    marks: &mut [u64],
    list: &mut [u32],
    rounds: &mut [RoundRow],
) -> Result<Outcome, Refusal>
    ensures made { IfOk result (λ outcome. IsPlannedOf bytes.now (settings_in settings.now) outcome
        rounds.old rounds.new) }
    ensures given { OnOk result (AreSettings (settings_in settings.now)) }
    ensures refused { IfErr result (RefusesPlan bytes.now (settings_in settings.now) (room_of (length touches.old)
        (length marks.old) (length list.old) (length rounds.old))) }
    ensures only { (t : GuestTrace) → Spells bytes.now t → AreSettings (settings_in settings.now)
        → HasRoom t (settings_in settings.now) (room_of (length touches.old) (length marks.old) (length list.old)
        (length rounds.old)) → IsOk result }
    ensures unchanged { OnErr result ((rounds.new ≡ rounds.old) × (touches.new ≡ touches.old)
        × (marks.new ≡ marks.old) × (list.new ≡ list.old)) }
{
    let settings = settings.checked()?;
    let trace = TraceView::parse(bytes)?;
    let room = PlanRoom {
        touches: touches.len(),
        marks: marks.len(),
        list: list.len(),
        rounds: rounds.len(),
    };
    if !room.is_enough(&trace, &settings) {
        return Err(Refusal::ShortBuffer);
    }
    Ok(plan_of(&trace, &settings, touches, marks, list, rounds))
}

/// Answers the sums of the plan of a trace with some settings, and writes the numbers of its rounds, in order, over the
/// front of a buffer. It is refused if anything lent is too short: a slot of `touches` for each write, a bit of `marks`
/// and a slot of `list` for each page, and a slot of `rounds` for each round that the settings ask for.
#[unsafe(no_mangle)]
pub extern "C" fn lent_plan(
    trace: &[u8],
    settings: &PlanSettings,
    touches: &mut [LentTouch],
    marks: &mut [u64],
    list: &mut [u32],
    rounds: &mut [RoundRow],
    sums: &mut PlanSums,
) -> u32
    ensures made { result ≡ 0 → IsSummedOf trace.now (settings_in settings.now) sums.new rounds.old rounds.new }
    ensures given { result ≡ 0 → AreSettings (settings_in settings.now) }
    ensures refused { result ≢ 0 → IsNumberOf result (RefusesPlan trace.now (settings_in settings.now)
        (room_of (length touches.old) (length marks.old) (length list.old) (length rounds.old))) }
    ensures only { (t : GuestTrace) → Spells trace.now t → AreSettings (settings_in settings.now)
        → HasRoom t (settings_in settings.now) (room_of (length touches.old) (length marks.old) (length list.old)
        (length rounds.old)) → result ≡ 0 }
    ensures unchanged { result ≢ 0 → (sums.new ≡ sums.old) × (rounds.new ≡ rounds.old) × (touches.new ≡ touches.old)
        × (marks.new ≡ marks.old) × (list.new ≡ list.old) }
{
    match planned(trace, settings, touches, marks, list, rounds) {
        Ok(outcome) => {
            *sums = PlanSums::of(&outcome);
            0
        }
        Err(refusal) => refusal.number(),
    }
}
