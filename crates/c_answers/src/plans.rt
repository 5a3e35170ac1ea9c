//! Plans: their sums and their rounds.

// `IsPlan` holds of one value alone: `one_plan`.
// `RefusesPlan` holds of one value alone: `one_refused_plan`.
// `LacksPlan` holds of one value alone: `one_lacking_plan`.
// `Spells` holds of one value alone: `one_trace`.

ghost use Rattle.std.specs.Prelude.{◌≡◌, ◌<◌, ◌≤◌, IfErr, IfOk, OnOk, length, map};
ghost use Rattle.migration_model.specs.Rounds.{IsPlan};
ghost use Rattle.migration_model.specs.Touches.{touches_in, touches_of};
ghost use Rattle.migration_model.specs.Trace.{GuestTrace, Spells};
ghost use Rattle.round_planner.specs.Rows.{row_of};
ghost use Rattle.c_answers.specs.Answers.{number_of};
ghost use Rattle.c_answers.specs.Buffers.{over};
ghost use Rattle.c_answers.specs.Plans.{IsPlanOf, LacksPlan, RefusesPlan, RefusesTouches};
ghost use Rattle.c_answers.specs.Settings.{AreGiven, settings_in};

use crate::answers::Refusal;
use crate::settings::SizedSettings;
use open_traces::OpenTrace;
use round_planner::{Plan, Round, RoundRow, plan};
use std::alloc::Global;
use trace_codec::TraceView;
use trace_readers::TouchLog;

/// Returns a round as C sees it: its `struct precopy_round`.
fn row(round: &Round) -> RoundRow
    ensures { result ≡ row_of round.now }
{
    RoundRow {
        from: round.from,
        to: round.to,
        rate: round.rate,
        pages: round.pages.len() as u64,
        sent: round.sent.len() as u64,
        dirtied: round.dirtied as u64,
    }
}

/// Reads the touches of a trace. Where memory runs out, it tests the trace without any: one that is refused is told so.
pub(crate) fn read_touches(alloc: Global, trace: &[u8]) -> Result<TouchLog, Refusal>
    ensures made { IfOk result (λ log. (t : GuestTrace) × Spells trace.now t × (log ≡ touches_in t)) }
    ensures refused { IfErr result (RefusesTouches trace.now) }
    ensures only { (t : GuestTrace) → Spells trace.now t → IfErr result (λ e. e ≡ Refusal.Memory) }
{
    let Ok(log) = TouchLog::parse(alloc, trace) else {
        TraceView::parse(trace)?;
        return Err(Refusal::Memory);
    };
    Ok(log)
}

/// Returns the plan of the trace that the bytes encode. The settings are tested first.
pub fn planned(alloc: Global, trace: &[u8], settings: &SizedSettings) -> Result<Plan, Refusal>
    ensures made { IfOk result (IsPlanOf trace.now (settings_in settings.now)) }
    ensures given { OnOk result (AreGiven settings.now) }
    ensures refused { IfErr result (RefusesPlan trace.now settings.now) }
    ensures only { (t : GuestTrace) → Spells trace.now t → AreGiven settings.now
        → IfErr result (λ e. number_of e ≡ 16) }
{
    let settings = match settings.checked() {
        Ok(settings) => settings,
        Err(refusal) => return Err(refusal),
    };
    let log = read_touches(alloc, trace)?;
    Ok(plan(alloc, &log, &settings)?)
}

/// Returns the plan of an open trace. The settings are tested first.
pub fn open_planned(
    alloc: Global,
    trace: &OpenTrace<'_>,
    settings: &SizedSettings,
) -> Result<Plan, Refusal>
    ensures made { IfOk result (IsPlan trace.now.pages (touches_of trace.now) (settings_in settings.now)) }
    ensures given { OnOk result (AreGiven settings.now) }
    ensures refused { IfErr result (LacksPlan settings.now) }
    ensures only { AreGiven settings.now → IfErr result (λ e. e ≡ Refusal.Memory) }
{
    let settings = settings.checked()?;
    let log = TouchLog::of_log(alloc, trace)?;
    Ok(plan(alloc, &log, &settings)?)
}

/// Writes rounds over the front of a buffer.
pub fn put_rounds(rounds: &[Round], room: &mut [RoundRow])
    requires { length rounds.now ≤ length room.old }
    ensures { room.new ≡ over (map row_of rounds.now) room.old }
{
    for (number, round) in rounds.iter().enumerate() {
        room[number] = row(round);
    }
}
