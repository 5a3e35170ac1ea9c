//! Reports.

// `IsPlan` holds of one value alone: `one_plan`.
// `RefusesPlan` holds of one value alone: `one_refused_plan`.
// `LacksPlan` holds of one value alone: `one_lacking_plan`.
// `Spells` holds of one value alone: `one_trace`.

ghost use Rattle.std.specs.Prelude.{◌≡◌, ◌<◌, IfErr, IfOk, OnOk};
ghost use Rattle.migration_model.specs.Trace.{GuestTrace, Spells};
ghost use Rattle.c_answers.specs.Answers.{number_of};
ghost use Rattle.sweep_report.specs.Reports.{IsReport};
ghost use Rattle.c_answers.specs.Plans.{IsReportOf, LacksPlan, RefusesPlan};
ghost use Rattle.c_answers.specs.Settings.{AreGiven, settings_in};

use crate::answers::Refusal;
use crate::plans::read_touches;
use crate::settings::SizedSettings;
use open_traces::OpenTrace;
use round_planner::plan;
use std::alloc::Global;
use sweep_report::report_text;
use trace_readers::TouchLog;
use working_sets::tables;

/// Returns the text of the report on the trace that the bytes encode. The settings are tested first.
pub fn reported(alloc: Global, trace: &[u8], settings: &SizedSettings) -> Result<Vec<u8>, Refusal>
    ensures made { IfOk result (λ text. IsReportOf trace.now (settings_in settings.now) text.items) }
    ensures given { OnOk result (AreGiven settings.now) }
    ensures refused { IfErr result (RefusesPlan trace.now settings.now) }
    ensures only { (t : GuestTrace) → Spells trace.now t → AreGiven settings.now
        → IfErr result (λ e. number_of e ≡ 16) }
{
    let settings = match settings.checked() {
        Ok(settings) => settings,
        Err(refusal) => return Err(refusal),
    };
    let log = read_touches(alloc, trace)?;
    let sets = tables(alloc, &log, &settings)?;
    let planned = plan(alloc, &log, &settings)?;
    Ok(report_text(alloc, &log.shape(), &settings, &sets, &planned)?)
}

/// Returns the text of the report on an open trace. The settings are tested first.
pub fn open_reported(
    alloc: Global,
    trace: &OpenTrace<'_>,
    settings: &SizedSettings,
) -> Result<Vec<u8>, Refusal>
    ensures made { IfOk result (λ text. IsReport trace.now (settings_in settings.now) text.items) }
    ensures given { OnOk result (AreGiven settings.now) }
    ensures refused { IfErr result (LacksPlan settings.now) }
    ensures only { AreGiven settings.now → IfErr result (λ e. e ≡ Refusal.Memory) }
{
    let settings = settings.checked()?;
    let log = TouchLog::of_log(alloc, trace)?;
    let sets = tables(alloc, &log, &settings)?;
    let planned = plan(alloc, &log, &settings)?;
    Ok(report_text(alloc, &log.shape(), &settings, &sets, &planned)?)
}
