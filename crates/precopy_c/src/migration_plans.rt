//! Tests of traces and settings, and plans and reports from the bytes of a trace.

// `Refuses` holds of one value alone: `TraceView::parse: first`.
// `Spells` holds of one value alone: `one_trace`.
// `IsPlan` holds of one value alone: `one_plan`.
// `RefusesPlan` holds of one value alone: `one_refused_plan`.

ghost use Rattle.std.specs.Prelude.{◌≡◌, ◌≢◌, ◌↔◌, ◌<◌, ◌⊎◌, ℕ, List, length};
ghost use Rattle.migration_model.specs.Final.{shape_of_trace};
ghost use Rattle.migration_model.specs.Rounds.{MigrationPlan};
ghost use Rattle.migration_model.specs.Sweeps.{outcome_of};
ghost use Rattle.migration_model.specs.Trace.{GuestTrace, Spells};
ghost use Rattle.trace_codec.specs.Refusals.{Refuses};
ghost use Rattle.trace_codec.specs.declared.error.TraceError.{TraceError};
ghost use Rattle.c_layout.specs.Refusals.{number_of_trace, record_after};
ghost use Rattle.c_layout.specs.Sums.{sums_of};
ghost use Rattle.c_answers.specs.Answers.{IsNumberOf, IsToldBy};
ghost use Rattle.c_answers.specs.Buffers.{over};
ghost use Rattle.c_answers.specs.Plans.{IsPlanOf, RefusesPlan, IsReportOf};
ghost use Rattle.c_answers.specs.Settings.{shape_in, AreGiven, RefusesSettings, settings_in};

use c_answers::buffers::answer_bytes;
use c_answers::plans::planned;
use c_answers::reports::reported;
use c_answers::settings::SizedSettings;
use c_answers::sizes::GuestSizes;
use c_layout::{PlanSums, refuse_trace};
use std::alloc::Global;
use trace_codec::TraceView;

/// Tests the bytes of a trace, and sets its sizes.
#[unsafe(no_mangle)]
pub extern "C" fn precopy_check_trace(trace: &[u8], sizes: &mut GuestSizes, record: &mut u32) -> u32
    ensures found { result ≡ 0 → (t : GuestTrace) × Spells trace.now t × (shape_in sizes.new ≡ shape_of_trace t)
        × (record.new ≡ record.old) }
    ensures refused { result ≢ 0 → (e : TraceError) × Refuses trace.now e × (result ≡ number_of_trace e)
        × (record.new ≡ record_after e record.old) }
    ensures only { (t : GuestTrace) → Spells trace.now t → result ≡ 0 }
    ensures unchanged { result ≢ 0 → sizes.new ≡ sizes.old }
{
    match TraceView::parse(trace) {
        Ok(view) => {
            *sizes = GuestSizes::of(&view.shape());
            0
        }
        Err(error) => refuse_trace(error, record),
    }
}

/// Tests settings: returns 0 if their struct has its size and each is in its range, or else the number of what is
/// refused first.
#[unsafe(no_mangle)]
pub extern "C" fn precopy_check_settings(settings: &SizedSettings) -> u32
    ensures given { (result ≡ 0) ↔ AreGiven settings.now }
    ensures refused { result ≢ 0 → IsNumberOf result (RefusesSettings settings.now) }
{
    match settings.checked() {
        Ok(_) => 0,
        Err(refusal) => refusal.number(),
    }
}

/// Sets the sums of the plan of a trace with these settings.
#[unsafe(no_mangle)]
pub extern "C" fn precopy_plan(
    alloc: Global,
    trace: &[u8],
    settings: &SizedSettings,
    found: &mut PlanSums,
    record: &mut u32,
) -> u32
    ensures made { result ≡ 0 → (plan : MigrationPlan) × IsPlanOf trace.now (settings_in settings.now) plan
        × (found.new ≡ sums_of (outcome_of plan)) }
    ensures given { result ≡ 0 → AreGiven settings.now }
    ensures refused { result ≢ 0
        → IsToldBy result record.old record.new (RefusesPlan trace.now settings.now) }
    ensures only { (t : GuestTrace) → Spells trace.now t → AreGiven settings.now
        → (result ≡ 0) ⊎ (result ≡ 16) }
    ensures unchanged { result ≢ 0 → found.new ≡ found.old }
    ensures not_told { result ≡ 0 → record.new ≡ record.old }
{
    match planned(alloc, trace, settings) {
        Ok(plan) => {
            *found = PlanSums::of(&plan.outcome());
            0
        }
        Err(refusal) => refusal.told(record),
    }
}

/// Writes the text of the report on a trace, in ASCII, over the front of a buffer, and sets `needed` to its length. If
/// the buffer is too short, it sets only that.
#[unsafe(no_mangle)]
pub extern "C" fn precopy_report(
    alloc: Global,
    trace: &[u8],
    settings: &SizedSettings,
    text: &mut [u8],
    needed: &mut usize,
    record: &mut u32,
) -> u32
    ensures made { result ≡ 0 → (report : List ℕ) × IsReportOf trace.now (settings_in settings.now) report
        × (needed.new ≡ length report) × (text.new ≡ over report text.old) }
    ensures short { result ≡ 61 → (report : List ℕ) × IsReportOf trace.now (settings_in settings.now) report
        × (needed.new ≡ length report) × (length text.old < needed.new) }
    ensures given { (result ≡ 0) ⊎ (result ≡ 61) → AreGiven settings.now }
    ensures refused { result ≢ 0 → result ≢ 61
        → IsToldBy result record.old record.new (RefusesPlan trace.now settings.now)
        × (needed.new ≡ needed.old) }
    ensures not_told { (result ≡ 0) ⊎ (result ≡ 61) → record.new ≡ record.old }
    ensures only { (t : GuestTrace) → Spells trace.now t → AreGiven settings.now
        → (result ≡ 0) ⊎ (result ≡ 16) ⊎ (result ≡ 61) }
    ensures unchanged { result ≢ 0 → text.new ≡ text.old }
{
    match reported(alloc, trace, settings) {
        Ok(report) => match answer_bytes(text, needed, &report) {
            Ok(()) => 0,
            Err(refusal) => refusal.number(),
        },
        Err(refusal) => refusal.told(record),
    }
}
