//! Plans, reports and sweeps of a trace that stays open.

// `Spells`, and so `Shows`, holds of one value alone: `one_trace`.
// `IsPlan` holds of one value alone: `one_plan`.
// `LacksPlan` holds of one value alone: `one_lacking_plan`.
// `LacksSweep` holds of one value alone: `one_lacking_sweep`.

ghost use Rattle.std.specs.List.{All};
ghost use Rattle.std.specs.Prelude.{◌≡◌, ◌≢◌, ◌<◌, ◌≤◌, ◌⊎◌, ℕ, List, length, map};
ghost use Rattle.migration_model.specs.Rounds.{IsPlan, MigrationPlan};
ghost use Rattle.migration_model.specs.Sweeps.{AreLines, SweepLine, best_of, outcome_of};
ghost use Rattle.migration_model.specs.Touches.{touches_of};
ghost use Rattle.migration_model.specs.Trace.{GuestTrace};
ghost use Rattle.round_planner.specs.Rows.{row_of};
ghost use Rattle.sweep_report.specs.Reports.{IsReport};
ghost use Rattle.c_layout.specs.Sums.{sums_of};
ghost use Rattle.c_answers.specs.Answers.{IsNumberOf};
ghost use Rattle.c_answers.specs.Buffers.{over};
ghost use Rattle.c_answers.specs.Opened.{IsOpened, Shows};
ghost use Rattle.c_answers.specs.Plans.{LacksPlan};
ghost use Rattle.c_answers.specs.Settings.{AreGiven, settings_in};
ghost use Rattle.c_answers.specs.Sweeps.{LacksSweep, line_sums};

use c_answers::answers::Refusal;
use c_answers::buffers::answer_bytes;
use c_answers::opened::TraceHandle;
use c_answers::plans::{open_planned, put_rounds};
use c_answers::reports::open_reported;
use c_answers::settings::SizedSettings;
use c_answers::sweeps::{best, put_lines, swept};
use c_layout::PlanSums;
use round_planner::RoundRow;
use std::alloc::Global;

/// Sets the sums of the plan of an open trace with these settings.
#[unsafe(no_mangle)]
pub extern "C" fn precopy_trace_plan(
    alloc: Global,
    trace: &TraceHandle<'_>,
    settings: &SizedSettings,
    found: &mut PlanSums,
) -> u32
    requires { IsOpened trace.now }
    ensures made { result ≡ 0 → (t : GuestTrace) × Shows trace.now t × ((plan : MigrationPlan)
        × IsPlan t.pages (touches_of t) (settings_in settings.now) plan × (found.new ≡ sums_of (outcome_of plan))) }
    ensures given { result ≡ 0 → AreGiven settings.now }
    ensures refused { result ≢ 0 → IsNumberOf result (LacksPlan settings.now) }
    ensures only { AreGiven settings.now → (result ≡ 0) ⊎ (result ≡ 16) }
    ensures unchanged { result ≢ 0 → found.new ≡ found.old }
{
    match open_planned(alloc, &trace.opened(), settings) {
        Ok(plan) => {
            *found = PlanSums::of(&plan.outcome());
            0
        }
        Err(refusal) => refusal.number(),
    }
}

/// Writes the rounds of the plan of an open trace, in order, over the front of a buffer, and sets `count` to their
/// number. If the buffer is too short, it sets only that.
#[unsafe(no_mangle)]
pub extern "C" fn precopy_trace_rounds(
    alloc: Global,
    trace: &TraceHandle<'_>,
    settings: &SizedSettings,
    rounds: &mut [RoundRow],
    count: &mut usize,
) -> u32
    requires { IsOpened trace.now }
    ensures made { result ≡ 0 → (t : GuestTrace) × Shows trace.now t × ((plan : MigrationPlan)
        × IsPlan t.pages (touches_of t) (settings_in settings.now) plan
        × (count.new ≡ length plan.rounds) × (rounds.new ≡ over (map row_of plan.rounds) rounds.old)) }
    ensures short { result ≡ 61 → (t : GuestTrace) × Shows trace.now t × ((plan : MigrationPlan)
        × IsPlan t.pages (touches_of t) (settings_in settings.now) plan
        × (count.new ≡ length plan.rounds) × (length rounds.old < count.new)) }
    ensures given { (result ≡ 0) ⊎ (result ≡ 61) → AreGiven settings.now }
    ensures refused { result ≢ 0 → result ≢ 61
        → IsNumberOf result (LacksPlan settings.now) × (count.new ≡ count.old) }
    ensures only { AreGiven settings.now → (result ≡ 0) ⊎ (result ≡ 16) ⊎ (result ≡ 61) }
    ensures unchanged { result ≢ 0 → rounds.new ≡ rounds.old }
{
    match open_planned(alloc, &trace.opened(), settings) {
        Ok(plan) => {
            *count = plan.rounds.len();
            if rounds.len() < plan.rounds.len() {
                return Refusal::ShortBuffer.number();
            }
            put_rounds(&plan.rounds, rounds);
            0
        }
        Err(refusal) => refusal.number(),
    }
}

/// Writes the text of the report on an open trace, in ASCII, over the front of a buffer, and sets `needed` to its
/// length. If the buffer is too short, it sets only that.
#[unsafe(no_mangle)]
pub extern "C" fn precopy_trace_report(
    alloc: Global,
    trace: &TraceHandle<'_>,
    settings: &SizedSettings,
    text: &mut [u8],
    needed: &mut usize,
) -> u32
    requires { IsOpened trace.now }
    ensures made { result ≡ 0 → (t : GuestTrace) × Shows trace.now t × ((report : List ℕ)
        × IsReport t (settings_in settings.now) report × (needed.new ≡ length report)
        × (text.new ≡ over report text.old)) }
    ensures short { result ≡ 61 → (t : GuestTrace) × Shows trace.now t × ((report : List ℕ)
        × IsReport t (settings_in settings.now) report × (needed.new ≡ length report)
        × (length text.old < needed.new)) }
    ensures given { (result ≡ 0) ⊎ (result ≡ 61) → AreGiven settings.now }
    ensures refused { result ≢ 0 → result ≢ 61
        → IsNumberOf result (LacksPlan settings.now) × (needed.new ≡ needed.old) }
    ensures only { AreGiven settings.now → (result ≡ 0) ⊎ (result ≡ 16) ⊎ (result ≡ 61) }
    ensures unchanged { result ≢ 0 → text.new ≡ text.old }
{
    match open_reported(alloc, &trace.opened(), settings) {
        Ok(report) => match answer_bytes(text, needed, &report) {
            Ok(()) => 0,
            Err(refusal) => refusal.number(),
        },
        Err(refusal) => refusal.number(),
    }
}

/// Writes the sums of the plan of an open trace for each of some cases, in order, over the front of a buffer, and sets
/// `chosen` to the index of the best. All is done on the caller's thread.
#[unsafe(no_mangle)]
pub extern "C" fn precopy_trace_sweep(
    alloc: Global,
    trace: &TraceHandle<'_>,
    cases: &[SizedSettings],
    found: &mut [PlanSums],
    chosen: &mut usize,
) -> u32
    requires { IsOpened trace.now }
    ensures made { result ≡ 0 → (t : GuestTrace) × Shows trace.now t × ((lines : List SweepLine)
        × AreLines t.pages (touches_of t) (map settings_in cases.now) lines
        × (found.new ≡ over (map line_sums lines) found.old) × (chosen.new ≡ best_of lines)) }
    ensures given { result ≡ 0 → All AreGiven cases.now × (length cases.now ≤ length found.old) }
    ensures short { length found.old < length cases.now → result ≡ 61 }
    ensures long { result ≡ 61 → length found.old < length cases.now }
    ensures refused { result ≢ 0 → result ≢ 61 → IsNumberOf result (LacksSweep cases.now) }
    ensures only { All AreGiven cases.now → length cases.now ≤ length found.old → (result ≡ 0) ⊎ (result ≡ 16) }
    ensures unchanged { result ≢ 0 → (found.new ≡ found.old) × (chosen.new ≡ chosen.old) }
{
    if found.len() < cases.len() {
        return Refusal::ShortBuffer.number();
    }
    match swept(alloc, &trace.opened(), cases) {
        Ok(lines) => {
            put_lines(&lines, found);
            *chosen = best(&lines);
            0
        }
        Err(refusal) => refusal.number(),
    }
}
