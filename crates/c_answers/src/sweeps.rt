//! Sweeps: the sums of many plans of one trace, and the best of them.

// `IsPlan` holds of one value alone: `one_plan`.
// `LacksSweep` holds of one value alone: `one_lacking_sweep`.

ghost use Rattle.std.specs.Prelude.{◌≡◌, ◌<◌, ◌≤◌, IfErr, IfOk, IsOk, OnOk, length, map};
ghost use Rattle.std.specs.List.{All};
ghost use Rattle.migration_model.specs.Sweeps.{AreLines, best_of};
ghost use Rattle.migration_model.specs.Touches.{touches_of};
ghost use Rattle.c_answers.specs.Buffers.{over};
ghost use Rattle.c_answers.specs.Settings.{AreGiven, settings_in};
ghost use Rattle.c_answers.specs.Sweeps.{LacksSweep, RefusesCase, line_sums};

use crate::answers::Refusal;
use crate::settings::SizedSettings;
use c_layout::PlanSums;
use open_traces::OpenTrace;
use rate_limit::Settings;
use round_planner::Outcome;
use std::alloc::{AllocError, Global};
use sweep_report::{Line, best_case, sweep_in_turn};
use trace_readers::TouchLog;

/// Tests the cases, in order: an error is the refusal of the first that is out of range. It allocates nothing.
fn test_cases(cases: &[SizedSettings]) -> Result<(), Refusal>
    ensures given { OnOk result (All AreGiven cases.now) }
    ensures refused { IfErr result (RefusesCase cases.now) }
    ensures only { All AreGiven cases.now → IsOk result }
{
    for case in cases {
        if let Err(refusal) = case.checked() {
            return Err(refusal);
        }
    }
    Ok(())
}

/// Returns the settings of all cases, none of which is refused.
fn settings_of_cases(alloc: Global, cases: &[SizedSettings]) -> Result<Vec<Settings>, AllocError>
    requires { All AreGiven cases.now }
    ensures { IfOk result (λ checked. checked.items ≡ map settings_in cases.now) }
{
    let mut checked = Vec::with_capacity(alloc, cases.len())?;
    for case in cases {
        let Ok(settings) = case.checked() else {
            unreachable!()
        };
        checked.push(settings)?;
    }
    Ok(checked)
}

/// Returns the lines of a sweep of an open trace. The cases are tested first.
pub fn swept(
    alloc: Global,
    trace: &OpenTrace<'_>,
    cases: &[SizedSettings],
) -> Result<Vec<Line>, Refusal>
    ensures made { IfOk result (λ lines. AreLines trace.now.pages (touches_of trace.now) (map settings_in cases.now)
        lines.items) }
    ensures given { OnOk result (All AreGiven cases.now) }
    ensures refused { IfErr result (LacksSweep cases.now) }
    ensures only { All AreGiven cases.now → IfErr result (λ e. e ≡ Refusal.Memory) }
{
    if let Err(refusal) = test_cases(cases) {
        return Err(refusal);
    }
    let log = TouchLog::of_log(alloc, trace)?;
    let checked = settings_of_cases(alloc, cases)?;
    Ok(sweep_in_turn(alloc, &log, &checked)?)
}

/// Returns the sums of a line.
fn sums_of_line(line: &Line) -> PlanSums
    ensures { result ≡ line_sums line.now }
{
    PlanSums::of(&Outcome {
        rounds: line.rounds,
        reason: line.reason,
        stop: line.stop,
        down: line.down,
        total: line.total,
    })
}

/// Writes the sums of lines over the front of a buffer.
pub fn put_lines(lines: &[Line], room: &mut [PlanSums])
    requires { length lines.now ≤ length room.old }
    ensures { room.new ≡ over (map line_sums lines.now) room.old }
{
    for (number, line) in lines.iter().enumerate() {
        room[number] = sums_of_line(line);
    }
}

/// Returns the index of the best of some lines, 0 if there is none.
pub fn best(lines: &[Line]) -> usize
    ensures { result ≡ best_of lines.now }
{
    if lines.is_empty() {
        return 0;
    }
    best_case(lines)
}
