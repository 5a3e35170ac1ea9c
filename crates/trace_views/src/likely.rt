//! Which cases are likely to keep a downtime, with the errors of a sample.

ghost use Rattle.std.specs.Prelude.{◌≡◌, IfOk, false, true};
ghost use Rattle.trace_views.specs.Advice.{AreCaseErrors, KeepsDown, case_with, ends_within, is_likely_with};

use guest_log::last_tick;
use predictions::redrawn::Errors;
use predictions::starts::{StartCost, is_likely};
use predictions::{Cost, Manner};
use std::alloc::{AllocError, Global};
use sweep_report::Line;
use trace_readers::TouchLog;
use view_kinds::Measured;

/// Returns the standard errors of a case, if they are known. The only error is that memory runs out. It costs as much
/// as 20 plans if pages were sampled.
pub(crate) fn case_errors(
    alloc: Global,
    log: &TouchLog,
    measured: &Option<Measured>,
    line: &Line,
) -> Result<Option<Errors>, AllocError>
    ensures { IfOk result (AreCaseErrors log.now measured.now line.now) }
{
    match measured {
        Some(Measured { scale, .. }) => {
            Errors::of_trace(alloc, log, &line.settings, scale, Manner::Rounds)
        }
        None => Ok(None),
    }
}

/// Returns a case with its errors as a start.
fn start_with(log: &TouchLog, measured: &Measured, line: &Line, errors: Errors) -> StartCost
    ensures { result ≡ case_with log.now measured.now line.now errors }
{
    StartCost {
        start: line.settings.asked().start,
        cost: Cost::of_line(&measured.scale, &measured.limits, line, last_tick(log)),
        errors: Some(errors),
    }
}

/// Returns whether a case with some errors is likely to keep its limit, if it has errors.
fn is_likely_case(
    log: &TouchLog,
    measured: &Option<Measured>,
    line: &Line,
    errors: &Option<Errors>,
) -> bool
    ensures { result ≡ is_likely_with log.now measured.now line.now errors.now }
{
    match (measured, errors) {
        (Some(measured), Some(errors)) => {
            let limit = measured.limits.downtime;
            is_likely(limit, &start_with(log, measured, line, *errors))
        }
        _ => true,
    }
}

/// Returns whether a case ends within a log.
pub(crate) fn ends_within(log: &TouchLog, line: &Line) -> bool
    ensures { result ≡ ends_within log.now line.now }
{
    line.stop <= last_tick(log)
}

/// Returns whether a case is likely to keep a downtime. Its errors are counted only if it ends within the log, and its
/// plan keeps the downtime.
pub(crate) fn is_kept(
    alloc: Global,
    log: &TouchLog,
    measured: &Option<Measured>,
    down: u64,
    line: &Line,
) -> Result<bool, AllocError>
    ensures kept { IfOk result (λ kept. kept ≡ true → KeepsDown log.now measured.now down line.now) }
    ensures missed { IfOk result (λ kept. kept ≡ false → ¬ KeepsDown log.now measured.now down line.now) }
{
    if !ends_within(log, line) || line.down > down {
        return Ok(false);
    }
    let errors = case_errors(alloc, log, measured, line)?;
    Ok(is_likely_case(log, measured, line, &errors))
}
