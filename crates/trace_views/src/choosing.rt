//! The choice of a case for a budget.

// `IsAdvice` holds of one value alone: `one_advice`.

ghost use Rattle.std.specs.Prelude.{◌≡◌, ◌+◌, ◌<◌, ◌≤◌, ℕ, IfOk, Some, length};
ghost use Rattle.migration_model.specs.Sweeps.{is_better};
ghost use Rattle.migration_model.specs.Touches.{last_tick_of};
ghost use Rattle.trace_views.specs.Advice.{EndsWithin, IsAdvice, IsFound, KeepsDown, beats_found, is_cheaper, is_within};
ghost use Rattle.trace_views.specs.AdviceText.{case_of};

use crate::advice::Advice;
use crate::likely::{ends_within, is_kept};
use std::alloc::{AllocError, Global};
use sweep_report::Line;
use trace_readers::TouchLog;
use view_kinds::{Budget, Measured};

/// Returns whether a number is within a limit, if there is one.
fn is_within_limit(limit: Option<u64>, n: u64) -> bool
    ensures { result ≡ is_within limit n }
{
    match limit {
        None => true,
        Some(limit) => n <= limit,
    }
}

/// Returns whether fewer pages are sent for a case than for another, or as many with less downtime.
fn is_less(line: &Line, other: &Line) -> bool
    ensures { result ≡ is_cheaper line.now other.now }
{
    line.total < other.total || line.total == other.total && line.down < other.down
}

/// Returns whether a case is cheaper than that of a place, if there is one.
fn is_less_than(lines: &[Line], line: &Line, found: Option<usize>) -> bool
    requires { (at : ℕ) → found ≡ Some at → at < length lines.now }
    ensures { result ≡ beats_found is_cheaper lines.now line.now found }
{
    match found {
        Some(at) => is_less(line, &lines[at]),
        None => true,
    }
}

/// Returns the cheapest of the cases up to this one that is likely to keep a downtime, from the cheapest of those
/// before it.
fn with_case(
    alloc: Global,
    log: &TouchLog,
    measured: &Option<Measured>,
    down: u64,
    lines: &[Line],
    found: Option<usize>,
    number: usize,
) -> Result<Option<usize>, AllocError>
    requires inside { number < length lines.now }
    requires before { IsFound is_cheaper (KeepsDown log.now measured.now down) lines.now number found }
    ensures { IfOk result (IsFound is_cheaper (KeepsDown log.now measured.now down) lines.now (number + 1)) }
{
    let line = &lines[number];
    if !is_less_than(lines, line, found) {
        return Ok(found);
    }
    if is_kept(alloc, log, measured, down, line)? {
        Ok(Some(number))
    } else {
        Ok(found)
    }
}

/// Returns the cheapest case that is likely to keep a downtime, the first of equals, if one does. Errors are counted of
/// those alone that are cheaper than all before them that keep it.
fn cheapest_case(
    alloc: Global,
    log: &TouchLog,
    measured: &Option<Measured>,
    down: u64,
    lines: &[Line],
) -> Result<Option<usize>, AllocError>
    ensures { IfOk result (IsFound is_cheaper (KeepsDown log.now measured.now down) lines.now (length lines.now)) }
{
    let mut found = None;
    for number in 0..lines.len() {
        found = with_case(alloc, log, measured, down, lines, found, number)?;
    }
    Ok(found)
}

/// Returns whether a case has less downtime than another, or as much with fewer pages sent.
fn is_nearer(line: &Line, other: &Line) -> bool
    ensures { result ≡ is_better line.now other.now }
{
    line.down < other.down || line.down == other.down && line.total < other.total
}

/// Returns whether a case is nearer than that of a place, if there is one.
fn is_nearer_than(lines: &[Line], line: &Line, found: Option<usize>) -> bool
    requires { (at : ℕ) → found ≡ Some at → at < length lines.now }
    ensures { result ≡ beats_found is_better lines.now line.now found }
{
    match found {
        Some(at) => is_nearer(line, &lines[at]),
        None => true,
    }
}

/// Returns the nearest of the cases up to this one that end within a log, from the nearest of those before it.
fn with_known(log: &TouchLog, lines: &[Line], found: Option<usize>, number: usize) -> Option<usize>
    requires inside { number < length lines.now }
    requires before { IsFound is_better (EndsWithin log.now) lines.now number found }
    ensures { IsFound is_better (EndsWithin log.now) lines.now (number + 1) result }
{
    let line = &lines[number];
    if !is_nearer_than(lines, line, found) {
        return found;
    }
    if ends_within(log, line) {
        Some(number)
    } else {
        found
    }
}

/// Returns the case with the least downtime of those that end within a log, the first of equals, if one does.
fn nearest_case(log: &TouchLog, lines: &[Line]) -> Option<usize>
    ensures { IsFound is_better (EndsWithin log.now) lines.now (length lines.now) result }
{
    let mut found = None;
    for number in 0..lines.len() {
        found = with_known(log, lines, found, number);
    }
    found
}

/// Returns which of some cases over a log to advise for a budget. The only error is that memory runs out.
pub fn advise(
    alloc: Global,
    log: &TouchLog,
    measured: &Option<Measured>,
    budget: &Budget,
    lines: &[Line],
) -> Result<Advice, AllocError>
    ensures advice { IfOk result (IsAdvice log.now measured.now budget.now lines.now) }
    ensures inside { IfOk result (λ advice. (case : ℕ) → case_of advice ≡ Some case → case < length lines.now) }
{
    let Some(nearest) = nearest_case(log, lines) else {
        return Ok(Advice::Unknown);
    };
    let Some(cheapest) = cheapest_case(alloc, log, measured, budget.down, lines)? else {
        return Ok(Advice::OverDown(nearest));
    };
    let line = &lines[cheapest];
    if is_within_limit(budget.total, line.total) {
        Ok(Advice::Fits(cheapest))
    } else {
        Ok(Advice::OverTotal { nearest, cheapest })
    }
}
