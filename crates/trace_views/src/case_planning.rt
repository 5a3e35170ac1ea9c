//! Cases over a log, planned side by side by a manner.

ghost use Rattle.std.specs.Prelude.{◌≡◌, ◌<◌, ℕ, IfErr, IfOk, List};
ghost use Rattle.migration_model.specs.Rates.{MigrationSettings};
ghost use Rattle.migration_model.specs.Touches.{GuestTouch};
ghost use Rattle.predictions.specs.Starts.Cases.{AreCases};
ghost use Rattle.predictions.specs.Units.Scales.{TraceScale};
ghost use Rattle.predictions.specs.declared.course.Manner.{Manner};
ghost use Rattle.predictions.specs.declared.course.Manner.TheVariants as manners;
ghost use Rattle.trace_views.specs.CaseParts.{ArePlannedParts};

use crate::error::ViewError;
use crate::sweeping::planned;
use guest_log::Timeline;
use predictions::starts::{PlannedCase, cases_by, cases_of_lines};
use predictions::{Manner, Measure};
use rate_limit::Settings;
use std::alloc::{AllocError, Global};
use std::thread;
use std::thread::Threads;
use trace_readers::TouchLog;

/// How many touches and pages a worker must look at, in all of its cases, to pay for its thread.
const WORTH_A_THREAD: usize = 1 << 20;

/// Returns how many workers are worth their threads: no more than are asked for, and no more than there are cases.
fn workers_for(log: &TouchLog, cases: usize, workers: usize) -> usize {
    let each = log.touch_count() + log.page_count() as usize;
    let most = cases.saturating_mul(each) / WORTH_A_THREAD;
    workers.min(cases).min(most)
}

/// Returns the cases of parts of some settings, one part after another.
fn joined(
    alloc: Global,
    parts: &[Result<Vec<PlannedCase>, AllocError>],
) -> Result<Vec<PlannedCase>, AllocError>
    ensures { IfOk result (λ cases. (manner : Manner) (pages : ℕ) (touches : List GuestTouch) (scale : TraceScale)
        (size : ℕ) (settings : List MigrationSettings)
        → ArePlannedParts manner pages touches scale size settings parts.now
        → AreCases manner pages touches scale settings cases.items) }
{
    let mut cases = Vec::new(alloc);
    for part in parts {
        match part {
            Ok(some) => cases.extend_from_slice(some)?,
            Err(_) => return Err(AllocError),
        }
    }
    Ok(cases)
}

/// Returns a case for each of some settings. Each worker plans a part of them, as long as that of any other.
fn planned_in_parts<R: Threads + Sync>(
    rt: &R,
    alloc: Global,
    settings: &[Settings],
    measure: &Measure,
    workers: usize,
    log: &TouchLog,
) -> Result<Vec<PlannedCase>, AllocError>
    requires { 0 < workers }
    ensures { IfOk result (λ cases. AreCases measure.now.manner log.now.pages log.now.touches measure.now.scale
        settings.now cases.items) }
{
    let size = settings.len().div_ceil(workers).max(1);
    let work = |_start: usize, part: &[Settings]| -> Result<Vec<PlannedCase>, AllocError>
        ensures { IfOk result (λ cases. AreCases measure.entry.now.manner log.entry.now.pages log.entry.now.touches
            measure.entry.now.scale part.entry.now cases.items) }
    { cases_by(alloc, log, part, measure) };
    let parts = thread::map_chunks(rt, alloc, settings, size, &work)?;
    joined(alloc, &parts)
}

/// Returns a case for each of some settings, in order, each planned by itself. Up to `workers` workers plan them, if
/// there is enough to do.
fn planned_by<R: Threads + Sync>(
    rt: &R,
    alloc: Global,
    settings: &[Settings],
    measure: &Measure,
    workers: usize,
    log: &TouchLog,
) -> Result<Vec<PlannedCase>, AllocError>
    ensures { IfOk result (λ cases. AreCases measure.now.manner log.now.pages log.now.touches measure.now.scale
        settings.now cases.items) }
{
    let workers = workers_for(log, settings.len(), workers);
    if workers < 2 {
        return cases_by(alloc, log, settings, measure);
    }
    planned_in_parts(rt, alloc, settings, measure, workers, log)
}

/// Returns a case for each of some settings, in order, with Clark's plan of each. They share an index of the log.
fn planned_by_rounds<R: Threads + Sync>(
    rt: &R,
    alloc: Global,
    settings: &[Settings],
    workers: usize,
    log: &TouchLog,
) -> Result<Vec<PlannedCase>, ViewError>
    ensures made { IfOk result (λ cases. (scale : TraceScale) → AreCases manners.Rounds log.now.pages log.now.touches
        scale settings.now cases.items) }
    ensures refused { IfErr result (λ e. e ≡ ViewError.Memory) }
{
    let lines = planned(rt, alloc, settings, workers, log)?;
    Ok(cases_of_lines(alloc, &lines)?)
}

/// Returns a case for each of some settings over a log, in order, each planned by itself and by a measure's manner. Up
/// to `workers` workers, 1 to 16, plan side by side, if there is enough to do; the cases are the same for any number of
/// them.
pub(crate) fn cases_over<R: Threads + Sync>(
    rt: &R,
    alloc: Global,
    settings: &[Settings],
    measure: &Measure,
    workers: usize,
    log: &TouchLog,
) -> Result<Vec<PlannedCase>, ViewError>
    ensures made { IfOk result (λ cases. AreCases measure.now.manner log.now.pages log.now.touches measure.now.scale
        settings.now cases.items) }
    ensures refused { IfErr result (λ e. e ≡ ViewError.Memory) }
{
    match measure.manner {
        Manner::Looks => Ok(planned_by(rt, alloc, settings, measure, workers, log)?),
        Manner::Rounds => planned_by_rounds(rt, alloc, settings, workers, log),
    }
}
