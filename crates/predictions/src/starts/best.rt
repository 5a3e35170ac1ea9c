//! The choice of the best start.

// `IsBest` holds of one value alone: `one_best`.

ghost use Rattle.std.specs.Prelude.{◌≡◌, IfOk, None, Some, length};
ghost use Rattle.predictions.specs.Starts.Choices.{IsBest, IsPassed, IsTaken, beats_any};
ghost use Rattle.predictions.specs.Starts.Costs.{CostAtStart, IsRated};

use crate::measure::Measure;
use crate::redrawn::Errors;
use crate::starts::choosing::is_better;
use crate::starts::planned::PlannedCase;
use crate::starts::starting::{StartCost, start_cost};
use guest_log::{Timeline, last_tick};
use std::alloc::{AllocError, Global};

/// Returns the start of a case with its errors. The only error is that memory runs out.
fn rated<T: Timeline>(
    alloc: Global,
    timeline: &T,
    measure: &Measure,
    case: &PlannedCase,
) -> Result<StartCost, AllocError>
    ensures { IfOk result (IsRated measure.now.manner (T.pages timeline.now) (T.touches timeline.now)
        measure.now.scale measure.now.limits case.now) }
{
    let plain = start_cost(measure, case, last_tick(timeline));
    let Measure { scale, manner, .. } = measure;
    let errors = Errors::of_trace(alloc, timeline, &case.settings, scale, *manner)?;
    Ok(StartCost { errors, ..plain })
}

/// Returns whether a start is better than another, if there is one.
fn is_better_than(limit: u64, at: &StartCost, best: &Option<StartCost>) -> bool
    ensures { result ≡ beats_any limit at.now best.now }
{
    match best {
        Some(best) => is_better(limit, at, best),
        None => true,
    }
}

/// Returns the start of a case with its errors if it is better than the best so far. It is if it is better without
/// them too, so they are counted only then.
fn better<T: Timeline>(
    alloc: Global,
    timeline: &T,
    measure: &Measure,
    case: &PlannedCase,
    best: &Option<StartCost>,
) -> Result<Option<StartCost>, AllocError>
    ensures taken { IfOk result (λ found. (at : CostAtStart) → found ≡ Some at → IsTaken measure.now.manner
        (T.pages timeline.now) (T.touches timeline.now) measure.now.scale measure.now.limits case.now best.now at) }
    ensures passed { IfOk result (λ found. found ≡ None → IsPassed measure.now.manner (T.pages timeline.now)
        (T.touches timeline.now) measure.now.scale measure.now.limits case.now best.now) }
{
    let limit = measure.limits.downtime;
    let plain = start_cost(measure, case, last_tick(timeline));
    if plain.cost.is_late {
        return Ok(None);
    }
    if !is_better_than(limit, &plain, best) {
        return Ok(None);
    }
    let at = rated(alloc, timeline, measure, case)?;
    if is_better_than(limit, &at, best) {
        Ok(Some(at))
    } else {
        Ok(None)
    }
}

/// Returns the best of the starts of some cases, with its errors, the first of equals. The only error is that memory
/// runs out. It costs as much as 20 plans for each case that is better than all before it, if pages were sampled.
pub fn best_start<T: Timeline>(
    alloc: Global,
    timeline: &T,
    measure: &Measure,
    cases: &[PlannedCase],
) -> Result<Option<StartCost>, AllocError>
    ensures { IfOk result (IsBest measure.now.manner (T.pages timeline.now) (T.touches timeline.now) measure.now.scale
        measure.now.limits cases.now (length cases.now)) }
{
    let mut best = None;
    for case in cases {
        match better(alloc, timeline, measure, case, &best)? {
            Some(at) => best = Some(at),
            None => {}
        }
    }
    Ok(best)
}
