//! What migrations cost that begin at several ticks.

ghost use Rattle.std.specs.Prelude.{◌≡◌, IfOk};
ghost use Rattle.predictions.specs.Starts.Costs.{cost_at_start, costs_at_starts};

use crate::cost::Cost;
use crate::measure::Measure;
use crate::redrawn::Errors;
use crate::starts::planned::PlannedCase;
use std::alloc::{AllocError, Global};
use std::marker::Model;

/// A start, and what the migration costs that begins there.
#[derive(Clone, Copy, Debug, PartialEq, Eq)]
pub struct StartCost {
    /// The tick at which it begins.
    pub start: u64,
    /// What the migration costs.
    pub cost: Cost,
    /// The standard errors of that, if they are counted.
    pub errors: Option<Errors>,
}

impl Model for StartCost {
    ghost use Rattle.predictions.specs.Starts.Costs.{CostAtStart};

    ghost Value = { CostAtStart };

    ghost view = { λ s. record { start = s.start; cost = s.cost; errors = s.errors } };

    ghost inverse = { λ s. record { start = s.start; cost = s.cost; errors = s.errors } };
}

/// Returns what the migration of a case costs, by its plan alone.
pub(crate) fn start_cost(measure: &Measure, case: &PlannedCase, last_tick: u64) -> StartCost
    ensures { result ≡ cost_at_start measure.now.scale measure.now.limits last_tick case.now }
{
    let Measure { scale, limits, .. } = measure;
    let start = case.settings.asked().start;
    StartCost {
        start,
        cost: Cost::new(scale, limits, start, &case.course, last_tick),
        errors: None,
    }
}

/// Returns what the migration of each case costs by its plan alone, over a trace with this last tick.
pub fn start_costs(
    alloc: Global,
    measure: &Measure,
    cases: &[PlannedCase],
    last_tick: u64,
) -> Result<Vec<StartCost>, AllocError>
    ensures { IfOk result (λ costs. costs.items
        ≡ costs_at_starts measure.now.scale measure.now.limits last_tick cases.now) }
{
    let mut costs = Vec::with_capacity(alloc, cases.len())?;
    for case in cases {
        costs.push(start_cost(measure, case, last_tick))?;
    }
    Ok(costs)
}
