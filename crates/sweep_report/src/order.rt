//! The order in which the cases of a sweep are planned.

ghost use Rattle.std.specs.Prelude.{◌≡◌, ◌<◌, IfOk, length};
ghost use Rattle.std.specs.List.{All};

use rate_limit::Settings;
use std::alloc::{AllocError, Global};

/// The number of a case, and how its plan begins. In order, cases come one after another whose plans begin alike, and
/// of those the case with the least threshold first: its plan has the most rounds.
#[derive(Clone, Copy, PartialEq, Eq, PartialOrd, Ord)]
pub(crate) struct CasePlace {
    skip: bool,
    start: u64,
    min: u64,
    max: u64,
    increment: u64,
    threshold: u64,
    pub(crate) number: usize,
}

impl CasePlace {
    fn new(case: &Settings, number: usize) -> CasePlace
        ensures { result.number ≡ number }
    {
        let asked = case.asked();
        CasePlace {
            skip: asked.skip,
            start: asked.start,
            min: asked.min,
            max: asked.max,
            increment: asked.increment,
            threshold: asked.threshold,
            number,
        }
    }
}

/// Returns the places of all cases, in the order in which they are planned.
pub(crate) fn planned_order(alloc: Global, cases: &[Settings]) -> Result<Vec<CasePlace>, AllocError>
    ensures { IfOk result (λ order. All (λ place. place.number < length cases.now) order.items) }
{
    let mut order = Vec::with_capacity(alloc, cases.len())?;
    for (number, case) in cases.iter().enumerate() {
        order.push(CasePlace::new(case, number))?;
    }
    order.sort_unstable();
    Ok(order)
}
