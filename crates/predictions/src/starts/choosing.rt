//! The order of starts, and the choice of the worst.

// `IsChosen` holds of one value alone, if `is_worse_start` chooses: `one_worst`.

ghost use Rattle.std.specs.Prelude.{◌≡◌, ◌≤◌, ◌<◌, ◌&&◌, ◌||◌, ◌==◌, nat_lt, IfOk, length};
ghost use Rattle.std.specs.List.{IsFirstBest};
ghost use Rattle.predictions.specs.Starts.Choices.{IsChosen, down_error, is_better_known, is_better_start, is_likely};
ghost use Rattle.predictions.specs.Starts.Choices.{is_worse_known, is_worse_start, known_of, lateness};
ghost use Rattle.predictions.specs.Starts.Choices.{likely_downtime, overrun};
ghost use Rattle.predictions.specs.Starts.Costs.{plain_of};

use crate::redrawn::Errors;
use crate::starts::starting::StartCost;
use std::alloc::{AllocError, Global};

/// Returns the starts from which a migration ends within the trace.
pub fn known_starts(alloc: Global, costs: &[StartCost]) -> Result<Vec<StartCost>, AllocError>
    ensures { IfOk result (λ known. known.items ≡ known_of costs.now) }
{
    let mut known = Vec::new(alloc);
    for at in costs {
        if !at.cost.is_late {
            known.push(*at)?;
        }
    }
    Ok(known)
}

/// Returns whether a number is less than another, or equal and the rest holds.
fn is_less_then(a: u128, b: u128, rest: bool) -> bool
    ensures { result ≡ (nat_lt a b || ((a == b) && rest)) }
{
    a < b || a == b && rest
}

/// Returns the standard error of a downtime, if one is counted.
fn down_error_of(errors: &Option<Errors>) -> u128
    ensures { result ≡ down_error errors.now }
{
    match errors {
        Some(errors) => errors.downtime,
        None => 0,
    }
}

/// Returns the downtime from a start and two standard errors, as 128 bits hold it.
fn likely_downtime_of(at: &StartCost) -> u128
    ensures { result ≡ likely_downtime at.now }
{
    let error = down_error_of(&at.errors);
    at.cost.downtime.saturating_add(error.saturating_mul(2))
}

/// Returns whether the limit is likely to be kept from a start: it is kept, and with two standard errors of the
/// downtime, unless the guest is stopped only when what is left fits the limit.
#[tactic(auto, unfolding(crate::specs::Starts::Choices::is_likely))]
pub fn is_likely(limit: u64, at: &StartCost) -> bool
    ensures { result ≡ is_likely limit at.now }
{
    at.cost.is_kept && (at.cost.is_bounded || likely_downtime_of(at) <= limit as u128)
}

/// Returns what counts first of a start: nothing if the limit is likely to be kept, and else how long the downtime is
/// likely to be.
fn overrun_of(limit: u64, at: &StartCost) -> u128
    ensures { result ≡ overrun limit at.now }
{
    if is_likely(limit, at) {
        0
    } else {
        likely_downtime_of(at)
    }
}

/// Returns whether a start is better than another.
pub(crate) fn is_better(limit: u64, at: &StartCost, other: &StartCost) -> bool
    ensures { result ≡ is_better_start limit at.now other.now }
{
    let by_time = at.cost.time < other.cost.time;
    let by_bytes = is_less_then(at.cost.bytes, other.cost.bytes, by_time);
    is_less_then(overrun_of(limit, at), overrun_of(limit, other), by_bytes)
}

/// Returns a start without its errors.
fn plain(at: &StartCost) -> StartCost
    ensures { result ≡ plain_of at.now }
{
    StartCost {
        errors: None,
        ..*at
    }
}

/// Returns whether a start is worse than another, by the plans alone.
fn is_worse(limit: u64, at: &StartCost, other: &StartCost) -> bool
    ensures { result ≡ is_worse_start limit at.now other.now }
{
    is_better(limit, &plain(other), &plain(at))
}

/// Returns 0 if a migration ends within the trace, and else 1.
fn lateness_of(at: &StartCost) -> u128
    ensures { result ≡ lateness at.now }
{
    if at.cost.is_late { 1 } else { 0 }
}

/// Returns whether a start is better than another. If nothing is known of one, the other is better.
pub fn is_better_known(limit: u64, at: &StartCost, other: &StartCost) -> bool
    ensures { result ≡ is_better_known limit at.now other.now }
{
    is_less_then(
        lateness_of(at),
        lateness_of(other),
        is_better(limit, at, other),
    )
}

/// Returns whether a start is worse than another. If nothing is known of one, the other is worse: it is chosen first.
pub fn is_worse_known(limit: u64, at: &StartCost, other: &StartCost) -> bool
    ensures { result ≡ is_worse_known limit at.now other.now }
{
    is_less_then(
        lateness_of(at),
        lateness_of(other),
        is_worse(limit, at, other),
    )
}

/// Returns the place of the first start that no other is worse than.
fn worst_place(limit: u64, costs: &[StartCost]) -> usize
    requires { 1 ≤ length costs.now }
    ensures { IsFirstBest (is_worse_start limit) costs.now (length costs.now) result }
{
    let mut worst = 0;
    for number in 1..costs.len() {
        if is_worse(limit, &costs[number], &costs[worst]) {
            worst = number;
        }
    }
    worst
}

/// Returns the worst of some starts by the plans alone, the first of equals.
pub fn worst_start(limit: u64, costs: &[StartCost]) -> Option<StartCost>
    ensures { IsChosen (is_worse_start limit) costs.now result }
{
    if costs.is_empty() {
        return None;
    }
    Some(costs[worst_place(limit, costs)])
}
