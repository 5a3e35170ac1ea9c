//! The choice of the best schedule.

// `IsBestSchedule` holds of one value alone: `one_best_schedule`.

ghost use Rattle.std.specs.Prelude.{◌≡◌, ◌≢◌, ◌≤◌, [], IfNone, IfSome, length};
ghost use Rattle.move_schedules.specs.Choices.{IsBestSchedule, is_better_schedule, misses, schedule_cmp};

use crate::costs::ScheduleCost;
use std::cmp::Ordering;

/// Returns 0 if a schedule keeps all limits, and else 1.
fn misses_of(cost: &ScheduleCost) -> u8
    ensures { result ≡ misses cost.now }
{
    if cost.is_kept { 0 } else { 1 }
}

/// Compares two schedules; the better one is less.
fn compare(cost: &ScheduleCost, other: &ScheduleCost) -> Ordering
    ensures { result ≡ schedule_cmp cost.now other.now }
{
    let by_misses = misses_of(cost).cmp(&misses_of(other));
    let by_time = cost.time.cmp(&other.time);
    by_misses.then(by_time.then(cost.bytes.cmp(&other.bytes)))
}

/// Returns whether a schedule is better than another.
fn is_better(cost: &ScheduleCost, other: &ScheduleCost) -> bool
    ensures { result ≡ is_better_schedule cost.now other.now }
{
    compare(cost, other).is_lt()
}

/// Returns the place of the first schedule that no other is better than.
fn best_place(costs: &[ScheduleCost]) -> usize
    requires { 1 ≤ length costs.now }
    ensures { IsBestSchedule costs.now result }
{
    let mut best = 0;
    for number in 1..costs.len() {
        if is_better(&costs[number], &costs[best]) {
            best = number;
        }
    }
    best
}

/// Returns the place of the best of some schedules, the first of equals: one that keeps all limits, then one that takes
/// less time, and then one that sends less.
pub fn best_schedule(costs: &[ScheduleCost]) -> Option<usize>
    ensures none { IfNone result (costs.now ≡ []) }
    ensures some { IfSome result (λ _. costs.now ≢ []) }
    ensures best { IfSome result (IsBestSchedule costs.now) }
{
    if costs.is_empty() {
        return None;
    }
    Some(best_place(costs))
}
