//! Which moves run when.

// `IsSchedule` holds of one value alone: `one_schedule`.

ghost use Rattle.std.specs.Prelude.{◌≡◌, ◌≤◌, ◌<◌, ◌+◌, ◌*◌, ◌^◌, ℕ, All, AllPairs, IfOk, length, slice_index};
ghost use Rattle.move_schedules.specs.Schedules.{AreInTurn, EndsInTime, IsNext, IsSchedule, TakeTurns, group_free};
ghost use Rattle.move_schedules.specs.Schedules.{group_start, is_in_group, slot_free};

use crate::moves::{Move, Placement};
use std::alloc::{AllocError, Global};

/// Returns whether a move is in a group.
fn is_in(placement: &Placement, group: u64) -> bool
    ensures { result ≡ is_in_group group placement.now }
{
    match placement.group {
        Some(own) => own == group,
        None => false,
    }
}

/// Returns when the moves of a group end.
fn group_end(placed: &[Placement], group: u64) -> u128
    ensures { result ≡ group_free placed.now group }
{
    let mut end = 0u128;
    for each in placed {
        if is_in(each, group) {
            end = end.max(each.end);
        }
    }
    end
}

/// Returns when a move may begin for its group.
fn group_start(placed: &[Placement], group: Option<u64>) -> u128
    ensures { result ≡ group_start placed.now group }
{
    match group {
        Some(group) => group_end(placed, group),
        None => 0,
    }
}

/// Returns the place of the least number, the first of equals.
fn first_least(numbers: &[u128]) -> usize
    requires { 1 ≤ length numbers.now }
    ensures in_range { result < length numbers.now }
    ensures least { (k : ℕ) → k < length numbers.now → slice_index numbers.now result ≤ slice_index numbers.now k }
    ensures first { (k : ℕ) → k < result → slice_index numbers.now result < slice_index numbers.now k }
{
    let mut least = 0;
    for number in 1..numbers.len() {
        if numbers[number] < numbers[least] {
            least = number;
        }
    }
    least
}

/// Returns how the next move is placed: in the slot that is free first, as soon as its group lets it.
fn next_placement(free: &[u128], placed: &[Placement], of: &Move) -> Placement
    requires slots { 1 ≤ length free.now }
    requires free { (k : ℕ) → k < length free.now → slice_index free.now k ≡ slot_free placed.now k }
    requires in_time { All (EndsInTime (length placed.now)) placed.now }
    requires few { length placed.now < 2 ^ 64 }
    ensures next { IsNext (length free.now) placed.now of.now result }
    ensures in_time { EndsInTime (length placed.now + 1) result }
{
    let time = of.time as u128;
    let slot = first_least(free);
    let start = free[slot].max(group_start(placed, of.group));
    Placement {
        slot,
        group: of.group,
        start,
        end: start + time,
    }
}

/// Returns when each of some moves runs, in order, if this many run at a time. Each slot takes the next move when it is
/// free; a move whose group is busy keeps its slot waiting.
pub fn schedule(alloc: Global, slots: usize, moves: &[Move]) -> Result<Vec<Placement>, AllocError>
    requires { 1 ≤ slots }
    ensures made { IfOk result (λ placed. IsSchedule slots moves.now placed.items) }
    // No slot has two moves at a time, and neither has a group.
    ensures in_turn { IfOk result (λ placed. AllPairs AreInTurn placed.items) }
    ensures take_turns { IfOk result (λ placed. AllPairs TakeTurns placed.items) }
{
    let mut free = Vec::from_elem(alloc, 0u128, slots)?;
    let mut placed = Vec::with_capacity(alloc, moves.len())?;
    for each in moves {
        let placement = next_placement(&free, &placed, each);
        free[placement.slot] = placement.end;
        placed.push(placement)?;
    }
    Ok(placed)
}
