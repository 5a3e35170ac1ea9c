//! What a schedule costs.

ghost use Rattle.std.specs.Prelude.{◌≡◌, ◌≤◌, ◌*◌, ◌^◌, length, sum_by};
ghost use Rattle.std.specs.List.{list_all};
ghost use Rattle.move_schedules.specs.Costs.{cost_of, is_within, time_of, worst_downtime};

use crate::moves::{Move, Placement};

/// What a schedule costs.
#[derive(Clone, Copy, Debug, PartialEq, Eq)]
pub struct ScheduleCost {
    /// Whether the limits of all guests are kept, and the deadline.
    pub is_kept: bool,
    /// When the last move ends.
    pub time: u128,
    /// How many bytes all moves send.
    pub bytes: u128,
    /// The longest time that a guest does not run.
    pub downtime: u64,
}

/// Returns whether the limits of all guests are kept.
fn all_kept(moves: &[Move]) -> bool
    ensures { result ≡ list_all (λ m. m.is_kept) moves.now }
{
    for each in moves {
        if !each.is_kept {
            return false;
        }
    }
    true
}

/// Returns when the last move ends.
fn last_end(placed: &[Placement]) -> u128
    ensures { result ≡ time_of placed.now }
{
    let mut end = 0u128;
    for each in placed {
        end = end.max(each.end);
    }
    end
}

/// Returns how many bytes all moves send.
fn all_bytes(moves: &[Move]) -> u128
    ensures { result ≡ sum_by (λ m. m.bytes) moves.now }
{
    let _count = moves.len();
    let mut bytes = 0u128;
    for each in moves {
        bytes += each.bytes as u128;
    }
    bytes
}

/// Returns the longest downtime.
fn longest_downtime(moves: &[Move]) -> u64
    ensures { result ≡ worst_downtime moves.now }
{
    let mut downtime = 0u64;
    for each in moves {
        downtime = downtime.max(each.downtime);
    }
    downtime
}

/// Returns whether a time is within a deadline, if there is one.
fn is_in_time(time: u128, deadline: Option<u64>) -> bool
    ensures { result ≡ is_within deadline time }
{
    match deadline {
        Some(deadline) => time <= deadline as u128,
        None => true,
    }
}

/// Returns what some moves cost that run so, by a deadline if there is one.
pub fn schedule_cost(moves: &[Move], placed: &[Placement], deadline: Option<u64>) -> ScheduleCost
    ensures { result ≡ cost_of deadline moves.now placed.now }
{
    let time = last_end(placed);
    ScheduleCost {
        is_kept: all_kept(moves) && is_in_time(time, deadline),
        time,
        bytes: all_bytes(moves),
        downtime: longest_downtime(moves),
    }
}
