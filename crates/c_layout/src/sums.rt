//! Sums of plans.

use predictions::number_of_reason;
use round_planner::Outcome;

/// The sums of a plan: C's `struct precopy_sums`.
#[derive(Clone, Copy)]
#[repr(C)]
pub struct PlanSums {
    /// How many rounds there are.
    pub rounds: u64,
    /// Why there are no more rounds: 0 if few pages remain, 1 if the next rate is too high, 2 after the last round.
    pub reason: u64,
    /// The tick at which the guest is stopped.
    pub stop: u64,
    /// The downtime, in ticks.
    pub down: u64,
    /// How many pages are sent, over all rounds and after the stop.
    pub total: u64,
}

impl PlanSums {
    ghost use Rattle.std.specs.Prelude.{◌≡◌};
    ghost use Rattle.c_layout.specs.Sums.{sums_of};

    /// Returns the sums of a plan with this result.
    pub fn of(outcome: &Outcome) -> PlanSums
        ensures { result ≡ sums_of outcome.now }
    {
        PlanSums {
            rounds: outcome.rounds,
            reason: number_of_reason(outcome.reason),
            stop: outcome.stop,
            down: outcome.down,
            total: outcome.total,
        }
    }
}
