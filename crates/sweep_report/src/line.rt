//! A line of a sweep.

use rate_limit::{Reason, Settings};
use round_planner::Outcome;
use std::marker::Model;

/// Settings, and the sums of a migration with them.
#[derive(Debug, Drop)]
pub struct Line {
    /// The settings of the case.
    pub settings: Settings,
    /// How many rounds there are.
    pub rounds: u64,
    /// Why there are no more rounds.
    pub reason: Reason,
    /// The tick at which the guest is stopped.
    pub stop: u64,
    /// The downtime, in ticks.
    pub down: u64,
    /// How many pages are sent, over all rounds and after the stop.
    pub total: u64,
}

impl Model for Line {
    ghost use Rattle.migration_model.specs.Sweeps.{SweepLine, line_with, outcome_with};
    ghost use Rattle.rate_limit.specs.Pacing.{reason_of};

    ghost Value = { SweepLine };

    ghost view = { λ l. line_with l.settings (outcome_with l.rounds (reason_of l.reason) l.stop l.down l.total) };
}

impl Line {
    ghost use Rattle.std.specs.Prelude.{◌≡◌};
    ghost use Rattle.migration_model.specs.Sweeps.{line_with};

    /// Returns the line of some settings whose plan has these sums.
    pub(crate) fn new(settings: Settings, outcome: Outcome) -> Line
        ensures { result ≡ line_with settings outcome }
    {
        Line {
            settings,
            rounds: outcome.rounds,
            reason: outcome.reason,
            stop: outcome.stop,
            down: outcome.down,
            total: outcome.total,
        }
    }
}
