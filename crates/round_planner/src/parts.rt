//! Plans and their rounds.

ghost use Rattle.std.specs.Prelude.{◌≡◌};

use rate_limit::Reason;
use std::marker::Model;

/// One round of a plan. Its pages are in ascending order.
#[derive(Debug, Drop)]
pub struct Round {
    /// The round's first tick.
    pub from: u64,
    /// The first tick after it.
    pub to: u64,
    /// Its rate, in pages per 1,000 ticks.
    pub rate: u64,
    /// The pages that it has.
    pub pages: Vec<u32>,
    /// Those of them that it sends.
    pub sent: Vec<u32>,
    /// How many pages are written while it lasts.
    pub dirtied: u32,
}

impl Model for Round {
    ghost use Rattle.migration_model.specs.Rounds.{PlannedRound};

    ghost Value = { PlannedRound };

    ghost view = { λ r. record {
      from = r.from;
      to = r.to;
      rate = r.rate;
      pages = r.pages.items;
      sent = r.sent.items;
      dirtied = r.dirtied;
    } };
}

/// What a migration would do: its rounds, and what is left when the guest is stopped.
#[derive(Debug, Drop)]
pub struct Plan {
    /// The rounds, at least one.
    pub rounds: Vec<Round>,
    /// Why there are no more rounds.
    pub reason: Reason,
    /// The tick at which the guest is stopped.
    pub stop: u64,
    /// The pages that are sent then, in ascending order.
    pub last: Vec<u32>,
    /// The downtime: how many ticks that takes at the greatest rate.
    pub down: u64,
}

impl Model for Plan {
    ghost use Rattle.migration_model.specs.Rounds.{MigrationPlan};
    ghost use Rattle.rate_limit.specs.Pacing.{reason_of};
    ghost use Rattle.round_planner.specs.Sizes.{IsSmallPlan};

    ghost Value = { MigrationPlan };

    ghost view = { λ p. record {
      rounds = p.rounds.items;
      reason = reason_of p.reason;
      stop = p.stop;
      last = p.last.items;
      down = p.down;
    } };

    ghost invariant = { λ p. IsSmallPlan p.rounds.items p.last.items };
}

/// The numbers of one round of a plan.
#[derive(Clone, Copy, Debug, PartialEq, Eq)]
#[repr(C)]
pub struct RoundRow {
    /// The round's first tick.
    pub from: u64,
    /// The first tick after it.
    pub to: u64,
    /// Its rate, in pages per 1,000 ticks.
    pub rate: u64,
    /// How many pages it has.
    pub pages: u64,
    /// How many of them it sends.
    pub sent: u64,
    /// How many pages are written while it lasts.
    pub dirtied: u64,
}

/// The sums of a plan.
#[derive(Debug, Drop)]
pub struct Outcome {
    /// How many rounds there are.
    pub rounds: u64,
    /// Why there are no more rounds.
    pub reason: Reason,
    /// The tick at which the guest is stopped.
    pub stop: u64,
    /// The downtime, in ticks.
    pub down: u64,
    /// How many pages are sent, over all rounds and after the stop.
    pub total: u64,
}

impl Model for Outcome {
    ghost use Rattle.migration_model.specs.Sweeps.{PlanOutcome, outcome_with};
    ghost use Rattle.rate_limit.specs.Pacing.{reason_of};

    ghost Value = { PlanOutcome };

    ghost view = { λ o. outcome_with o.rounds (reason_of o.reason) o.stop o.down o.total };
}

impl Plan {
    ghost use Rattle.migration_model.specs.Rounds.{total_of};
    ghost use Rattle.migration_model.specs.Sweeps.{outcome_of};

    /// Returns how many pages are sent, over all rounds and after the stop.
    pub fn total(&self) -> u64
        ensures { result ≡ total_of self.now }
    {
        let mut total = self.last.len() as u64;
        for round in &self.rounds {
            total += round.sent.len() as u64;
        }
        total
    }

    /// Returns the sums of the plan.
    pub fn outcome(&self) -> Outcome
        ensures { result ≡ outcome_of self.now }
    {
        Outcome {
            rounds: self.rounds.len() as u64,
            reason: self.reason,
            stop: self.stop,
            down: self.down,
            total: self.total(),
        }
    }
}
