//! Rounds by their numbers: what is kept of them if there is no list of pages.

// `IsFollowing` holds of one value alone: `one_following`.

ghost use Rattle.std.specs.Prelude.{◌≡◌, ◌⊎◌, ◌<◌, ◌≤◌, ◌-◌, ◌^◌};
ghost use Rattle.round_planner.specs.Steps.{IsFollowing};

use crate::parts::{Outcome, RoundRow};
use crate::step::{After, Step};
use rate_limit::{Settings, duration};

/// The round that comes next, by its numbers.
#[derive(Drop)]
pub struct RoundNumbers {
    /// Where the plan stands.
    pub step: Step,
    /// How many pages it has.
    pub listed: u32,
    /// How many touches there are before its first tick.
    pub next: usize,
    /// How many pages the previous rounds sent.
    pub total: u64,
}

/// What a round did, by its numbers.
#[derive(Drop)]
pub struct RoundSums {
    /// How many pages it sent.
    pub sent: u32,
    /// The tick at which it ended.
    pub to: u64,
    /// How many touches there are before its end.
    pub next: usize,
    /// How many pages were written meanwhile.
    pub dirtied: u32,
}

/// What follows a round.
#[derive(Drop)]
pub enum Following {
    /// One more round, of these numbers.
    Round(RoundNumbers),
    /// The stop. The plan has these sums.
    Stop(Outcome),
}

impl RoundNumbers {
    ghost use Rattle.std.specs.Prelude.{◌≡◌};
    ghost use Rattle.round_planner.specs.Steps.{first_step};

    /// Returns the numbers of the first round, which has `listed` pages and `next` touches before its first tick.
    pub fn first(settings: &Settings, next: usize, listed: u32) -> RoundNumbers
        ensures step { result.step ≡ first_step settings.now }
        ensures listed { result.listed ≡ listed }
        ensures next { result.next ≡ next }
        ensures total { result.total ≡ 0 }
    {
        RoundNumbers {
            step: Step::first(settings),
            listed,
            next,
            total: 0,
        }
    }

    /// Returns the row of this round, which ran so.
    pub(crate) fn row(&self, ran: &RoundSums) -> RoundRow
        ensures from { result.from ≡ self.now.step.from }
        ensures to { result.to ≡ ran.now.to }
        ensures rate { result.rate ≡ self.now.step.rate }
        ensures pages { result.pages ≡ self.now.listed }
        ensures sent { result.sent ≡ ran.now.sent }
        ensures dirtied { result.dirtied ≡ ran.now.dirtied }
    {
        RoundRow {
            from: self.step.from,
            to: ran.to,
            rate: self.step.rate,
            pages: self.listed as u64,
            sent: ran.sent as u64,
            dirtied: ran.dirtied as u64,
        }
    }

    /// Returns what follows this round, which ran so.
    pub fn after(&self, settings: &Settings, ran: &RoundSums) -> Following
        requires done { self.now.step.done < 64 }
        requires order { self.now.step.from ≤ ran.now.to }
        requires timed { (1 ≤ ran.now.to - self.now.step.from) ⊎ (ran.now.dirtied ≡ 0) }
        requires total { self.now.total < 2 ^ 31 }
        ensures { IsFollowing settings.now self.now ran.now result }
    {
        let total = self.total + ran.sent as u64;
        match self.step.after(settings, ran.to, ran.dirtied) {
            After::Go(step) => Following::Round(RoundNumbers {
                step,
                listed: ran.dirtied,
                next: ran.next,
                total,
            }),
            After::Stop(reason) => Following::Stop(Outcome {
                rounds: self.step.done + 1,
                reason,
                stop: ran.to,
                down: duration(ran.dirtied, settings.asked().max),
                total: total + ran.dirtied as u64,
            }),
        }
    }
}
