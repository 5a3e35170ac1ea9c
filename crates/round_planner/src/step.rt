//! The state of a plan before a round, and what comes after that round.

ghost use Rattle.std.specs.Prelude.{◌≡◌, ◌⊎◌, ◌≤◌, ◌<◌, ◌-◌};
ghost use Rattle.round_planner.specs.Steps.{IsAfter, first_step};

use rate_limit::{Next, Reason, Settings, next};

/// The state of a plan before a round.
#[derive(Clone, Copy)]
pub struct Step {
    /// How many rounds are done.
    pub done: u64,
    /// The first tick of the next one.
    pub from: u64,
    /// The rate of the next one, in pages per 1,000 ticks.
    pub rate: u64,
}

/// What comes after a round.
#[derive(Clone, Copy)]
pub(crate) enum After {
    /// One more round.
    Go(Step),
    /// The stop, and why.
    Stop(Reason),
}

impl Step {
    /// Returns the state of a plan before its first round.
    pub(crate) fn first(settings: &Settings) -> Step
        ensures { result ≡ first_step settings.now }
    {
        let asked = settings.asked();
        Step {
            done: 0,
            from: asked.start,
            rate: asked.min,
        }
    }

    /// Returns what comes after the round, which ends at tick `to` and while which `dirtied` pages are dirtied.
    pub(crate) fn after(self, settings: &Settings, to: u64, dirtied: u32) -> After
        requires few { self.done < 64 }
        requires order { self.from ≤ to }
        requires timed { (1 ≤ to - self.from) ⊎ (dirtied ≡ 0) }
        ensures { IsAfter settings.now self to dirtied result }
    {
        let done = self.done + 1;
        match next(settings, dirtied, to - self.from, done) {
            Next::Go(rate) => After::Go(Step {
                done,
                from: to,
                rate,
            }),
            Next::Stop(reason) => After::Stop(reason),
        }
    }
}
