//! At which ticks a migration may begin.

// `RefusesStart` holds of one value alone: `one_refused_start`.

ghost use Rattle.std.specs.Prelude.{◌≡◌, ◌≤◌, ◌<◌, ◌+◌, ◌-◌, ◌*◌, ◌/◌, IfErr, IfOk, None, OnOk, Some, max};
ghost use Rattle.predictions.specs.Starts.{AreAccepted, RefusesStart, RefusesStarts, case_from, cases_from};
ghost use Rattle.predictions.specs.Starts.{count_of, last_start, spacing_of};
ghost use Rattle.rate_limit.specs.Refusals.{refusal_of};

use crate::starts::error::StartsError;
use rate_limit::{Asked, Settings, SettingsError};
use std::alloc::{AllocError, Global};

/// Into how many parts starts cut a trace, if no spacing is given.
const PARTS: u64 = 200;

/// The most starts.
const MOST_STARTS: u64 = 4096;

/// At which ticks a migration may begin: from one tick on to another, at a fixed spacing.
#[derive(Clone, Copy, Debug, PartialEq, Eq)]
pub struct Starts {
    /// The first start.
    pub from: u64,
    /// The tick after which there is no start; the last of the trace if none is given.
    pub to: Option<u64>,
    /// The ticks between two starts; some 200th of all if none are given.
    pub every: Option<u64>,
}

impl Starts {
    /// Returns the tick after which there is no start, over a trace with this last tick.
    fn last(&self, last_tick: u64) -> u64
        ensures { result ≡ last_start self.now last_tick }
    {
        self.to.unwrap_or(last_tick).max(self.from)
    }

    /// Returns the ticks between two starts, over a trace with this last tick.
    fn spacing(&self, last_tick: u64) -> u64
        ensures { result ≡ spacing_of self.now last_tick }
    {
        let span = self.last(last_tick) - self.from;
        self.every.unwrap_or(span.div_ceil(PARTS)).max(1)
    }

    /// Returns how many starts there are, over a trace with this last tick.
    pub(crate) fn count(&self, last_tick: u64) -> u128
        ensures { result ≡ count_of self.now last_tick }
    {
        let span = self.last(last_tick) - self.from;
        (span / self.spacing(last_tick)) as u128 + 1
    }

    /// Tests the settings of a migration from each start, in order, over a trace with this last tick. It allocates
    /// nothing.
    fn test(&self, settings: &Settings, last_tick: u64, count: u64) -> Result<(), SettingsError>
        requires count { count ≡ count_of self.now last_tick }
        requires few { count ≤ 4_096 }
        ensures accepted { OnOk result (AreAccepted settings.now self.now last_tick) }
        ensures refused { IfErr result (RefusesStart settings.now self.now last_tick) }
    {
        let last = self.last(last_tick);
        let every = self.spacing(last_tick);
        for number in 0..count {
            if let Err(error) = case_at(settings, tick_at(self.from, last, every, number)) {
                return Err(error);
            }
        }
        Ok(())
    }

    /// Returns the settings of a migration from a start, by its number, none of which is refused.
    pub(crate) fn case(&self, settings: &Settings, last_tick: u64, number: u64) -> Settings
        requires number { number < count_of self.now last_tick }
        requires accepted { AreAccepted settings.now self.now last_tick }
        ensures { result ≡ case_from settings.now self.now last_tick number }
    {
        let last = self.last(last_tick);
        let every = self.spacing(last_tick);
        let Ok(case) = case_at(settings, tick_at(self.from, last, every, number)) else {
            unreachable!()
        };
        case
    }

    /// Returns the settings of a migration from each start, none of which is refused.
    fn made(
        &self,
        alloc: Global,
        settings: &Settings,
        last_tick: u64,
        count: u64,
    ) -> Result<Vec<Settings>, AllocError>
        requires count { count ≡ count_of self.now last_tick }
        requires accepted { AreAccepted settings.now self.now last_tick }
        ensures { IfOk result (λ cases. cases.items ≡ cases_from settings.now self.now last_tick) }
    {
        let last = self.last(last_tick);
        let every = self.spacing(last_tick);
        let mut cases = Vec::with_capacity(alloc, count as usize)?;
        for number in 0..count {
            let Ok(case) = case_at(settings, tick_at(self.from, last, every, number)) else {
                unreachable!()
            };
            cases.push(case)?;
        }
        Ok(cases)
    }

    /// Returns the settings of a migration from each start, in order, over a trace with this last tick. All of them are
    /// tested before memory is taken for them.
    pub fn cases(
        &self,
        alloc: Global,
        settings: &Settings,
        last_tick: u64,
    ) -> Result<Vec<Settings>, StartsError>
        ensures made { IfOk result (λ cases. cases.items ≡ cases_from settings.now self.now last_tick) }
        ensures few { OnOk result (count_of self.now last_tick ≤ 4_096) }
        ensures accepted { OnOk result (AreAccepted settings.now self.now last_tick) }
        ensures refused { IfErr result (RefusesStarts settings.now self.now last_tick) }
    {
        let count = self.count(last_tick);
        if count > MOST_STARTS as u128 {
            return Err(StartsError::TooMany);
        }
        if let Err(error) = self.test(settings, last_tick, count as u64) {
            return Err(StartsError::Settings(error));
        }
        match self.made(alloc, settings, last_tick, count as u64) {
            Ok(cases) => Ok(cases),
            Err(_) => Err(StartsError::Memory),
        }
    }
}

/// Returns the tick of a start, by its number.
fn tick_at(from: u64, last: u64, every: u64, number: u64) -> u64
    requires { from + number * every ≤ last }
    ensures { result ≡ from + number * every }
{
    from + number * every
}

/// Returns the settings of a migration that begins at a tick.
fn case_at(settings: &Settings, tick: u64) -> Result<Settings, SettingsError>
    ensures made { IfOk result (λ case. case ≡ record settings.now { start = tick }) }
    ensures accepted { OnOk result (refusal_of (record settings.now { start = tick }) ≡ None) }
    ensures refused { IfErr result (λ e. refusal_of (record settings.now { start = tick }) ≡ Some e) }
{
    Settings::new(Asked {
        start: tick,
        ..*settings.asked()
    })
}
