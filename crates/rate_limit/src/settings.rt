//! The settings that a migration and a report keep to.

ghost use Rattle.std.specs.Prelude.{◌≡◌, ◌↔◌, ◌&&◌, IfErr, IfOk, IsOk, None, Some};
ghost use Rattle.migration_model.specs.Rates.{AreSettings, MigrationSettings};
ghost use Rattle.rate_limit.specs.Refusals.{is_between, is_late, is_parallelism, refusal_of};

use crate::error::SettingsError;
use std::marker::Model;

/// The greatest rate, in pages per 1,000 ticks, and the greatest increment of a rate.
pub const MAX_RATE: u64 = 1_000_000;

/// The greatest threshold, in pages.
pub const MAX_THRESHOLD: u64 = 65_536;

/// The most rounds.
pub const MAX_ROUNDS: u64 = 64;

/// The longest window, `2^40` ticks.
pub const MAX_WINDOW: u64 = 1_099_511_627_776;

/// The most windows that may be asked of a hot page.
pub const MAX_HOT: u64 = 1_048_576;

/// The first tick at which no migration may start, `2^40`.
pub const START_LIMIT: u64 = 1_099_511_627_776;

/// The most workers, streams or replayers.
pub const MAX_PARALLEL: u64 = 16;

/// The most frames of a lane.
pub const MAX_LANE: u64 = 65_536;

/// Settings as they are asked for, in any range.
#[derive(Clone, Copy, Debug, PartialEq, Eq)]
pub struct Asked {
    /// The least rate, in pages per 1,000 ticks.
    pub min: u64,
    /// The greatest rate, in pages per 1,000 ticks.
    pub max: u64,
    /// What is added to a dirtying rate, in pages per 1,000 ticks.
    pub increment: u64,
    /// Rounds end after one that dirtied fewer pages than these.
    pub threshold: u64,
    /// The most rounds.
    pub rounds: u64,
    /// The tick at which the first round begins.
    pub start: u64,
    /// The length of a window, in ticks.
    pub window: u64,
    /// In how many windows a page must be written to be hot.
    pub hot: u64,
    /// Threads that copy.
    pub workers: u64,
    /// Streams that pages are sent on.
    pub streams: u64,
    /// Threads that replay the guest's writes.
    pub replayers: u64,
    /// How many frames a lane has room for.
    pub lane: u64,
    /// Whether pages that were written again are skipped.
    pub skip: bool,
    /// A warm start: the destination begins with the guest's memory before this tick. None is a cold start.
    pub base: Option<u64>,
}

impl Asked {
    /// What a command takes where no option says otherwise. The threshold is 256 KiB if a page has 4,096 bytes, as in
    /// Clark and others (2005), section 5.3; the others are this project's own.
    pub const DEFAULTS: Asked = Asked {
        min: 1000,
        max: 5000,
        increment: 500,
        threshold: 64,
        rounds: 30,
        start: 0,
        window: 1000,
        hot: 2,
        workers: 1,
        streams: 1,
        replayers: 1,
        lane: 1024,
        skip: false,
        base: None,
    };
}

impl Model for Asked {
    ghost Value = { MigrationSettings };

    ghost view = { λ a. record {
      min = a.min;
      max = a.max;
      increment = a.increment;
      threshold = a.threshold;
      rounds = a.rounds;
      start = a.start;
      window = a.window;
      hot = a.hot;
      workers = a.workers;
      streams = a.streams;
      replayers = a.replayers;
      lane = a.lane;
      skip = a.skip;
      base = a.base;
    } };

    ghost inverse = { λ s. record {
      min = s.min;
      max = s.max;
      increment = s.increment;
      threshold = s.threshold;
      rounds = s.rounds;
      start = s.start;
      window = s.window;
      hot = s.hot;
      workers = s.workers;
      streams = s.streams;
      replayers = s.replayers;
      lane = s.lane;
      skip = s.skip;
      base = s.base;
    } };
}

/// Settings that are in range.
#[derive(Clone, Copy, Debug, PartialEq, Eq)]
pub struct Settings {
    asked: Asked,
}

impl Model for Settings {
    ghost Value = { MigrationSettings };

    ghost view = { λ s. s.asked };

    ghost invariant = { λ s. AreSettings s.asked };

    ghost inverse = { λ s. record { asked = s } };
}

/// Returns whether `n` is neither below `low` nor above `high`.
fn is_within(low: u64, high: u64, n: u64) -> bool
    ensures { result ≡ is_between low high n }
{
    low <= n && n <= high
}

/// Returns whether the workers, streams, replayers and the frames of a lane are in range.
fn is_parallel(asked: &Asked) -> bool
    ensures { result ≡ is_parallelism asked.now }
{
    is_within(1, MAX_PARALLEL, asked.workers)
        && is_within(1, MAX_PARALLEL, asked.streams)
        && is_within(1, MAX_PARALLEL, asked.replayers)
        && is_within(1, MAX_LANE, asked.lane)
}

/// Returns whether the base, if there is one, comes after the first tick.
fn is_base_late(asked: &Asked) -> bool
    ensures { result ≡ is_late asked.now.base asked.now.start }
{
    match asked.base {
        Some(base) => base > asked.start,
        None => false,
    }
}

/// Tests each setting against its range, in the order of the refusals.
fn check(asked: &Asked) -> Result<(), SettingsError>
    ensures refused { IfErr result (λ e. refusal_of asked.now ≡ Some e) }
    ensures accepted { IfOk result (λ _. refusal_of asked.now ≡ None) }
{
    if !is_within(1, MAX_RATE, asked.min) {
        return Err(SettingsError::MinRate);
    }
    if !is_within(asked.min, MAX_RATE, asked.max) {
        return Err(SettingsError::MaxRate);
    }
    if asked.increment > MAX_RATE {
        return Err(SettingsError::Increment);
    }
    if !is_within(1, MAX_THRESHOLD, asked.threshold) {
        return Err(SettingsError::Threshold);
    }
    if !is_within(1, MAX_ROUNDS, asked.rounds) {
        return Err(SettingsError::Rounds);
    }
    if !is_within(1, MAX_WINDOW, asked.window) {
        return Err(SettingsError::WindowLength);
    }
    if !is_within(1, MAX_HOT, asked.hot) {
        return Err(SettingsError::HotWindows);
    }
    if asked.start >= START_LIMIT {
        return Err(SettingsError::StartTick);
    }
    if !is_parallel(asked) {
        return Err(SettingsError::Parallelism);
    }
    if is_base_late(asked) {
        return Err(SettingsError::BaseTick);
    }
    Ok(())
}

impl Settings {
    /// Returns these settings if each is in its range, or else the first refusal. It allocates nothing.
    pub fn new(asked: Asked) -> Result<Settings, SettingsError>
        ensures accepted { IfOk result (λ settings. settings ≡ asked) }
        ensures in_range { IsOk result ↔ AreSettings asked }
        ensures refused { IfErr result (λ e. refusal_of asked ≡ Some e) }
    {
        check(&asked)?;
        Ok(Settings { asked })
    }

    /// Returns the settings as they were asked for.
    pub fn asked(&self) -> &Asked
        ensures value { result.now ≡ self.now }
        ensures in_range { AreSettings self.now }
    {
        &self.asked
    }
}
