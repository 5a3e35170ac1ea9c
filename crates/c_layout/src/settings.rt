//! Settings as a caller asks for them.

use rate_limit::{Asked, Settings, SettingsError};

/// The settings of a plan, in any range, without the size that C's `struct precopy_settings` begins with.
#[derive(Clone, Copy)]
#[repr(C)]
pub struct PlanSettings {
    /// The least rate, in pages per 1,000 ticks.
    pub min: u64,
    /// The greatest rate, in pages per 1,000 ticks.
    pub max: u64,
    /// What is added to a dirtying rate, in pages per 1,000 ticks.
    pub increment: u64,
    /// Rounds end after one that dirtied fewer pages than these.
    pub threshold: u64,
    /// The most rounds.
    pub rounds: u64,
    /// The tick at which the first round begins.
    pub start: u64,
    /// The length of a window, in ticks.
    pub window: u64,
    /// In how many windows a page must be written to be hot.
    pub hot: u64,
    /// A warm start, if `has_base` is not 0: the destination begins with the memory before this tick.
    pub base: u64,
    /// Whether there is a base: 0 for a cold start.
    pub has_base: u32,
    /// Whether pages that were written again are skipped: 0 for no.
    pub skip: u32,
}

impl PlanSettings {
    ghost use Rattle.std.specs.Prelude.{◌≡◌, ◌↔◌, IfErr, IfOk, IsOk, Some};
    ghost use Rattle.migration_model.specs.Rates.{AreSettings};
    ghost use Rattle.rate_limit.specs.Refusals.{refusal_of};
    ghost use Rattle.c_layout.specs.Settings.{base_in, settings_in, settings_told};

    /// Returns the tick of the base, if there is one.
    fn base(&self) -> Option<u64>
        ensures { result ≡ base_in self.now }
    {
        if self.has_base == 0 {
            return None;
        }
        Some(self.base)
    }

    /// Returns what is asked for. No call starts a thread, so there is one of each kind.
    fn asked(&self) -> Asked
        ensures { result ≡ settings_in self.now }
    {
        Asked {
            min: self.min,
            max: self.max,
            increment: self.increment,
            threshold: self.threshold,
            rounds: self.rounds,
            start: self.start,
            window: self.window,
            hot: self.hot,
            workers: 1,
            streams: 1,
            replayers: 1,
            lane: 1,
            skip: self.skip != 0,
            base: self.base(),
        }
    }

    /// Returns these settings if each is in its range, or else the first refusal.
    pub fn checked(&self) -> Result<Settings, SettingsError>
        ensures accepted { IfOk result (λ settings. settings ≡ settings_in self.now) }
        ensures in_range { IsOk result ↔ AreSettings (settings_in self.now) }
        ensures refused { IfErr result (λ e. refusal_of (settings_in self.now) ≡ Some e) }
    {
        Settings::new(self.asked())
    }

    /// Returns settings as a caller sees them.
    pub fn of(settings: &Settings) -> PlanSettings
        ensures { result ≡ settings_told settings.now }
    {
        let asked = settings.asked();
        PlanSettings {
            min: asked.min,
            max: asked.max,
            increment: asked.increment,
            threshold: asked.threshold,
            rounds: asked.rounds,
            start: asked.start,
            window: asked.window,
            hot: asked.hot,
            base: asked.base.unwrap_or(0),
            has_base: u32::from(asked.base.is_some()),
            skip: u32::from(asked.skip),
        }
    }
}
