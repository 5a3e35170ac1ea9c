//! What a migration may take, and the settings that keep to it.

// `RefusesLimits` holds of one value alone: `one_refused_limit`.

ghost use Rattle.std.specs.Prelude.{◌≡◌, IfErr, IfOk, None};
ghost use Rattle.predictions.specs.Units.Limits.{RefusesLimits, limits_refusal, settings_in};
ghost use Rattle.rate_limit.specs.Refusals.{refusal_of};

use crate::units::error::UnitsError;
use crate::units::scale::Scale;
use rate_limit::{Asked, Settings};

/// The greatest rate, in pages per 1,000 ticks.
const MAX_RATE: u128 = 1_000_000;

/// The greatest threshold, in pages.
const MAX_THRESHOLD: u128 = 65_536;

/// What a migration may take: of the link, and of the guest's time.
#[derive(Clone, Copy, Debug, PartialEq, Eq)]
pub struct Limits {
    /// How much of the link the migration may use, in bytes a second.
    pub link: u64,
    /// How much its first round may use, in bytes a second; the whole link if none is given.
    pub first: Option<u64>,
    /// The longest downtime, in microseconds.
    pub downtime: u64,
    /// How much of the downtime goes to other things than pages, in microseconds.
    pub reserve: u64,
}

impl Limits {
    /// Returns the settings for a trace of this scale: its rates rounded down, the threshold below which the downtime
    /// is kept, and the given increment, or else a tenth of what the link has above the first round.
    pub fn settings(
        &self,
        scale: &Scale,
        increment: Option<u64>,
        others: Asked,
    ) -> Result<Settings, UnitsError>
        ensures made { IfOk result (λ settings. settings ≡ settings_in scale.now self.now increment others) }
        ensures accepted { IfOk result (λ settings. limits_refusal scale.now self.now ≡ None) }
        ensures in_range { IfOk result (λ settings. refusal_of (settings_in scale.now self.now increment others)
            ≡ None) }
        ensures refused { IfErr result (λ e. RefusesLimits scale.now self.now increment others e) }
    {
        let max = scale.rate(self.link);
        if max < 1 || max > MAX_RATE {
            return Err(UnitsError::Link);
        }
        let min = scale.rate(self.first.unwrap_or(self.link));
        if min < 1 || min > max {
            return Err(UnitsError::First);
        }
        if self.reserve > self.downtime {
            return Err(UnitsError::Reserve);
        }
        let ticks = scale.ticks(self.downtime - self.reserve);
        let threshold = ticks as u128 * max / 1000 + 1;
        if threshold > MAX_THRESHOLD {
            return Err(UnitsError::Downtime);
        }
        let asked = Asked {
            min: min as u64,
            max: max as u64,
            threshold: threshold as u64,
            increment: increment.unwrap_or((max - min) as u64 / 10),
            ..others
        };
        match Settings::new(asked) {
            Ok(settings) => Ok(settings),
            Err(error) => Err(UnitsError::Setting(error)),
        }
    }
}
