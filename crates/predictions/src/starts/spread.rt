//! The starts that ranges are of.

ghost use Rattle.std.specs.Prelude.{◌≡◌, ◌<◌, ◌≤◌, ◌^◌, IfErr, IfOk};
ghost use Rattle.migration_model.specs.Rates.{AreSettings};
ghost use Rattle.predictions.specs.Starts.Ranges.{spread_starts};
ghost use Rattle.predictions.specs.Agreements.{spread_case};
ghost use Rattle.predictions.specs.Starts.{cases_from, count_of};

use crate::starts::cases::Starts;
use crate::starts::error::StartsError;
use rate_limit::Settings;
use std::alloc::Global;

/// Into how many parts the starts cut a recording.
const PARTS: u64 = 20;

/// Returns the ticks at which the migration with some settings may begin, over a trace with this last tick: at most 21,
/// evenly spread.
fn spread(settings: &Settings, last_tick: u64) -> Starts
    ensures starts { result ≡ spread_starts settings.now last_tick }
    ensures in_range { AreSettings settings.now }
{
    let from = settings.asked().base.unwrap_or(0);
    let span = last_tick.saturating_sub(from);
    Starts {
        from,
        to: None,
        every: Some(span.div_ceil(PARTS)),
    }
}

/// Returns how many of these starts there are.
pub(crate) fn spread_count(settings: &Settings, last_tick: u64) -> u64
    ensures count { result ≡ count_of (spread_starts settings.now last_tick) last_tick }
    ensures few { result ≤ 21 }
{
    spread(settings, last_tick).count(last_tick) as u64
}

/// Returns the settings of the migration from one of these starts, by its number.
pub(crate) fn spread_case(settings: &Settings, last_tick: u64, number: u64) -> Settings
    requires low { last_tick < 2 ^ 40 }
    requires number { number < count_of (spread_starts settings.now last_tick) last_tick }
    ensures { result ≡ spread_case settings.now last_tick number }
{
    spread(settings, last_tick).case(settings, last_tick, number)
}

/// Returns the settings of the migration from each of at most 21 starts, evenly spread over a trace with this last
/// tick. The only error is that memory runs out.
pub fn spread_cases(
    alloc: Global,
    settings: &Settings,
    last_tick: u64,
) -> Result<Vec<Settings>, StartsError>
    requires low { last_tick < 2 ^ 40 }
    ensures made { IfOk result (λ cases. cases.items
        ≡ cases_from settings.now (spread_starts settings.now last_tick) last_tick) }
    ensures refused { IfErr result (λ e. e ≡ StartsError.Memory) }
{
    spread(settings, last_tick).cases(alloc, settings, last_tick)
}
