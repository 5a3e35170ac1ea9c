//! Durations, dirtying rates, and what comes after a round: the dynamic rate limiting of Clark and others (2005),
//! section 5.3.

ghost use Rattle.std.specs.Prelude.{ℕ, ◌≡◌, ◌⊎◌, ◌*◌, ◌≤◌};
ghost use Rattle.migration_model.specs.Rates.{after_round, dirtying_rate_of, duration_of};
ghost use Rattle.rate_limit.specs.Pacing.{outcome_of};

use crate::outcome::{Next, Reason};
use crate::settings::Settings;

/// Returns how many ticks it takes to send this many pages at a rate in pages per 1,000 ticks, rounded up.
pub fn duration(pages: u32, rate: u64) -> u64
    requires { 1 ≤ rate }
    ensures value { result ≡ duration_of pages rate }
    ensures enough { 1_000 * pages ≤ result * rate }
    ensures least { (ticks : ℕ) → 1_000 * pages ≤ ticks * rate → result ≤ ticks }
{
    (1000 * pages as u64).div_ceil(rate)
}

/// Returns the rate, in pages per 1,000 ticks, at which this many pages were dirtied in these ticks, rounded up.
pub fn dirty_rate(pages: u32, ticks: u64) -> u64
    requires { 1 ≤ ticks }
    ensures value { result ≡ dirtying_rate_of pages ticks }
    ensures enough { 1_000 * pages ≤ result * ticks }
    ensures least { (rate : ℕ) → 1_000 * pages ≤ rate * ticks → result ≤ rate }
{
    (1000 * pages as u64).div_ceil(ticks)
}

/// Returns what comes after a round that lasted these ticks and dirtied this many pages, with `done` rounds done.
///
/// The stop tests come in the order few, fast, rounds. The next rate is the dirtying rate plus the increment (Clark
/// and others 2005, section 5.3), and at least the least rate. Only the first round of a warm start may have no page
/// and last no tick; few pages remain then, and no rate is computed.
pub fn next(settings: &Settings, dirtied: u32, ticks: u64, done: u64) -> Next
    requires { (1 ≤ ticks) ⊎ (dirtied ≡ 0) }
    ensures { outcome_of result ≡ after_round settings.now dirtied ticks done }
{
    let asked = settings.asked();
    if (dirtied as u64) < asked.threshold {
        return Next::Stop(Reason::Few);
    }
    let candidate = dirty_rate(dirtied, ticks) + asked.increment;
    if candidate > asked.max {
        return Next::Stop(Reason::Fast);
    }
    if done == asked.rounds {
        return Next::Stop(Reason::Rounds);
    }
    Next::Go(candidate.max(asked.min))
}
