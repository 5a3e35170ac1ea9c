//! The nearest amounts that are taken in place of refused ones.

ghost use Rattle.std.specs.Prelude.{◌≡◌, ◌+◌, ◌*◌, ◌<◌, ◌≤◌, ◌^◌, ◌↔◌, max, min, ℕ};
ghost use Rattle.predictions.specs.Units.Limits.{link_rate};
ghost use Rattle.predictions.specs.Units.Scales.{IsScale, rate_of};
ghost use Rattle.view_commands.specs.Nearest.{HasDowntime, HasRate, IsNearest, IsNearestSample, IsWithin};

use predictions::units::{Limits, Scale};

/// The longest tick, in microseconds.
const MAX_TICK: u64 = 1_000_000;

/// The least and the most bytes of a page.
const MIN_PAGE: u64 = 16;

const MAX_PAGE: u64 = 4096;

/// The most pages of a guest.
const MAX_GUEST: u64 = 1 << 32;

/// The greatest rate, in pages per 1,000 ticks.
const MAX_RATE: u64 = 1_000_000;

/// Fewer thousandths of a page than these may be left at the stop.
const END_OF_LEFT: u128 = 65_536_000;

/// Returns the nearest number from `least` to `most`.
fn nearest_within(asked: u64, least: u128, most: u128) -> u64
    requires ordered { least ≤ most }
    requires small { least < 2 ^ 64 }
    ensures { result ≡ max least (min asked most) }
{
    (asked as u128).clamp(least, most) as u64
}

/// Returns the nearest length of a tick, in microseconds.
pub(crate) fn nearest_tick(asked: u64) -> u64
    ensures { IsNearest (IsWithin 1 1_000_000) asked result }
{
    asked.clamp(1, MAX_TICK)
}

/// Returns the nearest size of a page, in bytes.
pub(crate) fn nearest_page(asked: u64) -> u64
    ensures { IsNearest (IsWithin 16 4_096) asked result }
{
    asked.clamp(MIN_PAGE, MAX_PAGE)
}

/// Returns the nearest guest, and the nearest part of it, as pages sampled and pages of the guest.
pub(crate) fn nearest_sample(asked: (u64, u64)) -> (u64, u64)
    ensures { IsNearestSample asked result }
{
    let guest = asked.1.clamp(1, MAX_GUEST);
    (asked.0.clamp(1, guest), guest)
}

/// Returns how many parts of a page a byte a second moves in 1,000 ticks, and how many such parts a page has.
fn parts(scale: &Scale) -> (u128, u128)
    ensures byte { result.0 ≡ scale.now.tick * scale.now.sampled }
    ensures page { result.1 ≡ 1_000 * scale.now.page * scale.now.guest }
    ensures in_range { IsScale scale.now }
    ensures some_byte { 0 < result.0 }
    ensures some_page { 0 < result.1 }
    ensures small_page { result.1 ≤ 4_096_000 * 4_294_967_296 }
{
    let guest = scale.guest() as u128;
    let byte = scale.tick() as u128 * scale.sampled() as u128;
    (byte, 1000 * scale.page() as u128 * guest)
}

/// Returns the least bytes a second that move a page in 1,000 ticks.
fn least_bytes(scale: &Scale) -> u128
    ensures least { (n : ℕ) → (result ≤ n) ↔ (1 ≤ rate_of scale.now n) }
    ensures taken { rate_of scale.now result ≤ 1_000_000 }
    ensures small { result < 2 ^ 64 }
{
    let (byte, page) = parts(scale);
    (page + byte - 1) / byte
}

/// Returns the most bytes a second that move no more than `rate` pages in 1,000 ticks.
fn most_bytes(scale: &Scale, rate: u64) -> u128
    ensures { (n : ℕ) → (n ≤ result) ↔ (rate_of scale.now n ≤ rate) }
{
    let (byte, page) = parts(scale);
    ((rate as u128 + 1) * page - 1) / byte
}

/// Returns the nearest rate of the link, in bytes a second.
pub(crate) fn nearest_link(scale: &Scale, asked: u64) -> u64
    ensures { IsNearest (HasRate scale.now 1_000_000) asked result }
{
    nearest_within(asked, least_bytes(scale), most_bytes(scale, MAX_RATE))
}

/// Returns the nearest rate of the first round, in bytes a second, for a link whose rate is taken.
pub(crate) fn nearest_first(scale: &Scale, link: u64, asked: u64) -> u64
    requires { HasRate scale.now 1_000_000 link }
    ensures { IsNearest (HasRate scale.now (rate_of scale.now link)) asked result }
{
    let most = most_bytes(scale, scale.rate(link) as u64);
    nearest_within(asked, least_bytes(scale), most)
}

/// Returns the nearest downtime, in microseconds, for limits whose link is taken.
pub(crate) fn nearest_downtime(scale: &Scale, limits: &Limits) -> u64
    requires { IsWithin 1 1_000_000 (link_rate scale.now limits.now) }
    ensures { IsNearest (HasDowntime scale.now limits.now) limits.now.downtime result }
{
    let _in_range = scale.guest();
    let ticks = (END_OF_LEFT - 1) / scale.rate(limits.link);
    let least = limits.reserve as u128;
    let most = least + ((ticks + 1) * scale.tick() as u128 - 1);
    nearest_within(limits.downtime, least, most)
}
