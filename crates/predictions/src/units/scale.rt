//! What ticks and pages of a trace stand for.

ghost use Rattle.std.specs.Prelude.{◌≡◌, ◌*◌, ◌<◌, ◌^◌, IfErr, IfOk, Some};
ghost use Rattle.predictions.specs.Units.Scales.{IsScale, bytes_of, micros_of, rate_of, scale_refusal, scale_with};
ghost use Rattle.predictions.specs.Units.Scales.{ticks_in};

use crate::units::error::UnitsError;
use std::marker::Model;

/// The longest tick, in microseconds.
const MAX_TICK: u64 = 1_000_000;

/// The least and the most bytes of a page.
const MIN_PAGE: u64 = 16;

const MAX_PAGE: u64 = 4096;

/// The most pages of a guest.
const MAX_GUEST: u64 = 1 << 32;

/// What ticks and pages of a trace stand for: the length of a tick, the bytes of a page, and how many of the guest's
/// pages the trace recorded.
#[derive(Clone, Copy, Debug, PartialEq, Eq)]
pub struct Scale {
    tick: u64,
    page: u64,
    sampled: u64,
    guest: u64,
}

impl Model for Scale {
    ghost use Rattle.predictions.specs.Units.Scales.{IsScale, TraceScale, scale_with};

    ghost Value = { TraceScale };

    ghost view = { λ s. scale_with s.tick s.page s.sampled s.guest };

    ghost invariant = { λ s. IsScale (scale_with s.tick s.page s.sampled s.guest) };

    ghost inverse = { λ s. record { tick = s.tick; page = s.page; sampled = s.sampled; guest = s.guest } };
}

/// Returns a product, which fits.
fn product(a: u64, b: u64) -> u128
    ensures { result ≡ a * b }
{
    a as u128 * b as u128
}

impl Scale {
    /// Returns the scale of a tick in microseconds, a page in bytes, and `sampled` of the guest's pages sampled.
    pub fn new(tick: u64, page: u64, sampled: u64, guest: u64) -> Result<Scale, UnitsError>
        ensures made { IfOk result (λ scale. scale ≡ scale_with tick page sampled guest) }
        ensures accepted { IfOk result (λ scale. scale_refusal (scale_with tick page sampled guest) ≡ None) }
        ensures refused { IfErr result (λ e. scale_refusal (scale_with tick page sampled guest) ≡ Some e) }
    {
        if tick < 1 || tick > MAX_TICK {
            return Err(UnitsError::Tick);
        }
        if page < MIN_PAGE || page > MAX_PAGE {
            return Err(UnitsError::Page);
        }
        if sampled < 1 || sampled > guest || guest > MAX_GUEST {
            return Err(UnitsError::Sampled);
        }
        Ok(Scale {
            tick,
            page,
            sampled,
            guest,
        })
    }

    /// Returns the length of a tick, in microseconds.
    pub fn tick(&self) -> u64
        ensures { result ≡ self.now.tick }
    {
        self.tick
    }

    /// Returns how many bytes a page has.
    pub fn page(&self) -> u64
        ensures { result ≡ self.now.page }
    {
        self.page
    }

    /// Returns how many of the guest's pages were recorded.
    pub fn sampled(&self) -> u64
        ensures { result ≡ self.now.sampled }
    {
        self.sampled
    }

    /// Returns how many pages the guest has.
    pub fn guest(&self) -> u64
        ensures value { result ≡ self.now.guest }
        ensures in_range { IsScale self.now }
    {
        self.guest
    }

    /// Returns the rate of the trace, in pages per 1,000 ticks and rounded down, for a rate of the guest in bytes a
    /// second.
    pub fn rate(&self, bytes: u64) -> u128
        ensures { result ≡ rate_of self.now bytes }
    {
        let moved = bytes as u128 * self.tick as u128 * self.sampled as u128;
        moved / (1000 * self.page as u128 * self.guest as u128)
    }

    /// Returns how many whole ticks there are in a time, in microseconds.
    pub fn ticks(&self, time: u64) -> u64
        ensures { result ≡ ticks_in self.now time }
    {
        time / self.tick
    }

    /// Returns how long some ticks are, in microseconds.
    pub fn micros(&self, ticks: u64) -> u128
        ensures time { result ≡ micros_of self.now ticks }
        ensures small { result < 2 ^ 84 }
    {
        product(ticks, self.tick)
    }

    /// Returns how many bytes of the guest some pages of the trace stand for, rounded down.
    pub fn bytes(&self, pages: u64) -> u128
        ensures size { result ≡ bytes_of self.now pages }
        ensures small { result < 2 ^ 110 }
    {
        let sampled = self.sampled as u128;
        pages as u128 * self.page as u128 * self.guest as u128 / sampled
    }
}
