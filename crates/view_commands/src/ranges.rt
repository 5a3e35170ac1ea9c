//! Why amounts are out of their range, and the nearest that are taken.

ghost use Rattle.std.specs.Prelude.{◌≡◌, Some};
ghost use Rattle.predictions.specs.Units.Limits.{limits_refusal};
ghost use Rattle.predictions.specs.Units.Scales.{scale_refusal, scale_with};
ghost use Rattle.view_commands.specs.Nearest.{TellsLimits, TellsScale};

use crate::nearest::{
    nearest_downtime, nearest_first, nearest_link, nearest_page, nearest_sample, nearest_tick,
};
use predictions::units::{Limits, Scale, UnitsError};
use std::fmt;
use thiserror::Error;

/// Why an amount is out of its range: the amount that was asked for, and the nearest that is taken.
#[derive(Clone, Copy, Debug, PartialEq, Eq, Error)]
pub enum RangeRefusal {
    /// The length of a tick, in microseconds.
    #[error("--tick {}: a tick is 1us to 1s; the nearest is {}", Time(*.asked), Time(*.nearest))]
    Tick {
        asked: u64,
        nearest: u64,
    },
    /// The bytes of a page.
    #[error("--page {asked}: a page has 16 to 4,096 bytes; the nearest is {nearest}")]
    Page {
        asked: u64,
        nearest: u64,
    },
    /// The pages sampled, and those of the guest.
    #[error("--sampled {}: 1 to P of P pages, P at most 2^32; the nearest is {}", Sample(*.asked), Sample(*.nearest))]
    Sampled {
        asked: (u64, u64),
        nearest: (u64, u64),
    },
    /// The rate of the link, in bytes a second.
    #[error("--link {}: not 1 to 1,000,000 pages per 1,000 ticks; the nearest is {}", Rate(*.asked), Rate(*.nearest))]
    Link {
        asked: u64,
        nearest: u64,
    },
    /// The rate of the first round, in bytes a second.
    #[error("--first {}: not 1 page per 1,000 ticks to --link; the nearest is {}", Rate(*.asked), Rate(*.nearest))]
    First {
        asked: u64,
        nearest: u64,
    },
    /// The reserved part of the downtime, in microseconds.
    #[error("--reserve {}: longer than --downtime; the most is {}", Time(*.asked), Time(*.nearest))]
    Reserve {
        asked: u64,
        nearest: u64,
    },
    /// The downtime, in microseconds.
    #[error("--downtime {}: more than 65,535 pages go over the link; the most is {}", Time(*.asked), Time(*.nearest))]
    Downtime {
        asked: u64,
        nearest: u64,
    },
}

/// Returns why a scale is refused, by the error that refuses it.
pub(crate) fn scale_refused(
    error: &UnitsError,
    tick: u64,
    page: u64,
    sample: (u64, u64),
) -> RangeRefusal
    requires { scale_refusal (scale_with tick page sample.0 sample.1) ≡ Some error.now }
    ensures { TellsScale (scale_with tick page sample.0 sample.1) result }
{
    match error {
        UnitsError::Tick => RangeRefusal::Tick {
            asked: tick,
            nearest: nearest_tick(tick),
        },
        UnitsError::Page => RangeRefusal::Page {
            asked: page,
            nearest: nearest_page(page),
        },
        _ => RangeRefusal::Sampled {
            asked: sample,
            nearest: nearest_sample(sample),
        },
    }
}

/// Returns why limits are refused, by the error that refuses one of them.
pub(crate) fn limits_refused(error: &UnitsError, scale: &Scale, limits: &Limits) -> RangeRefusal
    requires { limits_refusal scale.now limits.now ≡ Some error.now }
    ensures { TellsLimits scale.now limits.now result }
{
    match error {
        UnitsError::Link => RangeRefusal::Link {
            asked: limits.link,
            nearest: nearest_link(scale, limits.link),
        },
        UnitsError::First => {
            let asked = limits.first.unwrap_or(limits.link);
            let nearest = nearest_first(scale, limits.link, asked);
            RangeRefusal::First { asked, nearest }
        }
        UnitsError::Reserve => RangeRefusal::Reserve {
            asked: limits.reserve,
            nearest: limits.downtime,
        },
        _ => RangeRefusal::Downtime {
            asked: limits.downtime,
            nearest: nearest_downtime(scale, limits),
        },
    }
}

/// A time in microseconds, shown as a word that stands for it.
#[derive(Clone, Copy)]
struct Time(u64);

impl fmt::Display for Time {
    fn fmt<W: fmt::Write>(&self, f: &mut fmt::Formatter<W>) -> fmt::Result {
        let time = self.0;
        if time % 1_000_000 == 0 && time > 0 {
            return write!(f, "{}s", time / 1_000_000);
        }
        if time % 1000 == 0 && time > 0 {
            return write!(f, "{}ms", time / 1000);
        }
        write!(f, "{time}us")
    }
}

/// A rate in bytes a second, shown as a word that stands for it.
#[derive(Clone, Copy)]
struct Rate(u64);

impl fmt::Display for Rate {
    fn fmt<W: fmt::Write>(&self, f: &mut fmt::Formatter<W>) -> fmt::Result {
        let rate = self.0;
        if rate % 125_000_000 == 0 && rate > 0 {
            return write!(f, "{}Gbit", rate / 125_000_000);
        }
        if rate % 125_000 == 0 && rate > 0 {
            return write!(f, "{}Mbit", rate / 125_000);
        }
        if rate % 125 == 0 {
            return write!(f, "{}Kbit", rate / 125);
        }
        write!(f, "{}.{:03}KB", rate / 1000, rate % 1000)
    }
}

/// The pages sampled, and those of the guest, as a word that stands for them.
#[derive(Clone, Copy)]
struct Sample((u64, u64));

impl fmt::Display for Sample {
    fn fmt<W: fmt::Write>(&self, f: &mut fmt::Formatter<W>) -> fmt::Result {
        write!(f, "{}/{}", self.0.0, self.0.1)
    }
}
