//! What may be changed of a trial.

ghost use Rattle.std.specs.Prelude.{◌≡◌, ◌*◌, ◌/◌, ◌≤◌, IfSome, None};
ghost use Rattle.predictions.specs.Remedies.Trials.{CanChange, changed};
ghost use Rattle.predictions.specs.declared.remedies.change.Change.TheVariants as changes;

use crate::remedies::trial::Trial;
use crate::units::{Limits, Scale};
use rate_limit::Asked;

/// How many bytes a second a Kbit a second is.
pub(crate) const KBIT: u64 = 125;

/// What is changed of a trial.
#[derive(Clone, Copy, Debug, PartialEq, Eq)]
pub enum Change {
    /// The link, in Kbit a second: 125 bytes a second.
    Link,
    /// The longest downtime, in microseconds.
    Downtime,
    /// The speed of the guest, in per cent. A slower guest writes the same in ticks that last longer, rounded down to
    /// whole microseconds.
    Speed,
    /// The tick at which the first round begins.
    Start,
}

/// Returns a trial with another link, if that fits.
fn with_link(trial: &Trial, kbit: u64) -> Option<Trial>
    ensures some { IfSome result (λ made. CanChange trial.now changes.Link kbit
        × (made ≡ changed trial.now changes.Link kbit)) }
    ensures none { result ≡ None → ¬ CanChange trial.now changes.Link kbit }
{
    let link = kbit.checked_mul(KBIT)?;
    Some(Trial {
        limits: Limits {
            link,
            ..trial.limits
        },
        ..*trial
    })
}

/// Returns a trial with another downtime.
fn with_downtime(trial: &Trial, micros: u64) -> Trial
    ensures { result ≡ changed trial.now changes.Downtime micros }
{
    Trial {
        limits: Limits {
            downtime: micros,
            ..trial.limits
        },
        ..*trial
    }
}

/// Returns a trial that begins at another tick.
fn started(trial: &Trial, tick: u64) -> Trial
    ensures { result ≡ changed trial.now changes.Start tick }
{
    Trial {
        others: Asked {
            start: tick,
            ..trial.others
        },
        ..*trial
    }
}

/// Returns a trial whose guest is slowed, if its ticks are not too long.
fn slowed(trial: &Trial, percent: u64) -> Option<Trial>
    ensures some { IfSome result (λ made. CanChange trial.now changes.Speed percent
        × (made ≡ changed trial.now changes.Speed percent)) }
    ensures none { result ≡ None → ¬ CanChange trial.now changes.Speed percent }
{
    if percent == 0 {
        return None;
    }
    let scale = &trial.scale;
    let tick = longer(scale, percent);
    match Scale::new(tick, scale.page(), scale.sampled(), scale.guest()) {
        Ok(scale) => Some(Trial { scale, ..*trial }),
        Err(_) => None,
    }
}

/// Returns how long a tick lasts if the guest is slowed.
fn longer(scale: &Scale, percent: u64) -> u64
    requires { 1 ≤ percent }
    ensures { result ≡ scale.now.tick * 100 / percent }
{
    let _in_range = scale.guest();
    scale.tick() * 100 / percent
}

impl Change {
    /// Returns a trial with another amount, if there is such a trial.
    pub fn made(self, trial: &Trial, amount: u64) -> Option<Trial>
        ensures some { IfSome result (λ made. CanChange trial.now self amount
            × (made ≡ changed trial.now self amount)) }
        ensures none { result ≡ None → ¬ CanChange trial.now self amount }
    {
        match self {
            Change::Link => with_link(trial, amount),
            Change::Downtime => Some(with_downtime(trial, amount)),
            Change::Speed => slowed(trial, amount),
            Change::Start => Some(started(trial, amount)),
        }
    }
}
