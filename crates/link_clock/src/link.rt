//! A link whose rate changes, and what it sends.

ghost use Rattle.std.specs.Prelude.{◌≡◌, false, true};
ghost use Rattle.link_clock.specs.Links.{ChangingLink, IsLink, fits, link_with};

use crate::error::LinkError;
use std::marker::Model;

/// The greatest rate, in pages per 1,000 ticks.
const MAX_RATE: u64 = 1_000_000;

/// The last tick at which a link may change: `2^40`.
const MAX_TICK: u64 = 1_099_511_627_776;

/// A tick from which on a link has another rate.
#[derive(Clone, Copy, Debug, PartialEq, Eq)]
pub struct LinkChange {
    /// The tick.
    pub tick: u64,
    /// The rate from there on, in pages per 1,000 ticks.
    pub rate: u64,
}

/// A link whose rate changes at some ticks.
#[derive(Debug, Drop)]
pub struct Link {
    rate: u64,
    changes: Vec<LinkChange>,
}

impl Model for Link {
    ghost Value = { ChangingLink };

    ghost view = { λ l. link_with l.rate l.changes.items };

    ghost invariant = { λ l. IsLink (link_with l.rate l.changes.items) };
}

/// Returns whether a link of this rate may change so, if the change before it is at a tick.
fn is_fit(rate: u64, from: u64, change: LinkChange) -> bool
    ensures { result ≡ fits rate from change }
{
    from <= change.tick && change.tick <= MAX_TICK && 1 <= change.rate && change.rate <= rate
}

impl Link {
    ghost use Rattle.std.specs.Prelude.{◌≡◌, ◌↔◌, ◌≤◌, ◌*◌, ◌^◌, IfErr, IfOk, IsOk, None, Some};
    ghost use Rattle.std.specs.Option.{option_map};
    ghost use Rattle.link_clock.specs.Links.{IsLink, IsSentBy, clock_at, link_with, misfit_from, refusal_of};
    ghost use Rattle.link_clock.specs.Links.{sent_before};

    /// Returns the number of the first change that a link of this rate may not have, if there is one.
    fn misfit(rate: u64, changes: &[LinkChange]) -> Option<usize>
        ensures { result ≡ misfit_from rate 0 0 changes.now }
    {
        let mut from = 0;
        for (number, change) in changes.iter().enumerate() {
            if !is_fit(rate, from, *change) {
                return Some(number);
            }
            from = change.tick;
        }
        None
    }

    /// Returns the link that has this rate, in pages per 1,000 ticks, until it changes, or why there is none. Of
    /// changes at one tick the last one counts. No change is to more than that rate: a link that begins with a lower
    /// one changes at tick 0.
    pub fn new(rate: u64, changes: Vec<LinkChange>) -> Result<Link, LinkError>
        ensures accepted { IfOk result (λ link. link ≡ link_with rate changes.items) }
        ensures in_range { IsOk result ↔ (refusal_of (link_with rate changes.items) ≡ None) }
        ensures refused { IfErr result (λ e. refusal_of (link_with rate changes.items) ≡ Some e) }
    {
        if rate < 1 || rate > MAX_RATE {
            return Err(LinkError::Rate);
        }
        if let Some(number) = Link::misfit(rate, &changes) {
            return Err(LinkError::Change(number));
        }
        Ok(Link { rate, changes })
    }

    /// Returns the rate until the first change, the greatest one.
    pub fn rate(&self) -> u64
        ensures value { result ≡ self.now.rate }
        ensures in_range { IsLink self.now }
    {
        self.rate
    }

    /// Returns how many thousandths of a page are sent before a tick.
    pub(crate) fn sent_before(&self, tick: u64) -> u64
        requires { tick ≤ 2 ^ 43 }
        ensures value { result ≡ sent_before self.now tick }
        ensures bound { result ≤ 2 ^ 63 }
    {
        let (mut from, mut rate, mut sent) = (0, self.rate, 0);
        for change in &self.changes {
            sent += rate * tick.min(change.tick).saturating_sub(from);
            from = change.tick;
            rate = change.rate;
        }
        sent + rate * tick.saturating_sub(from)
    }

    /// Returns the first tick by which so many thousandths of a page are sent.
    pub(crate) fn when_sent(&self, amount: u64) -> u64
        requires { amount ≤ 2 ^ 63 }
        ensures { IsSentBy self.now amount result }
    {
        let (mut from, mut rate, mut sent) = (0, self.rate, 0);
        for change in &self.changes {
            let more = rate * (change.tick - from);
            if amount <= sent + more {
                return from + (amount - sent).div_ceil(rate);
            }
            sent += more;
            from = change.tick;
            rate = change.rate;
        }
        from + (amount - sent).div_ceil(rate)
    }

    /// Returns what the link's clock shows at a tick.
    pub fn clock(&self, tick: u64) -> u64
        requires { tick ≤ 2 ^ 43 }
        ensures value { result ≡ clock_at self.now tick }
        ensures low { result ≤ tick }
    {
        self.sent_before(tick) / self.rate
    }

    /// Returns the first tick at which the link's clock shows no less than this.
    pub(crate) fn tick_of(&self, clock: u64) -> u64
        requires { clock ≤ 2 ^ 43 }
        ensures { IsSentBy self.now (self.now.rate * clock) result }
    {
        self.when_sent(self.rate * clock)
    }
}
