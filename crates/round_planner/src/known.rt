//! Rounds that the plans of one trace share: what a round does hangs on the trace and on how it begins alone.

ghost use Rattle.std.specs.Prelude.{◌≡◌, ◌<◌, ℕ, IfOk, IfSome, List, None, length, replicate};
ghost use Rattle.migration_model.specs.Touches.{GuestTouch};
ghost use Rattle.round_planner.specs.Indexing.{IsFirst};
ghost use Rattle.round_planner.specs.Known.{AreKnown, IsFollowed, RunsSo, start_of, sums_of};

use crate::numbers::{Following, RoundNumbers, RoundSums};
use crate::parts::Outcome;
use crate::planning::may_skip;
use guest_log::Timeline;
use rate_limit::Settings;
use std::alloc::{AllocError, Global};

/// How a round begins.
#[derive(Clone, Copy, PartialEq, Eq)]
pub struct RoundStart {
    /// Its pages are those written from this tick on and before its first one, or all pages.
    pub since: Option<u64>,
    /// Its first tick.
    pub from: u64,
    /// Its rate, in pages per 1,000 ticks.
    pub rate: u64,
    /// Whether pages may be skipped in it.
    pub skip: bool,
}

/// A round that ran: how it began, and what it did.
#[derive(Clone, Copy)]
pub struct KnownRound {
    /// How it began.
    pub start: RoundStart,
    /// How many pages it sent.
    pub sent: u32,
    /// The tick at which it ended.
    pub to: u64,
    /// How many touches there are before its end.
    pub next: usize,
    /// How many pages were written meanwhile.
    pub dirtied: u32,
}

/// A round that is to be run.
#[derive(Drop)]
pub(crate) struct Ahead {
    /// Its numbers.
    pub(crate) numbers: RoundNumbers,
    /// Its pages are those written from this tick on and before its first one, or all pages.
    pub(crate) since: Option<u64>,
}

/// How far known rounds lead.
#[derive(Drop)]
pub(crate) enum Followed {
    /// To a round that is not known.
    Round(Ahead),
    /// To the stop. The plan has these sums.
    Stop(Outcome),
}

impl RoundStart {
    /// Returns how a round begins.
    pub(crate) fn new(settings: &Settings, now: &RoundNumbers, since: Option<u64>) -> RoundStart
        ensures { result ≡ start_of settings.now now.now since }
    {
        RoundStart {
            since,
            from: now.step.from,
            rate: now.step.rate,
            skip: may_skip(settings, now.step.done),
        }
    }
}

impl KnownRound {
    /// Returns what the round did.
    fn sums(&self) -> RoundSums
        ensures { result ≡ sums_of self.now }
    {
        RoundSums {
            sent: self.sent,
            to: self.to,
            next: self.next,
            dirtied: self.dirtied,
        }
    }
}

/// Returns a slot for the round of each number, all of them empty.
pub(crate) fn no_rounds(alloc: Global) -> Result<Vec<Option<KnownRound>>, AllocError>
    ensures { IfOk result (λ known. known.items ≡ replicate 64 None) }
{
    let mut known = Vec::with_capacity(alloc, 64)?;
    for _ in 0..64usize {
        known.push(None)?;
    }
    Ok(known)
}

/// Returns what round `done` does that begins so, if it is known.
fn find(known: &[Option<KnownRound>], done: u64, start: RoundStart) -> Option<RoundSums>
    requires { done < length known.now }
    ensures { (pages : ℕ) (touches : List GuestTouch) → AreKnown pages touches known.now
        → IfSome result (RunsSo pages touches start) }
{
    let slot = known[done as usize];
    let Some(round) = slot else {
        return None;
    };
    if round.start == start {
        Some(round.sums())
    } else {
        None
    }
}

/// Remembers what round `done` did that began so, in the place of another one.
pub(crate) fn remember(
    known: &mut [Option<KnownRound>],
    done: u64,
    start: RoundStart,
    ran: &RoundSums,
)
    requires { done < length known.old }
    ensures len { length known.new ≡ length known.old }
    ensures known { (pages : ℕ) (touches : List GuestTouch) → AreKnown pages touches known.old
        → RunsSo pages touches start ran.now → AreKnown pages touches known.new }
{
    known[done as usize] = Some(KnownRound {
        start,
        sent: ran.sent,
        to: ran.to,
        next: ran.next,
        dirtied: ran.dirtied,
    });
}

/// Goes through the rounds of a plan as long as they are known. Only the contract needs the trace.
pub(crate) fn follow<T: Timeline>(
    _timeline: &T,
    settings: &Settings,
    first: RoundNumbers,
    known: &[Option<KnownRound>],
) -> Followed
    requires first { IsFirst (T.pages _timeline.now) (T.touches _timeline.now) settings.now first }
    requires known { AreKnown (T.pages _timeline.now) (T.touches _timeline.now) known.now }
    requires slots { length known.now ≡ 64 }
    ensures { IsFollowed (T.pages _timeline.now) (T.touches _timeline.now) settings.now result }
{
    let mut now = first;
    let mut since = settings.asked().base;
    loop {
        let start = RoundStart::new(settings, &now, since);
        let Some(ran) = find(known, now.step.done, start) else {
            return Followed::Round(Ahead {
                numbers: now,
                since,
            });
        };
        match now.after(settings, &ran) {
            Following::Round(next) => {
                since = Some(now.step.from);
                now = next;
            }
            Following::Stop(outcome) => return Followed::Stop(outcome),
        }
    }
}
