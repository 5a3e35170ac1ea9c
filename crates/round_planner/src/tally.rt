//! The sums of a plan in which no page is skipped, made of counts by the index.

ghost use Rattle.std.specs.Prelude.{◌≡◌, ◌≤◌, ◌&&◌, false, length, nat_le};
ghost use Rattle.migration_model.specs.Rounds.{NextRound, pages_lacking};
ghost use Rattle.migration_model.specs.Sweeps.{IsOutcome};
ghost use Rattle.round_planner.specs.Indexing.{IsFirst, IsPoint, IsRoundIndexOf, IsStanding, RanTo, StandsAt};
ghost use Rattle.round_planner.specs.Known.{AreKnown, IsAhead};

use crate::index::RoundIndex;
use crate::known::{Ahead, KnownRound, RoundStart, remember};
use crate::numbers::{Following, RoundNumbers, RoundSums};
use crate::parts::Outcome;
use guest_log::Timeline;
use rate_limit::{Settings, duration};

/// Returns how many pages the destination lacks at the first tick, before which there are `next` touches: all, or, if
/// it begins with the memory before a base, those written since.
fn count_lacking<T: Timeline>(
    timeline: &T,
    index: &RoundIndex,
    settings: &Settings,
    next: usize,
) -> u32
    requires index { IsRoundIndexOf (T.pages timeline.now) (T.touches timeline.now) index.now }
    requires bound { next ≤ length (T.touches timeline.now) }
    requires point { IsPoint (T.touches timeline.now) settings.now.start next }
    ensures count { result ≡ length (pages_lacking (T.pages timeline.now) (T.touches timeline.now)
        settings.now.base settings.now.start) }
    ensures few { T.pages timeline.now ≤ 65_536 }
{
    let all = timeline.page_count();
    match settings.asked().base {
        Some(base) => index.first_touches(timeline.before(base), next),
        None => all,
    }
}

/// Returns the numbers of the first round.
pub(crate) fn first_counted<T: Timeline>(
    timeline: &T,
    index: &RoundIndex,
    settings: &Settings,
) -> RoundNumbers
    requires index { IsRoundIndexOf (T.pages timeline.now) (T.touches timeline.now) index.now }
    ensures { IsFirst (T.pages timeline.now) (T.touches timeline.now) settings.now result }
{
    let next = timeline.before(settings.asked().start);
    let listed = count_lacking(timeline, index, settings, next);
    RoundNumbers::first(settings, next, listed)
}

/// Runs a round by the index, if no page is skipped in any round. The settings are an argument only for the contract.
fn counted_round<T: Timeline>(
    timeline: &T,
    index: &RoundIndex,
    _settings: &Settings,
    now: &RoundNumbers,
) -> RoundSums
    requires index { IsRoundIndexOf (T.pages timeline.now) (T.touches timeline.now) index.now }
    requires now { IsStanding (T.pages timeline.now) (T.touches timeline.now) _settings.now now.now }
    ensures { (coming : NextRound) → StandsAt (T.pages timeline.now) (T.touches timeline.now)
        _settings.now coming now.now
        → (_settings.now.skip && nat_le 1 coming.done) ≡ false
        → RanTo (T.pages timeline.now) (T.touches timeline.now) _settings.now coming result }
{
    let to = now.step.from + duration(now.listed, now.step.rate);
    let next = timeline.before(to);
    let dirtied = index.first_touches(now.next, next);
    RoundSums {
        sent: now.listed,
        to,
        next,
        dirtied,
    }
}

/// Returns the sums of the plan that goes on with a round, if no page is skipped, and remembers its rounds.
pub(crate) fn counted_rounds<T: Timeline>(
    timeline: &T,
    index: &RoundIndex,
    settings: &Settings,
    ahead: Ahead,
    known: &mut [Option<KnownRound>],
) -> Outcome
    requires index { IsRoundIndexOf (T.pages timeline.now) (T.touches timeline.now) index.now }
    requires plain { settings.now.skip ≡ false }
    requires ahead { IsAhead (T.pages timeline.now) (T.touches timeline.now) settings.now ahead }
    requires known { AreKnown (T.pages timeline.now) (T.touches timeline.now) known.old }
    requires slots { length known.old ≡ 64 }
    ensures outcome { IsOutcome (T.pages timeline.now) (T.touches timeline.now) settings.now result }
    ensures known { AreKnown (T.pages timeline.now) (T.touches timeline.now) known.new }
    ensures slots { length known.new ≡ 64 }
{
    let Ahead {
        numbers: mut now,
        mut since,
    } = ahead;
    loop {
        let start = RoundStart::new(settings, &now, since);
        let ran = counted_round(timeline, index, settings, &now);
        remember(known, now.step.done, start, &ran);
        match now.after(settings, &ran) {
            Following::Round(next) => {
                since = Some(now.step.from);
                now = next;
            }
            Following::Stop(outcome) => return outcome,
        }
    }
}
