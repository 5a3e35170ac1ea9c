//! What ends a migration within the trace.

ghost use Rattle.std.specs.Prelude.{◌≡◌, ◌≤◌, None, length, min, unwrap_or};
ghost use Rattle.std.specs.Int.{div_ceil};
ghost use Rattle.predictions.specs.Remedies.{AreEndings, IsFirst, IsLeast};
ghost use Rattle.predictions.specs.Remedies.Trials.{EndsWith};
ghost use Rattle.predictions.specs.declared.remedies.change.Change.TheVariants as changes;
ghost use Rattle.predictions.specs.declared.remedies.way.Way.TheVariants as ways;
ghost use Rattle.migration_model.specs.Touches.{last_tick_of};
ghost use Rattle.page_bitmap.specs.Listing.{word_count};

use crate::remedies::aim::Aim;
use crate::remedies::change::{Change, KBIT};
use crate::remedies::search::{Goal, first_on, least};
use crate::remedies::trial::{Trial, reaches};
use crate::remedies::way::Way;
use guest_log::{Timeline, last_tick};
use round_planner::RoundRow;

/// Whether a migration ends within the trace, and what ends it there, whether it then keeps its limit or not.
#[derive(Clone, Copy, Debug, PartialEq, Eq)]
pub struct Ending {
    /// Whether it does as it is. There is nothing else then.
    pub ends: bool,
    /// The least link with which it does, in Kbit a second.
    pub link: Option<u64>,
    /// The latest tick at which it may begin, no later than it does.
    pub start: Option<u64>,
}

impl Ending {
    /// A migration that ends within the trace as it is.
    const SOON: Ending = Ending {
        ends: true,
        link: None,
        start: None,
    };
}

/// Returns the least link with which a trial ends within a timeline, in Kbit a second.
fn least_link<T: Timeline>(
    timeline: &T,
    trial: &Trial,
    marks: &mut [u64],
    list: &mut [u32],
    rows: &mut [RoundRow],
) -> Option<u64>
    requires marks { length marks.old ≡ word_count (T.pages timeline.now) }
    requires list { length list.old ≡ T.pages timeline.now }
    requires rows { 64 ≤ length rows.old }
    ensures { IsLeast (EndsWith (T.pages timeline.now) (T.touches timeline.now) trial.now changes.Link)
        (div_ceil trial.now.limits.link 125) result }
{
    let goal = Goal {
        change: Change::Link,
        aim: Aim::End,
    };
    let kbit = trial.limits.link.div_ceil(KBIT);
    least(timeline, trial, goal, kbit, marks, list, rows)
}

/// Returns the way from the start of a trial, or the last tick of a timeline if that is earlier, back to the copy at
/// the destination, or else to tick 0.
fn way_back<T: Timeline>(timeline: &T, trial: &Trial) -> Way
    ensures { result ≡ ways.Between (min trial.now.others.start (last_tick_of (T.touches timeline.now)))
        (unwrap_or trial.now.others.base 0) }
{
    let others = &trial.others;
    let latest = others.start.min(last_tick(timeline));
    Way::Between(latest, others.base.unwrap_or(0))
}

/// Returns the latest start of a trial, back from its own, from which it ends within a timeline.
fn latest_start<T: Timeline>(
    timeline: &T,
    trial: &Trial,
    marks: &mut [u64],
    list: &mut [u32],
    rows: &mut [RoundRow],
) -> Option<u64>
    requires marks { length marks.old ≡ word_count (T.pages timeline.now) }
    requires list { length list.old ≡ T.pages timeline.now }
    requires rows { 64 ≤ length rows.old }
    ensures { IsFirst (EndsWith (T.pages timeline.now) (T.touches timeline.now) trial.now changes.Start)
        (ways.Between (min trial.now.others.start (last_tick_of (T.touches timeline.now)))
        (unwrap_or trial.now.others.base 0)) result }
{
    let goal = Goal {
        change: Change::Start,
        aim: Aim::End,
    };
    let back = way_back(timeline, trial);
    first_on(timeline, trial, goal, back, marks, list, rows)
}

/// Returns whether a trial ends within a timeline, and what ends it there.
pub(crate) fn ending_of<T: Timeline>(
    timeline: &T,
    trial: &Trial,
    marks: &mut [u64],
    list: &mut [u32],
    rows: &mut [RoundRow],
) -> Ending
    requires marks { length marks.old ≡ word_count (T.pages timeline.now) }
    requires list { length list.old ≡ T.pages timeline.now }
    requires rows { 64 ≤ length rows.old }
    ensures { AreEndings (T.pages timeline.now) (T.touches timeline.now) trial.now result }
{
    if reaches(timeline, trial, Aim::End, marks, list, rows) {
        return Ending::SOON;
    }
    Ending {
        ends: false,
        link: least_link(timeline, trial, marks, list, rows),
        start: latest_start(timeline, trial, marks, list, rows),
    }
}
