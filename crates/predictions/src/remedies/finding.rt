//! What would keep the limit of a migration.

// `AreRemedies` holds of one value alone: `one_set_of_remedies`.

ghost use Rattle.std.specs.Prelude.{◌≡◌, ◌≤◌, IfOk, length};
ghost use Rattle.predictions.specs.Remedies.{AreRemedies};
ghost use Rattle.predictions.specs.declared.remedies.aim.Aim.TheVariants as aims;
ghost use Rattle.page_bitmap.specs.Listing.{word_count};

use crate::course::{MOST_ROUNDS, NO_ROW};
use crate::remedies::aim::Aim;
use crate::remedies::change::{Change, KBIT};
use crate::remedies::ending::{Ending, ending_of};
use crate::remedies::search::{Goal, least, slowed};
use crate::remedies::trial::{Trial, keeps_limit};
use guest_log::Timeline;
use page_bitmap::word_count;
use round_planner::RoundRow;
use std::alloc::{AllocError, Global};

/// Whether a migration keeps its limit, and the least amounts that do.
#[derive(Clone, Copy, Debug, PartialEq, Eq)]
pub struct Remedies {
    /// Whether the migration converges, and ends within the trace and within its downtime.
    pub is_kept: bool,
    /// The least link, in Kbit a second: down from that of the migration if it keeps the limit, and else up from it.
    pub link: Option<u64>,
    /// The least downtime, in microseconds, in the same way.
    pub downtime: Option<u64>,
    /// To how many per cent of its speed the guest has to be slowed, if the limit is not kept.
    pub speed: Option<u64>,
    /// Whether the migration ends within the trace, and what ends it there if it does not.
    pub ending: Ending,
}

/// Returns the goal to keep the limit, by some change.
fn kept_by(change: Change) -> Goal
    ensures { result ≡ (record { change = change; aim = aims.Limit }) }
{
    Goal {
        change,
        aim: Aim::Limit,
    }
}

/// Returns whether a trial keeps its limit, over a timeline, and what does; and what ends it within the timeline.
///
/// It allocates nothing: the caller lends a bit of `marks` and a slot of `list` for each page, and 64 slots of `rows`.
/// What they hold does not matter. It costs as much as some 35 plans, and at most 99; of a trial that does not end
/// within the timeline at most 187.
pub fn remedies_of<T: Timeline>(
    timeline: &T,
    trial: &Trial,
    marks: &mut [u64],
    list: &mut [u32],
    rows: &mut [RoundRow],
) -> Remedies
    requires marks { length marks.old ≡ word_count (T.pages timeline.now) }
    requires list { length list.old ≡ T.pages timeline.now }
    requires rows { 64 ≤ length rows.old }
    ensures { AreRemedies (T.pages timeline.now) (T.touches timeline.now) trial.now result }
{
    let is_kept = keeps_limit(timeline, trial, marks, list, rows);
    let kbit = trial.limits.link.div_ceil(KBIT);
    let micros = trial.limits.downtime;
    Remedies {
        is_kept,
        link: least(
            timeline,
            trial,
            kept_by(Change::Link),
            kbit,
            marks,
            list,
            rows,
        ),
        downtime: least(
            timeline,
            trial,
            kept_by(Change::Downtime),
            micros,
            marks,
            list,
            rows,
        ),
        speed: slowed(timeline, trial, is_kept, marks, list, rows),
        ending: ending_of(timeline, trial, marks, list, rows),
    }
}

impl Remedies {
    /// Returns what `remedies_of` does. The only error is that memory runs out.
    pub fn of_trace<T: Timeline>(
        alloc: Global,
        timeline: &T,
        trial: &Trial,
    ) -> Result<Remedies, AllocError>
        ensures { IfOk result (AreRemedies (T.pages timeline.now) (T.touches timeline.now) trial.now) }
    {
        let pages = timeline.page_count() as usize;
        let mut marks = Vec::from_elem(alloc, 0, word_count(pages))?;
        let mut list = Vec::from_elem(alloc, 0, pages)?;
        let mut rows = Vec::from_elem(alloc, NO_ROW, MOST_ROUNDS)?;
        Ok(remedies_of(timeline, trial, &mut marks, &mut list, &mut rows))
    }
}
