//! A plan, round by round.

// `IsPlan` holds of one value alone: `one_plan`.

ghost use Rattle.std.specs.Prelude.{◌≡◌, ◌≤◌, ◌&&◌, IfErr, IfOk, length, nat_le, take};
ghost use Rattle.migration_model.specs.Rounds.{IsPlan, pages_lacking};
ghost use Rattle.round_planner.specs.Indexing.{AreMarksOf, IsFirst};

use crate::error::PlanError;
use crate::marked::{end_round, first_marked, send_pages};
use crate::numbers::{Following, RoundNumbers};
use crate::parts::{Plan, Round};
use guest_log::Timeline;
use page_bitmap::word_count;
use rate_limit::Settings;
use std::alloc::{AllocError, Global};
use std::thread::Threads;

/// Returns whether pages may be skipped in a round after `done` rounds.
pub fn may_skip(settings: &Settings, done: u64) -> bool
    ensures { result ≡ settings.now.skip && nat_le 1 done }
{
    settings.asked().skip && done >= 1
}

/// Returns the first `count` pages of a list.
fn first_pages(alloc: Global, list: &[u32], count: u32) -> Result<Vec<u32>, AllocError>
    requires { count ≤ length list.now }
    ensures { IfOk result (λ pages. pages.items ≡ take count list.now) }
{
    let (pages, _) = list.split_at(count as usize);
    Vec::from_slice(alloc, pages)
}

/// Returns the plan that begins with a round, whose pages the front of `room` lists.
fn listed_rounds<T: Timeline>(
    alloc: Global,
    timeline: &T,
    settings: &Settings,
    first: RoundNumbers,
    marks: &mut [u64],
    room: &mut [u32],
) -> Result<Plan, AllocError>
    requires first { IsFirst (T.pages timeline.now) (T.touches timeline.now) settings.now first }
    requires list { take first.listed room.old ≡ pages_lacking (T.pages timeline.now) (T.touches timeline.now)
        settings.now.base settings.now.start }
    requires marks { AreMarksOf (T.pages timeline.now) marks.old room.old }
    ensures { IfOk result (λ plan. IsPlan (T.pages timeline.now) (T.touches timeline.now) settings.now plan) }
{
    marks.fill(0);
    let mut rounds = Vec::new(alloc);
    let mut now = first;
    loop {
        let pages = first_pages(alloc, room, now.listed)?;
        let walked = send_pages(timeline, settings, &now, marks, room);
        let sent = first_pages(alloc, room, walked.count)?;
        let ran = end_round(timeline, settings, &now, walked, marks, room);
        rounds.push(Round {
            from: now.step.from,
            to: ran.to,
            rate: now.step.rate,
            pages,
            sent,
            dirtied: ran.dirtied,
        })?;
        match now.after(settings, &ran) {
            Following::Round(next) => now = next,
            Following::Stop(end) => {
                let last = first_pages(alloc, room, ran.dirtied)?;
                return Ok(Plan {
                    rounds,
                    reason: end.reason,
                    stop: end.stop,
                    last,
                    down: end.down,
                });
            }
        }
    }
}

/// Returns the plan of a migration. The error is `Memory`, if memory runs out for a list of pages or for the rounds.
///
/// It costs as much as the touches in the ticks that its rounds cover, the pages of its lists, and a walk over one word
/// for 64 pages in each round. It finds the first of those touches by binary search. If the settings have a base, the
/// touches from there on count too, and one more walk.
pub fn plan<T: Timeline>(
    alloc: Global,
    timeline: &T,
    settings: &Settings,
) -> Result<Plan, PlanError>
    ensures answer { IfOk result (λ plan. IsPlan (T.pages timeline.now) (T.touches timeline.now) settings.now plan) }
    ensures refusal { IfErr result (λ e. e ≡ PlanError.Memory) }
{
    let pages = timeline.page_count() as usize;
    let mut marks = Vec::from_elem(alloc, 0, word_count(pages))?;
    let mut room = Vec::from_elem(alloc, 0, pages)?;
    let first = first_marked(timeline, settings, &mut marks, &mut room);
    let plan = listed_rounds(alloc, timeline, settings, first, &mut marks, &mut room)?;
    Ok(plan)
}

/// Returns the plan of `plan`, whatever the number of workers, 1 to 16. The rounds come one after another, and no
/// round is long enough to pay for a thread: of 2^20 touches and 65,536 pages it has a millisecond of work. So the
/// caller's thread does all of it.
pub fn par_plan<R: Threads + Sync, T: Timeline + Sync>(
    _rt: &R,
    alloc: Global,
    timeline: &T,
    settings: &Settings,
    _workers: usize,
) -> Result<Plan, PlanError>
    ensures answer { IfOk result (λ plan. IsPlan (T.pages timeline.now) (T.touches timeline.now) settings.now plan) }
    ensures refusal { IfErr result (λ e. e ≡ PlanError.Memory) }
{
    plan(alloc, timeline, settings)
}
