//! Lines of many cases, made by workers side by side.

// `IsPlan` holds of one value alone: `one_plan`.

ghost use Rattle.std.specs.Prelude.{◌≡◌, ◌<◌, ℕ, IfErr, IfOk, IfSome, OnOk, None, List, length, replicate};
ghost use Rattle.std.specs.List.{All};
ghost use Rattle.migration_model.specs.Rates.{MigrationSettings};
ghost use Rattle.migration_model.specs.Sweeps.{AreLines, IsLineOf};
ghost use Rattle.migration_model.specs.Touches.{GuestTouch};
ghost use Rattle.round_planner.specs.Indexing.{IsRoundIndexOf};
ghost use Rattle.round_planner.specs.Known.{IsPlannerFor};
ghost use Rattle.sweep_report.specs.Sweeping.{AreNumbered, AreTaken, IsNumbered, IsWork};

use crate::error::SweepError;
use crate::line::Line;
use crate::order::{CasePlace, planned_order};
use guest_log::Timeline;
use rate_limit::Settings;
use round_planner::{Planner, RoundIndex, plan};
use std::alloc::{AllocError, Global};
use std::sync::atomic::{AtomicUsize, Ordering};
use std::thread;
use std::thread::Threads;

/// The line of a case, and the number of that case.
#[derive(Drop)]
pub(crate) struct CaseLine {
    pub(crate) number: usize,
    pub(crate) line: Line,
}

/// Returns the line of one case, from a plan of its own.
fn line_of<T: Timeline>(alloc: Global, timeline: &T, case: &Settings) -> Result<Line, SweepError>
    ensures line { IfOk result (IsLineOf (T.pages timeline.now) (T.touches timeline.now) case.now) }
    ensures refusal { IfErr result (λ e. e ≡ SweepError.Memory) }
{
    let planned = plan(alloc, timeline, case).or(Err(SweepError::Memory))?;
    Ok(Line::new(*case, planned.outcome()))
}

/// Returns the line of one case, with the planner and the index that the cases share.
fn line_by<T: Timeline>(
    planner: &mut Planner,
    timeline: &T,
    index: &RoundIndex,
    case: &Settings,
) -> Line
    requires planner { IsPlannerFor (T.pages timeline.now) (T.touches timeline.now) planner.old }
    requires index { IsRoundIndexOf (T.pages timeline.now) (T.touches timeline.now) index.now }
    ensures line { IsLineOf (T.pages timeline.now) (T.touches timeline.now) case.now result }
    ensures planner { IsPlannerFor (T.pages timeline.now) (T.touches timeline.now) planner.new }
{
    Line::new(*case, planner.outcome(timeline, index, case))
}

/// Makes the line of the case at a place.
fn line_at<T: Timeline>(
    planner: &mut Planner,
    timeline: &T,
    index: &RoundIndex,
    cases: &[Settings],
    place: &CasePlace,
) -> CaseLine
    requires planner { IsPlannerFor (T.pages timeline.now) (T.touches timeline.now) planner.old }
    requires index { IsRoundIndexOf (T.pages timeline.now) (T.touches timeline.now) index.now }
    requires place { place.now.number < length cases.now }
    ensures line { IsNumbered (T.pages timeline.now) (T.touches timeline.now) cases.now result }
    ensures planner { IsPlannerFor (T.pages timeline.now) (T.touches timeline.now) planner.new }
{
    let number = place.number;
    let line = line_by(planner, timeline, index, &cases[number]);
    CaseLine { number, line }
}

/// Makes the lines of the cases at these places.
fn plan_cases<T: Timeline>(
    planner: &mut Planner,
    timeline: &T,
    index: &RoundIndex,
    cases: &[Settings],
    places: &[CasePlace],
    made: &mut Vec<CaseLine>,
) -> Result<(), SweepError>
    requires planner { IsPlannerFor (T.pages timeline.now) (T.touches timeline.now) planner.old }
    requires index { IsRoundIndexOf (T.pages timeline.now) (T.touches timeline.now) index.now }
    requires places { All (λ place. place.number < length cases.now) places.now }
    requires made { AreNumbered (T.pages timeline.now) (T.touches timeline.now) cases.now made.old.items }
    ensures made { OnOk result (AreNumbered (T.pages timeline.now) (T.touches timeline.now) cases.now made.new.items) }
    ensures planner { IsPlannerFor (T.pages timeline.now) (T.touches timeline.now) planner.new }
    ensures refusal { IfErr result (λ e. e ≡ SweepError.Memory) }
{
    for place in places {
        made.push(line_at(planner, timeline, index, cases, place))?;
    }
    Ok(())
}

/// How many cases a worker takes at once. Cases whose plans begin alike come one after another, and should not be dealt
/// to many workers.
const CASES_AT_ONCE: usize = 8;

/// Takes a few cases at a time by a counter that all workers share. Returns the lines of the cases taken.
fn take_cases<T: Timeline>(
    alloc: Global,
    timeline: &T,
    index: &RoundIndex,
    cases: &[Settings],
    order: &[CasePlace],
    next: &AtomicUsize,
) -> Result<Vec<CaseLine>, SweepError>
    requires index { IsRoundIndexOf (T.pages timeline.now) (T.touches timeline.now) index.now }
    requires order { All (λ place. place.number < length cases.now) order.now }
    ensures made { IfOk result (λ made. AreNumbered (T.pages timeline.now) (T.touches timeline.now)
        cases.now made.items) }
    ensures refusal { IfErr result (λ e. e ≡ SweepError.Memory) }
{
    let mut planner = Planner::new(alloc, timeline).or(Err(SweepError::Memory))?;
    let mut made = Vec::new(alloc);
    for _ in 0..order.len() {
        let first = next.fetch_add(CASES_AT_ONCE, Ordering::SeqCst);
        if first >= order.len() {
            break;
        }
        let (_, rest) = order.split_at(first);
        let (places, _) = rest.split_at(rest.len().min(CASES_AT_ONCE));
        plan_cases(&mut planner, timeline, index, cases, places, &mut made)?;
    }
    Ok(made)
}

/// Returns a slot for the line of each case, all of them empty.
fn no_lines(alloc: Global, count: usize) -> Result<Vec<Option<Line>>, AllocError>
    ensures { IfOk result (λ taken. taken.items ≡ replicate count None) }
{
    let mut taken = Vec::with_capacity(alloc, count)?;
    for _ in 0..count {
        taken.push(None)?;
    }
    Ok(taken)
}

/// Puts lines into the slots of their cases.
fn place(taken: &mut Vec<Option<Line>>, made: Vec<CaseLine>)
    requires { All (λ one. one.number < length taken.old.items) made.items }
    ensures { (pages : ℕ) (touches : List GuestTouch) (cases : List MigrationSettings)
        → AreNumbered pages touches cases made.items
        → AreTaken pages touches cases taken.old.items → AreTaken pages touches cases taken.new.items }
{
    for one in made {
        taken[one.number] = Some(one.line);
    }
}

/// Returns the line of a case, which is already there or is made now.
fn line_or_new<T: Timeline>(
    alloc: Global,
    timeline: &T,
    case: &Settings,
    taken: Option<Line>,
) -> Result<Line, SweepError>
    requires { IfSome taken (IsLineOf (T.pages timeline.now) (T.touches timeline.now) case.now) }
    ensures line { IfOk result (IsLineOf (T.pages timeline.now) (T.touches timeline.now) case.now) }
    ensures refusal { IfErr result (λ e. e ≡ SweepError.Memory) }
{
    match taken {
        Some(line) => Ok(line),
        None => line_of(alloc, timeline, case),
    }
}

/// Returns the lines of all cases in order, and makes those that are not there.
fn in_order<T: Timeline>(
    alloc: Global,
    timeline: &T,
    cases: &[Settings],
    mut taken: Vec<Option<Line>>,
) -> Result<Vec<Line>, SweepError>
    requires { AreTaken (T.pages timeline.now) (T.touches timeline.now) cases.now taken.items }
    ensures lines { IfOk result (λ lines. AreLines (T.pages timeline.now) (T.touches timeline.now)
        cases.now lines.items) }
    ensures refusal { IfErr result (λ e. e ≡ SweepError.Memory) }
{
    let mut lines = Vec::with_capacity(alloc, cases.len())?;
    for (number, case) in cases.iter().enumerate() {
        lines.push(line_or_new(alloc, timeline, case, taken[number].take())?)?;
    }
    Ok(lines)
}

/// Puts the lines that workers made into the slots of their cases. Only the contract needs the trace and the cases.
fn place_all<T: Timeline>(
    _timeline: &T,
    _cases: &[Settings],
    taken: &mut Vec<Option<Line>>,
    made: Vec<Result<Vec<CaseLine>, SweepError>>,
) -> Result<(), SweepError>
    requires made { All (IsWork (T.pages _timeline.now) (T.touches _timeline.now) _cases.now) made.items }
    requires taken { AreTaken (T.pages _timeline.now) (T.touches _timeline.now) _cases.now taken.old.items }
    ensures taken { OnOk result (AreTaken (T.pages _timeline.now) (T.touches _timeline.now) _cases.now
        taken.new.items) }
    ensures refusal { IfErr result (λ e. e ≡ SweepError.Memory) }
{
    for some in made {
        place(taken, some?);
    }
    Ok(())
}

/// Makes the lines of all cases on the caller's thread, and puts them into the slots of their cases.
fn make_alone<T: Timeline>(
    alloc: Global,
    timeline: &T,
    index: &RoundIndex,
    cases: &[Settings],
    taken: &mut Vec<Option<Line>>,
) -> Result<(), SweepError>
    requires index { IsRoundIndexOf (T.pages timeline.now) (T.touches timeline.now) index.now }
    requires taken { AreTaken (T.pages timeline.now) (T.touches timeline.now) cases.now taken.old.items }
    ensures taken { OnOk result (AreTaken (T.pages timeline.now) (T.touches timeline.now) cases.now taken.new.items) }
    ensures refusal { IfErr result (λ e. e ≡ SweepError.Memory) }
{
    let order = planned_order(alloc, cases)?;
    let made = take_cases(alloc, timeline, index, cases, &order, &AtomicUsize::new(0))?;
    place(taken, made);
    Ok(())
}

/// How many touches and pages a worker must look at, in all of its cases, to pay for its thread.
const WORTH_A_THREAD: usize = 1 << 20;

/// How many cases there must be for them to share an index.
const WORTH_AN_INDEX: usize = 2;

/// Returns how many workers are worth their threads: no more than are asked for, and no more than there are cases.
fn workers_for<T: Timeline>(timeline: &T, cases: usize, workers: usize) -> usize {
    let each = timeline.touch_count() + timeline.page_count() as usize;
    let most = cases.saturating_mul(each) / WORTH_A_THREAD;
    workers.min(cases).min(most)
}

/// Makes the lines of all cases, by workers side by side if it is worth starting threads, and puts them into the slots of
/// their cases.
fn make_lines<R: Threads + Sync, T: Timeline + Sync>(
    rt: &R,
    alloc: Global,
    timeline: &T,
    index: &RoundIndex,
    cases: &[Settings],
    workers: usize,
    taken: &mut Vec<Option<Line>>,
) -> Result<(), SweepError>
    requires index { IsRoundIndexOf (T.pages timeline.now) (T.touches timeline.now) index.now }
    requires taken { AreTaken (T.pages timeline.now) (T.touches timeline.now) cases.now taken.old.items }
    ensures taken { OnOk result (AreTaken (T.pages timeline.now) (T.touches timeline.now) cases.now taken.new.items) }
    ensures refusal { IfErr result (λ e. e ≡ SweepError.Memory) }
{
    let workers = workers_for(timeline, cases.len(), workers);
    if workers < 2 {
        return make_alone(alloc, timeline, index, cases, taken);
    }
    let order = planned_order(alloc, cases)?;
    let next = AtomicUsize::new(0);
    let work = |_worker: usize| -> Result<Vec<CaseLine>, SweepError>
        requires index { IsRoundIndexOf (T.pages timeline.now) (T.touches timeline.now) index.now }
        requires order { All (λ place. place.number < length cases.now) order.items }
        ensures made { IfOk result (λ made. AreNumbered (T.pages timeline.entry.now) (T.touches timeline.entry.now)
            cases.entry.now made.items) }
        ensures refusal { IfErr result (λ e. e ≡ SweepError.Memory) }
    { take_cases(alloc, timeline, index, cases, &order, &next) };
    let made = thread::map_indices(rt, alloc, workers, &work)?;
    place_all(timeline, cases, taken, made)?;
    Ok(())
}

/// Returns the lines of few cases, each from a plan of its own.
fn one_by_one<T: Timeline>(
    alloc: Global,
    timeline: &T,
    cases: &[Settings],
) -> Result<Vec<Line>, SweepError>
    ensures lines { IfOk result (λ lines. AreLines (T.pages timeline.now) (T.touches timeline.now)
        cases.now lines.items) }
    ensures refusal { IfErr result (λ e. e ≡ SweepError.Memory) }
{
    let mut lines = Vec::with_capacity(alloc, cases.len())?;
    for case in cases {
        lines.push(line_of(alloc, timeline, case)?)?;
    }
    Ok(lines)
}

/// Returns the line of each case, in order: the sums of its plan. Cases that begin alike share rounds. Up to `workers`
/// workers, 1 to 16, take some cases after others, if there is enough to do; the lines are the same for any number of
/// them. The error is `Memory`, if memory runs out for a list or for marks of pages.
pub fn sweep<R: Threads + Sync, T: Timeline + Sync>(
    rt: &R,
    alloc: Global,
    timeline: &T,
    cases: &[Settings],
    workers: usize,
) -> Result<Vec<Line>, SweepError>
    ensures lines { IfOk result (λ lines. AreLines (T.pages timeline.now) (T.touches timeline.now)
        cases.now lines.items) }
    ensures refusal { IfErr result (λ e. e ≡ SweepError.Memory) }
{
    if cases.len() < WORTH_AN_INDEX {
        return one_by_one(alloc, timeline, cases);
    }
    let index = RoundIndex::build(alloc, timeline).or(Err(SweepError::Memory))?;
    let mut taken = no_lines(alloc, cases.len())?;
    make_lines(rt, alloc, timeline, &index, cases, workers, &mut taken)?;
    in_order(alloc, timeline, cases, taken)
}

/// Returns the lines of [`sweep`], all made on the caller's thread.
pub fn sweep_in_turn<T: Timeline>(
    alloc: Global,
    timeline: &T,
    cases: &[Settings],
) -> Result<Vec<Line>, SweepError>
    ensures lines { IfOk result (λ lines. AreLines (T.pages timeline.now) (T.touches timeline.now)
        cases.now lines.items) }
    ensures refusal { IfErr result (λ e. e ≡ SweepError.Memory) }
{
    if cases.len() < WORTH_AN_INDEX {
        return one_by_one(alloc, timeline, cases);
    }
    let index = RoundIndex::build(alloc, timeline).or(Err(SweepError::Memory))?;
    let mut taken = no_lines(alloc, cases.len())?;
    make_alone(alloc, timeline, &index, cases, &mut taken)?;
    in_order(alloc, timeline, cases, taken)
}
