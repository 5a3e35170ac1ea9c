//! The search for the amount at which an aim begins to be reached.

ghost use Rattle.std.specs.Prelude.{◌≡◌, ◌↔◌, ◌≤◌, ◌/◌, ◌^◌, not, if◌then◌else◌, IfSome, IsTrue, None, Some, length};
ghost use Rattle.predictions.specs.Remedies.{IsFirst, IsLeast, IsSlowed, TurnsAt, TurnsNear, TurnsNowhere, far_way};
ghost use Rattle.predictions.specs.Remedies.Trials.{KeepsWith, ReachesWith};
ghost use Rattle.predictions.specs.declared.remedies.change.Change.TheVariants as changes;
ghost use Rattle.predictions.specs.declared.remedies.way.Way.TheVariants as ways;
ghost use Rattle.page_bitmap.specs.Listing.{word_count};

use crate::remedies::aim::Aim;
use crate::remedies::change::Change;
use crate::remedies::trial::{Trial, reaches};
use crate::remedies::way::Way;
use guest_log::Timeline;
use round_planner::RoundRow;

/// What is changed, and what is to be reached by that.
#[derive(Clone, Copy)]
pub(crate) struct Goal {
    pub(crate) change: Change,
    pub(crate) aim: Aim,
}

/// A goal, and whether it is reached where the search begins.
#[derive(Clone, Copy)]
pub(crate) struct Search {
    pub(crate) goal: Goal,
    pub(crate) is_reached: bool,
}

/// Where the answer turns: the first amount with the other answer, and the amount before it.
#[derive(Clone, Copy)]
pub(crate) struct Turn {
    pub(crate) before: u64,
    pub(crate) at: u64,
}

/// Returns whether a trial reaches a goal with another amount.
fn reaches_with<T: Timeline>(
    timeline: &T,
    trial: &Trial,
    goal: Goal,
    amount: u64,
    marks: &mut [u64],
    list: &mut [u32],
    rows: &mut [RoundRow],
) -> bool
    requires marks { length marks.old ≡ word_count (T.pages timeline.now) }
    requires list { length list.old ≡ T.pages timeline.now }
    requires rows { 64 ≤ length rows.old }
    ensures { IsTrue result ↔ ReachesWith goal.aim (T.pages timeline.now) (T.touches timeline.now) trial.now goal.change
        amount }
{
    match goal.change.made(trial, amount) {
        Some(made) => reaches(timeline, &made, goal.aim, marks, list, rows),
        None => false,
    }
}

/// Returns where the answer turns on a way, if it does.
fn turn_on<T: Timeline>(
    timeline: &T,
    trial: &Trial,
    search: Search,
    way: Way,
    marks: &mut [u64],
    list: &mut [u32],
    rows: &mut [RoundRow],
) -> Option<Turn>
    requires marks { length marks.old ≡ word_count (T.pages timeline.now) }
    requires list { length list.old ≡ T.pages timeline.now }
    requires rows { 64 ≤ length rows.old }
    ensures some { IfSome result (λ turn. TurnsAt (ReachesWith search.goal.aim (T.pages timeline.now)
        (T.touches timeline.now) trial.now search.goal.change) search.is_reached way turn.before turn.at) }
    ensures none { result ≡ None → TurnsNowhere (ReachesWith search.goal.aim (T.pages timeline.now)
        (T.touches timeline.now) trial.now search.goal.change) search.is_reached way }
{
    for n in 0..way.count() {
        let at = way.amount(n + 1);
        if reaches_with(timeline, trial, search.goal, at, marks, list, rows) != search.is_reached {
            let before = way.amount(n);
            return Some(Turn { before, at });
        }
    }
    None
}

/// Returns where the answer turns between two amounts, of which the second has the other answer.
fn closer<T: Timeline>(
    timeline: &T,
    trial: &Trial,
    search: Search,
    turn: Turn,
    marks: &mut [u64],
    list: &mut [u32],
    rows: &mut [RoundRow],
) -> Turn
    requires marks { length marks.old ≡ word_count (T.pages timeline.now) }
    requires list { length list.old ≡ T.pages timeline.now }
    requires rows { 64 ≤ length rows.old }
    requires turned { IsTrue (not search.is_reached) ↔ ReachesWith search.goal.aim (T.pages timeline.now)
        (T.touches timeline.now) trial.now search.goal.change turn.at }
    ensures { TurnsAt (ReachesWith search.goal.aim (T.pages timeline.now) (T.touches timeline.now) trial.now
        search.goal.change) search.is_reached (ways.Between turn.before turn.at) result.before result.at }
{
    let way = Way::Between(turn.before, turn.at);
    match turn_on(timeline, trial, search, way, marks, list, rows) {
        Some(nearer) => nearer,
        None => turn,
    }
}

/// Returns the way from an amount that keeps the limit, or that does not.
fn far_way(start: u64, is_kept: bool) -> Way
    ensures { result ≡ far_way start is_kept }
{
    if is_kept {
        Way::Down(start)
    } else {
        Way::Up(start)
    }
}

/// Returns the amount that is found if the answer turns here.
fn kept_side(turn: Turn, is_kept: bool) -> u64
    ensures { result ≡ (if is_kept then turn.before else turn.at) }
{
    if is_kept { turn.before } else { turn.at }
}

/// Returns where the answer turns nearest on a way, if it does.
fn near_turn<T: Timeline>(
    timeline: &T,
    trial: &Trial,
    search: Search,
    way: Way,
    marks: &mut [u64],
    list: &mut [u32],
    rows: &mut [RoundRow],
) -> Option<Turn>
    requires marks { length marks.old ≡ word_count (T.pages timeline.now) }
    requires list { length list.old ≡ T.pages timeline.now }
    requires rows { 64 ≤ length rows.old }
    ensures some { IfSome result (λ turn. TurnsNear (ReachesWith search.goal.aim (T.pages timeline.now)
        (T.touches timeline.now) trial.now search.goal.change) search.is_reached way turn.before turn.at) }
    ensures none { result ≡ None → TurnsNowhere (ReachesWith search.goal.aim (T.pages timeline.now)
        (T.touches timeline.now) trial.now search.goal.change) search.is_reached way }
{
    let far = turn_on(timeline, trial, search, way, marks, list, rows)?;
    let near = closer(timeline, trial, search, far, marks, list, rows);
    Some(closer(timeline, trial, search, near, marks, list, rows))
}

/// Returns the first amount of a way that reaches a goal, if that with which it begins does not.
pub(crate) fn first_on<T: Timeline>(
    timeline: &T,
    trial: &Trial,
    goal: Goal,
    way: Way,
    marks: &mut [u64],
    list: &mut [u32],
    rows: &mut [RoundRow],
) -> Option<u64>
    requires marks { length marks.old ≡ word_count (T.pages timeline.now) }
    requires list { length list.old ≡ T.pages timeline.now }
    requires rows { 64 ≤ length rows.old }
    ensures { IsFirst (ReachesWith goal.aim (T.pages timeline.now) (T.touches timeline.now) trial.now goal.change) way
        result }
{
    let search = Search {
        goal,
        is_reached: false,
    };
    match near_turn(timeline, trial, search, way, marks, list, rows) {
        Some(turn) => Some(turn.at),
        None => None,
    }
}

/// Returns the least amount that reaches a goal, near a start.
pub(crate) fn least<T: Timeline>(
    timeline: &T,
    trial: &Trial,
    goal: Goal,
    start: u64,
    marks: &mut [u64],
    list: &mut [u32],
    rows: &mut [RoundRow],
) -> Option<u64>
    requires marks { length marks.old ≡ word_count (T.pages timeline.now) }
    requires list { length list.old ≡ T.pages timeline.now }
    requires rows { 64 ≤ length rows.old }
    ensures { IsLeast (ReachesWith goal.aim (T.pages timeline.now) (T.touches timeline.now) trial.now goal.change) start
        result }
{
    let is_reached = reaches_with(timeline, trial, goal, start, marks, list, rows);
    let search = Search { goal, is_reached };
    let way = far_way(start, is_reached);
    match near_turn(timeline, trial, search, way, marks, list, rows) {
        Some(turn) => Some(kept_side(turn, is_reached)),
        None => unturned(start, is_reached),
    }
}

/// Returns the amount that is found if the answer turns nowhere: a 64th of one that keeps the limit.
fn unturned(start: u64, is_kept: bool) -> Option<u64>
    ensures { result ≡ (if is_kept then Some (start / 2 ^ 6) else None) }
{
    if is_kept { Some(start >> 6) } else { None }
}

/// Returns the speed to which the guest has to be slowed, if the limit is not kept at its own.
pub(crate) fn slowed<T: Timeline>(
    timeline: &T,
    trial: &Trial,
    is_kept: bool,
    marks: &mut [u64],
    list: &mut [u32],
    rows: &mut [RoundRow],
) -> Option<u64>
    requires marks { length marks.old ≡ word_count (T.pages timeline.now) }
    requires list { length list.old ≡ T.pages timeline.now }
    requires rows { 64 ≤ length rows.old }
    ensures { IsSlowed (KeepsWith (T.pages timeline.now) (T.touches timeline.now) trial.now changes.Speed) is_kept
        result }
{
    if is_kept {
        return None;
    }
    let goal = Goal {
        change: Change::Speed,
        aim: Aim::Limit,
    };
    let search = Search {
        goal,
        is_reached: is_kept,
    };
    match turn_on(timeline, trial, search, Way::Slower, marks, list, rows) {
        Some(turn) => Some(turn.at),
        None => None,
    }
}
