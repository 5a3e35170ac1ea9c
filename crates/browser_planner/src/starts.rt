//! The choice of a start: the best and the worst of several answers.

// `IsChoice` holds of one value alone: `one_choice`.

ghost use Rattle.std.specs.Prelude.{◌≡◌, ◌≤◌, ◌<◌, ℕ, List, length, slice_index_or};
ghost use Rattle.std.specs.List.{IsFirstBest};
ghost use Rattle.browser_planner.specs.declared.starts.LentChoice.{LentChoice};
ghost use Rattle.browser_planner.specs.declared.starts.LentStart.{LentStart};
ghost use Rattle.browser_planner.specs.Starts.{IsChoice, cost_in, errors_in, is_better_lent, is_worse_lent};
ghost use Rattle.browser_planner.specs.Starts.{known_count, start_in};

use predictions::redrawn::Errors;
use predictions::starts::{StartCost, is_better_known, is_worse_known};
use predictions::{Answer, Cost, ErrorNumbers};

/// The number of a verdict that tells nothing.
const UNKNOWN: u32 = 2;

/// A start: the answer to the question from there, and the standard errors of that, if they are counted.
#[derive(Clone, Copy)]
#[repr(C)]
pub struct LentStart {
    /// The answer.
    pub answer: Answer,
    /// Its standard errors.
    pub errors: ErrorNumbers,
}

/// The places of the best and of the worst of some starts.
#[derive(Clone, Copy)]
#[repr(C)]
pub struct LentChoice {
    /// The place of the best, from 0.
    pub best: u64,
    /// The place of the worst.
    pub worst: u64,
}

/// Returns what a migration costs by an answer.
fn cost_of(clark: u32, answer: &Answer) -> Cost
    ensures { result ≡ cost_in clark answer.now }
{
    Cost {
        steps: answer.rounds,
        time: answer.time as u128,
        bytes: answer.bytes as u128,
        downtime: answer.downtime as u128,
        is_kept: answer.kept == 0,
        is_bounded: clark == 0 && answer.reason == 0,
        is_late: answer.kept == UNKNOWN,
    }
}

/// Returns standard errors, if they are given.
fn errors_of(numbers: &ErrorNumbers) -> Option<Errors>
    ensures { result ≡ errors_in numbers.now }
{
    if numbers.has_errors == 0 {
        return None;
    }
    Some(Errors {
        bytes: numbers.bytes as u128,
        time: numbers.time as u128,
        downtime: numbers.downtime as u128,
    })
}

/// Returns what a migration costs from a start.
fn start_of(clark: u32, start: &LentStart) -> StartCost
    ensures { result ≡ start_in clark start.now }
{
    StartCost {
        start: 0,
        cost: cost_of(clark, &start.answer),
        errors: errors_of(&start.errors),
    }
}

/// Returns whether a start is better than another.
fn is_better(limit: u64, clark: u32, start: &LentStart, other: &LentStart) -> bool
    ensures { result ≡ is_better_lent limit clark start.now other.now }
{
    is_better_known(limit, &start_of(clark, start), &start_of(clark, other))
}

/// Returns whether a start is worse than another.
fn is_worse(limit: u64, clark: u32, start: &LentStart, other: &LentStart) -> bool
    ensures { result ≡ is_worse_lent limit clark start.now other.now }
{
    is_worse_known(limit, &start_of(clark, start), &start_of(clark, other))
}

/// Returns whether the start at a place is better than that at another.
fn is_better_at(limit: u64, clark: u32, starts: &[LentStart], place: usize, other: usize) -> bool
    requires place { place < length starts.now }
    requires other { other < length starts.now }
    ensures { (d : LentStart) → result ≡ is_better_lent limit clark (slice_index_or starts.now place d)
        (slice_index_or starts.now other d) }
{
    is_better(limit, clark, &starts[place], &starts[other])
}

/// Returns whether the start at a place is worse than that at another.
fn is_worse_at(limit: u64, clark: u32, starts: &[LentStart], place: usize, other: usize) -> bool
    requires place { place < length starts.now }
    requires other { other < length starts.now }
    ensures { (d : LentStart) → result ≡ is_worse_lent limit clark (slice_index_or starts.now place d)
        (slice_index_or starts.now other d) }
{
    is_worse(limit, clark, &starts[place], &starts[other])
}

/// Returns the place of the first start that no other is better than.
fn best_place(limit: u64, clark: u32, starts: &[LentStart]) -> usize
    requires { 1 ≤ length starts.now }
    ensures { IsFirstBest (is_better_lent limit clark) starts.now (length starts.now) result }
{
    let mut best = 0;
    for number in 1..starts.len() {
        if is_better_at(limit, clark, starts, number, best) {
            best = number;
        }
    }
    best
}

/// Returns the place of the first start that no other is worse than.
fn worst_place(limit: u64, clark: u32, starts: &[LentStart]) -> usize
    requires { 1 ≤ length starts.now }
    ensures { IsFirstBest (is_worse_lent limit clark) starts.now (length starts.now) result }
{
    let mut worst = 0;
    for number in 1..starts.len() {
        if is_worse_at(limit, clark, starts, number, worst) {
            worst = number;
        }
    }
    worst
}

/// Returns how many answers tell something.
fn count_known(starts: &[LentStart]) -> usize
    ensures { result ≡ known_count starts.now }
{
    let mut known = 0usize;
    for start in starts {
        known += usize::from(start.answer.kept != UNKNOWN);
    }
    known
}

/// Answers how many of some answers to the same question, each from another start, tell something: the others are of
/// migrations that end after the trace. Finds the best of those that do beside the limit of the downtime, with the
/// errors that are given, and the worst without errors; of each the first of equals. `clark` is that of the question.
/// If none does, the two are of no use; without an answer they stay as they are.
#[unsafe(no_mangle)]
pub extern "C" fn lent_chosen_starts(
    starts: &[LentStart],
    limit: u64,
    clark: u32,
    choice: &mut LentChoice,
) -> usize
    ensures known { result ≡ known_count starts.now }
    ensures chosen { IsChoice limit clark starts.now choice.old choice.new }
{
    if starts.is_empty() {
        return 0;
    }
    *choice = LentChoice {
        best: best_place(limit, clark, starts) as u64,
        worst: worst_place(limit, clark, starts) as u64,
    };
    count_known(starts)
}

/// Of some starts one is chosen as the best, and one as the worst. A law: the body is empty.
pub fn one_choice()
    ensures { (limit clark : ℕ) (starts : List LentStart) (old a b : LentChoice) → IsChoice limit clark starts old a
        → IsChoice limit clark starts old b → a ≡ b }
{}
