//! Plans from lines of numbers.

ghost use Rattle.std.specs.Prelude.{◌≡◌, ◌+◌, ◌*◌, ◌<◌, ◌≤◌, IfErr, IfOk, false, length, map, true};
ghost use Rattle.std.specs.Str.Lines.{lines};
ghost use Rattle.std.specs.List.{AllZip};
ghost use Rattle.move_schedules.specs.Tables.{HostPlan, IsNoPlan, RefusesLines, RefusesTable, SpellsPlan};
ghost use Rattle.move_schedules.specs.Tables.{SpellsTable};
ghost use Rattle.move_schedules.specs.Tables.{count_in, is_plan, move_at, option_of, plan_in};

use crate::error::{PlanError, TableError};
use crate::moves::Move;
use crate::words::{lines_of, numbers_of};
use std::alloc::Global;
use std::marker::Model;

/// The most guests that move at a time.
const MOST_SLOTS: u64 = 65_536;

/// Which moves are to be made, in order, how many at a time, and by when, if there is a deadline.
#[derive(Drop)]
pub(crate) struct Plan {
    pub(crate) slots: usize,
    pub(crate) deadline: Option<u64>,
    pub(crate) moves: Vec<Move>,
}

impl Model for Plan {
    ghost use Rattle.std.specs.Prelude.{◌≤◌};
    ghost use Rattle.move_schedules.specs.Tables.{HostPlan};

    ghost Value = { HostPlan };

    ghost view = { λ p. record { slots = p.slots; deadline = p.deadline; moves = p.moves.items } };

    ghost invariant = { λ p. 1 ≤ p.slots };
}

/// Returns a number, if it is not 0.
fn option_of(number: u64) -> Option<u64>
    ensures { result ≡ option_of number }
{
    if number == 0 { None } else { Some(number) }
}

/// Returns whether these are the numbers of a plan.
fn is_plan(numbers: &[u64]) -> bool
    ensures { result ≡ is_plan numbers.now }
{
    let count = numbers.len();
    count >= 2 && (count - 2) % 5 == 0 && 1 <= numbers[0] && numbers[0] <= MOST_SLOTS
}

/// Returns the move of a guest, by its place.
fn move_at(numbers: &[u64], place: usize) -> Move
    requires { 2 + 5 * place + 4 < length numbers.now }
    ensures { result ≡ move_at numbers.now place }
{
    let first = 2 + 5 * place;
    Move {
        time: numbers[first],
        bytes: numbers[first + 1],
        downtime: numbers[first + 2],
        is_kept: numbers[first + 3] != 0,
        group: option_of(numbers[first + 4]),
    }
}

/// Returns the plan of some numbers.
fn plan_of(alloc: Global, numbers: &[u64]) -> Result<Plan, PlanError>
    ensures made { IfOk result (λ plan. plan ≡ plan_in numbers.now) }
    ensures accepted { IfOk result (λ _. is_plan numbers.now ≡ true) }
    ensures refused { IfErr result (λ e. e ≡ PlanError.NoPlan → is_plan numbers.now ≡ false) }
{
    if !is_plan(numbers) {
        return Err(PlanError::NoPlan);
    }
    let count = (numbers.len() - 2) / 5;
    let mut moves = Vec::with_capacity(alloc, count)?;
    for place in 0..count {
        moves.push(move_at(numbers, place))?;
    }
    Ok(Plan {
        slots: numbers[0] as usize,
        deadline: option_of(numbers[1]),
        moves,
    })
}

/// Returns the plan of a line.
fn plan_in_line(alloc: Global, line: &str) -> Result<Plan, PlanError>
    ensures spelled { IfOk result (SpellsPlan line.now) }
    ensures refused { IfErr result (λ e. e ≡ PlanError.NoPlan → IsNoPlan line.now) }
{
    let numbers = numbers_of(alloc, line)?;
    plan_of(alloc, &numbers)
}

/// Returns the plans of some lines.
fn plans_in_lines(alloc: Global, lines: &[&str]) -> Result<Vec<Plan>, TableError>
    ensures spelled { IfOk result (λ v. AllZip SpellsPlan (map (λ x. x.now) lines.now) v.items) }
    ensures refused { IfErr result (RefusesLines (map (λ x. x.now) lines.now)) }
{
    let mut plans = Vec::with_capacity(alloc, lines.len())?;
    for (number, line) in lines.iter().enumerate() {
        match plan_in_line(alloc, line) {
            Ok(plan) => plans.push(plan)?,
            Err(PlanError::Memory) => return Err(TableError::Memory),
            Err(PlanError::NoPlan) => return Err(TableError::Line(number + 1)),
        }
    }
    Ok(plans)
}

/// Returns the plans of a text, one a line.
fn plans_in_text(alloc: Global, text: &str) -> Result<Vec<Plan>, TableError>
    ensures spelled { IfOk result (λ v. AllZip SpellsPlan (lines text.now) v.items) }
    ensures refused { IfErr result (RefusesLines (lines text.now)) }
{
    let lines = lines_of(alloc, text)?;
    plans_in_lines(alloc, &lines)
}

/// Returns the plans of a table.
pub(crate) fn plans_of(alloc: Global, bytes: &[u8]) -> Result<Vec<Plan>, TableError>
    ensures spelled { IfOk result (λ v. SpellsTable bytes.now v.items) }
    ensures refused { IfErr result (RefusesTable bytes.now) }
{
    match str::from_utf8(bytes) {
        Ok(text) => plans_in_text(alloc, text),
        Err(_) => Err(TableError::NoText),
    }
}
