//! What is told of plans, as a text.

ghost use Rattle.std.specs.Prelude.{◌≡◌, ◌↔◌, ◌++◌, ◌<◌, [], Err, IfErr, IfOk, OnOk, length, map};
ghost use Rattle.std.specs.List.{flat_map};
ghost use Rattle.move_schedules.specs.Answers.{IsAnswerText, answer_text, best_line, cost_line, mark_of};
ghost use Rattle.move_schedules.specs.Answers.{placement_line, wide_field};
ghost use Rattle.move_schedules.specs.Ends.{RefusesPlans};

use crate::answers::{answers_of, costs_of, placed_of};
use crate::choosing::best_schedule;
use crate::costs::ScheduleCost;
use crate::error::TableError;
use crate::moves::Placement;
use crate::plans::Plan;
use predictions::push_wide;
use std::alloc::{AllocError, Global};
use sweep_report::end_line;

/// Appends words and a number.
#[tactic(auto, unfolding(crate::specs::Answers::wide_field))]
fn push_field(text: &mut Vec<u8>, words: &str, number: u128) -> Result<(), AllocError>
    ensures { OnOk result (text.new.items ≡ text.old.items ++ wide_field words.now number) }
{
    text.extend_from_slice(words.as_bytes())?;
    push_wide(text, number)
}

/// Appends whether all limits are kept, and ends the line.
fn push_mark(text: &mut Vec<u8>, is_kept: bool) -> Result<(), AllocError>
    ensures { OnOk result (text.new.items ≡ text.old.items ++ mark_of is_kept) }
{
    let words = if is_kept { " kept\n" } else { " missed\n" };
    text.extend_from_slice(words.as_bytes())
}

/// Appends what a schedule costs, as a line.
#[tactic(auto, unfolding(crate::specs::Answers::cost_line))]
fn push_cost(text: &mut Vec<u8>, cost: &ScheduleCost) -> Result<(), AllocError>
    ensures { OnOk result (text.new.items ≡ text.old.items ++ cost_line cost.now) }
{
    push_field(text, "time ", cost.time)?;
    push_field(text, " bytes ", cost.bytes)?;
    push_field(text, " downtime ", cost.downtime as u128)?;
    push_mark(text, cost.is_kept)
}

/// Appends a line for each schedule.
fn push_costs(text: &mut Vec<u8>, costs: &[ScheduleCost]) -> Result<(), AllocError>
    ensures { OnOk result (text.new.items ≡ text.old.items ++ flat_map cost_line costs.now) }
{
    for cost in costs {
        push_cost(text, cost)?;
    }
    Ok(())
}

/// Appends when a move runs, as a line.
#[tactic(auto, unfolding(crate::specs::Answers::placement_line))]
fn push_placement(text: &mut Vec<u8>, placement: &Placement) -> Result<(), AllocError>
    ensures { OnOk result (text.new.items ≡ text.old.items ++ placement_line placement.now) }
{
    push_field(text, "start ", placement.start)?;
    push_field(text, " end ", placement.end)?;
    push_field(text, " slot ", placement.slot as u128)?;
    end_line(text)
}

/// Appends a line for each move of a schedule.
fn push_placements(text: &mut Vec<u8>, placed: &[Placement]) -> Result<(), AllocError>
    ensures { OnOk result (text.new.items ≡ text.old.items ++ flat_map placement_line placed.now) }
{
    for placement in placed {
        push_placement(text, placement)?;
    }
    Ok(())
}

/// Appends which schedule is the best, as a line.
fn push_best(text: &mut Vec<u8>, best: usize) -> Result<(), AllocError>
    ensures { OnOk result (text.new.items ≡ text.old.items ++ best_line best) }
{
    push_field(text, "best ", best as u128)?;
    end_line(text)
}

/// Returns what is told of schedules.
fn text_of(
    alloc: Global,
    costs: &[ScheduleCost],
    best: usize,
    placed: &[Placement],
) -> Result<Vec<u8>, AllocError>
    ensures { IfOk result (λ text. text.items ≡ answer_text costs.now best placed.now) }
{
    let mut text = Vec::new(alloc);
    push_costs(&mut text, costs)?;
    push_best(&mut text, best)?;
    push_placements(&mut text, placed)?;
    Ok(text)
}

/// Returns what is told of some plans: a line on the schedule of each, the place of the best, and a line on each of its
/// moves.
fn text_of_plans(alloc: Global, plans: &[Plan]) -> Result<Vec<u8>, TableError>
    ensures told { IfOk result (λ text. IsAnswerText plans.now text.items) }
    ensures refused { IfErr result (RefusesPlans plans.now) }
{
    let answers = answers_of(alloc, plans)?;
    let costs = costs_of(alloc, &answers)?;
    match best_schedule(&costs) {
        Some(best) => Ok(text_of(alloc, &costs, best, placed_of(&answers[best]))?),
        None => Err(TableError::NoPlans),
    }
}

/// Returns what is told of some plans. That there is none is told without any memory.
pub(crate) fn told(alloc: Global, plans: &[Plan]) -> Result<Vec<u8>, TableError>
    ensures told { IfOk result (λ text. IsAnswerText plans.now text.items) }
    ensures refused { IfErr result (RefusesPlans plans.now) }
    ensures none { (result ≡ Err TableError.NoPlans) ↔ (plans.now ≡ []) }
{
    if plans.is_empty() {
        return Err(TableError::NoPlans);
    }
    text_of_plans(alloc, plans)
}
