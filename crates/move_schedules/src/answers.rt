//! The schedule of each plan, and which is the best.

ghost use Rattle.std.specs.Prelude.{◌≡◌, [], IfOk, OnOk, length, map};
ghost use Rattle.std.specs.List.{AllZip, IsFirstBest};
ghost use Rattle.move_schedules.specs.Choices.{is_better_schedule};
ghost use Rattle.move_schedules.specs.Answers.{IsAnswer, cost_in};

use crate::costs::{ScheduleCost, schedule_cost};
use crate::moves::Placement;
use crate::plans::Plan;
use crate::scheduling::schedule;
use std::alloc::{AllocError, Global};
use std::marker::Model;

/// The schedule of a plan, and what it costs.
#[derive(Drop)]
pub(crate) struct Answer {
    pub(crate) placed: Vec<Placement>,
    pub(crate) cost: ScheduleCost,
}

impl Model for Answer {
    ghost use Rattle.move_schedules.specs.Answers.{PlanAnswer};

    ghost Value = { PlanAnswer };

    ghost view = { λ a. record { placed = a.placed.items; cost = a.cost } };
}

/// Returns the schedule of a plan.
fn answer_of(alloc: Global, plan: &Plan) -> Result<Answer, AllocError>
    ensures { IfOk result (IsAnswer plan.now) }
{
    let placed = schedule(alloc, plan.slots, &plan.moves)?;
    let cost = schedule_cost(&plan.moves, &placed, plan.deadline);
    Ok(Answer { placed, cost })
}

/// Returns the schedule of each plan.
pub(crate) fn answers_of(alloc: Global, plans: &[Plan]) -> Result<Vec<Answer>, AllocError>
    ensures { IfOk result (λ v. AllZip IsAnswer plans.now v.items) }
{
    let mut answers = Vec::with_capacity(alloc, plans.len())?;
    for plan in plans {
        answers.push(answer_of(alloc, plan)?)?;
    }
    Ok(answers)
}

/// Returns when the moves of an answer run.
pub(crate) fn placed_of(answer: &Answer) -> &[Placement]
    ensures { result.now ≡ answer.now.placed }
{
    &answer.placed
}

/// Returns what the schedule of an answer costs.
fn cost_of(answer: &Answer) -> ScheduleCost
    ensures { result ≡ cost_in answer.now }
{
    answer.cost
}

/// Returns what each schedule costs.
pub(crate) fn costs_of(alloc: Global, answers: &[Answer]) -> Result<Vec<ScheduleCost>, AllocError>
    ensures { IfOk result (λ v. v.items ≡ map cost_in answers.now) }
{
    let mut costs = Vec::with_capacity(alloc, answers.len())?;
    for answer in answers {
        costs.push(cost_of(answer))?;
    }
    Ok(costs)
}
