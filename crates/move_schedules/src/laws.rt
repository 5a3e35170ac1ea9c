//! Laws of the definitions that schedules are proved to meet.
//!
//! A law is a function with an empty body: its contract is the law.

ghost use Rattle.std.specs.Prelude.{ℕ, ◌≡◌, List};
ghost use Rattle.move_schedules.specs.Choices.{IsBestSchedule};
ghost use Rattle.move_schedules.specs.Schedules.{IsSchedule};
ghost use Rattle.move_schedules.specs.declared.costs.ScheduleCost.{ScheduleCost};
ghost use Rattle.move_schedules.specs.declared.moves.Move.{Move};
ghost use Rattle.move_schedules.specs.declared.moves.Placement.{Placement};

/// Moves have one schedule.
pub fn one_schedule()
    ensures { (slots : ℕ) (moves : List Move) (a b : List Placement) → IsSchedule slots moves a
        → IsSchedule slots moves b → a ≡ b }
{}

/// Schedules have one best, the first of equals.
pub fn one_best_schedule()
    ensures { (costs : List ScheduleCost) (a b : ℕ) → IsBestSchedule costs a → IsBestSchedule costs b → a ≡ b }
{}
