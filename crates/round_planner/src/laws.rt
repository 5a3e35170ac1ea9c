//! Laws of the definitions that plans are proved to meet.
//!
//! A law is a function with an empty body: its contract is the law, and a call brings it into the caller's proof.

ghost use Rattle.std.specs.Prelude.{ℕ, ◌≡◌, List};
ghost use Rattle.migration_model.specs.Rates.{MigrationSettings};
ghost use Rattle.migration_model.specs.Rounds.{IsPlan, MigrationPlan};
ghost use Rattle.migration_model.specs.Touches.{GuestTouch};
ghost use Rattle.round_planner.specs.Steps.{IsFollowing};
ghost use Rattle.round_planner.specs.declared.numbers.Following.{Following};
ghost use Rattle.round_planner.specs.declared.numbers.RoundNumbers.{RoundNumbers};
ghost use Rattle.round_planner.specs.declared.numbers.RoundSums.{RoundSums};

/// A guest's touches and the settings have one plan.
pub fn one_plan()
    ensures { (pages : ℕ) (touches : List GuestTouch) (settings : MigrationSettings) (p q : MigrationPlan)
        → IsPlan pages touches settings p → IsPlan pages touches settings q → p ≡ q }
{}

/// After a round that ran so, there is one thing that follows.
pub fn one_following()
    ensures { (settings : MigrationSettings) (now : RoundNumbers) (ran : RoundSums) (a b : Following)
        → IsFollowing settings now ran a → IsFollowing settings now ran b → a ≡ b }
{}
