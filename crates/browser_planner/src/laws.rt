//! The laws of refusals: a call refuses for one thing.
//!
//! A law is a function with an empty body: its contract is the law, and a call brings it into the caller's proof.

ghost use Rattle.std.specs.Prelude.{◌≡◌, ℕ, List};
ghost use Rattle.migration_model.specs.Rates.{MigrationSettings};
ghost use Rattle.browser_planner.specs.Plans.{RefusesPlan};
ghost use Rattle.browser_planner.specs.Windows.{RefusesWindows};
ghost use Rattle.browser_planner.specs.declared.answers.Refusal.{Refusal};
ghost use Rattle.browser_planner.specs.declared.plans.PlanRoom.{PlanRoom};
ghost use Rattle.browser_planner.specs.declared.windows.WindowRoom.{WindowRoom};

/// A plan is refused for one thing.
pub fn one_refused_plan()
    ensures { (bytes : List ℕ) (settings : MigrationSettings) (room : PlanRoom) (a b : Refusal)
        → RefusesPlan bytes settings room a → RefusesPlan bytes settings room b → a ≡ b }
{}

/// Windows are refused for one thing.
pub fn one_refusal_of_windows()
    ensures { (bytes : List ℕ) (settings : MigrationSettings) (room : WindowRoom) (a b : Refusal)
        → RefusesWindows bytes settings room a → RefusesWindows bytes settings room b → a ≡ b }
{}
