//! Laws of the definitions that advice is proved to meet.
//!
//! A law is a function with an empty body: its contract is the law, and a call brings it into the caller's proof.

ghost use Rattle.std.specs.Prelude.{◌≡◌, List, Option};
ghost use Rattle.migration_model.specs.Sweeps.{SweepLine};
ghost use Rattle.migration_model.specs.Touches.{GuestTouches};
ghost use Rattle.trace_views.specs.Advice.{IsAdvice};
ghost use Rattle.trace_views.specs.declared.advice.Advice.{Advice};
ghost use Rattle.view_kinds.specs.declared.budget.Budget.{Budget};
ghost use Rattle.view_kinds.specs.declared.view.Measured.{Measured};

/// One case is advised for a budget.
pub fn one_advice()
    ensures { (log : GuestTouches) (measured : Option Measured) (budget : Budget) (lines : List SweepLine)
        (a b : Advice) → IsAdvice log measured budget lines a → IsAdvice log measured budget lines b → a ≡ b }
{}
