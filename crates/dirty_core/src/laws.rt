//! The laws of what steps and runs determine.
//!
//! A law is a function with an empty body: its contract is the law, and a call brings it into the caller's proof.

ghost use Rattle.std.specs.Prelude.{◌≡◌, ℕ, List};
ghost use Rattle.dirty_core.specs.declared.answer.Answer.{Answer};
ghost use Rattle.dirty_core.specs.declared.event.Event.{Event};
ghost use Rattle.dirty_core.specs.declared.refusal.CoreRefusal.{CoreRefusal};
ghost use Rattle.dirty_core.specs.Kept.{Goes, HasWords, Kept, Refuses};
ghost use Rattle.dirty_core.specs.Runs.{IsLegal, Stops};
ghost use Rattle.dirty_core.specs.Start.{Start};

/// An event has one answer and leads to one core, or is refused for one thing.
pub fn one_step()
    ensures answer { (old new other : Kept) (event : Event) (a b : Answer) → Goes old event a new
        → Goes old event b other → a ≡ b }
    ensures core { (old new other : Kept) (event : Event) (a b : Answer) → HasWords new → HasWords other
        → Goes old event a new → Goes old event b other → new ≡ other }
    ensures refusal { (kept : Kept) (event : Event) (a b : CoreRefusal) → Refuses kept event a
        → Refuses kept event b → a ≡ b }
{}

/// A run stops at one event, for one thing, and a legal run at none.
pub fn one_stop()
    ensures index { (start : Start) (events : List Event) (i j : ℕ) (a b : CoreRefusal) → Stops start events i a
        → Stops start events j b → i ≡ j }
    ensures refusal { (start : Start) (events : List Event) (i j : ℕ) (a b : CoreRefusal) → Stops start events i a
        → Stops start events j b → a ≡ b }
    ensures legal { (start : Start) (events : List Event) (index : ℕ) (refusal : CoreRefusal)
        → IsLegal start events → ¬ Stops start events index refusal }
{}
