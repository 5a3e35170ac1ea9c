//! Laws of links whose rates change.
//!
//! A law is a function with an empty body: its contract is the law, and a call brings it into the caller's proof.

ghost use Rattle.std.specs.Prelude.{ℕ, ◌≡◌, ◌≤◌, List, []};
ghost use Rattle.migration_model.specs.Looks.{HypervisorSettings};
ghost use Rattle.migration_model.specs.Touches.{GuestTouch};
ghost use Rattle.look_planner.specs.declared.sums.LookSums.{LookSums};
ghost use Rattle.link_clock.specs.Links.{ChangingLink, IsLink, clock_at, link_with};
ghost use Rattle.link_clock.specs.Plans.{AreLinkSums};

/// A guest's touches, a link and the settings have one set of sums.
pub fn one_set_of_link_sums()
    ensures { (pages : ℕ) (touches : List GuestTouch) (link : ChangingLink) (s : HypervisorSettings) (a b : LookSums)
        → AreLinkSums pages touches link s a → AreLinkSums pages touches link s b → a ≡ b }
{}

/// The clock of a link whose rate stays goes on with the ticks: over such a link each plan is that at one rate.
pub fn clock_of_one_rate()
    ensures { (rate tick : ℕ) → 1 ≤ rate → clock_at (link_with rate []) tick ≡ tick }
{}

/// No clock of a link is faster than the ticks, and none goes back.
pub fn no_clock_is_faster()
    ensures early { (link : ChangingLink) (tick : ℕ) → IsLink link → clock_at link tick ≤ tick }
    ensures later { (link : ChangingLink) (tick later : ℕ) → IsLink link → tick ≤ later
        → clock_at link tick ≤ clock_at link later }
{}
