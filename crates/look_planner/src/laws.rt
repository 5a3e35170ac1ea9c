//! Laws of the definitions that plans are proved to meet.
//!
//! A law is a function with an empty body: its contract is the law, and a call brings it into the caller's proof.

ghost use Rattle.std.specs.Prelude.{ℕ, ◌≡◌, ◌⊎◌, ◌*◌, ◌-◌, ◌<◌, ◌≤◌, IsTrue, List, false, length, slice_index_or};
ghost use Rattle.std.specs.List.{All};
ghost use Rattle.migration_model.specs.Looks.{AreHypervisorSettings, HypervisorPlan, HypervisorSettings};
ghost use Rattle.migration_model.specs.Looks.{IsHypervisorPlan, is_among, sent_of};
ghost use Rattle.migration_model.specs.Rates.{AreSettings, MigrationSettings, too_fast};
ghost use Rattle.migration_model.specs.Rounds.{IsPlan, MigrationPlan, pages_lacking};
ghost use Rattle.migration_model.specs.Touches.{GuestTouch, is_written};
ghost use Rattle.look_planner.specs.Laws.{AreLow, IsSentWith, no_list, pages_after, plan_like, settings_like};
ghost use Rattle.look_planner.specs.Sums.{AreSums};
ghost use Rattle.look_planner.specs.declared.sums.LookSums.{LookSums};

/// A guest's touches and the settings have one plan.
pub fn one_look_plan()
    ensures { (pages : ℕ) (touches : List GuestTouch) (s : HypervisorSettings) (p q : HypervisorPlan)
        → IsHypervisorPlan pages touches s p → IsHypervisorPlan pages touches s q → p ≡ q }
{}

/// A guest's touches and the settings have one set of sums.
pub fn one_set_of_sums()
    ensures { (pages : ℕ) (touches : List GuestTouch) (s : HypervisorSettings) (a b : LookSums)
        → AreSums pages touches s a → AreSums pages touches s b → a ≡ b }
{}

/// The sums of a plan are low, so that callers can add and multiply them.
pub fn low_sums()
    ensures { (pages : ℕ) (touches : List GuestTouch) (s : HypervisorSettings) (sums : LookSums) → pages ≤ 65_536
        → AreHypervisorSettings s → AreSums pages touches s sums → AreLow pages s sums }
{}

/// A look finds each page that was written since the last one: it is in the next list, or left at the end.
pub fn a_look_finds_what_was_written()
    ensures { (pages k page : ℕ) (touches : List GuestTouch) (s : HypervisorSettings) (plan : HypervisorPlan)
        → IsHypervisorPlan pages touches s plan → k < length plan.lists → page < pages
        → IsTrue (is_written touches (slice_index_or plan.lists k no_list).from (slice_index_or plan.lists k no_list).to
        page)
        → IsTrue (is_among page (pages_after plan k)) }
{}

/// No page is lost: each page that the destination lacks at the start, or that is written before the stop, is left at
/// the end, or it was sent with a list and not written from that list's first tick on.
pub fn no_page_is_lost()
    ensures { (pages page : ℕ) (touches : List GuestTouch) (s : HypervisorSettings) (plan : HypervisorPlan)
        → IsHypervisorPlan pages touches s plan → page < pages
        → IsTrue (is_among page (pages_lacking pages touches s.base s.start))
        ⊎ IsTrue (is_written touches s.start plan.stop page)
        → IsTrue (is_among page plan.last) ⊎ IsSentWith touches plan.lists plan.stop page }
{}

/// No more is sent than the rate allows.
pub fn sent_at_the_rate()
    ensures { (pages : ℕ) (touches : List GuestTouch) (s : HypervisorSettings) (plan : HypervisorPlan)
        → AreHypervisorSettings s → IsHypervisorPlan pages touches s plan
        → 1_000 * sent_of plan.lists ≤ s.rate * (plan.stop - s.start) }
{}

/// If all pages of each list are sent, the plan is that of a hypervisor that asks only then.
pub fn nothing_left_is_no_window()
    ensures { (pages : ℕ) (touches : List GuestTouch) (s : HypervisorSettings) (plan : HypervisorPlan)
        → AreHypervisorSettings s → IsHypervisorPlan pages touches s plan
        → All (λ list. list.sent ≡ length list.pages) plan.lists
        → IsHypervisorPlan pages touches (record s { window = 0 }) plan }
{}

/// Clark's plan at one rate, if it does not end because a round dirtied much, is the plan of a hypervisor that asks
/// only when all of a list is sent, and that looks at most as often as Clark's plan may have rounds.
pub fn clark_at_one_rate()
    ensures { (pages end : ℕ) (touches : List GuestTouch) (s : MigrationSettings) (plan : MigrationPlan)
        → AreSettings s → s.min ≡ s.max → s.skip ≡ false → IsPlan pages touches s plan
        → (plan.reason ≡ too_fast → ⊥) → plan.stop ≤ end
        → IsHypervisorPlan pages touches (settings_like s end) (plan_like plan) }
{}
