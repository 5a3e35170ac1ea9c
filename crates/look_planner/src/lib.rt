//! The plan of a hypervisor, which sends at one rate and looks at its dirty bitmap again only when few pages are left.
//!
//! [`look_plan`] makes the plan of a trace: the numbers of its lists, why and when it ends, what is left then, and the
//! downtime. [`look_sums`] keeps only the sums, in memory that is lent, and [`redrawn_sums`] those of the plan of pages
//! that are drawn again. The laws say what plans of the definition have in common: that there is one, that no page is
//! lost, that a look finds what was written, and when such a plan is Clark's.
//!
//! ```
//! let settings = LookSettings::new(asked)?;
//! let made = look_plan(alloc, &trace, &settings)?;
//! println!(rt; "{} at {}, {} pages left, down {} ticks", made.end, made.stop, made.last.len(), made.down)?;
//! ```
//!
//! Tests make these calls: `worked_looks`, `worked_sums` and `worked_redrawn_sums` of the crate `planning_rows`.
#![tactic(auto)]

mod bitmap;
mod drawn;
mod error;
mod laws;
mod pace;
mod parts;
mod planning;
mod settings;
mod summing;
mod sums;

pub use drawn::redrawn_sums;
pub use error::LookSettingsError;
pub use laws::{
    a_look_finds_what_was_written, clark_at_one_rate, low_sums, no_page_is_lost,
    nothing_left_is_no_window, one_look_plan, one_set_of_sums, sent_at_the_rate,
};
pub use parts::{ListRow, LookPlan, PlanEnd};
pub use planning::look_plan;
pub use settings::{LookAsked, LookSettings};
pub use summing::look_sums;
pub use sums::LookSums;
