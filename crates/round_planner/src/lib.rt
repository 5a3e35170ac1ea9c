//! The planned rounds of a pre-copy migration, after Clark and others (2005), sections 4, 5.3 and 5.4.
//!
//! [`plan`] makes the whole plan of a trace: its rounds with their pages, why and when they end, what is left, and the
//! downtime. A [`Planner`] makes the sums of many plans of one trace, for sweeps, and cannot fail. Rounds
//! that plans share, it works out once.
//!
//! ```
//! let settings = Settings::new(asked)?;
//! let made = plan(alloc, &trace, &settings)?;
//! println!(rt; "stop at {}, {} pages left, down {} ticks", made.stop, made.last.len(), made.down)?;
//!
//! // The sums of a second plan, with pages skipped: the index of the trace is made once.
//! let index = RoundIndex::build(alloc, &trace)?;
//! let mut planner = Planner::new(alloc, &trace)?;
//! let outcome = planner.outcome(&trace, &index, &Settings::new(Asked { skip: true, ..asked })?);
//! ```
//!
//! A planner of its own goes from round to round by [`Step`], [`RoundNumbers`], [`SentPages`], [`RoundSums`] and
//! [`Following`], and marks and skips pages with [`mark_until`] and [`may_skip`]: the crate `predictions` plans redrawn
//! samples that way.
//!
//! Tests make these calls: `worked_plans` of the crate `planning_rows`.
#![tactic(auto)]

mod error;
mod index;
mod known;
mod laws;
mod marked;
mod numbers;
mod pace;
mod parts;
mod planner;
mod planning;
mod scan;
mod step;
mod tally;

pub use error::PlanError;
pub use index::RoundIndex;
pub use laws::{one_following, one_plan};
pub use marked::{SentPages, plan_rows};
pub use numbers::{Following, RoundNumbers, RoundSums};
pub use parts::{Outcome, Plan, Round, RoundRow};
pub use planner::Planner;
pub use planning::{may_skip, par_plan, plan};
pub use scan::mark_until;
pub use step::Step;
