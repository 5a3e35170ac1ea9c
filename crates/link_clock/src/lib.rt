//! A link whose rate changes while a guest migrates, and the plan of a hypervisor over it.
//!
//! Such a link has a clock, which goes on by a tick in a tick at the link's full rate, and by less at lower ones. By
//! that clock the link has one rate, so [`LinkTimeline`] shows a guest's touches by it, and each planner can plan them.
//! [`link_sums`] makes the sums of a hypervisor's plan, and tells its stop and its downtime in ticks of the trace. The
//! laws say that there is one set of them, and that the clock of a link goes on with the ticks if its rate stays.
//!
//! ```
//! let link = Link::new(rate, changes)?;
//! let sums = link_sums(&trace, &link, &settings, &mut marks, &mut room);
//! println!(rt; "{} at {}, {} pages left, down {} ticks", sums.end, sums.stop, sums.left, sums.down)?;
//! ```
//!
//! Tests make these calls: `worked_links` of the crate `planning_rows`.
#![tactic(auto)]

mod error;
mod laws;
mod link;
mod planning;
mod timeline;

pub use error::LinkError;
pub use laws::{clock_of_one_rate, no_clock_is_faster, one_set_of_link_sums};
pub use link::{Link, LinkChange};
pub use planning::link_sums;
pub use timeline::LinkTimeline;
