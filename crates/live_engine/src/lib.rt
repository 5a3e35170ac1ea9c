//! Migrates a running guest: replayers change its pages while copiers send them, and receivers take them.
//!
//! [`live_run`] returns the guest's memory at the plan's stop tick and after all writes; under every schedule both are
//! what the trace's writes leave. [`migrate`] leaves the memory in the parts that arrived, for a caller that writes it
//! page by page. A [`Gate`] is called at each [`Point`]; it may observe or wait there, and so choose a schedule.
//!
//! ```
//! // Three copiers, two streams and four replayers; `rt` may start threads and wait.
//! let settings = Settings::new(Asked { workers: 3, streams: 2, replayers: 4, ..asked })?;
//! let live = live_run(rt, alloc, &trace, &settings, &OpenGate)?;
//! for round in &live.rounds {
//!     println!(rt; "sent {}, deferred {}", round.sent.len(), round.deferred.len())?;
//! }
//! ```
//!
//! Tests make these calls: `many_threads_and_streams_make_the_same_memory` of the crate `live_schedules`.
#![tactic(auto)]

mod error;
mod laws;
mod live_round;
mod migration;
mod opening;
mod preparation;
mod receivers;
mod rounds;
mod stop_and_copy;
mod stopped;
mod threads;
mod warm;

pub use error::LiveError;
pub use laws::due_in_the_first_round;
pub use live_round::LiveRound;
pub use live_tasks::{Gate, OpenGate, Point};
pub use migration::{Live, live_run, migrate};
pub use stopped::StoppedGuest;
