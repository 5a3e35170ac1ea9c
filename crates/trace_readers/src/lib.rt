//! Traces read from a source piece by piece, or held as their bytes: what reports, sweeps and live runs read.
//!
//! [`TouchLog`] keeps when each write was and to which page, and nothing of what is written; tables, plans and sweeps
//! need only that. [`HeldTrace`] keeps the bytes of the trace and the offset of each record; a live run needs it.
#![tactic(auto)]

mod front_records;
mod held_trace;
mod incoming_trace;
mod pieces;
mod sampling;
mod text_reading;
mod touch_log;
mod visiting;
mod write_visitor;

pub use held_trace::HeldTrace;
pub use incoming_trace::IncomingTrace;
pub use touch_log::TouchLog;
pub use write_visitor::WriteVisitor;
