//! The texts that are printed, as exact functions of tables, plans and lines.
#![tactic(auto)]

mod cases;
mod error;
mod line;
mod lines;
mod order;
mod report;
mod sweeping;

pub use cases::{best_case, push_case, sweep_text};
pub use error::SweepError;
pub use line::Line;
pub use lines::{end_line, push_field};
pub use report::report_text;
pub use sweeping::{sweep, sweep_in_turn};
