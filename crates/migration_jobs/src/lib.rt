//! The jobs of precopy as calls: a trace is read from a source, and the whole output of a job is written to a sink.
#![tactic(auto)]

mod error;
mod imaging;
mod live;
mod output;
mod running;
mod shown;
mod written_memory;

pub use error::RunError;
pub use job_kinds::{Job, Show};
pub use running::run;
