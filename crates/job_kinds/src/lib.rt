//! The jobs of precopy as values: what can be asked for over one trace.
#![tactic(auto)]

mod job;

pub use job::{Job, Show};
