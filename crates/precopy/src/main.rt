//! `precopy`: what a pre-copy migration of a recorded guest would do.
#![tactic(auto)]

mod faults;
mod starting;
#[cfg(test)]
mod tests;

pub use crate::starting::start;
use byte_sinks::FromWrite;
pub use byte_sinks::Sink;
use job_commands::{Program, refuse, words};
pub use migration_jobs::{Job, RunError, Show, run};
use std::process::ExitCode;
use trace_codec::FromRead;

fn main(rt: HostRuntime) -> ExitCode {
    let mut source = FromRead::new(rt.stdin());
    let mut sink = FromWrite::last(rt.stdout());
    let mut faults = FromWrite::new(rt.stderr());
    let status = match words(&rt) {
        Ok(words) => start(&rt, rt.alloc(), words, &mut source, &mut sink, &mut faults),
        Err(error) => refuse(Program::Precopy, error, &mut sink, &mut faults),
    };
    ExitCode::from(status)
}
