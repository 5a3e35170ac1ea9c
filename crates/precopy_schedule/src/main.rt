//! `precopy-schedule`: schedules of moves of guests, and the best of them. `precopy-evacuate` runs it.
#![tactic(auto)]

use byte_sinks::FromWrite;
use job_commands::{Program, refuse, words};
use move_schedules::start;
use std::process::ExitCode;
use trace_codec::FromRead;

fn main(rt: HostRuntime) -> ExitCode {
    let mut source = FromRead::new(rt.stdin());
    let mut sink = FromWrite::new(rt.stdout());
    let mut faults = FromWrite::new(rt.stderr());
    let status = match words(&rt) {
        Ok(words) => start(rt.alloc(), words, &mut source, &mut sink, &mut faults),
        Err(error) => refuse(Program::PrecopySchedule, error, &mut sink, &mut faults),
    };
    ExitCode::from(status)
}
