//! `precopy-view`: what precopy says about a trace, for people and for programs.
#![tactic(auto)]

#[cfg(test)]
mod advice_tests;
#[cfg(test)]
mod enough_tests;
mod faults;
#[cfg(test)]
mod looks_tests;
#[cfg(test)]
mod nearest_tests;
#[cfg(test)]
mod range_tests;
mod starting;
#[cfg(test)]
mod tests;
#[cfg(test)]
mod units_tests;

use crate::faults::refuse;
use crate::starting::start;
use byte_sinks::FromWrite;
use std::io::IsTerminal;
use std::process::ExitCode;
use trace_codec::FromRead;
use view_commands::{ViewWordsError, words};

fn main(rt: HostRuntime) -> ExitCode {
    let mut source = FromRead::new(rt.stdin());
    let output = rt.stdout();
    let is_terminal = output.is_terminal();
    let mut sink = FromWrite::new(output);
    let mut faults = FromWrite::new(rt.stderr());
    let status = match words(&rt) {
        Ok(words) => start(
            &rt,
            rt.alloc(),
            words,
            is_terminal,
            &mut source,
            &mut sink,
            &mut faults,
        ),
        Err(error) => refuse(ViewWordsError::Words(error), &mut sink, &mut faults),
    };
    ExitCode::from(status)
}
