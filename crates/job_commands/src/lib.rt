//! Command lines: words in, a job or a refusal out; and what all programs tell alike: help, fault lines and statuses.
#![tactic(auto)]

mod cases;
mod command;
mod options;
mod program;
mod telling;

pub use cases::{cases_and_workers, with_cases};
pub use command::{WordsError, WordsRefusal, job_of, leaf_command, refusal_of, words};
pub use options::{
    Number, flag, is_flag, number, number_given, number_or, settings_of, sweep_options,
    with_numbers, with_report, with_sweep,
};
pub use program::Program;
pub use telling::{fault, known_fault, refuse, tell_line};
