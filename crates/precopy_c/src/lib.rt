//! The calls that a program in C, or in a language that calls C, makes: plans, reports, sweeps, predictions, what is
//! enough for a limit, memory, versions of pages, frames, and traces that are written.
//!
//! `include/precopy.h` declares them, and says what a caller must do. No call keeps anything between two calls but in
//! what the caller lends, starts a thread or waits. A call returns 0, or the number of a refusal; it has then written
//! only what its contract names. `c_answers` finds what a call tells.
#![tactic(auto)]

mod migration_plans;
mod migration_questions;
mod open_trace_checks;
mod open_trace_memory;
mod open_trace_plans;
mod page_frames;
mod stream_checks;
mod trace_memory;
mod trace_recordings;
mod unstamped_checks;
