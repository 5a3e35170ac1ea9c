//! Schedules of moves of guests, and the best of them; the program `precopy-schedule` over words, a source and two
//! sinks.
#![tactic(auto)]

mod answers;
mod choosing;
mod command;
mod costs;
mod error;
mod faults;
mod laws;
mod moves;
mod plans;
mod scheduling;
mod starting;
mod texts;
mod words;

pub use choosing::best_schedule;
pub use costs::{ScheduleCost, schedule_cost};
pub use laws::{one_best_schedule, one_schedule};
pub use moves::{Move, Placement};
pub use scheduling::schedule;
pub use starting::start;
