//! Worked examples of settings, working sets, plans, reports, sweeps, times and sizes.

mod agreement;
mod answer;
mod course;
mod links;
mod look;
mod plan;
mod prediction;
mod quantity;
mod rate;
mod redrawn;
mod remedy;
mod schedule;
mod schedule_table;
mod share;
mod sums;
mod table;
mod text;
