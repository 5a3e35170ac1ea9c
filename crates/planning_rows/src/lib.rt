//! Worked examples of settings, working sets, plans, reports, sweeps, times and sizes: only for tests.
#![tactic(auto)]

#[cfg(test)]
mod rows;
