//! Live runs under schedules that a caller chooses, only for tests.
#![tactic(auto)]

#[cfg(test)]
mod gates;
#[cfg(test)]
mod lane_tests;
#[cfg(test)]
mod tests;
#[cfg(test)]
mod warm_tests;
