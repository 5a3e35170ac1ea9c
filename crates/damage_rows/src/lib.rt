//! Damaged traces, and reads and writes that fail at each call: only for tests.
#![tactic(auto)]

#[cfg(test)]
mod failing_rows;
#[cfg(test)]
mod input_rows;
