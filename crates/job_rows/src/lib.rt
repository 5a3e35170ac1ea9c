//! Worked examples of jobs: only for tests.
#![tactic(auto)]

#[cfg(test)]
mod tests;
