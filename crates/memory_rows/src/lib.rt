//! Worked examples of the dirty log, versions, caches, images and the final copy: only for tests.
#![tactic(auto)]

#[cfg(test)]
mod rows;
