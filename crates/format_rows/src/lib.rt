//! Worked examples of traces, frames, streams and parts, of what is wrong in streams, and of lanes and receivers: only
//! for tests.
#![tactic(auto)]

#[cfg(test)]
mod rows;
