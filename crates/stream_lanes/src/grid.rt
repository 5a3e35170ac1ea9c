//! The lanes between workers and streams.

use crate::ends::{LaneIn, LaneOut};

/// Lane (c, s) leads from worker c to stream s: its ends are `outs[c][s]` and `ins[s][c]`.
#[derive(Drop)]
pub struct Lanes {
    /// The sending ends: for each worker, one to each stream.
    pub outs: Vec<Vec<LaneOut>>,
    /// The taking ends: for each stream, one from each worker.
    pub ins: Vec<Vec<LaneIn>>,
}
