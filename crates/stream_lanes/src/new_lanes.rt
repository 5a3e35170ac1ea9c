//! Lanes from each worker to each stream.

ghost use Rattle.std.specs.Prelude.{◌≡◌, [], length, map, replicate, IfOk};
ghost use Rattle.stream_lanes.specs.Grids.{IsGrid, AddsLane, AddsWorker};

use crate::ends::{LaneIn, LaneOut, lane};
use crate::error::LaneError;
use crate::grid::Lanes;
use std::alloc::Global;

/// Returns this many streams with no ends, each with room for one end from each worker.
fn empty_ins(alloc: Global, streams: usize, workers: usize) -> Result<Vec<Vec<LaneIn>>, LaneError>
    ensures { IfOk result (λ ins. map (λ row. row.items) ins.items ≡ replicate streams []) }
{
    let mut ins = Vec::with_capacity(alloc, streams)?;
    for _ in 0..streams {
        ins.push(Vec::with_capacity(alloc, workers)?)?;
    }
    Ok(ins)
}

/// Makes a lane, and adds its taking end to those of its stream. Returns the sending end.
fn add_lane(alloc: Global, capacity: usize, ends: &mut Vec<LaneIn>) -> Result<LaneOut, LaneError>
    ensures { IfOk result (λ out. AddsLane capacity out ends.old.items ends.new.items) }
{
    let (out, end) = lane(alloc, capacity)?;
    ends.push(end)?;
    Ok(out)
}

/// Makes the lanes of one worker, one to each stream. Returns their sending ends.
fn add_worker(
    alloc: Global,
    capacity: usize,
    ins: &mut Vec<Vec<LaneIn>>,
) -> Result<Vec<LaneOut>, LaneError>
    ensures count { IfOk result (λ outs. length outs.items ≡ length ins.old.items) }
    ensures added { IfOk result (λ outs. AddsWorker capacity outs.items ins.old.items ins.new.items) }
{
    let mut outs = Vec::with_capacity(alloc, ins.len())?;
    for stream in 0..ins.len() {
        outs.push(add_lane(alloc, capacity, &mut ins[stream])?)?;
    }
    Ok(outs)
}

/// Returns a lane from each worker to each stream, each with room for `capacity` frames. No other lane call allocates.
pub fn lanes(
    alloc: Global,
    workers: usize,
    streams: usize,
    capacity: usize,
) -> Result<Lanes, LaneError>
    ensures { IfOk result (λ lanes. IsGrid workers streams capacity lanes.outs.items lanes.ins.items) }
{
    let mut ins = empty_ins(alloc, streams, workers)?;
    let mut outs = Vec::with_capacity(alloc, workers)?;
    for _ in 0..workers {
        outs.push(add_worker(alloc, capacity, &mut ins)?)?;
    }
    Ok(Lanes { outs, ins })
}
