//! The sending ends, by stream.

ghost use Rattle.std.specs.Prelude.{◌≡◌, [], length, map, replicate, IfOk, OnOk};
ghost use Rattle.std.specs.List.{All};
ghost use Rattle.stream_lanes.specs.Grids.{AddsRow, AreColumns};

use crate::ends::LaneOut;
use crate::error::LaneError;
use std::alloc::Global;

/// Returns this many streams with no ends, each with room for one end from each worker.
fn empty_columns(
    alloc: Global,
    streams: usize,
    workers: usize,
) -> Result<Vec<Vec<LaneOut>>, LaneError>
    ensures { IfOk result (λ columns. map (λ column. column.items) columns.items ≡ replicate streams []) }
{
    let mut columns = Vec::with_capacity(alloc, streams)?;
    for _ in 0..streams {
        columns.push(Vec::with_capacity(alloc, workers)?)?;
    }
    Ok(columns)
}

/// Adds one worker's ends, each to those of its stream.
fn add_row(columns: &mut Vec<Vec<LaneOut>>, row: Vec<LaneOut>) -> Result<(), LaneError>
    requires { length row.items ≡ length columns.old.items }
    ensures { OnOk result (AddsRow row.items columns.old.items columns.new.items) }
{
    for (stream, out) in row.into_iter().enumerate() {
        columns[stream].push(out)?;
    }
    Ok(())
}

/// Returns the sending ends, by stream: for each stream, the ends of all workers, in order.
pub fn by_stream(
    alloc: Global,
    streams: usize,
    rows: Vec<Vec<LaneOut>>,
) -> Result<Vec<Vec<LaneOut>>, LaneError>
    requires { All (λ row. length row.items ≡ streams) rows.items }
    ensures { IfOk result (λ columns. AreColumns streams rows.items columns.items) }
{
    let mut columns = empty_columns(alloc, streams, rows.len())?;
    for row in rows {
        add_row(&mut columns, row)?;
    }
    Ok(columns)
}
