//! The tables of a trace.

ghost use Rattle.std.specs.Prelude.{◌≡◌, ◌+◌, ◌<◌, ◌≤◌, ◌^◌, IfErr, IfOk, OnOk, length};
ghost use Rattle.migration_model.specs.Windows.{working_sets_of};
ghost use Rattle.working_sets.specs.Counting.{with_row};
ghost use Rattle.working_sets.specs.Pieces.{IsMade};

use crate::counting::{OpenWindow, UNSEEN};
use crate::error::TablesError;
use crate::hot::hot_pages;
use crate::joining::{join_pieces, tables_of};
use crate::pieces::{Piece, piece_of};
use crate::window::{Tables, Window};
use guest_log::Timeline;
use rate_limit::Settings;
use std::alloc::{AllocError, Global};
use std::thread;
use std::thread::Threads;

/// Appends a row that has a write.
pub(crate) fn push_row(rows: &mut Vec<Window>, row: Window) -> Result<(), AllocError>
    ensures { OnOk result (rows.new.items ≡ with_row rows.old.items row) }
{
    if row.writes == 0 {
        return Ok(());
    }
    rows.push(row)?;
    Ok(())
}

/// Returns the rows of the windows of a trace, and its hot pages. It passes once over the touches, whatever the length
/// of a window. The error is `Memory`, if memory runs out for the marks of the pages, the rows or the hot pages.
pub fn tables<T: Timeline>(
    alloc: Global,
    timeline: &T,
    settings: &Settings,
) -> Result<Tables, TablesError>
    ensures answer { IfOk result (λ tables. tables
        ≡ working_sets_of (T.pages timeline.now) (T.touches timeline.now) settings.now) }
    ensures refusal { IfErr result (λ e. e ≡ TablesError.Memory) }
{
    let asked = settings.asked();
    let mut marks = Vec::from_elem(alloc, UNSEEN, timeline.page_count() as usize)?;
    let mut rows = Vec::new(alloc);
    let mut at = OpenWindow::first(asked.window);
    for index in 0..timeline.touch_count() {
        let touch = timeline.touch(index);
        if let Some(row) = at.turn(asked.window, touch.tick) {
            push_row(&mut rows, row)?;
        }
        at.count(&mut marks, touch.page);
    }
    push_row(&mut rows, at.row)?;
    let hot = hot_pages(alloc, &marks, asked.hot)?;
    Ok(Tables { windows: rows, hot })
}

/// How many touches a worker must count to pay for its thread.
const WORTH_A_THREAD: usize = 1 << 16;

/// Returns how many pieces a trace is cut into: one for each worker, if they are worth their threads.
fn pieces_for<T: Timeline>(timeline: &T, workers: usize) -> usize
    ensures { result ≤ length (T.touches timeline.now) }
{
    workers.min(timeline.touch_count() / WORTH_A_THREAD)
}

/// Returns the tables of a trace that is cut into pieces, which workers count side by side.
fn tables_by_pieces<R: Threads + Sync, T: Timeline + Sync>(
    rt: &R,
    alloc: Global,
    timeline: &T,
    settings: &Settings,
    pieces: usize,
) -> Result<Tables, TablesError>
    requires some { 1 ≤ pieces }
    requires few { pieces ≤ length (T.touches timeline.now) }
    ensures answer { IfOk result (λ tables. tables
        ≡ working_sets_of (T.pages timeline.now) (T.touches timeline.now) settings.now) }
    ensures refusal { IfErr result (λ e. e ≡ TablesError.Memory) }
{
    // So many that all pieces together have every touch: the last may have fewer.
    let each = timeline.touch_count() / pieces + 1;
    let work = |number: usize| -> Result<Piece, TablesError>
        requires { number + 1 < 2 ^ 64 }
        ensures { IsMade settings.entry.now.window (T.pages timeline.entry.now) (T.touches timeline.entry.now)
            each number result }
    { piece_of(alloc, timeline, settings, each, number) };
    let made = thread::map_indices(rt, alloc, pieces, &work)?;
    let joined = join_pieces(alloc, timeline, settings, each, made)?;
    tables_of(alloc, timeline, settings, joined)
}

/// Returns the tables of `tables`, by 1 to 16 workers: each counts a piece of the touches, if it has enough of them to
/// pay for its thread. A piece may begin within a window. The tables are the same for every number of workers.
pub fn par_tables<R: Threads + Sync, T: Timeline + Sync>(
    rt: &R,
    alloc: Global,
    timeline: &T,
    settings: &Settings,
    workers: usize,
) -> Result<Tables, TablesError>
    ensures answer { IfOk result (λ tables. tables
        ≡ working_sets_of (T.pages timeline.now) (T.touches timeline.now) settings.now) }
    ensures refusal { IfErr result (λ e. e ≡ TablesError.Memory) }
{
    let pieces = pieces_for(timeline, workers);
    if pieces < 2 {
        return tables(alloc, timeline, settings);
    }
    tables_by_pieces(rt, alloc, timeline, settings, pieces)
}
