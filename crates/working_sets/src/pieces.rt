//! Pieces of a trace, which workers count side by side.
//!
//! A window may be cut, and a page may be written in two pieces of it. Each worker first notes the last window of each
//! page up to where its piece begins. So it knows which pages its windows have already, and its counts have only to be
//! added to those of the pieces before.

ghost use Rattle.std.specs.Prelude.{◌≡◌, ◌+◌, ◌<◌, ◌≤◌, ◌^◌, IfErr, IfOk, OnOk, length};
ghost use Rattle.working_sets.specs.Pieces.{BeginsSo, CarriesSo, IsMade, cut_at, pushed, state_at};

use crate::counting::{OpenWindow, PageSeen, UNSEEN};
use crate::error::TablesError;
use crate::window::Window;
use guest_log::Timeline;
use rate_limit::Settings;
use std::alloc::{AllocError, Global};

/// What is counted over a piece of the touches.
#[derive(Drop)]
pub(crate) struct Piece {
    /// The rows that are closed in it. The first goes on with the window that is open before it.
    pub(crate) rows: Vec<Window>,
    /// The window that is open after it. If no row is closed it goes on with the window that is open before it.
    pub(crate) at: OpenWindow,
    /// In which windows each page is: the last one of all touches so far, and how many of this piece that are not of
    /// the touches before it.
    pub(crate) marks: Vec<PageSeen>,
}

/// Where a piece begins: the open window, without what is counted in it, and of each page its last window.
#[derive(Drop)]
struct Start {
    at: OpenWindow,
    marks: Vec<PageSeen>,
}

/// Returns where a piece begins, by the touches before `from`.
fn start_of<T: Timeline>(
    alloc: Global,
    timeline: &T,
    settings: &Settings,
    from: usize,
) -> Result<Start, AllocError>
    requires { from ≤ length (T.touches timeline.now) }
    ensures { IfOk result (λ start. BeginsSo
        (state_at settings.now.window (T.pages timeline.now) (T.touches timeline.now) from) from start.at
        start.marks.items) }
{
    let window = settings.asked().window;
    let mut marks = Vec::from_elem(alloc, UNSEEN, timeline.page_count() as usize)?;
    // For the proof: this promises that touches are in order.
    let _ = timeline.touch_count();
    let mut at = OpenWindow::first(window);
    for index in 0..from {
        let touch = timeline.touch(index);
        at.turn(window, touch.tick);
        at.pass(&mut marks, touch.page);
    }
    Ok(Start { at, marks })
}

/// Appends a row that a piece closes: the first in any case, since it goes on with a window of before.
fn push_closed(rows: &mut Vec<Window>, row: Window) -> Result<(), AllocError>
    ensures { OnOk result (rows.new.items ≡ pushed rows.old.items row) }
{
    if row.writes == 0 && !rows.is_empty() {
        return Ok(());
    }
    rows.push(row)?;
    Ok(())
}

/// Returns what is counted over the touches from `from` on and before `to`.
pub(crate) fn count_piece<T: Timeline>(
    alloc: Global,
    timeline: &T,
    settings: &Settings,
    from: usize,
    to: usize,
) -> Result<Piece, TablesError>
    requires order { from ≤ to }
    requires low { to ≤ length (T.touches timeline.now) }
    ensures piece { IfOk result (λ piece. CarriesSo
        (state_at settings.now.window (T.pages timeline.now) (T.touches timeline.now) from)
        (state_at settings.now.window (T.pages timeline.now) (T.touches timeline.now) to) to
        piece.rows.items piece.at piece.marks.items) }
    ensures refusal { IfErr result (λ e. e ≡ TablesError.Memory) }
{
    let window = settings.asked().window;
    // For the proof: these promise that there are few pages, and that touches are in order.
    let _ = timeline.page_count();
    let _ = timeline.touch_count();
    let Start { mut at, mut marks } = start_of(alloc, timeline, settings, from)?;
    let mut rows = Vec::new(alloc);
    for index in from..to {
        let touch = timeline.touch(index);
        if let Some(row) = at.turn(window, touch.tick) {
            push_closed(&mut rows, row)?;
        }
        at.count(&mut marks, touch.page);
    }
    Ok(Piece { rows, at, marks })
}

/// Returns the touch at which the piece of a number begins, if each has so many touches.
fn cut<T: Timeline>(timeline: &T, each: usize, number: usize) -> usize
    ensures { result ≡ cut_at (T.touches timeline.now) each number }
{
    number.saturating_mul(each).min(timeline.touch_count())
}

/// Returns the piece of a number, if each has so many touches.
pub(crate) fn piece_of<T: Timeline>(
    alloc: Global,
    timeline: &T,
    settings: &Settings,
    each: usize,
    number: usize,
) -> Result<Piece, TablesError>
    requires { number + 1 < 2 ^ 64 }
    ensures { IsMade settings.now.window (T.pages timeline.now) (T.touches timeline.now) each number result }
{
    let (from, to) = (cut(timeline, each, number), cut(timeline, each, number + 1));
    count_piece(alloc, timeline, settings, from, to)
}
