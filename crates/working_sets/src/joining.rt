//! Pieces of a trace that workers counted, joined in order.

ghost use Rattle.std.specs.Prelude.{◌≡◌, ◌+◌, ◌<◌, ◌≤◌, ◌^◌, ℕ, IfErr, IfOk, OnOk, length, slice_index_or};
ghost use Rattle.migration_model.specs.Windows.{working_sets_of};
ghost use Rattle.working_sets.specs.Counting.{unseen};
ghost use Rattle.working_sets.specs.Pieces.{AreMade, FitsRow, IsJoined, IsPiece, added, cut_at, head_of, row_with};
ghost use Rattle.working_sets.specs.Pieces.{rows_with, state_at};

use crate::counting::{PageSeen, UNSEEN, blank_row};
use crate::error::TablesError;
use crate::hot::hot_pages;
use crate::pieces::Piece;
use crate::window::{Tables, Window};
use crate::window_tables::push_row;
use guest_log::Timeline;
use rate_limit::Settings;
use std::alloc::{AllocError, Global};

/// Pieces that follow one another, joined.
#[derive(Drop)]
pub(crate) struct Joined {
    /// The rows of windows that are closed.
    pub(crate) rows: Vec<Window>,
    /// The row of the open window.
    pub(crate) row: Window,
    /// In how many windows each page is.
    pub(crate) marks: Vec<PageSeen>,
}

/// Returns the row of one window from two counts of different touches.
fn sum_of(row: Window, more: Window) -> Window
    requires { FitsRow (added row more) }
    ensures { result ≡ added row more }
{
    Window {
        number: row.number,
        writes: row.writes + more.writes,
        pages: row.pages + more.pages,
        again: row.again + more.again,
        fresh: row.fresh + more.fresh,
    }
}

/// Appends the rows that a piece closes. Returns the row of the window that is open after it.
fn push_rows(
    rows: &mut Vec<Window>,
    last: Window,
    closed: &[Window],
    row: Window,
) -> Result<Window, AllocError>
    requires { FitsRow (added last (head_of closed.now row)) }
    ensures rows { OnOk result (rows.new.items ≡ rows_with rows.old.items last closed.now) }
    ensures row { IfOk result (λ it. it ≡ row_with last closed.now row) }
{
    match closed.split_first() {
        None => Ok(sum_of(last, row)),
        Some((head, rest)) => {
            push_row(rows, sum_of(last, *head))?;
            rows.extend_from_slice(rest)?;
            Ok(row)
        }
    }
}

/// Adds the windows of a piece to those of the pieces before it, page by page.
fn add_windows(sums: &mut [PageSeen], marks: &[PageSeen])
    requires len { length sums.old ≡ length marks.now }
    requires fits { (page : ℕ) → page < length marks.now → (slice_index_or sums.old page unseen).windows
        + (slice_index_or marks.now page unseen).windows < 2 ^ 32 }
    ensures len { length sums.new ≡ length sums.old }
    ensures each { (page : ℕ) → page < length marks.now → (slice_index_or sums.new page unseen).windows
        ≡ (slice_index_or sums.old page unseen).windows + (slice_index_or marks.now page unseen).windows }
{
    for page in 0..marks.len() {
        sums[page].windows += marks[page].windows;
    }
}

/// Joins the piece of a number to those before it. Only the contract needs the trace.
fn join_piece<T: Timeline>(
    timeline: &T,
    settings: &Settings,
    each: usize,
    number: usize,
    joined: &mut Joined,
    piece: Piece,
) -> Result<(), AllocError>
    requires joined { IsJoined (state_at settings.now.window (T.pages timeline.now) (T.touches timeline.now)
        (cut_at (T.touches timeline.now) each number)) joined.old }
    requires piece { IsPiece settings.now.window (T.pages timeline.now) (T.touches timeline.now) each number piece }
    ensures { OnOk result (IsJoined (state_at settings.now.window (T.pages timeline.now) (T.touches timeline.now)
        (cut_at (T.touches timeline.now) each (number + 1))) joined.new) }
{
    // For the proof: these promise that settings are in range, and that touches are in order.
    let _ = settings.asked();
    let _ = timeline.page_count();
    let _ = timeline.touch_count();
    joined.row = push_rows(&mut joined.rows, joined.row, &piece.rows, piece.at.row)?;
    add_windows(&mut joined.marks, &piece.marks);
    Ok(())
}

/// Returns the tables before any piece. Only the contract needs the length of a piece.
fn nothing_joined<T: Timeline>(
    alloc: Global,
    timeline: &T,
    _settings: &Settings,
    _each: usize,
) -> Result<Joined, AllocError>
    ensures { IfOk result (IsJoined (state_at _settings.now.window (T.pages timeline.now) (T.touches timeline.now)
        (cut_at (T.touches timeline.now) _each 0))) }
{
    Ok(Joined {
        rows: Vec::new(alloc),
        row: blank_row(0),
        marks: Vec::from_elem(alloc, UNSEEN, timeline.page_count() as usize)?,
    })
}

/// Joins pieces in order.
pub(crate) fn join_pieces<T: Timeline>(
    alloc: Global,
    timeline: &T,
    settings: &Settings,
    each: usize,
    made: Vec<Result<Piece, TablesError>>,
) -> Result<Joined, TablesError>
    requires { AreMade settings.now.window (T.pages timeline.now) (T.touches timeline.now) each 0 made.items }
    ensures joined { IfOk result (IsJoined (state_at settings.now.window (T.pages timeline.now)
        (T.touches timeline.now) (cut_at (T.touches timeline.now) each (length made.items)))) }
    ensures refusal { IfErr result (λ e. e ≡ TablesError.Memory) }
{
    let mut joined = nothing_joined(alloc, timeline, settings, each)?;
    let mut number = 0;
    for piece in made {
        join_piece(timeline, settings, each, number, &mut joined, piece?)?;
        number += 1;
    }
    Ok(joined)
}

/// Returns the tables of all pieces.
pub(crate) fn tables_of<T: Timeline>(
    alloc: Global,
    timeline: &T,
    settings: &Settings,
    joined: Joined,
) -> Result<Tables, TablesError>
    requires { IsJoined (state_at settings.now.window (T.pages timeline.now) (T.touches timeline.now)
        (length (T.touches timeline.now))) joined }
    ensures answer { IfOk result (λ tables. tables
        ≡ working_sets_of (T.pages timeline.now) (T.touches timeline.now) settings.now) }
    ensures refusal { IfErr result (λ e. e ≡ TablesError.Memory) }
{
    // For the proof: these promise that there are few pages, and that touches are in order.
    let _ = timeline.page_count();
    let _ = timeline.touch_count();
    let asked = settings.asked();
    let Joined {
        mut rows,
        row,
        marks,
    } = joined;
    push_row(&mut rows, row)?;
    let hot = hot_pages(alloc, &marks, asked.hot)?;
    Ok(Tables { windows: rows, hot })
}
