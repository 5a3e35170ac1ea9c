//! The rows of windows, in memory that is lent.

ghost use Rattle.std.specs.Prelude.{◌≡◌, ◌≤◌, ◌<◌, ◌↔◌, IsTrue, length};
ghost use Rattle.migration_model.specs.Windows.{rows_of};
ghost use Rattle.working_sets.specs.Lending.{HasRows, count_after, rows_after, rows_over};

use crate::counting::{OpenWindow, PageSeen, UNSEEN};
use crate::window::Window;
use guest_log::{Timeline, last_tick};
use rate_limit::Settings;

/// The row of one window, as it is lent: see [`Window`].
#[derive(Clone, Copy)]
#[repr(C)]
pub struct WindowNumbers {
    /// The window's number, from 0.
    pub number: u64,
    /// How many writes it has.
    pub writes: u64,
    /// How many pages are written in it.
    pub pages: u64,
    /// How many of those pages are written in the previous window too.
    pub again: u64,
    /// How many of those pages are written in no earlier window.
    pub fresh: u64,
}

/// Writes a row that has a write into a slot. Returns the slot of the next row.
fn put_row(rows: &mut [WindowNumbers], count: usize, row: Window) -> usize
    requires { 1 ≤ row.writes → count < length rows.old }
    ensures rows { rows.new ≡ rows_after rows.old count row }
    ensures count { result ≡ count_after count row }
{
    if row.writes == 0 {
        return count;
    }
    rows[count] = WindowNumbers {
        number: row.number,
        writes: row.writes as u64,
        pages: row.pages as u64,
        again: row.again as u64,
        fresh: row.fresh as u64,
    };
    count + 1
}

/// Returns whether this many slots are enough for the rows of the windows of a trace: as many as it has writes, or as
/// many as windows begin up to the last write.
pub fn has_rows<T: Timeline>(timeline: &T, settings: &Settings, slots: usize) -> bool
    ensures { IsTrue result ↔ HasRows (T.touches timeline.now) settings.now.window slots }
{
    timeline.touch_count() <= slots || last_tick(timeline) / settings.asked().window < slots as u64
}

/// Writes the rows of the windows of a trace over the front of `rows`, in ascending order. Returns how many there are.
/// It passes once over the touches, and allocates nothing: the caller lends a slot of `marks` for each page. What they
/// hold does not matter.
pub fn window_rows<T: Timeline>(
    timeline: &T,
    settings: &Settings,
    marks: &mut [PageSeen],
    rows: &mut [WindowNumbers],
) -> usize
    requires marks { T.pages timeline.now ≤ length marks.old }
    requires rows { HasRows (T.touches timeline.now) settings.now.window (length rows.old) }
    ensures rows { rows.new ≡ rows_over (rows_of (T.touches timeline.now) (T.pages timeline.now) settings.now.window)
        rows.old }
    ensures count { result ≡ length (rows_of (T.touches timeline.now) (T.pages timeline.now) settings.now.window) }
{
    let window = settings.asked().window;
    let (marks, _) = marks.split_at_mut(timeline.page_count() as usize);
    marks.fill(UNSEEN);
    let mut at = OpenWindow::first(window);
    let mut count = 0;
    for index in 0..timeline.touch_count() {
        let touch = timeline.touch(index);
        if let Some(row) = at.turn(window, touch.tick) {
            count = put_row(rows, count, row);
        }
        at.count(marks, touch.page);
    }
    put_row(rows, count, at.row)
}
