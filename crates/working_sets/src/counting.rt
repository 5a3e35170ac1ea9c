//! One pass over the writes of a trace.

ghost use Rattle.std.specs.Prelude.{◌≡◌, ◌+◌, ◌^◌, ◌<◌};
ghost use Rattle.working_sets.specs.Counting.{blank, seen_at};

use crate::window::Window;

/// In which windows a page was written so far: 8 bytes of room.
#[derive(Clone, Copy)]
#[repr(C)]
pub struct PageSeen {
    /// The place of the last window that it is in, among those that were opened, from 1; or 0.
    pub last: u32,
    /// How many windows it is in.
    pub windows: u32,
}

/// What is kept of a page before any write.
pub(crate) const UNSEEN: PageSeen = PageSeen {
    last: 0,
    windows: 0,
};

/// The open window: the tick at which it ends, and its row so far. A window is opened for each that has a write, and
/// one before any write.
#[derive(Clone, Copy)]
pub(crate) struct OpenWindow {
    pub(crate) end: u64,
    /// Its place among the windows that were opened, from 1.
    pub(crate) place: u32,
    /// The place of the window whose number is one less, or 0 if that was not opened.
    pub(crate) before: u32,
    pub(crate) row: Window,
}

/// Returns the row of a window without writes.
pub(crate) fn blank_row(number: u64) -> Window
    ensures { result ≡ blank number }
{
    Window {
        number,
        writes: 0,
        pages: 0,
        again: 0,
        fresh: 0,
    }
}

/// Returns what is kept of a page after a write in the window of this place.
fn seen_after(seen: PageSeen, place: u32) -> PageSeen
    requires { seen.windows + 1 < 2 ^ 32 }
    ensures { result ≡ seen_at seen place }
{
    PageSeen {
        last: place,
        windows: seen.windows + u32::from(seen.last != place),
    }
}

impl OpenWindow {
    ghost use Rattle.std.specs.Prelude.{◌≡◌, ◌+◌, ◌^◌, ◌<◌, length, slice_index_or, slice_set};
    ghost use Rattle.working_sets.specs.Counting.{CanCount, CanOpen, HasRoom, counted_by, first_window, passed};
    ghost use Rattle.working_sets.specs.Counting.{row_closed, seen_at, turned_open, unseen, window_at};

    /// Returns the first window of this many ticks, without writes.
    pub(crate) fn first(window: u64) -> OpenWindow
        ensures { result ≡ first_window window }
    {
        OpenWindow {
            end: window,
            place: 1,
            before: 0,
            row: blank_row(0),
        }
    }

    /// Returns the window that holds a tick, without writes, if this one is open before.
    fn next(&self, window: u64, tick: u64) -> OpenWindow
        requires { CanOpen window tick self.now }
        ensures { result ≡ window_at window tick self.now }
    {
        let number = tick / window;
        OpenWindow {
            end: (number + 1) * window,
            place: self.place + 1,
            before: if number == self.row.number + 1 {
                self.place
            } else {
                0
            },
            row: blank_row(number),
        }
    }

    /// Closes the open window if a tick is after it, and opens the window of the tick. Returns the row that is closed.
    pub(crate) fn turn(&mut self, window: u64, tick: u64) -> Option<Window>
        requires { CanOpen window tick self.old }
        ensures window { self.new ≡ turned_open window tick self.old }
        ensures closed { result ≡ row_closed tick self.old }
    {
        if tick < self.end {
            return None;
        }
        let closed = self.row;
        *self = self.next(window, tick);
        Some(closed)
    }

    /// Notes that a page is written in this window, and counts nothing.
    pub(crate) fn pass(&self, marks: &mut [PageSeen], page: u32)
        requires { page < length marks.old }
        ensures { marks.new ≡ passed marks.old page self.now.place }
    {
        marks[page as usize].last = self.place;
    }

    /// Returns the row after one more write, to a page whose last window has this place.
    fn row_after(&self, last: u32) -> Window
        requires { HasRoom self.now.row }
        ensures { result ≡ counted_by self.now.row self.now.place self.now.before last }
    {
        let row = self.row;
        Window {
            number: row.number,
            writes: row.writes + 1,
            pages: row.pages + u32::from(last != self.place),
            again: row.again + u32::from(last == self.before && last != 0),
            fresh: row.fresh + u32::from(last == 0),
        }
    }

    /// Counts a write to the page.
    pub(crate) fn count(&mut self, marks: &mut [PageSeen], page: u32)
        requires { CanCount self.old.row marks.old page }
        ensures window { self.new ≡ record self.old {
          row = counted_by self.old.row self.old.place self.old.before (slice_index_or marks.old page unseen).last;
        } }
        ensures marks { marks.new ≡ slice_set marks.old page
            (seen_at (slice_index_or marks.old page unseen) self.old.place) }
    {
        let seen = marks[page as usize];
        marks[page as usize] = seen_after(seen, self.place);
        self.row = self.row_after(seen.last);
    }
}
