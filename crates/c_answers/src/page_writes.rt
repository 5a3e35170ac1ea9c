//! The writes to a page.

ghost use Rattle.std.specs.Prelude.{◌≡◌, ◌<◌, ◌≤◌, length};
ghost use Rattle.guest_log.specs.Writes.{shown};
ghost use Rattle.c_answers.specs.Buffers.{over};
ghost use Rattle.c_answers.specs.Places.{row_at, rows_of};

use guest_log::WriteView;
use open_traces::OpenTrace;
use trace_codec::WriteLog;

/// A write to a page: C's `struct precopy_write`.
#[derive(Clone, Copy)]
#[repr(C)]
pub struct PageWrite {
    /// The tick of the write.
    pub tick: u64,
    /// How many bytes it writes; 0 if it releases the page.
    pub size: usize,
    /// Its place in the trace, 1 for the first write.
    pub place: u32,
    /// Where in the page it begins, in bytes.
    pub offset: u32,
}

/// Returns a write as C sees it.
fn row(place: u32, write: &WriteView<'_>) -> PageWrite
    ensures { result ≡ row_at (place, shown write.now) }
{
    PageWrite {
        tick: write.tick,
        size: write.bytes.len(),
        place,
        offset: write.offset as u32,
    }
}

/// Returns how many writes there are to a page. It looks at these alone.
pub fn count_writes(trace: &OpenTrace<'_>, page: u32) -> usize
    requires { page < trace.now.pages }
    ensures { result ≡ length (rows_of trace.now page) }
{
    // For the proof: a trace has at most 2^20 writes.
    let _ = trace.shape();
    let mut count = 0usize;
    let mut last = 0u32;
    let mut next = trace.behind(page, last);
    while next != 0 {
        count += 1;
        last = next;
        next = trace.behind(page, last);
    }
    count
}

/// Writes the writes to a page over the front of a buffer. It reads these alone.
pub fn put_writes(trace: &OpenTrace<'_>, page: u32, rows: &mut [PageWrite])
    requires page { page < trace.now.pages }
    requires room { length (rows_of trace.now page) ≤ length rows.old }
    ensures { rows.new ≡ over (rows_of trace.now page) rows.old }
{
    // For the proof: a trace has at most 2^20 writes.
    let _ = trace.shape();
    let mut count = 0usize;
    let mut last = 0u32;
    let mut next = trace.behind(page, last);
    while next != 0 {
        last = next;
        rows[count] = row(last, &trace.write(last as usize - 1));
        count += 1;
        next = trace.behind(page, last);
    }
}
