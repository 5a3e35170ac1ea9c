//! Where the records of a trace are, and their pages.

ghost use Rattle.std.specs.Prelude.{◌≡◌, length};
ghost use Rattle.open_traces.specs.Index.{begins_of, pages_of};

use trace_codec::TraceView;

/// Writes where the record of each write begins in the bytes of its trace, and the page of each write.
pub(crate) fn put_records(trace: &TraceView<'_>, begins: &mut [u32], pages: &mut [u32])
    requires begins { length begins.old ≡ length trace.now.writes }
    requires pages { length pages.old ≡ length trace.now.writes }
    ensures begins { begins.new ≡ begins_of trace.now.writes }
    ensures pages { pages.new ≡ pages_of trace.now.writes }
{
    // For the proof: a trace has at most 2^28 bytes.
    let _ = trace.shape();
    let mut count = 0usize;
    let mut begin = 16u32;
    for write in trace.records() {
        begins[count] = begin;
        pages[count] = write.page;
        count += 1;
        begin += 16 + write.bytes.len() as u32;
    }
}
