//! What the pages of a trace are made from.

ghost use Rattle.std.specs.Prelude.{◌≡◌, IfOk, is_some};
ghost use Rattle.page_versions.specs.Copies.{ArePagesOf, are_worth_copies};

use crate::error::IndexError;
use crate::index::PageIndex;
use crate::packed::{PackedWrites, are_short};
use guest_log::WriteLog;
use std::alloc::Global;
use std::thread::Threads;

/// The most writes a page, on average, of a trace that is copied. One that writes few pages more often takes longer to
/// copy than its pages take to make.
const MOST_WRITES: u64 = 256;

/// What the pages of a trace are made from: its index, and copies of its writes if these are short and go to many
/// pages.
#[derive(Debug, Drop)]
pub struct TracePages {
    /// Where the trace writes each page.
    pub index: PageIndex,
    /// The copies, if there are any.
    pub packed: Option<PackedWrites>,
}

/// Returns whether the writes of a trace are short and go to many pages.
fn are_worth_copies<W: WriteLog>(trace: &W) -> bool
    ensures { result ≡ are_worth_copies (W.trace trace.now) }
{
    let shape = trace.shape();
    shape.writes as u64 <= MOST_WRITES * shape.pages as u64 && are_short(trace)
}

impl TracePages {
    /// Returns what the pages of a trace are made from. The only error is that memory runs out.
    pub fn of<W: WriteLog + Sync>(
        rt: &(impl Threads + Sync),
        alloc: Global,
        trace: &W,
    ) -> Result<TracePages, IndexError>
        ensures pages { IfOk result (λ pages. ArePagesOf pages.index pages.packed (W.trace trace.now)) }
        ensures copied { IfOk result (λ pages. is_some pages.packed ≡ are_worth_copies (W.trace trace.now)) }
    {
        let index = PageIndex::build(rt, alloc, trace)?;
        if !are_worth_copies(trace) {
            let packed = None;
            return Ok(TracePages { index, packed });
        }
        let packed = Some(PackedWrites::of(rt, alloc, trace, &index)?);
        Ok(TracePages { index, packed })
    }
}
