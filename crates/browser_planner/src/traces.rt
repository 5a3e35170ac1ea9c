//! Tests of traces.

// `Refuses` holds of one value alone: `TraceView::parse: first`.
// `Spells` holds of one value alone: `one_trace`.

ghost use Rattle.std.specs.Prelude.{◌≡◌, ◌≢◌};
ghost use Rattle.migration_model.specs.Trace.{GuestTrace, Spells, last_tick};
ghost use Rattle.trace_codec.specs.Refusals.{Refuses};
ghost use Rattle.trace_codec.specs.declared.error.TraceError.{TraceError};
ghost use Rattle.c_layout.specs.Refusals.{number_of_trace, record_after};
ghost use Rattle.browser_planner.specs.Traces.{AreSizesOf};

use c_layout::refuse_trace;
use trace_codec::TraceView;

/// The sizes of a trace.
#[derive(Clone, Copy)]
#[repr(C)]
pub struct LentSizes {
    /// The page shift: a page has `2^shift` bytes.
    pub shift: u32,
    /// How many pages the guest has.
    pub pages: u32,
    /// How many writes the trace has.
    pub writes: u32,
    /// The tick of the last write, or 0 if there is none.
    pub last: u64,
}

/// Returns the tick of the last write, or 0 if there is none.
fn last_tick(trace: &TraceView<'_>) -> u64
    ensures { result ≡ last_tick trace.now.writes }
{
    let mut last = 0u64;
    for write in trace.records() {
        last = write.tick;
    }
    last
}

/// Returns the sizes of a trace.
fn sizes_in(trace: &TraceView<'_>) -> LentSizes
    ensures { AreSizesOf trace.now result }
{
    let shape = trace.shape();
    LentSizes {
        shift: shape.shift as u32,
        pages: shape.pages,
        writes: shape.writes,
        last: last_tick(trace),
    }
}

/// Tests the bytes of a trace, and says its sizes. If they are refused for a record, it says which, from 0.
#[unsafe(no_mangle)]
pub extern "C" fn lent_check_trace(trace: &[u8], sizes: &mut LentSizes, number: &mut u32) -> u32
    ensures found { result ≡ 0 → (t : GuestTrace) × Spells trace.now t × AreSizesOf t sizes.new
        × (number.new ≡ number.old) }
    ensures refused { result ≢ 0 → (e : TraceError) × Refuses trace.now e × (result ≡ number_of_trace e)
        × (number.new ≡ record_after e number.old) }
    ensures only { (t : GuestTrace) → Spells trace.now t → result ≡ 0 }
    ensures unchanged { result ≢ 0 → sizes.new ≡ sizes.old }
{
    match TraceView::parse(trace) {
        Ok(view) => {
            *sizes = sizes_in(&view);
            0
        }
        Err(error) => refuse_trace(error, number),
    }
}
