//! Memory as the writes of a trace leave it, from the bytes of the trace.

// `Refuses` holds of one value alone: `TraceView::parse: first`.
// `Spells` holds of one value alone: `one_trace`.

ghost use Rattle.std.specs.Prelude.{◌≡◌, ◌≢◌, ◌<◌, ◌⊎◌, length};
ghost use Rattle.migration_model.specs.Memory.{image_of};
ghost use Rattle.migration_model.specs.Trace.{GuestTrace, Spells};
ghost use Rattle.trace_codec.specs.Refusals.{Refuses};
ghost use Rattle.trace_codec.specs.declared.error.TraceError.{TraceError};
ghost use Rattle.c_layout.specs.Refusals.{number_of_trace, record_after};
ghost use Rattle.c_answers.specs.Buffers.{over};
ghost use Rattle.c_answers.specs.Memories.{memory_length};

use c_answers::memories::answer_memory;
use c_layout::refuse_trace;
use trace_codec::TraceView;

/// Writes the memory after all writes of a trace, page after page, over the front of a buffer, and sets `needed` to its
/// length. If the buffer is too short, it sets only that. It allocates nothing.
#[unsafe(no_mangle)]
pub extern "C" fn precopy_memory(
    trace: &[u8],
    memory: &mut [u8],
    needed: &mut usize,
    record: &mut u32,
) -> u32
    ensures made { result ≡ 0 → (t : GuestTrace) × Spells trace.now t × (needed.new ≡ memory_length t)
        × (memory.new ≡ over (image_of t).bytes memory.old) }
    ensures short { result ≡ 61 → (t : GuestTrace) × Spells trace.now t × (needed.new ≡ memory_length t)
        × (length memory.old < needed.new) }
    ensures refused { result ≢ 0 → result ≢ 61 → (e : TraceError) × Refuses trace.now e × (result ≡ number_of_trace e)
        × (needed.new ≡ needed.old) × (record.new ≡ record_after e record.old) }
    ensures not_told { (result ≡ 0) ⊎ (result ≡ 61) → record.new ≡ record.old }
    ensures only { (t : GuestTrace) → Spells trace.now t → (result ≡ 0) ⊎ (result ≡ 61) }
    ensures unchanged { result ≢ 0 → memory.new ≡ memory.old }
{
    match TraceView::parse(trace) {
        Ok(view) => match answer_memory(&view, memory, needed) {
            Ok(()) => 0,
            Err(refusal) => refusal.number(),
        },
        Err(error) => refuse_trace(error, record),
    }
}
