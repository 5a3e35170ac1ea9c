//! A trace from its bytes. No program runs it: it serves users of the library, and tests.

// `Refuses` holds of one value alone: `TraceView::parse: first`.
// `Spells` holds of one value alone: `one_trace`.

ghost use Rattle.std.specs.Prelude.{◌≡◌, IfErr, IfOk, MatchResult};
ghost use Rattle.migration_model.specs.Trace.{GuestTrace, Spells};
ghost use Rattle.trace_codec.specs.Refusals.{RefusesUnlessMemory};

use crate::error::TraceError;
use crate::trace::Trace;
use crate::view::TraceView;
use std::alloc::Global;

/// Returns the trace that the bytes encode, with a copy of each write's bytes. It never returns `E17`.
pub fn decode(alloc: Global, bytes: &[u8]) -> Result<Trace, TraceError>
    ensures found { IfOk result (λ trace. Spells bytes.now trace) }
    ensures refused { IfErr result (RefusesUnlessMemory bytes.now) }
    ensures only { (trace : GuestTrace) → Spells bytes.now trace
        → MatchResult result (λ found. found ≡ trace) (λ e. e ≡ TraceError.Memory) }
{
    let view = TraceView::parse(bytes)?;
    Ok(view.to_trace(alloc)?)
}
