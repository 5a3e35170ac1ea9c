//! Streams of a migration, checked against a trace, all at once.

ghost use Rattle.std.specs.Prelude.{◌≡◌, ◌≢◌, ◌⊎◌, length, sum};
ghost use Rattle.migration_model.specs.Trace.{GuestTrace, Spells};
ghost use Rattle.stream_check.specs.Streams.{IsAllRight, cut_by};
ghost use Rattle.c_answers.specs.StreamChecks.{AreAllRight, RefusesStreams, finding_after, number_of_streams};
ghost use Rattle.c_answers.specs.StreamChecks.{record_beside};

use c_answers::checking::{StreamFinding, StreamsRefusal, checked};
use std::alloc::Global;

/// Checks the streams of a migration that stops its guest after the first `stop` writes of the trace: their bytes, one
/// stream after the other, and how many each has. If something is wrong, it returns the number of the first such thing
/// and sets `found`.
#[unsafe(no_mangle)]
pub extern "C" fn precopy_check_streams(
    alloc: Global,
    trace: &[u8],
    stop: u32,
    bytes: &[u8],
    sizes: &[usize],
    found: &mut StreamFinding,
    record: &mut u32,
) -> u32
    ensures right { result ≡ 0 → AreAllRight trace.now stop bytes.now sizes.now × (found.new ≡ found.old) }
    ensures refused { result ≢ 0 → (refusal : StreamsRefusal) × (result ≡ number_of_streams refusal)
        × RefusesStreams trace.now stop bytes.now sizes.now refusal × (found.new ≡ finding_after refusal found.old)
        × (record.new ≡ record_beside refusal record.old) }
    ensures not_told { result ≡ 0 → record.new ≡ record.old }
    ensures only { (t : GuestTrace) → Spells trace.now t → sum sizes.now ≡ length bytes.now
        → IsAllRight t stop (cut_by sizes.now bytes.now) → (result ≡ 0) ⊎ (result ≡ 16) }
{
    match checked(alloc, trace, stop, bytes, sizes) {
        Ok(()) => 0,
        Err(refusal) => refusal.told(found, record),
    }
}
