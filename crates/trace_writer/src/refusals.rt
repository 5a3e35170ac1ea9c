//! What the next write of a trace is refused for.

ghost use Rattle.std.specs.Prelude.{◌≡◌, ◌≤◌, ◌+◌, ◌^◌, IfErr, OnOk, Some, None, nat_le, length};
ghost use Rattle.migration_model.specs.Trace.{GuestTrace, IsTrace, IsGuestSize, write_with};
ghost use Rattle.trace_codec.specs.Refusals.{record_refusal, sizes_refusal, RefusesTrace};
ghost use Rattle.trace_writer.specs.Recordings.{Tells, refusal_of_trace, with_write};

use crate::recording::Recording;
use trace_codec::{MAX_LENGTH, MAX_WRITES, TraceError};

/// No tick of a trace reaches this one, `2^40`.
const TICK_LIMIT: u64 = 1_099_511_627_776;

/// The most pages that a guest may have.
const MAX_PAGES: u32 = 65_536;

/// Tests the sizes of a trace of version 2 whose encoding ends at `end`.
pub(crate) fn test_sizes(end: usize, shift: u32, pages: u32, writes: u64) -> Result<(), TraceError>
    ensures refused { IfErr result (λ e. sizes_refusal (nat_le end (2 ^ 28)) 2 shift pages writes ≡ Some e) }
    ensures accepted { OnOk result (sizes_refusal (nat_le end (2 ^ 28)) 2 shift pages writes ≡ None) }
    ensures size { OnOk result (IsGuestSize shift pages) }
    ensures few { OnOk result (writes ≤ 2 ^ 20) }
    ensures short { OnOk result (end ≤ 2 ^ 28) }
{
    if end > MAX_LENGTH {
        return Err(TraceError::TooLong);
    }
    if !(4 <= shift && shift <= 12) {
        return Err(TraceError::BadShift);
    }
    if !(1 <= pages && pages <= MAX_PAGES) {
        return Err(TraceError::BadPages);
    }
    if writes > MAX_WRITES as u64 {
        return Err(TraceError::TooManyWrites);
    }
    Ok(())
}

/// Tests the next write of a trace of version 2, beside the sizes of its guest and the write before it.
fn test_record(
    recording: &Recording,
    tick: u64,
    page: u32,
    offset: u32,
    bytes: &[u8],
) -> Result<(), TraceError>
    requires { recording.now.shift ≤ 12 }
    ensures refused { IfErr result (λ e. record_refusal 2 recording.now.shift recording.now.pages
        recording.now.last_tick recording.now.writes (write_with tick page offset bytes.now) ≡ Some e) }
    ensures accepted { OnOk result (record_refusal 2 recording.now.shift recording.now.pages
        recording.now.last_tick recording.now.writes (write_with tick page offset bytes.now) ≡ None) }
    ensures within { OnOk result (offset + length bytes.now ≤ 2 ^ recording.now.shift) }
{
    let place = recording.writes;
    if tick < recording.last_tick {
        return Err(TraceError::TickOrder(place));
    }
    if tick >= TICK_LIMIT {
        return Err(TraceError::TickTooLarge(place));
    }
    if page >= recording.pages {
        return Err(TraceError::PageOutOfRange(place));
    }
    if bytes.is_empty() && offset != 0 {
        return Err(TraceError::EmptyWrite(place));
    }
    if 1usize << recording.shift < offset as usize + bytes.len() {
        return Err(TraceError::OutOfPage(place));
    }
    Ok(())
}

/// Tests the next write of a trace, whose encoding then ends at `end`.
pub(crate) fn test_write(
    recording: &Recording,
    end: usize,
    tick: u64,
    page: u32,
    offset: u32,
    bytes: &[u8],
) -> Result<(), TraceError>
    ensures refused { IfErr result (λ e. (t : GuestTrace) → Tells recording.now t
        → end ≡ recording.now.length + (16 + length bytes.now)
        → RefusesTrace (with_write t (write_with tick page offset bytes.now)) e) }
    ensures accepted { OnOk result ((t : GuestTrace) → Tells recording.now t
        → end ≡ recording.now.length + (16 + length bytes.now)
        → IsTrace (with_write t (write_with tick page offset bytes.now))) }
    ensures first { IfErr result (λ e. refusal_of_trace recording.now end (write_with tick page offset bytes.now)
        ≡ Some e) }
    ensures none { OnOk result (refusal_of_trace recording.now end (write_with tick page offset bytes.now) ≡ None) }
    ensures within { OnOk result (offset + length bytes.now ≤ 4_096) }
    ensures few { OnOk result (recording.now.writes + 1 ≤ 2 ^ 20) }
{
    let writes = recording.writes as u64 + 1;
    test_sizes(end, recording.shift, recording.pages, writes)?;
    test_record(recording, tick, page, offset, bytes)?;
    Ok(())
}
