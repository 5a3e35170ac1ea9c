//! Traces that are written into memory that the caller lends.

// `Records` holds of one recording alone, and the bytes of its length are the trace's: `one_recording`.
// `RefusesRecording` holds of one value alone: `one_refusal`.

ghost use Rattle.std.specs.Prelude.{◌≡◌, ◌≢◌, ◌↔◌, ◌≤◌, None, Some, [], length};
ghost use Rattle.migration_model.specs.Trace.{GuestTrace, IsTrace, trace_text, write_with};
ghost use Rattle.trace_writer.specs.Recordings.{Records, RefusesRecording, bytes_after, bytes_begun, no_writes};
ghost use Rattle.trace_writer.specs.Recordings.{recording_after, refusal_of_any, refusal_of_begin, refusal_of_write};
ghost use Rattle.trace_writer.specs.Recordings.{with_write};
ghost use Rattle.trace_writer.specs.declared.error.RecordingError.{RecordingError};
ghost use Rattle.c_answers.specs.Recordings.{number_of_recording};

use c_answers::recordings::recording_number;
use trace_writer::Recording;

/// Begins a trace of a guest that has not written, at the front of some bytes, and sets `recording`.
#[unsafe(no_mangle)]
pub extern "C" fn precopy_record_begin(
    trace: &mut [u8],
    shift: u32,
    pages: u32,
    recording: &mut Recording,
) -> u32
    ensures begun { result ≡ 0 → Records trace.new recording.new (no_writes shift pages) }
    ensures refused { result ≢ 0 → (e : RecordingError) × (result ≡ number_of_recording e)
        × RefusesRecording (no_writes shift pages) (length trace.old) e }
    ensures only { IsTrace (no_writes shift pages)
        → length (trace_text (no_writes shift pages)) ≤ length trace.old → result ≡ 0 }

    ensures given { (result ≡ 0) ↔ (refusal_of_begin shift pages (length trace.old) ≡ None) }
    ensures first { result ≢ 0 → (e : RecordingError) × (result ≡ number_of_recording e)
        × (refusal_of_begin shift pages (length trace.old) ≡ Some e) }
    ensures bytes { result ≡ 0 → trace.new ≡ bytes_begun trace.old shift pages }
    ensures unchanged { result ≢ 0 → (trace.new ≡ trace.old) × (recording.new ≡ recording.old) }
{
    match Recording::begin(trace, shift, pages) {
        Ok(begun) => {
            *recording = begun;
            0
        }
        Err(error) => recording_number(error),
    }
}

/// Appends a write to a trace, whose recording the calls before left: the trace is whole after it too. It may be
/// called with any recording, and then writes what `bytes` says.
#[unsafe(no_mangle)]
pub extern "C" fn precopy_record_write(
    trace: &mut [u8],
    recording: &mut Recording,
    tick: u64,
    page: u32,
    offset: u32,
    bytes: &[u8],
) -> u32
    ensures written { result ≡ 0 → (t : GuestTrace) → Records trace.old recording.old t
        → Records trace.new recording.new (with_write t (write_with tick page offset bytes.now)) }
    ensures refused { result ≢ 0 → (e : RecordingError) × (result ≡ number_of_recording e)
        × (1 ≤ length bytes.now → (t : GuestTrace) → Records trace.old recording.old t
        → RefusesRecording (with_write t (write_with tick page offset bytes.now)) (length trace.old) e) }
    ensures only { (t : GuestTrace) → 1 ≤ length bytes.now → Records trace.old recording.old t
        → IsTrace (with_write t (write_with tick page offset bytes.now))
        → length (trace_text (with_write t (write_with tick page offset bytes.now))) ≤ length trace.old
        → result ≡ 0 }

    ensures given { (result ≡ 0) ↔ (refusal_of_write recording.old (length trace.old)
        (write_with tick page offset bytes.now) ≡ None) }
    ensures first { result ≢ 0 → (e : RecordingError) × (result ≡ number_of_recording e)
        × (refusal_of_write recording.old (length trace.old) (write_with tick page offset bytes.now) ≡ Some e) }
    ensures bytes { result ≡ 0 → trace.new ≡ bytes_after trace.old recording.old
        (write_with tick page offset bytes.now) }
    ensures recording { result ≡ 0 → recording.new ≡ recording_after recording.old
        (write_with tick page offset bytes.now) }
    ensures unchanged { result ≢ 0 → (trace.new ≡ trace.old) × (recording.new ≡ recording.old) }
{
    match recording.write(trace, tick, page, offset, bytes) {
        Ok(()) => 0,
        Err(error) => recording_number(error),
    }
}

/// Appends a write that releases a page, as [`precopy_record_write`] appends others.
#[unsafe(no_mangle)]
pub extern "C" fn precopy_record_release(
    trace: &mut [u8],
    recording: &mut Recording,
    tick: u64,
    page: u32,
) -> u32
    ensures written { result ≡ 0 → (t : GuestTrace) → Records trace.old recording.old t
        → Records trace.new recording.new (with_write t (write_with tick page 0 [])) }
    ensures refused { result ≢ 0 → (e : RecordingError) × (result ≡ number_of_recording e)
        × ((t : GuestTrace) → Records trace.old recording.old t
        → RefusesRecording (with_write t (write_with tick page 0 [])) (length trace.old) e) }
    ensures only { (t : GuestTrace) → Records trace.old recording.old t
        → IsTrace (with_write t (write_with tick page 0 []))
        → length (trace_text (with_write t (write_with tick page 0 []))) ≤ length trace.old → result ≡ 0 }

    ensures given { (result ≡ 0) ↔ (refusal_of_any recording.old (length trace.old)
        (write_with tick page 0 []) ≡ None) }
    ensures first { result ≢ 0 → (e : RecordingError) × (result ≡ number_of_recording e)
        × (refusal_of_any recording.old (length trace.old) (write_with tick page 0 []) ≡ Some e) }
    ensures bytes { result ≡ 0 → trace.new ≡ bytes_after trace.old recording.old (write_with tick page 0 []) }
    ensures recording { result ≡ 0 → recording.new ≡ recording_after recording.old (write_with tick page 0 []) }
    ensures unchanged { result ≢ 0 → (trace.new ≡ trace.old) × (recording.new ≡ recording.old) }
{
    match recording.release(trace, tick, page) {
        Ok(()) => 0,
        Err(error) => recording_number(error),
    }
}
