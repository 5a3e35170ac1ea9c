//! A trace that is written, and how far it is.

// `Records` holds of one recording alone, and the bytes of its length are the trace's: `one_recording`.
// `RefusesRecording` holds of one value alone: `one_refusal`.

ghost use Rattle.std.specs.Prelude.{◌≡◌, ◌≤◌, ◌+◌, IfErr, IfOk, IsOk, None, OnErr, OnOk, Some, [], length};
ghost use Rattle.migration_model.specs.Trace.{GuestTrace, IsTrace, trace_text, write_with};

use crate::error::RecordingError;
use crate::parts::{put_count, put_header, put_write};
use crate::refusals::{test_sizes, test_write};
use trace_codec::TraceError;

/// How far a trace is that is written into lent bytes: C's `struct precopy_recording`.
#[derive(Clone, Copy, Debug, PartialEq, Eq)]
#[repr(C)]
pub struct Recording {
    /// How many bytes the trace has.
    pub length: usize,
    /// The tick of its last write, or 0 if there is none.
    pub last_tick: u64,
    /// How many writes it has.
    pub writes: u32,
    /// How many pages its guest has.
    pub pages: u32,
    /// The page shift: a page has `2^shift` bytes.
    pub shift: u32,
}

impl Recording {
    ghost use Rattle.trace_writer.specs.Recordings.{Records, RefusesRecording, bytes_after, bytes_begun, no_writes};
    ghost use Rattle.trace_writer.specs.Recordings.{recording_after, refusal_of_any, refusal_of_begin};
    ghost use Rattle.trace_writer.specs.Recordings.{refusal_of_write, with_write};

    /// Begins a trace of a guest at the front of some bytes. It is refused as `Trace::new` refuses one without writes,
    /// and then if the bytes are too few.
    pub fn begin(trace: &mut [u8], shift: u32, pages: u32) -> Result<Recording, RecordingError>
        ensures begun { IfOk result (λ r. Records trace.new r (no_writes shift pages)) }
        ensures refused { IfErr result (RefusesRecording (no_writes shift pages) (length trace.old)) }
        ensures accepted { IsTrace (no_writes shift pages)
            → length (trace_text (no_writes shift pages)) ≤ length trace.old → IsOk result }

        ensures bytes { OnOk result (trace.new ≡ bytes_begun trace.old shift pages) }
        ensures none { OnOk result (refusal_of_begin shift pages (length trace.old) ≡ None) }
        ensures first { IfErr result (λ e. refusal_of_begin shift pages (length trace.old) ≡ Some e) }
        ensures unchanged { OnErr result (trace.new ≡ trace.old) }
    {
        test_sizes(16, shift, pages, 0)?;
        if trace.len() < 16 {
            return Err(RecordingError::ShortBuffer);
        }
        put_header(trace, shift as u8, pages);
        Ok(Recording {
            length: 16,
            last_tick: 0,
            writes: 0,
            pages,
            shift,
        })
    }

    /// Appends a write to a trace, or a release if it has no bytes and the offset is 0.
    fn append(
        &mut self,
        trace: &mut [u8],
        tick: u64,
        page: u32,
        offset: u32,
        bytes: &[u8],
    ) -> Result<(), RecordingError>
        ensures written { OnOk result ((t : GuestTrace) → Records trace.old self.old t
            → Records trace.new self.new (with_write t (write_with tick page offset bytes.now))) }
        ensures refused { IfErr result (λ e. (t : GuestTrace) → Records trace.old self.old t
            → RefusesRecording (with_write t (write_with tick page offset bytes.now)) (length trace.old) e) }
        ensures accepted { (t : GuestTrace) → Records trace.old self.old t
            → IsTrace (with_write t (write_with tick page offset bytes.now))
            → length (trace_text (with_write t (write_with tick page offset bytes.now))) ≤ length trace.old
            → IsOk result }

        ensures bytes { OnOk result (trace.new ≡ bytes_after trace.old self.old
            (write_with tick page offset bytes.now)) }
        ensures recording { OnOk result (self.new ≡ recording_after self.old
            (write_with tick page offset bytes.now)) }
        ensures none { OnOk result (refusal_of_any self.old (length trace.old)
            (write_with tick page offset bytes.now) ≡ None) }
        ensures first { IfErr result (λ e. refusal_of_any self.old (length trace.old)
            (write_with tick page offset bytes.now) ≡ Some e) }
        ensures same_bytes { OnErr result (trace.new ≡ trace.old) }
        ensures same_recording { OnErr result (self.new ≡ self.old) }
    {
        let size = 16 + bytes.len();
        let end = self.length.saturating_add(size);
        test_write(self, end, tick, page, offset, bytes)?;
        if trace.len() < end {
            return Err(RecordingError::ShortBuffer);
        }
        put_write(trace, self.length, tick, page, offset as u16, bytes);
        // The count is last: a program that ends before it leaves the trace without this write.
        put_count(trace, self.writes + 1);
        self.length = end;
        self.last_tick = tick;
        self.writes += 1;
        Ok(())
    }

    /// Appends a write to the trace in these bytes, of which this recording tells. A write of no bytes is refused
    /// first, since that would be a release. All else is refused as `Trace::new` refuses the trace with this write at
    /// its end, and then if the bytes are too few.
    pub fn write(
        &mut self,
        trace: &mut [u8],
        tick: u64,
        page: u32,
        offset: u32,
        bytes: &[u8],
    ) -> Result<(), RecordingError>
        ensures written { OnOk result ((t : GuestTrace) → Records trace.old self.old t
            → Records trace.new self.new (with_write t (write_with tick page offset bytes.now))) }
        ensures refused { IfErr result (λ e. 1 ≤ length bytes.now → (t : GuestTrace) → Records trace.old self.old t
            → RefusesRecording (with_write t (write_with tick page offset bytes.now)) (length trace.old) e) }
        ensures accepted { (t : GuestTrace) → 1 ≤ length bytes.now → Records trace.old self.old t
            → IsTrace (with_write t (write_with tick page offset bytes.now))
            → length (trace_text (with_write t (write_with tick page offset bytes.now))) ≤ length trace.old
            → IsOk result }

        ensures bytes { OnOk result (trace.new ≡ bytes_after trace.old self.old
            (write_with tick page offset bytes.now)) }
        ensures recording { OnOk result (self.new ≡ recording_after self.old
            (write_with tick page offset bytes.now)) }
        ensures none { OnOk result (refusal_of_write self.old (length trace.old)
            (write_with tick page offset bytes.now) ≡ None) }
        ensures first { IfErr result (λ e. refusal_of_write self.old (length trace.old)
            (write_with tick page offset bytes.now) ≡ Some e) }
        ensures same_bytes { OnErr result (trace.new ≡ trace.old) }
        ensures same_recording { OnErr result (self.new ≡ self.old) }
    {
        if bytes.is_empty() {
            return Err(RecordingError::Trace(TraceError::EmptyWrite(self.writes)));
        }
        self.append(trace, tick, page, offset, bytes)
    }

    /// Appends a write that releases a page to the trace in these bytes, of which this recording tells. It is refused
    /// as `Trace::new` refuses the trace with this write at its end, and then if the bytes are too few.
    pub fn release(&mut self, trace: &mut [u8], tick: u64, page: u32) -> Result<(), RecordingError>
        ensures written { OnOk result ((t : GuestTrace) → Records trace.old self.old t
            → Records trace.new self.new (with_write t (write_with tick page 0 []))) }
        ensures refused { IfErr result (λ e. (t : GuestTrace) → Records trace.old self.old t
            → RefusesRecording (with_write t (write_with tick page 0 [])) (length trace.old) e) }
        ensures accepted { (t : GuestTrace) → Records trace.old self.old t
            → IsTrace (with_write t (write_with tick page 0 []))
            → length (trace_text (with_write t (write_with tick page 0 []))) ≤ length trace.old → IsOk result }

        ensures bytes { OnOk result (trace.new ≡ bytes_after trace.old self.old (write_with tick page 0 [])) }
        ensures recording { OnOk result (self.new ≡ recording_after self.old (write_with tick page 0 [])) }
        ensures none { OnOk result (refusal_of_any self.old (length trace.old) (write_with tick page 0 []) ≡ None) }
        ensures first { IfErr result (λ e. refusal_of_any self.old (length trace.old) (write_with tick page 0 [])
            ≡ Some e) }
        ensures same_bytes { OnErr result (trace.new ≡ trace.old) }
        ensures same_recording { OnErr result (self.new ≡ self.old) }
    {
        self.append(trace, tick, page, 0, &[])
    }
}
