//! Tests of writes that are not encoded yet. No program runs it: it serves users of the library, and tests.

ghost use Rattle.std.specs.Prelude.{◌≡◌, ℕ, length, IfErr, IfOk, OnOk, Some, None};
ghost use Rattle.migration_model.specs.Trace.{AreGuestWrites, IsTrace, trace_with};
ghost use Rattle.trace_codec.specs.Refusals.{is_short, record_refusal, RefusesRecord, RefusesTrace, sizes_refusal};

use crate::error::TraceError;
use crate::limits::{
    MAX_LENGTH, MAX_WRITES, TICK_LIMIT, is_empty_write, is_page_count, is_shift, is_version,
};
use guest_log::{Header, Shape, Write};

/// Returns whether the encoding of a trace of these writes has at most `MAX_LENGTH` bytes.
fn has_short_text(writes: &[Write]) -> bool
    ensures { (version shift pages : ℕ) → result ≡ is_short (trace_with version shift pages writes.now) }
{
    let mut length = 16;
    for write in writes {
        length += 16 + write.bytes.len();
        if length > MAX_LENGTH {
            return false;
        }
    }
    true
}

/// Tests write `index` of a trace with this header; the previous write was at tick `before`.
fn check_record(header: Header, before: u64, index: u32, write: &Write) -> Result<(), TraceError>
    ensures refused { IfErr result (λ e. record_refusal header.version header.shape.shift header.shape.pages before
        index write.now ≡ Some e) }
    ensures accepted { OnOk result (record_refusal header.version header.shape.shift header.shape.pages before index
        write.now ≡ None) }
{
    let shape = header.shape;
    if write.tick < before {
        return Err(TraceError::TickOrder(index));
    }
    if write.tick >= TICK_LIMIT {
        return Err(TraceError::TickTooLarge(index));
    }
    if write.page >= shape.pages {
        return Err(TraceError::PageOutOfRange(index));
    }
    let len = write.bytes.len();
    if is_empty_write(header.version, write.offset, len) {
        return Err(TraceError::EmptyWrite(index));
    }
    if shape.page_size() < write.offset as usize + len {
        return Err(TraceError::OutOfPage(index));
    }
    Ok(())
}

/// Tests all writes of a trace with this header, in order.
fn check_records(header: Header, writes: &[Write]) -> Result<(), TraceError>
    requires { length writes.now ≡ header.shape.writes }
    ensures refused { IfErr result (RefusesRecord header.version header.shape.shift header.shape.pages writes.now) }
    ensures accepted { OnOk result (AreGuestWrites header.version header.shape.shift header.shape.pages writes.now) }
{
    let mut last = 0;
    for index in 0..header.shape.writes {
        let write = &writes[index as usize];
        check_record(header, last, index, write)?;
        last = write.tick;
    }
    Ok(())
}

/// Returns the header of a trace, or what it is refused for. `short` says whether the trace's encoding is short enough.
fn header_for(
    short: bool,
    version: u8,
    shift: u8,
    pages: u32,
    writes: usize,
) -> Result<Header, TraceError>
    ensures refused { IfErr result (λ e. sizes_refusal short version shift pages writes ≡ Some e) }
    ensures accepted { OnOk result (sizes_refusal short version shift pages writes ≡ None) }
    ensures version { IfOk result (λ h. h.version ≡ version) }
    ensures shift { IfOk result (λ h. h.shape.shift ≡ shift) }
    ensures pages { IfOk result (λ h. h.shape.pages ≡ pages) }
    ensures writes { IfOk result (λ h. h.shape.writes ≡ writes) }
{
    if !short {
        return Err(TraceError::TooLong);
    }
    if !is_version(version) {
        return Err(TraceError::BadVersion);
    }
    if !is_shift(shift) {
        return Err(TraceError::BadShift);
    }
    if !is_page_count(pages) {
        return Err(TraceError::BadPages);
    }
    if writes > MAX_WRITES as usize {
        return Err(TraceError::TooManyWrites);
    }
    let shape = Shape {
        shift,
        pages,
        writes: writes as u32,
    };
    Ok(Header { version, shape })
}

/// Tests the version, the sizes and the writes of a trace, in the order of refusals that `Trace::new` names.
pub(crate) fn check_trace(
    version: u8,
    shift: u8,
    pages: u32,
    writes: &[Write],
) -> Result<(), TraceError>
    ensures refused { IfErr result (RefusesTrace (trace_with version shift pages writes.now)) }
    ensures accepted { OnOk result (IsTrace (trace_with version shift pages writes.now)) }
{
    let short = has_short_text(writes);
    let header = header_for(short, version, shift, pages, writes.len())?;
    check_records(header, writes)?;
    Ok(())
}
