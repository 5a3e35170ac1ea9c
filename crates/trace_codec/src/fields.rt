//! The numbers at the front of some bytes, and the refusals of headers.

ghost use Rattle.std.specs.Prelude.{◌≡◌, ◌≤◌, length, drop, slice_index, IfOk, IfErr, OnOk, Some, None};
ghost use Rattle.std.specs.Int.{w16, w32, w64};
ghost use Rattle.migration_model.specs.Numbers.{number_in};
ghost use Rattle.trace_codec.specs.Reading.{IsCut};
ghost use Rattle.trace_codec.specs.Refusals.{header_refusal, is_magic};

use crate::error::TraceError;
use crate::limits::{MAX_LENGTH, MAX_WRITES, is_page_count, is_shift, is_version};
use byteorder::{ByteOrder, LittleEndian};
use guest_log::{Header, Shape};

#[tactic(auto, unfolding(migration_model::specs::Numbers::number_in))]
pub(crate) fn u64_in(bytes: &[u8]) -> u64
    requires { 8 ≤ length bytes.now }
    ensures { result ≡ number_in w64 bytes.now }
{
    LittleEndian::read_u64(bytes)
}

#[tactic(auto, unfolding(migration_model::specs::Numbers::number_in))]
pub(crate) fn u32_in(bytes: &[u8]) -> u32
    requires { 4 ≤ length bytes.now }
    ensures { result ≡ number_in w32 bytes.now }
{
    LittleEndian::read_u32(bytes)
}

#[tactic(auto, unfolding(migration_model::specs::Numbers::number_in))]
pub(crate) fn u16_in(bytes: &[u8]) -> u16
    requires { 2 ≤ length bytes.now }
    ensures { result ≡ number_in w16 bytes.now }
{
    LittleEndian::read_u16(bytes)
}

/// Returns whether the bytes begin with "PCWT".
fn has_magic(bytes: &[u8]) -> bool
    requires { 4 ≤ length bytes.now }
    ensures { result ≡ is_magic bytes.now }
{
    bytes[0] == b'P' && bytes[1] == b'C' && bytes[2] == b'W' && bytes[3] == b'T'
}

/// Returns the version and the sizes that the first 16 bytes hold, or what they are refused for: `E15` for more than
/// `MAX_LENGTH` bytes, then `E1` to `E7`.
pub fn read_header(bytes: &[u8]) -> Result<Header, TraceError>
    ensures refused { IfErr result (λ e. header_refusal bytes.now ≡ Some e) }
    ensures accepted { OnOk result (header_refusal bytes.now ≡ None) }
    ensures long { OnOk result (16 ≤ length bytes.now) }
    ensures version { IfOk result (λ h. h.version ≡ slice_index bytes.now 4) }
    ensures shift { IfOk result (λ h. h.shape.shift ≡ slice_index bytes.now 5) }
    ensures pages { IfOk result (λ h. h.shape.pages ≡ number_in w32 (drop 8 bytes.now)) }
    ensures writes { IfOk result (λ h. h.shape.writes ≡ number_in w32 (drop 12 bytes.now)) }
{
    if bytes.len() > MAX_LENGTH {
        return Err(TraceError::TooLong);
    }
    if bytes.len() < 16 {
        return Err(TraceError::ShortHeader);
    }
    if !has_magic(bytes) {
        return Err(TraceError::BadMagic);
    }
    let version = bytes[4];
    if !is_version(version) {
        return Err(TraceError::BadVersion);
    }
    let shift = bytes[5];
    if !is_shift(shift) {
        return Err(TraceError::BadShift);
    }
    if !(bytes[6] == 0 && bytes[7] == 0) {
        return Err(TraceError::BadReserved);
    }
    let pages = u32_in(&bytes[8..]);
    if !is_page_count(pages) {
        return Err(TraceError::BadPages);
    }
    let writes = u32_in(&bytes[12..]);
    if writes > MAX_WRITES {
        return Err(TraceError::TooManyWrites);
    }
    let shape = Shape {
        shift,
        pages,
        writes,
    };
    Ok(Header { version, shape })
}

/// Returns the header of a trace's bytes, and the bytes after it.
pub(crate) fn split_header(bytes: &[u8]) -> Result<(Header, &[u8]), TraceError>
    ensures cut { IfOk result (λ found. IsCut bytes.now found.0.version found.0.shape.shift found.0.shape.pages
        found.0.shape.writes found.1.now) }
    ensures refused { IfErr result (λ e. header_refusal bytes.now ≡ Some e) }
{
    let header = read_header(bytes)?;
    let (_, body) = bytes.split_at(16);
    Ok((header, body))
}
