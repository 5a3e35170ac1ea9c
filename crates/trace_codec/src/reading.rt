//! A trace from a source of bytes.

ghost use Rattle.std.specs.Prelude.{◌≡◌, ◌↔◌, IfErr, IfOk, Err, Some, List, ℕ, MatchResult, true, false, ◌<◌, ◌≤◌, ◌+◌};
ghost use Rattle.std.specs.Prelude.{take, drop, vec_len, is_none};
ghost use Rattle.migration_model.specs.Numbers.{IsBytes};
ghost use Rattle.migration_model.specs.Trace.{GuestTrace, Spells};
ghost use Rattle.trace_codec.specs.Source.{ReadsFrom, ReadsWhole, IsOutside, SourceSpells, SourceRefuses};

use crate::decoding::decode;
use crate::error::TraceError;
use crate::limits::MAX_LENGTH;
use crate::source::Source;
use crate::trace::Trace;
use std::alloc::{AllocError, Global};

/// The most bytes that a buffer grows by for one read: pieces of this size stay in a processor's cache.
const PIECE: usize = 262_144;

/// Returns the bytes with space after the first `filled` ones, and never more than one byte past the longest trace.
fn with_room(mut bytes: Vec<u8>, filled: usize) -> Result<Vec<u8>, AllocError>
    requires within { filled ≤ vec_len bytes }
    requires short { filled ≤ MAX_LENGTH }
    requires bound { vec_len bytes ≤ MAX_LENGTH + 1 }
    ensures kept { IfOk result (λ v. take filled v.items ≡ take filled bytes.items) }
    ensures room { IfOk result (λ v. filled < vec_len v) }
    ensures bound { IfOk result (λ v. vec_len v ≤ MAX_LENGTH + 1) }
{
    if filled < bytes.len() {
        return Ok(bytes);
    }
    let piece = PIECE.min(MAX_LENGTH + 1 - filled);
    bytes.resize(filled + piece, 0)?;
    Ok(bytes)
}

/// Reads once into the bytes after the first `filled` ones. Returns how many bytes came: 0 at the end of the source,
/// and None if the read failed.
pub fn read_behind<S: Source>(source: &mut S, bytes: &mut Vec<u8>, filled: usize) -> Option<usize>
    requires unfailed { S.has_failed source.old ≡ false }
    requires room { filled < vec_len bytes.old }
    ensures len { vec_len bytes.new ≡ vec_len bytes.old }
    ensures kept { take filled bytes.new.items ≡ take filled bytes.old.items }
    ensures fits { IsBytes bytes.new.items }
    ensures bytes { ReadsFrom (S.remaining source.old) (S.remaining source.new) result (drop filled bytes.new.items) }
    ensures failed { S.has_failed source.new ≡ is_none result }
{
    source.read(&mut bytes[filled..])
}

/// Returns the bytes of a source to its end, or until more have come than a trace may have. Memory follows the bytes
/// that come. The only errors are `E16` and `E17`.
pub fn read_bytes<S: Source>(alloc: Global, source: &mut S) -> Result<Vec<u8>, TraceError>
    requires { S.has_failed source.old ≡ false }
    ensures whole { IfOk result (λ v. ReadsWhole (S.remaining source.old) (S.remaining source.new) v.items) }
    ensures refused { IfErr result IsOutside }
    ensures failed { (result ≡ Err TraceError.ReadFault) ↔ (S.has_failed source.new ≡ true) }
{
    let mut bytes = Vec::new(alloc);
    let mut filled = 0usize;
    while filled <= MAX_LENGTH {
        bytes = with_room(bytes, filled)?;
        match read_behind(source, &mut bytes, filled) {
            None => return Err(TraceError::ReadFault),
            Some(0) => {
                bytes.truncate(filled);
                return Ok(bytes);
            }
            Some(count) => filled += count,
        }
    }
    bytes.truncate(filled);
    Ok(bytes)
}

/// Returns the trace that a source holds, read to its end. Any failed read is `E17`, whatever came before it.
pub fn read_trace<S: Source>(alloc: Global, source: &mut S) -> Result<Trace, TraceError>
    requires { S.has_failed source.old ≡ false }
    ensures found { IfOk result (SourceSpells (S.remaining source.old)) }
    ensures refused { IfErr result (SourceRefuses (S.remaining source.old)) }
    ensures only { (bytes : List ℕ) (trace : GuestTrace) → S.remaining source.old ≡ Some bytes → Spells bytes trace
        → MatchResult result (λ found. found ≡ trace) IsOutside }
    ensures failed { (result ≡ Err TraceError.ReadFault) ↔ (S.has_failed source.new ≡ true) }
{
    let bytes = read_bytes(alloc, source)?;
    decode(alloc, &bytes)
}
