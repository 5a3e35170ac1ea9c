//! The bytes of a trace from a source, tested as they come.

ghost use Rattle.std.specs.Prelude.{◌≡◌, ◌↔◌, ◌++◌, Err, IfErr, IfOk, IfSome, List, Option, false, true, ℕ};
ghost use Rattle.std.specs.Io.KnownBytes.{Consumes};
ghost use Rattle.trace_codec.specs.Source.{IsOutside, ReadsWhole};
ghost use Rattle.trace_readers.specs.Texts.{IsTested, IsTestedBefore};

use crate::front_records::FrontRecords;
use crate::pieces::{ROOM, room_of};
use std::alloc::{AllocError, Global};
use std::marker::Model;
use trace_codec::{MAX_LENGTH, MAX_WRITES, Source, TraceError};

/// How many bytes must come before the first records are tested, `2^20`: only then is the header's count of writes
/// believed, and memory reserved for all of them at once.
const TESTED_FROM: usize = 1_048_576;

/// The bytes of a trace that came so far, with the records in front that are tested.
#[derive(Drop)]
pub(crate) struct ComingText {
    pub(crate) bytes: Vec<u8>,
    pub(crate) front: Option<FrontRecords>,
}

impl Model for ComingText {
    ghost Value = { List ℕ };

    ghost view = { λ t. t.bytes.items };

    ghost invariant = { λ t. IfSome t.front (IsTested t.bytes.items) };
}

/// Returns the records that were tested before, or begins with none. Returns None if the header is refused or memory
/// runs out.
fn begun(alloc: Global, front: Option<FrontRecords>, bytes: &[u8]) -> Option<FrontRecords>
    requires { IfSome front (IsTestedBefore bytes.now) }
    ensures { IfSome result (IsTestedBefore bytes.now) }
{
    match front {
        Some(front) => Some(front),
        None => FrontRecords::new(alloc, bytes, MAX_WRITES as usize).ok(),
    }
}

/// Returns the records in front of these bytes, tested as far as they go. There are none if the bytes are too few or
/// too many, if the header is refused, or if memory ran out: then all records are tested at the end.
fn tested_on(alloc: Global, front: Option<FrontRecords>, bytes: &[u8]) -> Option<FrontRecords>
    requires { IfSome front (IsTestedBefore bytes.now) }
    ensures { IfSome result (IsTested bytes.now) }
{
    if bytes.len() < TESTED_FROM || MAX_LENGTH < bytes.len() {
        return None;
    }
    let mut front = begun(alloc, front, bytes)?;
    let _ = front.go_on(bytes);
    Some(front)
}

impl ComingText {
    /// Returns these bytes with one more piece after them.
    fn with_piece(self, alloc: Global, piece: &[u8]) -> Result<ComingText, AllocError>
        ensures { IfOk result (λ text. text ≡ self ++ piece.now) }
    {
        let mut bytes = self.bytes;
        bytes.extend_from_slice(piece)?;
        let front = tested_on(alloc, self.front, &bytes);
        Ok(ComingText { bytes, front })
    }
}

/// Returns the bytes that came from a source and those that still come, to its end, or until more have come than a
/// trace may have. The only errors are `E16` and `E17`.
pub(crate) fn read_on<S: Source>(
    alloc: Global,
    source: &mut S,
    bytes: Vec<u8>,
) -> Result<ComingText, TraceError>
    requires { S.has_failed source.old ≡ false }
    ensures whole { IfOk result (λ text. (old : Option (List ℕ)) → Consumes old (S.remaining source.old) bytes.items
        → ReadsWhole old (S.remaining source.new) text) }
    ensures refused { IfErr result IsOutside }
    ensures failed { (result ≡ Err TraceError.ReadFault) ↔ (S.has_failed source.new ≡ true) }
{
    let mut room = room_of(alloc, ROOM)?;
    let mut text = ComingText { bytes, front: None };
    while text.bytes.len() <= MAX_LENGTH {
        match source.read(&mut room) {
            None => return Err(TraceError::ReadFault),
            Some(0) => return Ok(text),
            Some(count) => text = text.with_piece(alloc, &room[..count])?,
        }
    }
    Ok(text)
}
