//! The writes of a trace, handed to a visitor while the bytes come piece by piece.

ghost use Rattle.std.specs.Io.KnownBytes.{IsAtEnd};
ghost use Rattle.std.specs.Prelude.{◌≡◌, ◌≢◌, ◌<◌, ◌≤◌, ◌+◌, ◌-◌, ◌↔◌, ◌^◌, [], ℕ, List, Option, Err, IfErr, IfOk};
ghost use Rattle.std.specs.Prelude.{OnErr, OnOk, drop, false, length, true};
ghost use Rattle.trace_readers.specs.Pieces.{HasHeader, IsUntaken, pieces_state, wants_bytes};
ghost use Rattle.trace_readers.specs.Visits.{CanVisit, IsAllVisited, IsVisited, IsVisiting};
ghost use Rattle.trace_codec.specs.Refusals.{RefusesUnlessMemory};
ghost use Rattle.trace_codec.specs.Source.{SourceRefuses};

use crate::pieces::Pieces;
use crate::write_visitor::WriteVisitor;
use trace_codec::{Header, MAX_LENGTH, Source, TraceError, checked_write, read_header};

/// How far the records of a trace are taken: `count` of them, the last at tick `last`.
#[derive(Clone, Copy)]
pub(crate) struct Taken {
    header: Header,
    count: u32,
    last: u64,
}

impl Taken {
    /// Returns the state in which no record of a trace with this header is taken yet.
    pub(crate) fn none(header: Header) -> Taken
        ensures header { result.header ≡ header }
        ensures count { result.count ≡ 0 }
        ensures last { result.last ≡ 0 }
    {
        Taken {
            header,
            count: 0,
            last: 0,
        }
    }
}

/// Hands the write at the front of the bytes to a visitor, and returns the bytes after it.
fn visit_record<'a, V: WriteVisitor>(
    taken: &mut Taken,
    visitor: &mut V,
    bytes: &'a [u8],
) -> Result<&'a [u8], TraceError>
    requires left { taken.old.count < taken.old.header.shape.writes }
    requires can { CanVisit (V.takes visitor.old) taken.old.header }
    ensures header { taken.new.header ≡ taken.old.header }
    ensures can { CanVisit (V.takes visitor.new) taken.new.header }
    ensures visited { IfOk result (λ rest. (start : V) (text : List ℕ)
        → IsVisited (V.makes start visitor.old) text taken.old bytes.now
        → IsVisited (V.makes start visitor.new) text taken.new rest.now) }
    ensures within { IfOk result (λ rest. length rest.now ≤ length bytes.now) }
    ensures rest { IfOk result (λ rest. rest.now ≡ drop (length bytes.now - length rest.now) bytes.now) }
    ensures more { OnOk result (taken.new.count ≡ taken.old.count + 1) }
    ensures kept { OnErr result ((start : V) (text : List ℕ)
        → IsVisited (V.makes start visitor.old) text taken.old bytes.now
        → IsVisited (V.makes start visitor.new) text taken.new bytes.now) }
    ensures refused { IfErr result (λ e. (start : V) (text : List ℕ)
        → IsVisited (V.makes start visitor.old) text taken.old bytes.now
        → RefusesUnlessMemory text e) }
    ensures room { IfErr result (λ e. wants_bytes e ≡ true → length bytes.now < 65_551) }
    ensures fault { IfErr result (λ e. e ≢ TraceError.ReadFault) }
{
    let (write, rest) = checked_write(taken.header, taken.last, taken.count, bytes)?;
    visitor.visit(&write)?;
    taken.last = write.tick;
    taken.count += 1;
    Ok(rest)
}

/// Hands the whole writes at the front of the bytes to a visitor. Returns how many bytes they have, and what the trace
/// is refused for if no more bytes come.
fn visit_records<V: WriteVisitor>(
    taken: &mut Taken,
    visitor: &mut V,
    bytes: &[u8],
) -> (usize, Result<(), TraceError>)
    requires { CanVisit (V.takes visitor.old) taken.old.header }
    ensures header { taken.new.header ≡ taken.old.header }
    ensures can { CanVisit (V.takes visitor.new) taken.new.header }
    ensures within { result.0 ≤ length bytes.now }
    ensures visited { (start : V) (text : List ℕ) → IsVisited (V.makes start visitor.old) text taken.old bytes.now
        → IsVisited (V.makes start visitor.new) text taken.new (drop result.0 bytes.now) }
    ensures all { OnOk result.1 ((start : V) (text : List ℕ)
        → IsVisited (V.makes start visitor.old) text taken.old bytes.now
        → taken.new.count ≡ taken.new.header.shape.writes) }
    ensures none { OnOk result.1 (drop result.0 bytes.now ≡ []) }
    ensures refused { IfErr result.1 (λ e. (start : V) (text : List ℕ)
        → IsVisited (V.makes start visitor.old) text taken.old bytes.now
        → RefusesUnlessMemory text e) }
    ensures room { IfErr result.1 (λ e. wants_bytes e ≡ true → length (drop result.0 bytes.now) < 65_551) }
    ensures fault { IfErr result.1 (λ e. e ≢ TraceError.ReadFault) }
{
    let mut rest = bytes;
    while taken.count < taken.header.shape.writes {
        match visit_record(taken, visitor, rest) {
            Ok(behind) => rest = behind,
            Err(cause) => return (bytes.len() - rest.len(), Err(cause)),
        }
    }
    let count = bytes.len() - rest.len();
    if !rest.is_empty() {
        return (count, Err(TraceError::TrailingBytes));
    }
    (count, Ok(()))
}

/// Reads pieces until there are `count` bytes, or all that the source has. Returns true at the end of the source.
pub(crate) fn fill_front<S: Source>(
    source: &mut S,
    pieces: &mut Pieces,
    count: usize,
) -> Result<bool, TraceError>
    requires unfailed { S.has_failed source.old ≡ false }
    requires none { pieces.old ≡ pieces_state [] 0 }
    requires few { count ≤ 262_144 }
    ensures untaken { OnOk result (IsUntaken (S.remaining source.old) (S.remaining source.new) pieces.new) }
    ensures short { OnOk result (pieces.new.count ≤ 2 ^ 28) }
    ensures front { IfOk result (λ ended. ended ≡ false → count ≤ length pieces.new.rest) }
    ensures few { IfOk result (λ ended. ended ≡ true → length pieces.new.rest < count) }
    ensures end { IfOk result (λ ended. ended ≡ true → IsAtEnd (S.remaining source.new)) }
    ensures unfailed { OnOk result (S.has_failed source.new ≡ false) }
    ensures refused { IfErr result (λ e. e ≡ TraceError.ReadFault) }
    ensures failed { OnErr result (S.has_failed source.new ≡ true) }
{
    while pieces.rest().len() < count {
        if !pieces.read_more(source)? {
            return Ok(true);
        }
    }
    Ok(false)
}

/// Returns the header of a source, and takes its bytes from the pieces.
pub(crate) fn take_header<S: Source>(
    source: &mut S,
    pieces: &mut Pieces,
) -> Result<Header, TraceError>
    requires unfailed { S.has_failed source.old ≡ false }
    requires none { pieces.old ≡ pieces_state [] 0 }
    ensures header { IfOk result (λ h. HasHeader (S.remaining source.old) (S.remaining source.new) h.version
        h.shape.shift h.shape.pages h.shape.writes pieces.new) }
    ensures refused { IfErr result (SourceRefuses (S.remaining source.old)) }
    ensures failed { (result ≡ Err TraceError.ReadFault) ↔ (S.has_failed source.new ≡ true) }
{
    if fill_front(source, pieces, 16)? {
        return Err(TraceError::ShortHeader);
    }
    match read_header(pieces.rest()) {
        Ok(header) => {
            pieces.take(16);
            Ok(header)
        }
        Err(cause) => Err(pieces.read_on(source, cause)),
    }
}

/// Hands the whole writes in the pieces to a visitor, and reads one more piece. Returns false at the end of the source,
/// if all writes were taken.
fn visit_piece<S: Source, V: WriteVisitor>(
    source: &mut S,
    pieces: &mut Pieces,
    taken: &mut Taken,
    visitor: &mut V,
) -> Result<bool, TraceError>
    requires unfailed { S.has_failed source.old ≡ false }
    requires short { pieces.old.count ≤ 2 ^ 28 }
    requires can { CanVisit (V.takes visitor.old) taken.old.header }
    ensures header { taken.new.header ≡ taken.old.header }
    ensures can { CanVisit (V.takes visitor.new) taken.new.header }
    ensures visiting { IfOk result (λ more. more ≡ true → (start : V) (old : Option (List ℕ))
        → IsVisiting (V.makes start visitor.old) old (S.remaining source.old) taken.old pieces.old
        → IsVisiting (V.makes start visitor.new) old (S.remaining source.new) taken.new pieces.new) }
    ensures more { IfOk result (λ more. more ≡ true → pieces.old.count < pieces.new.count) }
    ensures all { IfOk result (λ more. more ≡ false → (start : V) (old : Option (List ℕ))
        → IsVisiting (V.makes start visitor.old) old (S.remaining source.old) taken.old pieces.old
        → IsAllVisited (V.makes start visitor.new) old taken.new.header) }
    ensures refused { IfErr result (λ e. (start : V) (old : Option (List ℕ))
        → IsVisiting (V.makes start visitor.old) old (S.remaining source.old) taken.old pieces.old
        → SourceRefuses old e) }
    ensures failed { (result ≡ Err TraceError.ReadFault) ↔ (S.has_failed source.new ≡ true) }
{
    let (count, end) = visit_records(taken, visitor, pieces.rest());
    pieces.take(count);
    match end {
        Ok(()) => pieces.read_more(source),
        Err(cause) => {
            pieces.read_after(source, cause)?;
            Ok(true)
        }
    }
}

/// Hands the writes that were not taken yet to a visitor: those in the pieces and those still to come.
pub(crate) fn visit_rest<S: Source, V: WriteVisitor>(
    source: &mut S,
    pieces: &mut Pieces,
    mut taken: Taken,
    visitor: &mut V,
) -> Result<(), TraceError>
    requires unfailed { S.has_failed source.old ≡ false }
    requires can { CanVisit (V.takes visitor.old) taken.header }
    ensures all { OnOk result ((start : V) (old : Option (List ℕ))
        → IsVisiting (V.makes start visitor.old) old (S.remaining source.old) taken pieces.old
        → IsAllVisited (V.makes start visitor.new) old taken.header) }
    ensures refused { IfErr result (λ e. (start : V) (old : Option (List ℕ))
        → IsVisiting (V.makes start visitor.old) old (S.remaining source.old) taken pieces.old → SourceRefuses old e) }
    ensures failed { (result ≡ Err TraceError.ReadFault) ↔ (S.has_failed source.new ≡ true) }
{
    while pieces.count() <= MAX_LENGTH {
        if !visit_piece(source, pieces, &mut taken, visitor)? {
            return Ok(());
        }
    }
    Err(TraceError::TooLong)
}
