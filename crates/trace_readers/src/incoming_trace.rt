//! A trace on its way from a source, before it is known what becomes of it.

ghost use Rattle.std.specs.Io.KnownBytes.{Consumes, IsAtEnd};
ghost use Rattle.std.specs.Prelude.{◌≡◌, ◌↔◌, ◌-◌, ◌^◌, ◌<◌, ◌≤◌, [], ℕ, List, Option, Err, IfErr, IfOk, OnOk, false};
ghost use Rattle.std.specs.Prelude.{length, true};
ghost use Rattle.migration_model.specs.Numbers.{IsBytes};
ghost use Rattle.trace_codec.specs.Refusals.{header_refusal};
ghost use Rattle.trace_codec.specs.Source.{IsOutside, SourceRefuses, SourceSpells};
ghost use Rattle.trace_readers.specs.Visits.{CanVisit, IsAllVisited, IsHeaderOf};

use crate::held_trace::HeldTrace;
use crate::pieces::Pieces;
use crate::sampling::likely_length;
use crate::text_reading::read_on;
use crate::visiting::{Taken, fill_front, visit_rest};
use crate::write_visitor::WriteVisitor;
use std::alloc::Global;
use std::marker::Model;
use trace_codec::{Header, Source, TraceError, read_header};

/// How many bytes must have come for a guess at a trace's length.
const SAMPLE: usize = 65_536;

/// All bytes of a trace that came from a source so far. Whoever knows its header decides how to continue: to hold the
/// trace, or to hand its writes to a visitor, and hold none of them.
#[derive(Drop)]
pub struct IncomingTrace {
    pieces: Pieces,
}

impl Model for IncomingTrace {
    ghost Value = { List ℕ };

    ghost view = { λ t. t.pieces.rest };

    ghost invariant = { λ t. (t.pieces.count ≡ length t.pieces.rest) × IsBytes t.pieces.rest };
}

impl IncomingTrace {
    /// Reads until there are the 16 bytes of a header, or the source ends. The only errors are `E16` and `E17`.
    pub fn open<S: Source>(alloc: Global, source: &mut S) -> Result<IncomingTrace, TraceError>
        requires { S.has_failed source.old ≡ false }
        ensures came { IfOk result (Consumes (S.remaining source.old) (S.remaining source.new)) }
        ensures ended { IfOk result (λ text. length text < 16 → IsAtEnd (S.remaining source.new)) }
        ensures outside { IfErr result IsOutside }
        ensures failed { (result ≡ Err TraceError.ReadFault) ↔ (S.has_failed source.new ≡ true) }
    {
        let mut pieces = Pieces::new(alloc)?;
        fill_front(source, &mut pieces, 16)?;
        Ok(IncomingTrace { pieces })
    }

    /// Reads the header of a trace, and with it 64 KiB or all that the source has, from which `likely_length` guesses.
    /// If the header is refused, it reads on to the end of the source, or past the longest trace and no further.
    pub fn with_header<S: Source>(
        alloc: Global,
        source: &mut S,
    ) -> Result<(IncomingTrace, Header), TraceError>
        requires { S.has_failed source.old ≡ false }
        ensures came { IfOk result (λ found. Consumes (S.remaining source.old) (S.remaining source.new) found.0) }
        ensures header { IfOk result (λ found. IsHeaderOf found.0 found.1) }
        ensures refused { IfErr result (SourceRefuses (S.remaining source.old)) }
        ensures failed { (result ≡ Err TraceError.ReadFault) ↔ (S.has_failed source.new ≡ true) }
    {
        let mut pieces = Pieces::new(alloc)?;
        fill_front(source, &mut pieces, SAMPLE)?;
        if pieces.rest().len() < 16 {
            return Err(TraceError::ShortHeader);
        }
        match read_header(pieces.rest()) {
            Ok(header) => Ok((IncomingTrace { pieces }, header)),
            Err(cause) => Err(pieces.read_on(source, cause)),
        }
    }

    /// Returns how long the trace is if its records are as long, on average, as those that came. It is a guess: no
    /// contract speaks of it, and nothing but time and memory may depend on it.
    pub fn likely_length(&self, header: Header) -> usize
        requires { IsHeaderOf self.now header }
    {
        let (_, records) = self.pieces.rest().split_at(16);
        likely_length(header, records)
    }

    /// Returns the header, or what it is refused for.
    pub fn header(&self) -> Result<Header, TraceError>
        ensures header { IfOk result (IsHeaderOf self.now) }
        ensures refused { IfErr result (λ e. header_refusal self.now ≡ Some e) }
    {
        read_header(self.pieces.rest())
    }

    /// Reads on until `count` bytes have come, or the source ends. Returns whether they have come. Memory follows the
    /// bytes that come. The only errors are `E16` and `E17`.
    pub fn read_to<S: Source>(&mut self, source: &mut S, count: usize) -> Result<bool, TraceError>
        requires unfailed { S.has_failed source.old ≡ false }
        requires bound { count ≤ 2 ^ 28 }
        ensures came { OnOk result ((old : Option (List ℕ)) → Consumes old (S.remaining source.old) self.old
            → Consumes old (S.remaining source.new) self.new) }
        ensures enough { IfOk result (λ enough. enough ≡ true → count ≤ length self.new) }
        ensures ended { IfOk result (λ enough. enough ≡ false → IsAtEnd (S.remaining source.new)) }
        ensures outside { IfErr result IsOutside }
        ensures failed { (result ≡ Err TraceError.ReadFault) ↔ (S.has_failed source.new ≡ true) }
    {
        while self.pieces.count() < count {
            if !self.pieces.read_grown(source)? {
                return Ok(false);
            }
        }
        Ok(true)
    }

    /// Hands all writes of the trace to a visitor, in order: those that came, and then those that come, piece by piece.
    /// It reads the source to its end, or past the longest trace and no further, even if it found a refusal before.
    pub fn visit<S: Source, V: WriteVisitor>(
        self,
        source: &mut S,
        header: Header,
        visitor: &mut V,
    ) -> Result<(), TraceError>
        requires unfailed { S.has_failed source.old ≡ false }
        requires header { IsHeaderOf self header }
        requires can { CanVisit (V.takes visitor.old) header }
        requires none { V.makes visitor.old visitor.old [] }
        ensures all { OnOk result ((old : Option (List ℕ)) → Consumes old (S.remaining source.old) self
            → IsAllVisited (V.makes visitor.old visitor.new) old header) }
        ensures refused { IfErr result (λ e. (old : Option (List ℕ)) → Consumes old (S.remaining source.old) self
            → SourceRefuses old e) }
        ensures failed { (result ≡ Err TraceError.ReadFault) ↔ (S.has_failed source.new ≡ true) }
    {
        let mut pieces = self.pieces;
        pieces.take(16);
        visit_rest(source, &mut pieces, Taken::none(header), visitor)
    }

    /// Returns the trace, held as its bytes. It reads the source to its end, or past the longest trace and no further.
    /// Any failed read is `E17`.
    pub fn hold<S: Source>(self, alloc: Global, source: &mut S) -> Result<HeldTrace, TraceError>
        requires { S.has_failed source.old ≡ false }
        ensures found { IfOk result (λ trace. (old : Option (List ℕ)) → Consumes old (S.remaining source.old) self
            → SourceSpells old trace) }
        ensures refused { IfErr result (λ e. (old : Option (List ℕ)) → Consumes old (S.remaining source.old) self
            → SourceRefuses old e) }
        ensures failed { (result ≡ Err TraceError.ReadFault) ↔ (S.has_failed source.new ≡ true) }
    {
        let text = read_on(alloc, source, self.pieces.into_rest())?;
        HeldTrace::of_text(alloc, text)
    }
}
