//! A trace read write by write, each tested as the reader reaches it.

// `Refuses` holds of one value alone: `TraceView::parse: first`.

ghost use Rattle.std.specs.Prelude.{◌≡◌, ◌≢◌, ◌<◌, ◌++◌, ◌∷◌, [], IfErr, IfOk, None, OnErr, OnOk, Some, drop, length};
ghost use Rattle.migration_model.specs.Trace.{AreGuestWrites, IsGuestWrite, Spells, trace_with};
ghost use Rattle.migration_model.specs.TraceReading.{write_in, writes_in};
ghost use Rattle.trace_codec.specs.Reading.{IsReading, ReaderState, reader_of, reader_state, refusal_at, rest_at};
ghost use Rattle.trace_codec.specs.Refusals.{Refuses, header_refusal};
ghost use Rattle.trace_codec.specs.declared.error.TraceError.TheVariants.{TrailingBytes};
ghost use Rattle.guest_log.specs.Writes.{shown};

use crate::error::TraceError;
use crate::fields::split_header;
use crate::records::checked_write;
use guest_log::{Header, Shape, WriteView};
use std::marker::Model;

/// A reader on its way through the bytes of a trace, for a caller that can undo what it did with the first writes if a
/// later one is refused. It allocates nothing.
#[derive(Drop)]
pub struct TraceReader<'a> {
    bytes: &'a [u8],
    header: Header,
    index: u32,
    last: u64,
    rest: &'a [u8],
}

impl<'a> Model for TraceReader<'a> {
    ghost Value = { ReaderState };

    ghost view = { λ r. reader_state r.bytes.now r.header.version r.header.shape.shift r.header.shape.pages
        r.header.shape.writes (writes_in r.index (drop 16 r.bytes.now)) };

    ghost invariant = { λ r. IsReading r.bytes.now r.header.version r.header.shape.shift r.header.shape.pages
        r.header.shape.writes r.index r.last r.rest.now };
}

impl<'a> TraceReader<'a> {
    /// Returns a reader in front of the first write, or what the header is refused for.
    pub fn new(bytes: &'a [u8]) -> Result<TraceReader<'a>, TraceError>
        ensures bytes { IfOk result (λ r. r.bytes ≡ bytes.entry.now) }
        ensures writes { IfOk result (λ r. r.writes ≡ []) }
        ensures state { IfOk result (λ r. r ≡ reader_of bytes.entry.now) }
        ensures accepted { OnOk result (header_refusal bytes.entry.now ≡ None) }
        ensures refused { IfErr result (Refuses bytes.entry.now) }
        ensures header { IfErr result (λ e. header_refusal bytes.entry.now ≡ Some e) }
    {
        let (header, rest) = split_header(bytes)?;
        Ok(TraceReader {
            bytes,
            header,
            index: 0,
            last: 0,
            rest,
        })
    }

    /// Returns the version and the sizes that the header claims.
    pub fn header(&self) -> Header
        ensures version { result.version ≡ self.now.version }
        ensures shift { result.shape.shift ≡ self.now.shift }
        ensures pages { result.shape.pages ≡ self.now.pages }
        ensures writes { result.shape.writes ≡ self.now.count }
    {
        self.header
    }

    /// Returns the sizes that the header claims.
    pub fn shape(&self) -> Shape
        ensures shift { result.shift ≡ self.now.shift }
        ensures pages { result.pages ≡ self.now.pages }
        ensures writes { result.writes ≡ self.now.count }
    {
        self.header.shape
    }

    /// Returns the next write, within the guest's pages and not before the previous one. After a refusal the reader is
    /// as before.
    pub fn read_record(&mut self) -> Result<WriteView<'a>, TraceError>
        requires { length self.old.writes < self.old.count }
        ensures read { IfOk result (λ write. self.new
            ≡ record self.old { writes = self.old.writes ++ shown write ∷ [] }) }
        ensures fits { IfOk result (λ write. IsGuestWrite self.old.version self.old.shift
            self.old.pages (shown write)) }
        ensures order { IfOk result (λ write. AreGuestWrites self.old.version self.old.shift self.old.pages
            (self.old.writes ++ shown write ∷ [])) }
        ensures front { IfOk result (λ write. shown write ≡ write_in (rest_at self.old)) }
        ensures accepted { OnOk result (refusal_at self.old ≡ None) }
        ensures refused { IfErr result (Refuses self.old.bytes) }
        ensures first { IfErr result (λ e. refusal_at self.old ≡ Some e) }
        ensures kept { OnErr result (self.new ≡ self.old) }
    {
        let (write, rest) = checked_write(self.header, self.last, self.index, self.rest)?;
        self.index += 1;
        self.last = write.tick;
        self.rest = rest;
        Ok(write)
    }

    /// Tests that nothing follows the last write.
    pub fn finish(self) -> Result<(), TraceError>
        requires { length self.writes ≡ self.count }
        ensures spelled { OnOk result (Spells self.entry.bytes
            (trace_with self.entry.version self.entry.shift self.entry.pages self.entry.writes)) }
        ensures whole { OnOk result (rest_at self.entry ≡ []) }
        ensures refused { IfErr result (Refuses self.entry.bytes) }
        ensures trailing { IfErr result (λ e. (rest_at self.entry ≢ []) × (e ≡ TrailingBytes)) }
    {
        if !self.rest.is_empty() {
            return Err(TraceError::TrailingBytes);
        }
        Ok(())
    }
}
