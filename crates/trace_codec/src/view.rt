//! A trace that is read in place.

// `Refuses` holds of one value alone: `TraceView::parse: first`.
// `Spells` holds of one value alone: `one_trace`.

ghost use Rattle.std.specs.Prelude.{◌≡◌, Err, IfErr, IfOk, Ok, OnOk, length};
ghost use Rattle.migration_model.specs.Trace.{GuestTrace, IsTrace, Spells, trace_with};
ghost use Rattle.migration_model.specs.TraceReading.{writes_in};
ghost use Rattle.trace_codec.specs.Reading.{IsBody, IsView, RefusesBody};
ghost use Rattle.trace_codec.specs.Refusals.{Refuses};

use crate::error::TraceError;
use crate::fields::split_header;
use crate::records::{Records, checked_write};
use crate::trace::Trace;
use guest_log::{Header, Shape};
use std::alloc::{AllocError, Global};
use std::marker::Model;

/// Tests the writes of a trace with this header, after which the bytes may hold nothing.
fn check_writes(header: Header, bytes: &[u8]) -> Result<(), TraceError>
    ensures refused { IfErr result (RefusesBody header.version header.shape.shift header.shape.pages
        header.shape.writes bytes.now) }
    ensures accepted { OnOk result (IsBody header.version header.shape.shift header.shape.pages
        header.shape.writes bytes.now) }
{
    let mut last = 0;
    let mut rest = bytes;
    for index in 0..header.shape.writes {
        let (write, after) = checked_write(header, last, index, rest)?;
        last = write.tick;
        rest = after;
    }
    if !rest.is_empty() {
        return Err(TraceError::TrailingBytes);
    }
    Ok(())
}

/// A trace that is read in place, from the bytes that encode it: nothing is copied, and nothing is allocated.
#[derive(Drop)]
pub struct TraceView<'a> {
    header: Header,
    body: &'a [u8],
}

impl<'a> Model for TraceView<'a> {
    ghost Value = { GuestTrace };

    ghost view = { λ v. trace_with v.header.version v.header.shape.shift v.header.shape.pages
        (writes_in v.header.shape.writes v.body.now) };

    ghost invariant = { λ v. IsView v.header.version v.header.shape.shift v.header.shape.pages
        v.header.shape.writes v.body.now };
}

impl<'a> TraceView<'a> {
    fn whole(bytes: &'a [u8]) -> Result<TraceView<'a>, TraceError>
        ensures found { IfOk result (λ trace. Spells bytes.now trace) }
        ensures refused { IfErr result (Refuses bytes.now) }
    {
        let (header, body) = split_header(bytes)?;
        check_writes(header, body)?;
        Ok(TraceView { header, body })
    }

    /// Reads a trace from its bytes, in one pass over the records. It never returns `E16` or `E17`.
    pub fn parse(bytes: &'a [u8]) -> Result<TraceView<'a>, TraceError>
        ensures found { IfOk result (λ trace. Spells bytes.now trace) }
        ensures refused { IfErr result (Refuses bytes.now) }
        ensures only { (trace : GuestTrace) → Spells bytes.now trace → result ≡ Ok trace }
        ensures first { (e : TraceError) → Refuses bytes.now e → result ≡ Err e }
    {
        TraceView::whole(bytes)
    }

    /// Returns the version of the trace's format.
    pub fn version(&self) -> u8
        ensures { result ≡ self.now.version }
    {
        self.header.version
    }

    /// Returns the sizes of the trace.
    pub fn shape(&self) -> Shape
        ensures shift { result.shift ≡ self.now.shift }
        ensures pages { result.pages ≡ self.now.pages }
        ensures writes { result.writes ≡ length self.now.writes }
        ensures is_trace { IsTrace self.now }
    {
        self.header.shape
    }

    /// Returns an iterator over the writes, in order.
    pub fn records(&self) -> Records<'a>
        ensures { result ≡ self.now.writes }
    {
        Records::of(self.header.shape.writes, self.body)
    }

    /// Returns the trace with a copy of each write's bytes. The only error is that memory runs out.
    pub fn to_trace(&self, alloc: Global) -> Result<Trace, AllocError>
        ensures { IfOk result (λ trace. trace ≡ self.now) }
    {
        let Header { version, shape } = self.header;
        let mut writes = Vec::with_capacity(alloc, shape.writes as usize)?;
        for record in self.records() {
            writes.push(record.to_write(alloc)?)?;
        }
        Ok(Trace {
            version,
            shift: shape.shift,
            pages: shape.pages,
            writes,
        })
    }
}
