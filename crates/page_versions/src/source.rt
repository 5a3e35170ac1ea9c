//! Where pages come from.

ghost use Rattle.std.specs.Prelude.{◌≡◌, ◌<◌, ◌≤◌, true, false, nat_le, nat_lt, IfOk, IfSome, OnOk, length};
ghost use Rattle.std.specs.List.{between, filter};
ghost use Rattle.std.specs.List.Sorted.{IsNonDecreasing, IsPartitionPoint};
ghost use Rattle.migration_model.specs.Trace.{GuestTrace, IsTrace};
ghost use Rattle.migration_model.specs.Versions.{page_at};
ghost use Rattle.page_versions.specs.Index.{IsIndexOf};
ghost use Rattle.page_versions.specs.Copies.{IsPackOf};

use crate::error::IndexError;
use crate::index::{PageIndex, PageProgress};
use crate::packed::PackedWrites;
use guest_log::{Shape, WriteLog};
use std::marker::Model;

/// Makes the pages of a trace at their versions: from its packed writes if there are any, else from the trace.
#[derive(Debug, Drop)]
pub struct PageSource<'a, W: WriteLog> {
    trace: &'a W,
    index: &'a PageIndex,
    packed: Option<&'a PackedWrites>,
}

impl<'a, W: WriteLog> Model for PageSource<'a, W> {
    ghost Value = { GuestTrace };

    ghost view = { λ s. W.trace s.trace.now };

    ghost invariant = { λ s. IsIndexOf s.index.now (W.trace s.trace.now)
        × IfSome s.packed (λ packed. IsPackOf packed.now (W.trace s.trace.now)) };
}

/// Returns how many of these ascending places are not after a version.
fn count_to(places: &[u32], version: u32) -> usize
    requires { IsNonDecreasing places.now }
    ensures bound { result ≤ length places.now }
    ensures point { IsPartitionPoint (λ place. nat_le place version ≡ true)
        (λ place. nat_le place version ≡ false) places.now result }
{
    places.partition_point(
        |place: &u32| -> bool
            ensures { result ≡ nat_le place.now version }
        { *place <= version },
    )
}

/// Returns between which numbers the places after a version, and not after a later one, stand. The first has number 0.
fn run_between(places: &[u32], from: u32, to: u32) -> (usize, usize)
    requires { IsNonDecreasing places.now }
    ensures order { result.0 ≤ result.1 }
    ensures bound { result.1 ≤ length places.now }
    ensures run { between result.0 result.1 places.now
        ≡ filter (λ place. nat_le place to) (filter (λ place. nat_lt from place) places.now) }
{
    let start = count_to(places, from);
    (start, start + count_to(&places[start..], to))
}

impl<'a, W: WriteLog> PageSource<'a, W> {
    /// Returns the source of a trace's pages.
    pub fn new(
        trace: &'a W,
        index: &'a PageIndex,
        packed: Option<&'a PackedWrites>,
    ) -> PageSource<'a, W>
        requires of { IsIndexOf index.now (W.trace trace.now) }
        requires packed { IfSome packed (λ packed. IsPackOf packed.now (W.trace trace.now)) }
        ensures { result ≡ W.trace trace.now }
    {
        PageSource {
            trace,
            index,
            packed,
        }
    }

    /// Returns the sizes of the trace.
    pub fn shape(&self) -> Shape
        ensures shift { result.shift ≡ self.now.shift }
        ensures pages { result.pages ≡ self.now.pages }
        ensures writes { result.writes ≡ length self.now.writes }
        ensures is_trace { IsTrace self.now }
    {
        self.trace.shape()
    }

    /// Brings a page forward to a later version: it applies only the writes in between to its bytes. It allocates
    /// nothing.
    pub fn bring_on(&self, page: u32, from: PageProgress, to: u32, bytes: &mut [u8]) -> PageProgress
        requires page { page < self.now.pages }
        requires later { from.version ≤ to }
        requires version { to ≤ length self.now.writes }
        requires bytes { bytes.old ≡ page_at self.now page from.version }
        ensures bytes { bytes.new ≡ page_at self.now page to }
        ensures version { result.version ≡ to }
    {
        let Some(packed) = self.packed else {
            return self.index.bring_on(self.trace, page, from, to, bytes);
        };
        let (start, end) = run_between(self.index.places(page), from.version, to);
        let writes = &packed.pages[page as usize];
        writes.put_run(self.trace.shape(), start, end, bytes);
        PageProgress {
            version: to,
            writes: from.writes,
        }
    }

    /// Writes a page at its last checkpoint that is not after a version, or, if there is none, a page of zeros. Returns
    /// the version of what it wrote.
    fn begin(
        &self,
        packed: &PackedWrites,
        page: u32,
        version: u32,
        room: &mut Vec<u8>,
    ) -> Result<u32, IndexError>
        requires packed { IsPackOf packed.now self.now }
        requires page { page < self.now.pages }
        ensures earlier { IfOk result (λ from. from ≤ version) }
        ensures bytes { IfOk result (λ from. room.new.items ≡ page_at self.now page from) }
    {
        let size = self.shape().page_size();
        room.clear();
        let count = count_to(self.index.places(page), version);
        if let Some(checkpoint) = packed.checkpoint(page, version, count) {
            room.extend_from_slice(&checkpoint.bytes)?;
            return Ok(checkpoint.version);
        }
        room.resize(size, 0)?;
        Ok(0)
    }

    /// Writes the bytes of the page after the first `version` writes of the trace into a reused buffer, whose old
    /// contents are lost. The only error is that memory runs out.
    pub fn bytes_into(&self, page: u32, version: u32, room: &mut Vec<u8>) -> Result<(), IndexError>
        requires page { page < self.now.pages }
        requires version { version ≤ length self.now.writes }
        ensures { OnOk result (room.new.items ≡ page_at self.now page version) }
    {
        let Some(packed) = self.packed else {
            return self.index.bytes_into(self.trace, page, version, room);
        };
        let from = PageProgress {
            version: self.begin(packed, page, version, room)?,
            writes: 0,
        };
        self.bring_on(page, from, version, room);
        Ok(())
    }
}
