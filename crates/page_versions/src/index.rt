//! Where a trace writes each page.

ghost use Rattle.std.specs.Prelude.{◌≡◌, ◌<◌, ◌≤◌, ◌↔◌, IfOk, IsTrue, OnOk, fold, length, max, nat_le, nat_lt};
ghost use Rattle.std.specs.List.{filter};
ghost use Rattle.migration_model.specs.Trace.{GuestTrace};
ghost use Rattle.migration_model.specs.Versions.{page_at, version_before as version_of};
ghost use Rattle.page_versions.specs.Index.{GuestIndex, HasWritesOf, IsIndexOf, index_with, places_in, places_of};
ghost use Rattle.page_versions.specs.Index.{version_after as version_at};
ghost use Rattle.page_versions.specs.Layout.{IsLaidOut, tick_at};

use crate::bytes::{put_bytes, put_writes};
use crate::error::IndexError;
use crate::index_parts::{are_touches, parts_alone, parts_of, touches_in};
use crate::laying::Parts;
use crate::searching::{greatest_before, greatest_to, places_after, places_between, places_to};
use guest_log::{Touch, WriteLog};
use std::alloc::{AllocError, Global};
use std::marker::Model;
use std::thread;
use std::thread::Threads;

/// The writes of a trace by page: for each page the places of its writes, and their ticks. A write's place is its
/// number in the trace, 1 for the first. The bytes that are written stay in the trace.
#[derive(Debug, Drop)]
pub struct PageIndex {
    pages: u32,
    touches: Vec<Touch>,
    starts: Vec<u32>,
    places: Vec<u32>,
}

/// How far a page has come: the version of its bytes, and a guess at how many of its writes they contain.
#[derive(Clone, Copy, Debug)]
pub struct PageProgress {
    /// The version of the page's bytes.
    pub version: u32,
    /// How many of the page's writes are thought to be in the bytes.
    pub writes: u32,
}

impl Model for PageIndex {
    ghost Value = { GuestIndex };

    ghost view = { λ i. index_with i.pages i.touches.items };

    ghost invariant = { λ i. IsLaidOut i.pages i.touches.items i.starts.items i.places.items };
}

impl PageIndex {
    /// Returns the index of a trace. It makes the list of touches and the list of places in parallel; several threads
    /// sort the runs of touches by page. The only error is that memory runs out.
    pub fn build<W: WriteLog + Sync>(
        rt: &(impl Threads + Sync),
        alloc: Global,
        trace: &W,
    ) -> Result<PageIndex, IndexError>
        ensures { IfOk result (λ index. IsIndexOf index (W.trace trace.now)) }
    {
        let pages = trace.page_count();
        let touches = || -> Result<Vec<Touch>, AllocError>
            ensures { IfOk result (λ v. v.items ≡ W.touches trace.entry.now) }
        { touches_in(alloc, trace) };
        let parts = || -> Result<Parts, IndexError>
            ensures { IfOk result (λ parts. IsLaidOut (W.pages trace.entry.now) (W.touches trace.entry.now)
                parts.starts.items parts.places.items) }
        { parts_of(rt, alloc, trace) };
        let (touches, parts) = thread::join(rt, touches, parts);
        let touches = touches?;
        let Parts { starts, places } = parts?;
        Ok(PageIndex {
            pages,
            touches,
            starts,
            places,
        })
    }

    /// Returns the index of a trace, made in the caller's thread alone. The only error is that memory runs out.
    pub fn build_alone<W: WriteLog>(alloc: Global, trace: &W) -> Result<PageIndex, IndexError>
        ensures { IfOk result (λ index. IsIndexOf index (W.trace trace.now)) }
    {
        let pages = trace.page_count();
        let touches = touches_in(alloc, trace)?;
        let Parts { starts, places } = parts_alone(alloc, trace)?;
        Ok(PageIndex {
            pages,
            touches,
            starts,
            places,
        })
    }

    /// Returns the page's part of the list of places.
    fn part(&self, page: u32) -> &[u32]
        requires { page < self.now.pages }
        ensures { result.now ≡ places_in self.now.touches page }
    {
        let start = self.starts[page as usize] as usize;
        let end = self.starts[page as usize + 1] as usize;
        &self.places[start..end]
    }

    /// Returns the places of the page's writes, in ascending order.
    pub fn places(&self, page: u32) -> &[u32]
        requires { page < self.now.pages }
        ensures own { result.now ≡ places_in self.now.touches page }
        ensures of_trace { (trace : GuestTrace) → IsIndexOf self.now trace → result.now ≡ places_of trace page }
    {
        self.part(page)
    }

    /// Returns the page's places that are greater than a version.
    pub fn writes_after(&self, page: u32, version: u32) -> &[u32]
        requires { page < self.now.pages }
        ensures own { result.now ≡ filter (λ place. nat_lt version place) (places_in self.now.touches page) }
        ensures of_trace { (trace : GuestTrace) → IsIndexOf self.now trace
            → result.now ≡ filter (λ place. nat_lt version place) (places_of trace page) }
    {
        places_after(self.part(page), version)
    }

    /// Returns the page's version before a tick: the greatest place of a write to it with a smaller tick, or 0 if there
    /// is none. It does a binary search.
    pub fn version_before(&self, page: u32, tick: u64) -> u32
        requires { page < self.now.pages }
        ensures own { result ≡ fold max 0 (filter (λ place. nat_lt (tick_at self.now.touches place) tick)
            (places_in self.now.touches page)) }
        ensures of_trace { (trace : GuestTrace) → IsIndexOf self.now trace → result ≡ version_of trace page tick }
    {
        greatest_before(&self.touches, self.part(page), tick)
    }

    /// Returns the page's version after the first `count` writes of the trace: the greatest place of a write to it
    /// among them, or 0 if there is none. It does a binary search.
    pub fn version_after(&self, page: u32, count: u32) -> u32
        requires { page < self.now.pages }
        ensures own { result ≡ fold max 0 (filter (λ place. nat_le place count) (places_in self.now.touches page)) }
        ensures of_trace { (trace : GuestTrace) → IsIndexOf self.now trace → result ≡ version_at trace page count }
    {
        greatest_to(self.part(page), count)
    }

    /// Returns the bytes of the page after the first `version` writes of the trace. It applies only the page's own
    /// writes to zeros. The only error is that memory runs out.
    pub fn bytes_at<W: WriteLog>(
        &self,
        alloc: Global,
        trace: &W,
        page: u32,
        version: u32,
    ) -> Result<Vec<u8>, IndexError>
        requires of { IsIndexOf self.now (W.trace trace.now) }
        requires page { page < self.now.pages }
        requires version { version ≤ length (W.trace trace.now).writes }
        ensures { IfOk result (λ v. v.items ≡ page_at (W.trace trace.now) page version) }
    {
        let mut bytes = Vec::new(alloc);
        self.bytes_into(trace, page, version, &mut bytes)?;
        Ok(bytes)
    }

    /// Writes the bytes of the page after the first `version` writes of the trace into a reused buffer, whose old
    /// contents are lost. The only error is that memory runs out.
    pub fn bytes_into<W: WriteLog>(
        &self,
        trace: &W,
        page: u32,
        version: u32,
        room: &mut Vec<u8>,
    ) -> Result<(), IndexError>
        requires of { IsIndexOf self.now (W.trace trace.now) }
        requires page { page < self.now.pages }
        requires version { version ≤ length (W.trace trace.now).writes }
        ensures { OnOk result (room.new.items ≡ page_at (W.trace trace.now) page version) }
    {
        put_bytes(room, trace, places_to(self.part(page), version))
    }

    /// Brings a page forward to a later version: it applies only the writes in between to its bytes. It first tests
    /// whether the guess is the number of the page's writes in the bytes. It allocates nothing.
    pub fn bring_on<W: WriteLog>(
        &self,
        trace: &W,
        page: u32,
        from: PageProgress,
        to: u32,
        bytes: &mut [u8],
    ) -> PageProgress
        requires of { IsIndexOf self.now (W.trace trace.now) }
        requires page { page < self.now.pages }
        requires later { from.version ≤ to }
        requires version { to ≤ length (W.trace trace.now).writes }
        requires bytes { bytes.old ≡ page_at (W.trace trace.now) page from.version }
        ensures bytes { bytes.new ≡ page_at (W.trace trace.now) page to }
        ensures version { result.version ≡ to }
        ensures writes { result.writes ≡ length (filter (λ place. nat_le place to)
            (places_of (W.trace trace.now) page)) }
    {
        // For the proof: `shape` promises that the log describes a trace.
        let _ = trace.shape();
        let guess = from.writes as usize;
        let (places, writes) = places_between(self.part(page), from.version, to, guess);
        put_writes(bytes, trace, places);
        PageProgress {
            version: to,
            writes: writes as u32,
        }
    }

    /// Returns whether the index has the trace's pages and touches.
    fn has_touches_of<W: WriteLog>(&self, trace: &W) -> bool
        ensures { IsTrue result ↔ IsIndexOf self.now (W.trace trace.now) }
    {
        self.pages == trace.page_count() && are_touches(&self.touches, trace)
    }

    /// Returns whether the index is that of this trace: it has the trace's pages, and the places and ticks of each
    /// page's writes. It allocates nothing.
    pub fn is_of<W: WriteLog>(&self, trace: &W) -> bool
        ensures index { IsTrue result ↔ IsIndexOf self.now (W.trace trace.now) }
        ensures each_page { IsTrue result ↔ HasWritesOf self.now (W.trace trace.now) }
    {
        self.has_touches_of(trace)
    }
}
