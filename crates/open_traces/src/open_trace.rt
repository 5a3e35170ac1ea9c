//! A trace that is opened in place.

// `Spells` holds of one value alone: `one_trace`.

ghost use Rattle.std.specs.Prelude.{◌≡◌, ◌<◌, ◌≤◌, ◌+◌, ◌-◌, length, refl, slice_index_or};
ghost use Rattle.migration_model.specs.Touches.{touches_of};
ghost use Rattle.migration_model.specs.Trace.{GuestTrace, Spells};
ghost use Rattle.migration_model.specs.TraceReading.{length_in, write_in};
ghost use Rattle.guest_log.specs.Writes.{no_write};
ghost use Rattle.trace_readers.specs.Texts.{held_trace};
ghost use Rattle.open_traces.specs.Index.{IsOpenAs, IsOpenWith, index_length as length_of_index, index_of};
ghost use Rattle.page_versions.specs.Index.{places_of};

use crate::places::put_places;
use crate::records::put_records;
use std::marker::Model;
use trace_codec::{Header, Shape, Timeline, Touch, TraceView, WriteLog, WriteView, first_write};

/// Returns how many words the index of a trace has: 12 bytes a write, and 4 a page.
pub fn index_length(trace: &TraceView<'_>) -> usize
    ensures { result ≡ length_of_index trace.now }
{
    let Shape { pages, writes, .. } = trace.shape();
    3 * writes as usize + pages as usize
}

/// Makes the index of a trace in lent words, in one pass over the records.
pub fn put_index(trace: &TraceView<'_>, words: &mut [u32])
    requires { length words.old ≡ length_of_index trace.now }
    ensures { words.new ≡ index_of trace.now }
{
    let Shape { writes, .. } = trace.shape();
    let count = writes as usize;
    let (begins, rest) = words.split_at_mut(count);
    let (pages, rest) = rest.split_at_mut(count);
    let (places, starts) = rest.split_at_mut(count);
    put_records(trace, begins, pages);
    put_places(pages, places, starts);
}

/// A trace that is read from its bytes and its index, each write in one step. Nothing changes it, so several threads
/// may read it at once.
#[derive(Drop)]
pub struct OpenTrace<'a> {
    header: Header,
    bytes: &'a [u8],
    begins: &'a [u32],
    pages: &'a [u32],
    places: &'a [u32],
    starts: &'a [u32],
}

impl<'a> Model for OpenTrace<'a> {
    ghost Value = { GuestTrace };

    ghost view = { λ t. held_trace t.header.version t.header.shape.shift t.header.shape.pages t.header.shape.writes
        t.bytes.now };

    ghost invariant = { λ t. IsOpenAs (held_trace t.header.version t.header.shape.shift t.header.shape.pages
        t.header.shape.writes t.bytes.now) t.bytes.now t.begins.now t.pages.now t.places.now t.starts.now };
}

impl<'a> OpenTrace<'a> {
    /// Returns the trace with this header, these bytes and this index.
    pub fn of(header: Header, bytes: &'a [u8], words: &'a [u32]) -> OpenTrace<'a>
        requires { IsOpenWith header bytes.now words.now }
        ensures shown { Spells bytes.now result }
        ensures only { (trace : GuestTrace) → Spells bytes.now trace → result ≡ trace }
    {
        let count = header.shape.writes as usize;
        let (begins, rest) = words.split_at(count);
        let (pages, rest) = rest.split_at(count);
        let (places, starts) = rest.split_at(count);
        OpenTrace {
            header,
            bytes,
            begins,
            pages,
            places,
            starts,
        }
    }

    /// Returns the bytes from the record of write `index` on.
    fn record(&self, index: usize) -> &[u8]
        requires { index < length self.now.writes }
        ensures whole { 16 + length_in result.now ≤ length result.now }
        ensures write { write_in result.now ≡ slice_index_or self.now.writes index no_write }
    {
        let (_, record) = self.bytes.split_at(self.begins[index] as usize);
        record
    }

    /// Returns the places of the writes to a page, in ascending order.
    pub(crate) fn places(&self, page: u32) -> &[u32]
        requires { page < self.now.pages }
        ensures { result.now ≡ places_of self.now page }
    {
        let start = self.starts[page as usize];
        let (_, rest) = self.places.split_at(start as usize);
        let next = page as usize + 1;
        if next == self.starts.len() {
            return rest;
        }
        let (own, _) = rest.split_at((self.starts[next] - start) as usize);
        own
    }

    /// Returns the page of a write.
    pub(crate) fn page(&self, place: u32) -> u32
        requires some { 1 ≤ place }
        requires within { place ≤ length self.now.writes }
        ensures { result ≡ (slice_index_or self.now.writes (place - 1) no_write).page }
    {
        self.pages[place as usize - 1]
    }
}

impl<'a> Timeline for OpenTrace<'a> {
    ghost touches = { touches_of };

    ghost pages = { λ t. t.pages };

    fn page_count(&self) -> u32 {
        self.header.shape.pages
    }

    fn touch_count(&self) -> usize {
        self.begins.len()
    }

    fn touch(&self, index: usize) -> Touch {
        let write = self.write(index);
        Touch {
            tick: write.tick,
            page: write.page,
        }
    }

    fn before(&self, tick: u64) -> usize {
        let mut low = 0;
        let mut high = self.begins.len();
        while low < high {
            let middle = low + (high - low) / 2;
            if self.touch(middle).tick < tick {
                low = middle + 1;
            } else {
                high = middle;
            }
        }
        low
    }
}

impl<'a> WriteLog for OpenTrace<'a> {
    ghost trace = { λ t. t };

    fn version(&self) -> u8 {
        self.header.version
    }

    fn shape(&self) -> Shape {
        self.header.shape
    }

    fn write(&self, index: usize) -> WriteView<'_> {
        let (write, _) = first_write(self.record(index));
        write
    }

    ghost same_pages = { λ t. refl };

    ghost same_touches = { λ t. refl };
}
