//! The versions of pages, by the places of their writes.

ghost use Rattle.std.specs.Prelude.{◌≡◌, ◌↔◌, ◌<◌, ◌≤◌, ◌^◌, IsTrue, length, nat_le};
ghost use Rattle.std.specs.List.Sorted.{IsNonDecreasing};
ghost use Rattle.migration_model.specs.Versions.{page_at};
ghost use Rattle.page_versions.specs.Index.{version_after as version_at};
ghost use Rattle.page_versions.specs.Layout.{IsCountTo};
ghost use Rattle.open_traces.specs.Index.{next_after, versions_at};

use crate::open_trace::OpenTrace;
use page_versions::put_writes;
use trace_codec::WriteLog;

/// Returns how many of the places are not after a version.
fn count_to(places: &[u32], version: u32) -> usize
    requires { IsNonDecreasing places.now }
    ensures { IsCountTo places.now version result }
{
    places.partition_point(
        |place: &u32| -> bool
            ensures { result ≡ nat_le place.now version }
        { *place <= version },
    )
}

impl<'a> OpenTrace<'a> {
    /// Returns the page's version after the first `count` writes: the place of the last of them that is to the page, or
    /// 0.
    pub fn version_after(&self, page: u32, count: u32) -> u32
        requires { page < self.now.pages }
        ensures { result ≡ version_at self.now page count }
    {
        let places = self.places(page);
        let few = count_to(places, count);
        if few == 0 {
            return 0;
        }
        places[few - 1]
    }

    /// Makes the versions of all pages after the first `count` writes, page by page.
    pub fn put_versions(&self, count: u32, versions: &mut [u32])
        requires { length versions.old ≡ self.now.pages }
        ensures { versions.new ≡ versions_at self.now count }
    {
        let shape = self.shape();
        versions.fill(0);
        for place in 0..count.min(shape.writes) {
            versions[self.page(place + 1) as usize] = place + 1;
        }
    }

    /// Returns whether this is a version of a page: 0, or the place of a write to it. It looks at that write alone.
    pub fn is_version(&self, page: u32, stamp: u32) -> bool
        requires { stamp ≤ length self.now.writes }
        ensures { IsTrue result ↔ (stamp ≡ version_at self.now page stamp) }
    {
        stamp == 0 || self.page(stamp) == page
    }

    /// Returns the place of the first write to a page that is not in one of its versions, or 0 if there is none.
    pub fn behind(&self, page: u32, version: u32) -> u32
        requires page { page < self.now.pages }
        requires is { version ≡ version_at self.now page version }
        ensures { result ≡ next_after self.now page version }
    {
        let places = self.places(page);
        let few = count_to(places, version);
        if few == places.len() {
            return 0;
        }
        places[few]
    }

    /// Returns whether a version of a page is still its version after the first `count` writes. It looks at the next
    /// write to the page alone.
    pub fn is_version_after(&self, page: u32, version: u32, count: u32) -> bool
        requires page { page < self.now.pages }
        requires is { version ≡ version_at self.now page version }
        ensures { IsTrue result ↔ (version ≡ version_at self.now page count) }
    {
        if version > count {
            return false;
        }
        let next = self.behind(page, version);
        next == 0 || next > count
    }

    /// Brings the bytes of a page from one of its versions on, to those after the first `count` writes: it applies only
    /// the writes in between.
    fn bring_on(&self, page: u32, from: u32, count: u32, content: &mut [u8])
        requires page { page < self.now.pages }
        requires is { from ≡ version_at self.now page from }
        requires later { from ≤ count }
        requires bytes { content.old ≡ page_at self.now page from }
        ensures { content.new ≡ page_at self.now page count }
    {
        // For the proof: `shape` promises that this is a trace.
        let _ = self.shape();
        let places = self.places(page);
        let later = &places[count_to(places, from)..];
        put_writes(content, self, &later[..count_to(later, count)]);
    }

    /// Makes the bytes of a page after the first `count` writes. What is in the room for them is lost.
    pub fn put_page(&self, page: u32, count: u32, content: &mut [u8])
        requires page { page < self.now.pages }
        requires room { length content.old ≡ 2 ^ self.now.shift }
        ensures { content.new ≡ page_at self.now page count }
    {
        // For the proof: `shape` promises that this is a trace.
        let _ = self.shape();
        content.fill(0);
        self.bring_on(page, 0, count, content);
    }

    /// Turns the bytes of a page at one of its versions into those after the first `count` writes. It brings them on if
    /// these are more, or else makes them again from zeros.
    pub fn turn_page(&self, page: u32, from: u32, count: u32, content: &mut [u8])
        requires page { page < self.now.pages }
        requires is { from ≡ version_at self.now page from }
        requires bytes { content.old ≡ page_at self.now page from }
        ensures { content.new ≡ page_at self.now page count }
    {
        // For the proof: `shape` promises that this is a trace.
        let _ = self.shape();
        if count < from {
            self.put_page(page, count, content);
            return;
        }
        self.bring_on(page, from, count, content);
    }
}
