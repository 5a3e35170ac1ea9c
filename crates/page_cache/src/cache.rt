//! The cache.

ghost use Rattle.std.specs.Prelude.{◌≡◌, ◌<◌, ◌≤◌, [], IfOk, OnErr, OnOk, Some, length, nat_eq, option_map};
ghost use Rattle.std.specs.Map.{lookup};
ghost use Rattle.migration_model.specs.Versions.{page_at};
ghost use Rattle.page_versions.specs.Index.{IsIndexOf};
ghost use Rattle.page_cache.specs.Cache.{AreKept, GuestCache, cache_with, entries_after, entries_without_room};
ghost use Rattle.page_cache.specs.Cache.{page_with, pages_with};

use crate::error::CacheError;
use crate::kept::Kept;
use crate::pages::KeptPages;
use crate::recent::keep_recent;
use guest_log::WriteLog;
use lru::LruCache;
use page_versions::{PageIndex, PageSource};
use std::alloc::Global;
use std::marker::Model;

/// Pages of a trace, each at the version last asked for. It keeps a bounded number of them; the least recently used one
/// goes first. It keeps the allocator that it was made with.
#[derive(Debug, Drop)]
pub struct PageCache<'a, W: WriteLog> {
    source: PageSource<'a, W>,
    kept: LruCache<u32, Kept>,
}

impl<'a, W: WriteLog> Model for PageCache<'a, W> {
    ghost Value = { GuestCache };

    ghost view = { λ c. cache_with c.source c.kept.entries c.kept.cap };

    ghost invariant = { λ c. AreKept c.source c.kept.entries };
}

impl<'a, W: WriteLog> PageCache<'a, W> {
    /// Returns a cache that keeps nothing yet, and later at most `capacity` pages.
    pub fn new(
        alloc: Global,
        trace: &'a W,
        index: &'a PageIndex,
        capacity: usize,
    ) -> Result<PageCache<'a, W>, CacheError>
        requires of { IsIndexOf index.now (W.trace trace.now) }
        requires capacity { (1 ≤ capacity) × (capacity ≤ 4_096) }
        ensures { IfOk result (λ cache. cache ≡ cache_with (W.trace trace.now) [] capacity) }
    {
        let pages = KeptPages::new(alloc, capacity)?;
        Ok(PageCache::with_pages(PageSource::new(trace, index, None), pages))
    }

    /// Returns a cache that makes pages by this source, and continues with the pages that another one of the same trace
    /// kept.
    pub fn with_pages(source: PageSource<'a, W>, pages: KeptPages) -> PageCache<'a, W>
        requires { AreKept source pages.entries }
        ensures { result ≡ cache_with source.entry pages.entries pages.capacity }
    {
        let KeptPages { kept } = pages;
        PageCache { source, kept }
    }

    /// Returns what the cache keeps.
    pub fn into_pages(self) -> KeptPages
        ensures pages { result ≡ pages_with self.entry.entries self.entry.capacity }
        ensures kept { AreKept self.entry.trace self.entry.entries }
    {
        let PageCache { source: _, kept } = self;
        KeptPages { kept }
    }

    /// Keeps the page after the first `version` writes of the trace. If it keeps an earlier version of the page, it
    /// applies only the writes in between to it; else it makes the page from zeros, or from the last checkpoint that
    /// its source has of the page.
    ///
    /// If it keeps any version of the page, it reuses that page's memory. If it is full, it uses the memory of the
    /// least recently used page, which goes; all others stay. The only error is that memory runs out.
    pub fn keep(&mut self, page: u32, version: u32) -> Result<(), CacheError>
        requires page { page < self.old.trace.pages }
        requires version { version ≤ length self.old.trace.writes }
        ensures kept { AreKept self.new.trace self.new.entries }
        ensures last { OnOk result (lookup (nat_eq page) self.new.entries
            ≡ Some (page_with version (page_at self.old.trace page version))) }
        ensures entries { OnOk result (self.new.entries
            ≡ entries_after self.old page (page_with version (page_at self.old.trace page version))) }
        ensures refused { OnErr result (self.new.entries ≡ entries_without_room self.old) }
        ensures trace { self.new.trace ≡ self.old.trace }
        ensures capacity { self.new.capacity ≡ self.old.capacity }
    {
        keep_recent(&self.source, &mut self.kept, page, version)
    }

    /// Returns the bytes that are kept of a page, at whatever version.
    pub fn bytes(&self, page: u32) -> Option<&[u8]>
        ensures { option_map (λ b. b.now) result ≡ option_map (λ k. k.bytes) (lookup (nat_eq page) self.now.entries) }
    {
        let kept = self.kept.peek(&page)?;
        Some(&kept.bytes)
    }

    /// Returns the bytes of the page after the first `version` writes of the trace, as `PageIndex::bytes_at` does, and
    /// keeps the page. The only error is that memory runs out.
    pub fn bytes_at(&mut self, page: u32, version: u32) -> Result<Vec<u8>, CacheError>
        requires page { page < self.old.trace.pages }
        requires version { version ≤ length self.old.trace.writes }
        ensures bytes { IfOk result (λ v. v.items ≡ page_at self.old.trace page version) }
        ensures kept { AreKept self.new.trace self.new.entries }
        ensures last { OnOk result (lookup (nat_eq page) self.new.entries
            ≡ Some (page_with version (page_at self.old.trace page version))) }
        ensures entries { OnOk result (self.new.entries
            ≡ entries_after self.old page (page_with version (page_at self.old.trace page version))) }
        ensures trace { self.new.trace ≡ self.old.trace }
        ensures capacity { self.new.capacity ≡ self.old.capacity }
    {
        self.keep(page, version)?;
        let alloc = *self.kept.allocator();
        let Some(bytes) = self.bytes(page) else {
            unreachable!()
        };
        Ok(Vec::from_slice(alloc, bytes)?)
    }
}
