//! The most recently used pages.

ghost use Rattle.std.specs.Prelude.{◌≡◌, ◌<◌, ◌≤◌, ◌-◌, IsTrue, None, OnErr, OnOk, Some, false, length, nat_eq, take};
ghost use Rattle.lru.specs.LruCache.{put_entries};
ghost use Rattle.std.specs.Map.{lookup};
ghost use Rattle.migration_model.specs.Trace.{GuestTrace};
ghost use Rattle.migration_model.specs.Versions.{page_at};
ghost use Rattle.page_cache.specs.Cache.{AreKept, page_with};

use crate::error::CacheError;
use crate::kept::Kept;
use guest_log::WriteLog;
use lru::LruCache;
use page_versions::{PageProgress, PageSource};

/// Brings what is kept of a page to a version, in place. Returns whether anything is kept of the page.
fn bring_kept<W: WriteLog>(
    source: &PageSource<'_, W>,
    kept: &mut LruCache<u32, Kept>,
    page: u32,
    version: u32,
) -> bool
    requires kept { AreKept source.now kept.old.entries }
    requires version { version ≤ length source.now.writes }
    ensures kept { AreKept source.now kept.new.entries }
    ensures last { IsTrue result → lookup (nat_eq page) kept.new.entries
        ≡ Some (page_with version (page_at source.now page version)) }
    ensures entries { IsTrue result → kept.new.entries
        ≡ put_entries nat_eq kept.old page (page_with version (page_at source.now page version)) }
    ensures none { result ≡ false → (kept.new ≡ kept.old) × (lookup (nat_eq page) kept.old.entries ≡ None) }
    ensures capacity { kept.new.cap ≡ kept.old.cap }
{
    let Some(was) = kept.get_mut(&page) else {
        return false;
    };
    was.bring_to(source, page, version);
    true
}

/// Returns a buffer for the bytes of one more page. If the cache is full, the least recently used page goes, and its
/// buffer is reused.
fn room_for_page(kept: &mut LruCache<u32, Kept>) -> Vec<u8>
    ensures kept { (trace : GuestTrace) → AreKept trace kept.old.entries → AreKept trace kept.new.entries }
    ensures entries { kept.new.entries ≡ take (kept.old.cap - 1) kept.old.entries }
    ensures capacity { kept.new.cap ≡ kept.old.cap }
{
    let alloc = *kept.allocator();
    if kept.len() < kept.cap().get() {
        return Vec::new(alloc);
    }
    match kept.pop_lru() {
        Some((_, oldest)) => oldest.bytes,
        None => Vec::new(alloc),
    }
}

/// Keeps a page at a version: it brings what is kept of the page there, or else makes the page anew, for which the
/// least recently used page goes if the cache is full.
pub(crate) fn keep_recent<W: WriteLog>(
    source: &PageSource<'_, W>,
    kept: &mut LruCache<u32, Kept>,
    page: u32,
    version: u32,
) -> Result<(), CacheError>
    requires kept { AreKept source.now kept.old.entries }
    requires page { page < source.now.pages }
    requires version { version ≤ length source.now.writes }
    ensures kept { AreKept source.now kept.new.entries }
    ensures last { OnOk result (lookup (nat_eq page) kept.new.entries
        ≡ Some (page_with version (page_at source.now page version))) }
    ensures entries { OnOk result (kept.new.entries
        ≡ put_entries nat_eq kept.old page (page_with version (page_at source.now page version))) }
    ensures refused { OnErr result (kept.new.entries ≡ take (kept.old.cap - 1) kept.old.entries) }
    ensures capacity { kept.new.cap ≡ kept.old.cap }
{
    if bring_kept(source, kept, page, version) {
        return Ok(());
    }
    let mut bytes = room_for_page(kept);
    source.bytes_into(page, version, &mut bytes)?;
    // How many of the page's writes are in the bytes is found when the page is brought forward.
    let reached = PageProgress { version, writes: 0 };
    kept.put(page, Kept { reached, bytes })?;
    Ok(())
}
