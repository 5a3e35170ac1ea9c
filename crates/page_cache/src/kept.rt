//! A page that is kept.

ghost use Rattle.std.specs.Prelude.{◌≡◌, ◌<◌, ◌≤◌, length};
ghost use Rattle.migration_model.specs.Versions.{page_at};
ghost use Rattle.page_cache.specs.Cache.{IsKept, KeptPage, page_with};

use guest_log::WriteLog;
use page_versions::{PageProgress, PageSource};
use std::marker::Model;

/// How far a page of zeros has come.
const FROM_ZEROS: PageProgress = PageProgress {
    version: 0,
    writes: 0,
};

/// The bytes of a page, and how far it has come.
#[derive(Debug, Drop)]
pub(crate) struct Kept {
    pub(crate) reached: PageProgress,
    pub(crate) bytes: Vec<u8>,
}

impl Model for Kept {
    ghost Value = { KeptPage };

    ghost view = { λ k. page_with k.reached.version k.bytes.items };
}

/// Brings the bytes of a page to a version. For a later version it applies only the writes in between; an earlier one
/// it makes from zeros, in the same memory.
fn bring_bytes_to<W: WriteLog>(
    source: &PageSource<'_, W>,
    page: u32,
    from: PageProgress,
    version: u32,
    bytes: &mut [u8],
) -> PageProgress
    requires kept { IsKept source.now page (page_with from.version bytes.old) }
    requires version { version ≤ length source.now.writes }
    ensures bytes { bytes.new ≡ page_at source.now page version }
    ensures version { result.version ≡ version }
{
    // For the proof: `shape` promises that the source is of a trace.
    let _ = source.shape();
    if from.version <= version {
        return source.bring_on(page, from, version, bytes);
    }
    bytes.fill(0);
    source.bring_on(page, FROM_ZEROS, version, bytes)
}

impl Kept {
    /// Brings the page to a version, in the same memory.
    pub(crate) fn bring_to<W: WriteLog>(
        &mut self,
        source: &PageSource<'_, W>,
        page: u32,
        version: u32,
    )
        requires kept { IsKept source.now page self.old }
        requires version { version ≤ length source.now.writes }
        ensures { self.new ≡ page_with version (page_at source.now page version) }
    {
        self.reached = bring_bytes_to(source, page, self.reached, version, &mut self.bytes);
    }
}
