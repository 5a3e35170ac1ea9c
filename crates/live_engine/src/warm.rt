//! A warm start: the destination begins with the guest's memory before a base tick.

ghost use Rattle.std.specs.Prelude.{◌≡◌, ◌<◌, ◌&&◌, nat_lt, ℕ, IfErr, IfOk, IsTrue, Some, length};
ghost use Rattle.std.specs.Prelude.{slice_index};
ghost use Rattle.live_engine.specs.Warm.{is_lacking};
ghost use Rattle.migration_model.specs.Memory.{image_before};
ghost use Rattle.migration_model.specs.Trace.{IsGuestSize};
ghost use Rattle.migration_model.specs.Versions.{version_before};
ghost use Rattle.migration_model.specs.Warm.{first_part};
ghost use Rattle.page_bitmap.specs.Listing.{word_count};
ghost use Rattle.page_bitmap.specs.Pages.{in_words};
ghost use Rattle.page_versions.specs.Index.{IsIndexOf};

use crate::error::LiveError;
use crate::opening::versions_before;
use collector::Part;
use guest_log::WriteLog;
use image_build::Image;
use page_bitmap::{add_page, all_pages, word_count};
use page_versions::PageIndex;
use std::alloc::Global;

/// Returns the bitmap of the pages whose versions, given by page, are greater than before a base.
fn pages_since<W: WriteLog>(
    alloc: Global,
    trace: &W,
    index: &PageIndex,
    base: u64,
    versions: &[u32],
) -> Result<Vec<u64>, LiveError>
    requires of { IsIndexOf index.now (W.trace trace.now) }
    requires count { length versions.now ≡ (W.trace trace.now).pages }
    ensures words { IfOk result (λ v. length v.items ≡ word_count (W.trace trace.now).pages) }
    ensures pages { IfOk result (λ v. (page : ℕ) → in_words v.items page ≡ (nat_lt page (W.trace trace.now).pages
        && nat_lt (version_before (W.trace trace.now) page base) (slice_index versions.now page))) }
    ensures memory { IfErr result (λ e. e ≡ LiveError.Memory) }
{
    let pages = trace.shape().pages;
    let mut marks = Vec::from_elem(alloc, 0u64, word_count(pages as usize))?;
    for page in 0..pages {
        if index.version_before(page, base) < versions[page as usize] {
            add_page(&mut marks, page);
        }
    }
    Ok(marks)
}

/// Returns the bitmap of the pages that the first round must send, given the versions at its start: all, or with a base
/// those written since.
pub(crate) fn pages_lacking<W: WriteLog>(
    alloc: Global,
    trace: &W,
    index: &PageIndex,
    base: Option<u64>,
    start: u64,
    versions: &[u32],
) -> Result<Vec<u64>, LiveError>
    requires of { IsIndexOf index.now (W.trace trace.now) }
    requires count { length versions.now ≡ (W.trace trace.now).pages }
    requires are { (page : ℕ) → page < (W.trace trace.now).pages
        → slice_index versions.now page ≡ version_before (W.trace trace.now) page start }
    ensures words { IfOk result (λ v. length v.items ≡ word_count (W.trace trace.now).pages) }
    ensures size { IsGuestSize (W.trace trace.now).shift (W.trace trace.now).pages }
    ensures real { IfOk result (λ v. (page : ℕ) → IsTrue (in_words v.items page) → page < (W.trace trace.now).pages) }
    ensures pages { IfOk result (λ v. (page : ℕ) → page < (W.trace trace.now).pages
        → in_words v.items page ≡ is_lacking (W.trace trace.now) base start page) }
    ensures memory { IfErr result (λ e. e ≡ LiveError.Memory) }
{
    let pages = trace.shape().pages;
    match base {
        None => Ok(all_pages(alloc, pages)?),
        Some(base) => pages_since(alloc, trace, index, base, versions),
    }
}

/// Returns the part that has each page of the guest's memory before a base, at its version then.
pub(crate) fn part_of_memory<W: WriteLog>(
    alloc: Global,
    trace: &W,
    index: &PageIndex,
    base: u64,
    memory: Image,
) -> Result<Part, LiveError>
    requires of { IsIndexOf index.now (W.trace trace.now) }
    requires memory { memory ≡ image_before (W.trace trace.now) base }
    ensures part { IfOk result (λ part. part ≡ first_part (W.trace trace.now) (Some base)) }
    ensures memory { IfErr result (λ e. e ≡ LiveError.Memory) }
{
    let shape = trace.shape();
    let stamps = versions_before(alloc, trace, index, base)?;
    let bytes = memory.into_bytes();
    Ok(Part::of_image(alloc, shape, &bytes, &stamps)?)
}
