//! The writes of all pages.

ghost use Rattle.std.specs.Prelude.{◌≡◌, ◌-◌, ◌<◌, ◌≤◌, ℕ, [], IfOk, IfSome, length, map, slice_index_or};
ghost use Rattle.std.specs.List.{All};
ghost use Rattle.std.specs.Thread.{IsSync};
ghost use Rattle.migration_model.specs.Trace.{GuestTrace, IsTrace};
ghost use Rattle.page_versions.specs.Index.{IsIndexOf, places_of};
ghost use Rattle.page_versions.specs.Copies.{GuestPack, IsCheckpoint, IsPackOf, are_short_in, copies_of, copy_of};
ghost use Rattle.page_versions.specs.Copies.{pack_with};

use crate::checkpoints::{Checkpoint, WRITES_BETWEEN, all_checkpoints};
use crate::error::IndexError;
use crate::index::PageIndex;
use crate::page_writes::PageWrites;
use crate::source::PageSource;
use guest_log::WriteLog;
use std::alloc::{AllocError, Global};
use std::marker::Model;
use std::thread;
use std::thread::Threads;

/// The writes of a trace by page: each page's offsets and bytes lie side by side. A page with many writes also has its
/// bytes after every 1,024th of them. The memory is 8 bytes a write and the bytes that are written, and at most 4 bytes
/// a write more.
#[derive(Debug, Drop)]
pub struct PackedWrites {
    pub(crate) pages: Vec<PageWrites>,
    pub(crate) checkpoints: Vec<Vec<Checkpoint>>,
}

impl Model for PackedWrites {
    ghost Value = { GuestPack };

    ghost view = { λ p. pack_with p.pages.items (map (λ made. made.items) p.checkpoints.items) };
}

/// Returns whether the writes of a trace have at most 32 bytes on average: then copies of them are small, and looking
/// the writes up in the trace would take longer than applying them.
pub fn are_short<W: WriteLog>(trace: &W) -> bool
    ensures { result ≡ are_short_in (W.trace trace.now).writes }
{
    let count = trace.shape().writes as usize;
    let mut sum: u64 = 0;
    for index in 0..count {
        sum += trace.write(index).bytes.len() as u64;
    }
    sum <= 32 * count as u64
}

/// Returns how many bytes the writes at these places have.
fn bytes_at<W: WriteLog>(trace: &W, places: &[u32]) -> usize
    requires { All (λ place. (1 ≤ place) × (place ≤ length (W.trace trace.now).writes)) places.now }
{
    let mut sum: usize = 0;
    for place in places {
        sum = sum.saturating_add(trace.write(*place as usize - 1).bytes.len());
    }
    sum
}

/// Returns copies of the writes at these places.
fn page_of<W: WriteLog>(alloc: Global, trace: &W, places: &[u32]) -> Result<PageWrites, AllocError>
    requires few { length places.now ≤ length (W.trace trace.now).writes }
    requires places { All (λ place. (1 ≤ place) × (place ≤ length (W.trace trace.now).writes)) places.now }
    requires is_trace { IsTrace (W.trace trace.now) }
    ensures { IfOk result (λ writes. writes ≡ map (copy_of (W.trace trace.now)) places.now) }
{
    let mut writes = PageWrites::with_capacity(alloc, places.len(), bytes_at(trace, places))?;
    for place in places {
        writes.push(&trace.write(*place as usize - 1))?;
    }
    Ok(writes)
}

/// The most pages whose writes one thread copies. Those of more pages are copied by halves, each in its own thread.
const PAGES_ALONE: u32 = 16_384;

/// Returns copies of the writes of the pages from one number up to another, page by page. If there are many pages,
/// several threads make the copies.
fn copied<R: Threads + Sync, W: WriteLog + Sync>(
    rt: &R,
    alloc: Global,
    trace: &W,
    index: &PageIndex,
    from: u32,
    to: u32,
) -> Result<Vec<PageWrites>, AllocError>
    requires trace { IsTrace (W.trace trace.now) }
    requires index { IsIndexOf index.now (W.trace trace.now) }
    requires order { from ≤ to }
    requires bound { to ≤ (W.trace trace.now).pages }
    ensures { IfOk result (λ pages. pages.items ≡ copies_of (W.trace trace.now) from (to - from)) }
{
    if to - from <= PAGES_ALONE {
        let mut pages = Vec::with_capacity(alloc, (to - from) as usize)?;
        for page in from..to {
            pages.push(page_of(alloc, trace, index.places(page))?)?;
        }
        return Ok(pages);
    }
    let middle = from + (to - from) / 2;
    let low = || -> Result<Vec<PageWrites>, AllocError>
        requires { IsSync R.row × IsSync W.row × IsTrace (W.trace trace.now) × IsIndexOf index.now (W.trace trace.now)
            × (from ≤ middle) × (middle ≤ (W.trace trace.now).pages) }
        ensures { IfOk result (λ pages. pages.items ≡ copies_of (W.trace trace.entry.now) from (middle - from)) }
    { copied(rt, alloc, trace, index, from, middle) };
    let high = || -> Result<Vec<PageWrites>, AllocError>
        requires { IsSync R.row × IsSync W.row × IsTrace (W.trace trace.now) × IsIndexOf index.now (W.trace trace.now)
            × (middle ≤ to) × (to ≤ (W.trace trace.now).pages) }
        ensures { IfOk result (λ pages. pages.items ≡ copies_of (W.trace trace.entry.now) middle (to - middle)) }
    { copied(rt, alloc, trace, index, middle, to) };
    let (low, high) = thread::join(rt, low, high);
    let mut pages = low?;
    pages.append(&mut high?)?;
    Ok(pages)
}

/// Returns copies of all writes, page by page.
#[tactic(auto, using(crate::proofs::Joined::copies_len, crate::proofs::Joined::copies_in_place))]
fn all_pages<W: WriteLog + Sync>(
    rt: &(impl Threads + Sync),
    alloc: Global,
    trace: &W,
    index: &PageIndex,
) -> Result<Vec<PageWrites>, AllocError>
    requires { IsIndexOf index.now (W.trace trace.now) }
    ensures len { IfOk result (λ pages. length pages.items ≡ (W.trace trace.now).pages) }
    ensures each { IfOk result (λ pages. (page : ℕ) → page < (W.trace trace.now).pages
        → slice_index_or pages.items page [] ≡ map (copy_of (W.trace trace.now)) (places_of (W.trace trace.now) page)) }
{
    copied(rt, alloc, trace, index, 0, trace.shape().pages)
}

impl PackedWrites {
    /// Returns the writes of a trace, which several threads copy if it has many pages. The only error is that memory
    /// runs out.
    pub fn of<W: WriteLog + Sync>(
        rt: &(impl Threads + Sync),
        alloc: Global,
        trace: &W,
        index: &PageIndex,
    ) -> Result<PackedWrites, IndexError>
        requires { IsIndexOf index.now (W.trace trace.now) }
        ensures { IfOk result (λ packed. IsPackOf packed (W.trace trace.now)) }
    {
        let pages = all_pages(rt, alloc, trace, index)?;
        let checkpoints = Vec::new(alloc);
        let packed = PackedWrites { pages, checkpoints };
        let source = PageSource::new(trace, index, Some(&packed));
        let checkpoints = all_checkpoints(alloc, index, &source)?;
        let PackedWrites { pages, .. } = packed;
        Ok(PackedWrites { pages, checkpoints })
    }

    /// Returns the last checkpoint of a page that is not after a version, of which the page has `count` writes.
    pub(crate) fn checkpoint(&self, page: u32, version: u32, count: usize) -> Option<&Checkpoint>
        ensures version { IfSome result (λ c. c.now.version ≤ version) }
        ensures made { (trace : GuestTrace) → IsPackOf self.now trace → page < trace.pages
            → IfSome result (λ c. IsCheckpoint trace page c.now) }
    {
        if self.checkpoints.len() <= page as usize {
            return None;
        }
        let made = &self.checkpoints[page as usize];
        let last = count / WRITES_BETWEEN;
        if last == 0 || made.len() < last || made[last - 1].version > version {
            return None;
        }
        Some(&made[last - 1])
    }
}
