//! Pages from a cache.

ghost use Rattle.std.specs.Prelude.{◌≡◌, ◌<◌, ◌≤◌, length};
ghost use Rattle.page_versions.specs.Index.{IsIndexOf};

use crate::fixtures::guest;
use anyhow::Result;
use page_cache::{CacheError, PageCache};
use page_versions::PageIndex;
use std::alloc::{AllocError, Global};
use std::io;
use std::thread::Threads;
use trace_codec::Trace;

/// What a cache returned for a page at a version.
type Answer = (u32, u32, Result<Vec<u8>, CacheError>);

/// A page that is kept later, pages that are not, and a page at an earlier version.
const ASKED: [(u32, u32); 6] = [(1, 3), (3, 4), (1, 5), (2, 0), (3, 3), (0, 5)];

/// Asks the cache for these pages at these versions, in order. There is room for the answers.
fn ask(
    cache: &mut PageCache<'_, Trace>,
    trace: &Trace,
    asked: &[(u32, u32)],
    answers: &mut Vec<Answer>,
) -> Result<(), AllocError>
    requires { cache.old.trace ≡ trace.now }
    ensures { cache.new.trace ≡ trace.now }
{
    for (page, version) in asked {
        if *page < trace.pages && *version as usize <= trace.writes.len() {
            let bytes = cache.bytes_at(*page, *version);
            answers.push((*page, *version, bytes))?;
        }
    }
    Ok(())
}

fn show_answers(rt: &impl Print, answers: &[Answer]) -> io::Result<()> {
    for (page, version, bytes) in answers {
        println!(rt; "page {page} version {version} {bytes:?}")?;
    }
    Ok(())
}

/// Prints what the cache keeps of each page.
fn show_kept(rt: &impl Print, cache: &PageCache<'_, Trace>, pages: u32) -> io::Result<()> {
    for page in 0..pages {
        if let Some(bytes) = cache.bytes(page) {
            println!(rt; "kept page {page} {bytes:?}")?;
        }
    }
    Ok(())
}

/// Asks the cache and the index for a page at a version.
fn show_both(
    rt: &impl Print,
    alloc: Global,
    cache: &mut PageCache<'_, Trace>,
    trace: &Trace,
    index: &PageIndex,
    page: u32,
    version: u32,
) -> anyhow::Result<()>
    requires cache { cache.old.trace ≡ trace.now }
    requires of { IsIndexOf index.now trace.now }
    requires page { page < trace.now.pages }
    requires version { version ≤ length trace.now.writes }
    ensures { cache.new.trace ≡ trace.now }
{
    let bytes = cache.bytes_at(page, version)?;
    let is_same = bytes.as_slice() == index.bytes_at(alloc, trace, page, version)?.as_slice();
    println!(rt; "again page {page} version {version} {bytes:?} as the index tells it {is_same}")?;
    Ok(())
}

/// Asks both for all pages at one version.
fn show_version(
    rt: &impl Print,
    alloc: Global,
    cache: &mut PageCache<'_, Trace>,
    trace: &Trace,
    index: &PageIndex,
    version: u32,
) -> anyhow::Result<()>
    requires cache { cache.old.trace ≡ trace.now }
    requires of { IsIndexOf index.now trace.now }
    requires version { version ≤ length trace.now.writes }
    ensures { cache.new.trace ≡ trace.now }
{
    for page in 0..trace.pages {
        show_both(rt, alloc, cache, trace, index, page, version)?;
    }
    Ok(())
}

/// Asks both for all pages at all versions.
fn show_all(
    rt: &impl Print,
    alloc: Global,
    cache: &mut PageCache<'_, Trace>,
    trace: &Trace,
    index: &PageIndex,
) -> anyhow::Result<()>
    requires cache { cache.old.trace ≡ trace.now }
    requires of { IsIndexOf index.now trace.now }
{
    for version in 0..trace.shape().writes + 1 {
        show_version(rt, alloc, cache, trace, index, version)?;
    }
    Ok(())
}

/// Asks a cache for pages 0 and 1, and then for other pages and versions.
fn ask_all(
    rt: &impl Print,
    alloc: Global,
    cache: &mut PageCache<'_, Trace>,
    trace: &Trace,
    index: &PageIndex,
    answers: &mut Vec<Answer>,
) -> anyhow::Result<()>
    requires cache { cache.old.trace ≡ trace.now }
    requires of { IsIndexOf index.now trace.now }
{
    ask(cache, trace, &[(0, 1), (1, 2)], answers)?;
    println!(rt; "ready")?;
    ask(cache, trace, &ASKED, answers)?;
    show_answers(rt, answers)?;
    show_kept(rt, cache, trace.pages)?;
    show_all(rt, alloc, cache, trace, index)
}

/// A cache of two pages, which keeps pages 0 and 1, is asked for other pages and versions.
pub(crate) fn drive_bytes_at<R: Print + Threads + Sync>(
    rt: &R,
    alloc: Global,
) -> anyhow::Result<()> {
    let trace = guest(alloc)?;
    let index = PageIndex::build(rt, alloc, &trace)?;
    let mut cache = PageCache::new(alloc, &trace, &index, 2)?;
    let mut answers = Vec::with_capacity(alloc, 2 + ASKED.len())?;
    ask_all(rt, alloc, &mut cache, &trace, &index, &mut answers)
}
