//! The final copy, on the caller's thread and on two others.

ghost use Rattle.std.specs.Prelude.{◌≡◌, IfOk, length};
ghost use Rattle.std.specs.List.{All};
ghost use Rattle.dirty_words.specs.Closing.{FitsPages};
ghost use Rattle.migration_model.specs.Final.{shape_of_trace};
ghost use Rattle.page_message.specs.Shapes.{shape_of};
ghost use Rattle.page_versions.specs.Index.{IsIndexOf};

use crate::fixtures::{SECOND, ZEROS, guest, part_of, show_part};
use anyhow::bail;
use collector::Part;
use dirty_words::Closed;
use image_build::{of_parts, replay};
use page_versions::PageIndex;
use std::alloc::Global;
use std::io;
use std::sync::Wait;
use std::thread::Threads;
use stop_copy::{CopyError, final_copy};
use trace_codec::{Shape, Trace, Write};

/// The parts of two streams: the first has page 1 after write 2, and pages 2 and 3 before any write, the second none.
fn two_parts(alloc: Global, shape: &Shape) -> anyhow::Result<Vec<Part>>
    ensures two { IfOk result (λ parts. length parts.items ≡ 2) }
    ensures shapes { IfOk result (λ parts. All (λ part. part.shape ≡ shape_of shape.now) parts.items) }
{
    let first = part_of(
        alloc,
        shape,
        &[(1, 2, SECOND), (2, 0, ZEROS), (3, 0, ZEROS)],
    )?;
    Ok(vec![in alloc; first, Part::new(alloc, *shape)]?)
}

fn show_copied(rt: &impl Print, copied: Result<Vec<Part>, CopyError>) -> io::Result<()> {
    match copied {
        Ok(parts) => {
            println!(rt; "copied")?;
            for part in &parts {
                println!(rt; "part")?;
                show_part(rt, part)?;
            }
            Ok(())
        }
        Err(error) => println!(rt; "final_copy {error:?}"),
    }
}

/// The caller's thread copies, after a word.
fn copy<R: Print + Threads + Wait + Sync>(
    rt: &R,
    alloc: Global,
    trace: &Trace,
    index: &PageIndex,
    closed: &Closed,
    word: &str,
) -> anyhow::Result<()>
    requires of { IsIndexOf index.now trace.now }
    requires closed { FitsPages closed.now trace.now.pages (length trace.now.writes) }
{
    let parts = two_parts(alloc, &trace.shape())?;
    println!(rt; "{word}")?;
    let copied = final_copy(rt, alloc, trace, index, closed, 1, 2, parts);
    Ok(show_copied(rt, copied)?)
}

/// Pages 0 and 1 are marked, at versions 1 and 3.
pub(crate) fn drive_final_copy<R: Print + Threads + Wait + Sync>(
    rt: &R,
    alloc: Global,
) -> anyhow::Result<()> {
    let trace = guest(alloc)?;
    let index = PageIndex::build(rt, alloc, &trace)?;
    let shape = trace.shape();
    let closed = Closed {
        versions: vec![in alloc; 1, 3, 0, 0]?,
        dirty: vec![in alloc; 3]?,
    };
    if !closed.fits(shape.pages, shape.writes) {
        bail!("that is not what a table of this guest leaves");
    }
    copy(rt, alloc, &trace, &index, &closed, "ready")?;
    copy(rt, alloc, &trace, &index, &closed, "again")
}

/// Enough pages for two workers to share them.
const PAGES: u32 = 600;

/// A guest of `PAGES` pages of 16 bytes, which writes every seventh of them.
fn wide_guest(alloc: Global) -> anyhow::Result<Trace> {
    let mut writes = Vec::new(alloc);
    for page in 0..PAGES {
        if page % 7 == 0 {
            writes.push(Write {
                tick: page as u64,
                page,
                offset: (page % 16) as u16,
                bytes: Vec::from_slice(alloc, &[1 + (page % 100) as u8])?,
            })?;
        }
    }
    Ok(Trace::new(1, 4, PAGES, writes)?)
}

/// The versions of all pages after all writes, each of them marked.
fn all_marked(alloc: Global, trace: &Trace, index: &PageIndex) -> anyhow::Result<Closed>
    requires { IsIndexOf index.now trace.now }
{
    let mut versions = Vec::new(alloc);
    for page in 0..trace.pages {
        versions.push(index.version_before(page, u64::MAX))?;
    }
    let mut dirty = vec![in alloc; u64::MAX; 9]?;
    dirty.push((1 << 24) - 1)?;
    Ok(Closed { versions, dirty })
}

/// Whether the parts together have the memory after all writes of the trace.
fn have_all(alloc: Global, trace: &Trace, parts: Vec<Part>) -> anyhow::Result<bool>
    requires { All (λ part. part.shape ≡ shape_of_trace trace.now) parts.items }
{
    let image = of_parts(alloc, &trace.shape(), parts)?;
    Ok(image.bytes() == replay(alloc, trace)?.bytes())
}

fn show_many(
    rt: &impl Print,
    alloc: Global,
    trace: &Trace,
    copied: Result<Vec<Part>, CopyError>,
) -> anyhow::Result<()>
    requires { IfOk copied (λ parts. All (λ part. part.shape ≡ shape_of_trace trace.now) parts.items) }
{
    match copied {
        Ok(parts) => {
            println!(rt; "copied")?;
            let is_all = have_all(alloc, trace, parts)?;
            println!(rt; "all memory {is_all}")?;
        }
        Err(error) => println!(rt; "final_copy {error:?}")?,
    }
    Ok(())
}

/// The parts of two streams after the final copy by two workers.
fn copied_by_two<R: Threads + Wait + Sync>(
    rt: &R,
    alloc: Global,
    trace: &Trace,
    index: &PageIndex,
    closed: &Closed,
    parts: Vec<Part>,
) -> Result<Vec<Part>, CopyError>
    requires of { IsIndexOf index.now trace.now }
    requires closed { FitsPages closed.now trace.now.pages (length trace.now.writes) }
    requires two { length parts.items ≡ 2 }
    requires shapes { All (λ part. part.shape ≡ shape_of_trace trace.now) parts.items }
    ensures { IfOk result (λ copied. All (λ part. part.shape ≡ shape_of_trace trace.now) copied.items) }
{
    Ok(final_copy(rt, alloc, trace, index, closed, 2, 2, parts)?)
}

/// Two workers copy into empty parts, after a word.
fn copy_by_two<R: Print + Threads + Wait + Sync>(
    rt: &R,
    alloc: Global,
    trace: &Trace,
    index: &PageIndex,
    closed: &Closed,
    word: &str,
) -> anyhow::Result<()>
    requires of { IsIndexOf index.now trace.now }
    requires closed { FitsPages closed.now trace.now.pages (length trace.now.writes) }
{
    let shape = trace.shape();
    let parts = vec![in alloc; Part::new(alloc, shape), Part::new(alloc, shape)]?;
    println!(rt; "{word}")?;
    let copied = copied_by_two(rt, alloc, trace, index, closed, parts);
    show_many(rt, alloc, trace, copied)
}

/// Two workers copy a guest whose pages are all marked.
pub(crate) fn drive_final_copy_by_workers<R: Print + Threads + Wait + Sync>(
    rt: &R,
    alloc: Global,
) -> anyhow::Result<()> {
    let trace = wide_guest(alloc)?;
    let index = PageIndex::build(rt, alloc, &trace)?;
    let shape = trace.shape();
    let closed = all_marked(alloc, &trace, &index)?;
    if !closed.fits(shape.pages, shape.writes) {
        bail!("that is not what a table of this guest leaves");
    }
    copy_by_two(rt, alloc, &trace, &index, &closed, "ready")?;
    copy_by_two(rt, alloc, &trace, &index, &closed, "again")
}
