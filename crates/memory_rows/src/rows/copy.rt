//! Worked examples, with results worked out by hand, and a caller that uses these contracts.

ghost use Rattle.std.specs.Prelude.{◌≡◌, ◌<◌, ◌≤◌, ℕ, IfOk, IsTrue, length, slice_index_or, vec_len};
ghost use Rattle.std.specs.List.{All};
ghost use Rattle.page_bitmap.specs.Pages.{in_words};
ghost use Rattle.dirty_words.specs.Closing.{FitsPages};
ghost use Rattle.migration_model.specs.Final.{shape_of_trace};
ghost use Rattle.migration_model.specs.Images.{AreNotBeyond, HaveCurrent};
ghost use Rattle.migration_model.specs.Memory.{image_before, image_of};
ghost use Rattle.migration_model.specs.Versions.{version_before};
ghost use Rattle.page_versions.specs.Index.{IsIndexOf};

use super::fixtures::{AT_END, AT_STOP, SECOND, ZEROS, guest, part_of};
use collector::{Part, merge};
use dirty_words::Closed;
use image_build::{Image, ImageError, of_parts, replay, resume};
use migration_model::{current_copies_make_memory, final_copy_makes_current};
use page_versions::PageIndex;
use std::alloc::Global;
use std::process::Abort;
use std::sync::Wait;
use std::test::Fail;
use std::thread::Threads;
use stop_copy::final_copy;
use trace_codec::{Trace, Write};

/// The memory of a guest when it stopped, and after all writes of its trace.
#[derive(Debug, Drop)]
struct Images {
    at_stop: Image,
    at_end: Image,
}

/// Returns the memory before any tick at which these are the versions, and the memory after all writes. The parts are
/// honest, never beyond a page's version, and lack only marked pages.
fn images_of<R: Threads + Wait + Sync>(
    rt: &R,
    alloc: Global,
    trace: &Trace,
    index: &PageIndex,
    closed: &Closed,
    parts: Vec<Part>,
) -> Result<Images, Fail>
    requires of { IsIndexOf index.now trace.now }
    requires closed { FitsPages closed.now trace.now.pages (length trace.now.writes) }
    requires some { 1 ≤ vec_len parts }
    requires few { vec_len parts ≤ 16 }
    requires parts { AreNotBeyond trace.now (shape_of_trace trace.now) closed.now.versions parts.items }
    requires current { (page : ℕ) → page < trace.now.pages → ¬ IsTrue (in_words closed.now.dirty page)
        → HaveCurrent closed.now.versions parts.items page }
    ensures at_stop { IfOk result (λ images. (tick : ℕ)
        → ((page : ℕ) → page < trace.now.pages → slice_index_or closed.now.versions page 0
        ≡ version_before trace.now page tick)
        → images.at_stop ≡ image_before trace.now tick) }
    ensures at_end { IfOk result (λ images. images.at_end ≡ image_of trace.now) }
{
    let streams = parts.len();
    let copied = final_copy(rt, alloc, trace, index, closed, 2, streams, parts)?;
    final_copy_makes_current();
    current_copies_make_memory();
    let at_stop = of_parts(alloc, &trace.shape(), copied)?;
    let at_end = resume(at_stop.copy(alloc)?, trace, index, &closed.versions);
    Ok(Images { at_stop, at_end })
}

/// Returns two parts after the final copy: the first had page 1 after write 2 and pages 2 and 3 before any write, the
/// second had nothing. Pages 0 and 1 are now at versions 1 and 3, and these are marked.
fn copied(
    rt: &(impl Abort + Threads + Wait + Sync),
    alloc: Global,
    trace: &Trace,
    index: &PageIndex,
    dirty: u64,
    workers: usize,
) -> Vec<Part>
    requires some { 1 ≤ workers }
    requires few { workers ≤ 16 }
    ensures { All (λ part. part.shape ≡ shape_of_trace trace.now) result.items }
{
    let shape = trace.shape();
    let closed = Closed {
        versions: vec![in alloc; 1, 3, 0, 0].expect(rt, "memory"),
        dirty: vec![in alloc; dirty].expect(rt, "memory"),
    };
    if !index.is_of(trace) || !closed.fits(shape.pages, shape.writes) {
        panic!(rt; "what was closed of this trace");
    }
    let first = part_of(
        rt,
        alloc,
        &shape,
        &[(1, 2, SECOND), (2, 0, ZEROS), (3, 0, ZEROS)],
    );
    let parts = vec![in alloc; first, Part::new(alloc, shape)].expect(rt, "memory");
    final_copy(rt, alloc, trace, index, &closed, workers, 2, parts).expect(rt, "a final copy")
}

/// Returns the stamps that the parts together have of the four pages.
fn stamps(parts: &[Part]) -> [Option<u32>; 4] {
    let mut found = [None; 4];
    for part in parts {
        for page in 0..4u32 {
            let stamp = part.stamp(page);
            if stamp > found[page as usize] {
                found[page as usize] = stamp;
            }
        }
    }
    found
}

/// Returns the image of an image's pages at these versions after all other writes of the trace.
pub(crate) fn resumed(
    image: Image,
    trace: &Trace,
    index: &PageIndex,
    versions: &[u32],
) -> Option<Image> {
    if !index.is_of(trace)
        || !image.fits(&trace.shape())
        || versions.len() != trace.pages as usize
    {
        return None;
    }
    Some(resume(image, trace, index, versions))
}

/// Returns what the parts have after the final copy with `workers` workers, and the memory at the stop and at the end.
fn copied_and_resumed(
    rt: &(impl Abort + Threads + Wait + Sync),
    alloc: Global,
    trace: &Trace,
    index: &PageIndex,
    workers: usize,
) -> ([Option<u32>; 4], Image, Image)
    requires some { 1 ≤ workers }
    requires few { workers ≤ 16 }
{
    let parts = copied(rt, alloc, trace, index, 3, workers);
    let found = stamps(&parts);
    let at_stop = of_parts(alloc, &trace.shape(), parts).expect(rt, "an image");
    let copy = at_stop.copy(alloc).expect(rt, "memory");
    let at_end = resumed(copy, trace, index, &[1, 3, 0, 0]).expect(rt, "an image of the trace");
    (found, at_stop, at_end)
}

/// Returns the join of two parts.
fn joined(rt: &impl Abort, parts: Vec<Part>) -> Part {
    let mut parts = parts.into_iter();
    let (Some(first), Some(second)) = (parts.next(), parts.next()) else {
        panic!(rt; "two parts");
    };
    if first.shape() != second.shape() {
        panic!(rt; "parts of one shape");
    }
    merge(first, second).expect(rt, "a part")
}

#[test]
fn parts_after_the_final_copy_are_joined(rt: HostRuntime) {
    let alloc = rt.alloc();
    let trace = guest(&rt, alloc, 0);
    let index = PageIndex::build(&rt, alloc, &trace).expect(&rt, "an index");
    let whole = joined(&rt, copied(&rt, alloc, &trace, &index, 3, 2));
    let stamps = [
        whole.stamp(0),
        whole.stamp(1),
        whole.stamp(2),
        whole.stamp(3),
    ];
    assert!(rt; stamps == [Some(1), Some(3), Some(0), Some(0)]);
}

#[test]
fn marked_pages_come_once_more(rt: HostRuntime) {
    let alloc = rt.alloc();
    let trace = guest(&rt, alloc, 0);
    let index = PageIndex::build(&rt, alloc, &trace).expect(&rt, "an index");
    for workers in [1usize, 2, 16] {
        let (found, at_stop, at_end) = copied_and_resumed(&rt, alloc, &trace, &index, workers);
        let expected = (
            [Some(1), Some(3), Some(0), Some(0)],
            AT_STOP.as_slice(),
            AT_END.as_slice(),
        );
        assert!(rt;
            (found, at_stop.bytes(), at_end.bytes()) == expected,
            "{workers}"
        );
    }
}

/// Returns what the parts have after the final copy with these pages marked.
fn stamps_of(
    rt: &(impl Abort + Threads + Wait + Sync),
    alloc: Global,
    dirty: u64,
) -> [Option<u32>; 4] {
    let trace = guest(rt, alloc, 0);
    let index = PageIndex::build(rt, alloc, &trace).expect(rt, "an index");
    let parts = copied(rt, alloc, &trace, &index, dirty, 1);
    stamps(&parts)
}

#[test]
fn page_that_no_part_has_is_missing(rt: HostRuntime) {
    let alloc = rt.alloc();
    let trace = guest(&rt, alloc, 0);
    let index = PageIndex::build(&rt, alloc, &trace).expect(&rt, "an index");
    let parts = copied(&rt, alloc, &trace, &index, 2, 1);
    let found = stamps(&parts);
    let refused = of_parts(alloc, &trace.shape(), parts).err();
    assert!(rt; found == [None, Some(3), Some(0), Some(0)]);
    assert!(rt; refused == Some(ImageError::Missing(0)));
}

#[test]
fn page_that_is_not_marked_stays(rt: HostRuntime) {
    assert!(rt; stamps_of(&rt, rt.alloc(), 1) == [Some(1), Some(2), Some(0), Some(0)]);
}

/// Returns a trace of 1,500 pages of 16 bytes, which writes every seventh of them.
fn wide_guest(rt: &impl Abort, alloc: Global) -> Trace {
    let mut writes = Vec::new(alloc);
    for page in 0..1500u32 {
        if page % 7 == 0 {
            writes
                .push(Write {
                    tick: page as u64,
                    page,
                    offset: (page % 16) as u16,
                    bytes: Vec::from_slice(alloc, &[1 + (page % 100) as u8]).expect(rt, "memory"),
                })
                .expect(rt, "memory");
        }
    }
    Trace::new(1, 4, 1500, writes).expect(rt, "a trace")
}

/// Returns the versions of all pages after all writes, each of them marked.
fn all_marked(rt: &impl Abort, alloc: Global, trace: &Trace, index: &PageIndex) -> Closed {
    let pages = trace.pages;
    if !index.is_of(trace) {
        panic!(rt; "the index of the trace");
    }
    let mut versions = Vec::new(alloc);
    for page in 0..pages {
        versions
            .push(index.version_before(page, u64::MAX))
            .expect(rt, "memory");
    }
    let mut dirty = vec![in alloc; u64::MAX; 23].expect(rt, "memory");
    dirty.push((1 << 28) - 1).expect(rt, "memory");
    Closed { versions, dirty }
}

/// Returns the memory that a final copy makes of two empty parts.
fn copied_by(
    rt: &(impl Abort + Threads + Wait + Sync),
    alloc: Global,
    trace: &Trace,
    index: &PageIndex,
    closed: &Closed,
    workers: usize,
) -> Image
    requires some { 1 ≤ workers }
    requires few { workers ≤ 16 }
{
    let shape = trace.shape();
    if !index.is_of(trace) || !closed.fits(shape.pages, shape.writes) {
        panic!(rt; "what was closed of this trace");
    }
    let parts = [Part::new(alloc, shape), Part::new(alloc, shape)];
    let parts = Vec::from_array(alloc, parts).expect(rt, "memory");
    let copied = final_copy(rt, alloc, trace, index, closed, workers, 2, parts);
    let parts = copied.expect(rt, "a copy");
    of_parts(alloc, &shape, parts).expect(rt, "an image")
}

#[test]
fn any_number_of_workers_copies_the_same(rt: HostRuntime) {
    let alloc = rt.alloc();
    let trace = wide_guest(&rt, alloc);
    let index = PageIndex::build(&rt, alloc, &trace).expect(&rt, "an index");
    let closed = all_marked(&rt, alloc, &trace, &index);
    let expected = replay(alloc, &trace).expect(&rt, "an image");
    for workers in [1usize, 2, 3, 16] {
        let image = copied_by(&rt, alloc, &trace, &index, &closed, workers);
        assert!(rt; image.bytes() == expected.bytes(), "{workers}");
    }
}
