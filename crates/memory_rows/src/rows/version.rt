//! Worked examples, with results worked out by hand.

use super::fixtures::{FIRST, FOURTH, Page, SECOND, THIRD, VERSIONS, ZEROS, guest, page_of};
use page_versions::{PageIndex, PageProgress};
use std::alloc::Global;
use std::process::Abort;
use std::thread::Threads;
use trace_codec::{Trace, Write};

fn places_of<'a>(index: &'a PageIndex, trace: &Trace, page: u32) -> Option<&'a [u32]> {
    if !index.is_of(trace) || page >= trace.pages {
        return None;
    }
    Some(index.places(page))
}

fn version_of(index: &PageIndex, trace: &Trace, page: u32, tick: u64) -> Option<u32> {
    if !index.is_of(trace) || page >= trace.pages {
        return None;
    }
    Some(index.version_before(page, tick))
}

fn writes_after<'a>(
    index: &'a PageIndex,
    trace: &Trace,
    page: u32,
    version: u32,
) -> Option<&'a [u32]> {
    if !index.is_of(trace) || page >= trace.pages {
        return None;
    }
    Some(index.writes_after(page, version))
}

/// Returns the page of a trace at a version, from the index.
pub(crate) fn page_at(
    alloc: Global,
    index: &PageIndex,
    trace: &Trace,
    page: u32,
    version: u32,
) -> Option<Page> {
    if !index.is_of(trace) || page >= trace.pages || version as usize > trace.writes.len() {
        return None;
    }
    let bytes = index.bytes_at(alloc, trace, page, version).ok()?;
    page_of(&bytes)
}

#[test]
fn places_and_versions(rt: HostRuntime) {
    const PLACES: [&[u32]; 5] = [&[1], &[2, 3, 5], &[], &[4], &[3, 5]];
    let alloc = rt.alloc();
    let trace = guest(&rt, alloc, 0);
    let index = PageIndex::build(&rt, alloc, &trace).expect(&rt, "an index");
    let places = [
        places_of(&index, &trace, 0),
        places_of(&index, &trace, 1),
        places_of(&index, &trace, 2),
        places_of(&index, &trace, 3),
        writes_after(&index, &trace, 1, 2),
    ];
    let versions = [5, 6, 2500, 2501].map(|tick| version_of(&index, &trace, 1, tick));
    assert!(rt; places == PLACES.map(Some) && versions == [0, 2, 3, 5].map(Some));
}

/// Returns whether a new index makes these pages of a trace: the number of each, its version, and its bytes.
pub(crate) fn are_pages<R: Abort + Threads + Sync>(
    rt: &R,
    alloc: Global,
    trace: &Trace,
    rows: &[(u32, u32, Page)],
) -> bool {
    let index = PageIndex::build(rt, alloc, trace).expect(rt, "an index");
    let mut right = true;
    for &(page, version, expected) in rows {
        right &= page_at(alloc, &index, trace, page, version) == Some(expected);
    }
    right
}

#[test]
fn bytes_of_pages(rt: HostRuntime) {
    let alloc = rt.alloc();
    let trace = guest(&rt, alloc, 0);
    for &(page, first, last, bytes) in &VERSIONS {
        for version in first..last + 1 {
            let rows = [(page, version, bytes)];
            assert!(rt; are_pages(&rt, alloc, &trace, &rows), "{page} at {version}");
        }
    }
}

/// Returns a trace of 1 page of 16 bytes with 11 writes of 2 bytes, each 1 byte after the previous one.
fn guest_of_one_page(rt: &impl Abort, alloc: Global) -> Trace {
    let mut writes = Vec::new(alloc);
    for offset in 0..11u16 {
        writes
            .push(Write {
                tick: 7,
                page: 0,
                offset,
                bytes: Vec::from_slice(alloc, &[offset as u8 + 1, 255]).expect(rt, "memory"),
            })
            .expect(rt, "memory");
    }
    Trace::new(1, 4, 1, writes).expect(rt, "a trace")
}

/// Returns this guest's page after `version` writes: 1, 2, 3 and so on, and then 255.
fn rising_page(version: u32) -> Page {
    let mut page = ZEROS;
    for (at, byte) in page.iter_mut().enumerate() {
        if version > 0 && at <= version as usize {
            *byte = if at < version as usize {
                at as u8 + 1
            } else {
                255
            };
        }
    }
    page
}

#[test]
fn page_with_many_writes(rt: HostRuntime) {
    let alloc = rt.alloc();
    let trace = guest_of_one_page(&rt, alloc);
    for version in 0..12u32 {
        let rows = [(0, version, rising_page(version))];
        assert!(rt; are_pages(&rt, alloc, &trace, &rows), "{version}");
    }
}

/// Returns the page at a version, made in a buffer that held another page.
fn put_into(
    index: &PageIndex,
    trace: &Trace,
    page: u32,
    version: u32,
    room: &mut Vec<u8>,
) -> Option<Page> {
    if !index.is_of(trace) || page >= trace.pages || version as usize > trace.writes.len() {
        return None;
    }
    index.bytes_into(trace, page, version, room).ok()?;
    page_of(room)
}

#[test]
fn pages_in_one_room(rt: HostRuntime) {
    let alloc = rt.alloc();
    let trace = guest(&rt, alloc, 0);
    let index = PageIndex::build(&rt, alloc, &trace).expect(&rt, "an index");
    let mut room = Vec::new(alloc);
    let pages = [
        put_into(&index, &trace, 1, 2, &mut room),
        put_into(&index, &trace, 0, 5, &mut room),
        put_into(&index, &trace, 1, 5, &mut room),
    ];
    assert!(rt; pages == [Some(SECOND), Some(FIRST), Some(SECOND)]);
}

/// Brings a page to a later version. Returns its bytes, and how many of its writes it then has.
fn brought_on(
    alloc: Global,
    index: &PageIndex,
    trace: &Trace,
    page: u32,
    from: PageProgress,
    to: u32,
) -> Option<(Page, u32)> {
    if !index.is_of(trace) || page >= trace.pages {
        return None;
    }
    if from.version > to || to as usize > trace.writes.len() {
        return None;
    }
    let mut bytes = index.bytes_at(alloc, trace, page, from.version).ok()?;
    let reached = index.bring_on(trace, page, from, to, &mut bytes);
    if reached.version != to {
        return None;
    }
    Some((page_of(&bytes)?, reached.writes))
}

/// A page, from which version to which it is brought on, how many of its writes it then has, and its bytes.
pub(crate) type Later = (u32, u32, u32, u32, Page);

/// Returns whether pages are brought on as in these rows, if `writes` writes of each are known at first.
pub(crate) fn are_later<R: Abort + Threads + Sync>(
    rt: &R,
    alloc: Global,
    trace: &Trace,
    rows: &[Later],
    writes: u32,
) -> bool {
    let index = PageIndex::build(rt, alloc, trace).expect(rt, "an index");
    let mut right = true;
    for &(page, version, to, count, expected) in rows {
        let from = PageProgress { version, writes };
        right &= brought_on(alloc, &index, trace, page, from, to) == Some((expected, count));
    }
    right
}

#[test]
fn pages_at_later_versions(rt: HostRuntime) {
    const ROWS: [Later; 6] = [
        (1, 0, 2, 1, SECOND),
        (1, 2, 3, 2, THIRD),
        (1, 3, 3, 2, THIRD),
        (1, 2, 5, 3, SECOND),
        (3, 3, 4, 1, FOURTH),
        (2, 0, 5, 0, ZEROS),
    ];
    let alloc = rt.alloc();
    let trace = guest(&rt, alloc, 0);
    for writes in [0, 1, 2, 3, 4, u32::MAX] {
        assert!(rt; are_later(&rt, alloc, &trace, &ROWS, writes), "{writes}");
    }
}

#[test]
fn another_trace(rt: HostRuntime) {
    let alloc = rt.alloc();
    let trace = guest(&rt, alloc, 0);
    let index = PageIndex::build(&rt, alloc, &trace).expect(&rt, "an index");
    let later = guest(&rt, alloc, 1);
    let empty = Trace::new(1, 4, 4, Vec::new(alloc)).expect(&rt, "a trace");
    assert!(rt; !index.is_of(&later) && !index.is_of(&empty));
}
