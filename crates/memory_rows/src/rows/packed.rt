//! Worked examples of pages made from packed writes, with results worked out by hand.

ghost use Rattle.std.specs.Prelude.{◌≡◌};

use super::cache::page_at;
use super::fixtures::{
    FIRST, FOURTH, Page, SECOND, THIRD, VERSIONS, ZEROS, guest, page_of, releasing_guest,
};
use page_cache::{KeptPages, PageCache};
use page_versions::{PackedWrites, PageIndex, PageProgress, PageSource, are_short};
use std::alloc::Global;
use std::process::Abort;
use std::thread::Threads;
use trace_codec::{Trace, Write};

/// Returns the page of a source at a version, in a buffer that had other contents.
fn made(alloc: Global, source: &PageSource<'_, Trace>, page: u32, version: u32) -> Option<Page> {
    let shape = source.shape();
    if page >= shape.pages || version > shape.writes {
        return None;
    }
    let mut room = Vec::from_slice(alloc, &[255; 5]).ok()?;
    source.bytes_into(page, version, &mut room).ok()?;
    page_of(&room)
}

/// Brings a page to a later version. Returns its bytes, if it then has that version.
fn brought_on(
    alloc: Global,
    source: &PageSource<'_, Trace>,
    page: u32,
    from: u32,
    to: u32,
) -> Option<Page> {
    let shape = source.shape();
    if page >= shape.pages || from > to || to > shape.writes {
        return None;
    }
    let mut bytes = Vec::new(alloc);
    source.bytes_into(page, from, &mut bytes).ok()?;
    let from = PageProgress {
        version: from,
        writes: 3,
    };
    if source.bring_on(page, from, to, &mut bytes).version != to {
        return None;
    }
    page_of(&bytes)
}

/// A page, the version from which it is brought on if it is not made anew, the version asked for, and its bytes.
type Wish = (u32, Option<u32>, u32, Page);

/// Returns whether a source of packed writes makes these pages of a trace, or brings them on.
fn are_packed<R: Abort + Threads + Sync>(
    rt: &R,
    alloc: Global,
    trace: &Trace,
    wishes: &[Wish],
) -> bool {
    let index = PageIndex::build(rt, alloc, trace).expect(rt, "an index");
    if !index.is_of(trace) {
        panic!(rt; "the index of the trace");
    }
    let packed = PackedWrites::of(rt, alloc, trace, &index).expect(rt, "packed writes");
    let source = PageSource::new(trace, &index, Some(&packed));
    let mut right = true;
    for &(page, from, to, expected) in wishes {
        let found = match from {
            None => made(alloc, &source, page, to),
            Some(from) => brought_on(alloc, &source, page, from, to),
        };
        right &= found == Some(expected);
    }
    right
}

#[test]
fn packed_pages(rt: HostRuntime) {
    let alloc = rt.alloc();
    let trace = guest(&rt, alloc, 0);
    for &(page, first, last, bytes) in &VERSIONS {
        for to in first..last + 1 {
            let wishes = [(page, None, to, bytes), (page, Some(first), to, bytes)];
            assert!(rt; are_packed(&rt, alloc, &trace, &wishes), "{page} at {to}");
        }
    }
}

#[test]
fn packed_pages_at_later_versions(rt: HostRuntime) {
    const WISHES: [Wish; 5] = [
        (1, Some(0), 2, SECOND),
        (1, Some(2), 3, THIRD),
        (1, Some(2), 5, SECOND),
        (3, Some(3), 4, FOURTH),
        (2, Some(0), 5, ZEROS),
    ];
    let trace = guest(&rt, rt.alloc(), 0);
    assert!(rt; are_packed(&rt, rt.alloc(), &trace, &WISHES));
}

#[test]
fn packed_pages_are_released(rt: HostRuntime) {
    const WISHES: [Wish; 8] = [
        (0, None, 5, FIRST),
        (1, None, 1, ZEROS),
        (1, None, 2, SECOND),
        (1, None, 3, THIRD),
        (1, None, 4, THIRD),
        (1, None, 5, ZEROS),
        (3, None, 5, FOURTH),
        (1, Some(3), 5, ZEROS),
    ];
    let trace = releasing_guest(&rt, rt.alloc());
    assert!(rt; are_packed(&rt, rt.alloc(), &trace, &WISHES));
}

/// Returns the pages that a cache makes of packed writes.
fn cached<R: Abort + Threads + Sync>(rt: &R, alloc: Global, trace: &Trace) -> [Option<Page>; 4] {
    let index = PageIndex::build(rt, alloc, trace).expect(rt, "an index");
    if !index.is_of(trace) {
        panic!(rt; "the index of the trace");
    }
    let packed = PackedWrites::of(rt, alloc, trace, &index).expect(rt, "packed writes");
    let source = PageSource::new(trace, &index, Some(&packed));
    let mut cache = PageCache::with_pages(source, KeptPages::new(alloc, 1).expect(rt, "memory"));
    [
        page_at(&mut cache, trace, 1, 3),
        page_at(&mut cache, trace, 1, 5),
        page_at(&mut cache, trace, 1, 2),
        page_at(&mut cache, trace, 3, 4),
    ]
}

#[test]
fn a_cache_makes_packed_pages(rt: HostRuntime) {
    let trace = guest(&rt, rt.alloc(), 0);
    let found = cached(&rt, rt.alloc(), &trace);
    assert!(rt; found == [THIRD, SECOND, SECOND, FOURTH].map(Some));
}

/// Returns a trace of 3,000 pages of 16 bytes with a write of two bytes to each, of the page's number, the last page
/// first.
fn guest_of_many_pages(rt: &impl Abort, alloc: Global) -> Trace {
    let mut writes = Vec::new(alloc);
    for number in 0..3_000u32 {
        let page = 2_999 - number;
        let bytes = [(page / 256) as u8, (page % 256) as u8];
        writes
            .push(Write {
                tick: 0,
                page,
                offset: 1,
                bytes: Vec::from_slice(alloc, &bytes).expect(rt, "memory"),
            })
            .expect(rt, "memory");
    }
    Trace::new(1, 4, 3_000, writes).expect(rt, "a trace")
}

/// Several threads copy the writes.
#[test]
fn packed_pages_of_a_large_guest(rt: HostRuntime) {
    const PAGES: [u32; 11] = [0, 1, 255, 256, 749, 750, 1_499, 1_500, 2_047, 2_048, 2_999];
    let alloc = rt.alloc();
    let trace = guest_of_many_pages(&rt, alloc);
    for &page in &PAGES {
        let mut bytes = ZEROS;
        bytes[1] = (page / 256) as u8;
        bytes[2] = (page % 256) as u8;
        let wishes = [
            (page, None, 2_999 - page, ZEROS),
            (page, None, 3_000 - page, bytes),
        ];
        assert!(rt; are_packed(&rt, alloc, &trace, &wishes), "{page}");
    }
}

/// Returns a trace of 1 page of 16 bytes with 2,050 writes of a byte: write n is at n modulo 16, of n modulo 251.
fn guest_of_many_writes(rt: &impl Abort, alloc: Global) -> Trace {
    let mut writes = Vec::new(alloc);
    for number in 0..2_050u32 {
        writes
            .push(Write {
                tick: 0,
                page: 0,
                offset: (number % 16) as u16,
                bytes: Vec::from_slice(alloc, &[(number % 251) as u8]).expect(rt, "memory"),
            })
            .expect(rt, "memory");
    }
    Trace::new(1, 4, 1, writes).expect(rt, "a trace")
}

#[test]
fn pages_from_checkpoints(rt: HostRuntime) {
    const WISHES: [Wish; 5] = [
        (
            0,
            None,
            1_023,
            [4, 5, 6, 7, 8, 9, 10, 11, 12, 13, 14, 15, 16, 17, 18, 3],
        ),
        (
            0,
            None,
            1_024,
            [4, 5, 6, 7, 8, 9, 10, 11, 12, 13, 14, 15, 16, 17, 18, 19],
        ),
        (
            0,
            None,
            1_025,
            [20, 5, 6, 7, 8, 9, 10, 11, 12, 13, 14, 15, 16, 17, 18, 19],
        ),
        (
            0,
            None,
            2_047,
            [
                24, 25, 26, 27, 28, 29, 30, 31, 32, 33, 34, 35, 36, 37, 38, 23,
            ],
        ),
        (
            0,
            None,
            2_048,
            [
                24, 25, 26, 27, 28, 29, 30, 31, 32, 33, 34, 35, 36, 37, 38, 39,
            ],
        ),
    ];
    let trace = guest_of_many_writes(&rt, rt.alloc());
    assert!(rt; are_packed(&rt, rt.alloc(), &trace, &WISHES));
}

/// Returns a trace of 1 page of 256 bytes with two writes of these lengths.
fn guest_of_two_writes(rt: &impl Abort, alloc: Global, lengths: [usize; 2]) -> Trace {
    let mut writes = Vec::new(alloc);
    for length in lengths {
        let mut bytes = Vec::new(alloc);
        bytes.resize(length, 1).expect(rt, "memory");
        writes
            .push(Write {
                tick: 0,
                page: 0,
                offset: 0,
                bytes,
            })
            .expect(rt, "memory");
    }
    Trace::new(1, 8, 1, writes).expect(rt, "a trace")
}

#[test]
fn writes_of_32_bytes_on_average_are_short(rt: HostRuntime) {
    let alloc = rt.alloc();
    const CASES: [([usize; 2], bool); 6] = [
        ([1, 1], true),
        ([32, 32], true),
        ([1, 63], true),
        ([1, 64], false),
        ([33, 32], false),
        ([256, 256], false),
    ];
    for &(lengths, short) in &CASES {
        let trace = guest_of_two_writes(&rt, alloc, lengths);
        assert!(rt; are_short(&trace) == short);
    }
}
