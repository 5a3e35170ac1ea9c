//! Worked examples, with results worked out by hand.

ghost use Rattle.std.specs.Prelude.{◌≡◌};

use super::fixtures::{FIRST, FOURTH, Page, SECOND, THIRD, ZEROS, guest, page_of};
use page_cache::PageCache;
use page_versions::{PageIndex, PageSource};
use std::alloc::Global;
use std::process::Abort;
use std::thread::Threads;
use trace_codec::Trace;

/// Returns the page of a trace at a version, from the cache.
pub(crate) fn page_at(
    cache: &mut PageCache<'_, Trace>,
    trace: &Trace,
    page: u32,
    version: u32,
) -> Option<Page>
    requires { cache.old.trace ≡ trace.now }
    ensures { cache.new.trace ≡ trace.now }
{
    if page >= trace.pages || version as usize > trace.writes.len() {
        return None;
    }
    let bytes = cache.bytes_at(page, version).ok()?;
    page_of(&bytes)
}

pub(crate) fn new_cache<'a>(
    rt: &impl Abort,
    alloc: Global,
    trace: &'a Trace,
    index: &'a PageIndex,
    capacity: usize,
) -> PageCache<'a, Trace>
    ensures { result.trace ≡ trace.now }
{
    if !index.is_of(trace) || capacity == 0 || capacity > 4_096 {
        panic!(rt; "the index of the trace, and a capacity");
    }
    PageCache::new(alloc, trace, index, capacity).expect(rt, "a cache")
}

/// Returns what the cache keeps of a page.
fn kept_of(cache: &PageCache<'_, Trace>, page: u32) -> Option<Page> {
    page_of(cache.bytes(page)?)
}

/// Returns what the cache keeps of the four pages.
fn kept_in(cache: &PageCache<'_, Trace>) -> [Option<Page>; 4] {
    [
        kept_of(cache, 0),
        kept_of(cache, 1),
        kept_of(cache, 2),
        kept_of(cache, 3),
    ]
}

/// The pages that rows name, each by its place here.
const PAGES: [Page; 5] = [ZEROS, FIRST, SECOND, THIRD, FOURTH];

/// Returns the digit that names a page, `-` if there is none, and `?` for a page without a name.
fn digit_of(page: Option<Page>) -> u8 {
    let Some(page) = page else {
        return b'-';
    };
    for (named, digit) in PAGES.iter().zip(b"01234".iter()) {
        if *named == page {
            return *digit;
        }
    }
    b'?'
}

/// The page and the version that a cache is asked for; the page that it returns, and what it then keeps of the four.
type Row = (u32, u32, &'static str);

/// Asks the cache for these pages at these versions, in order. Returns whether it takes these steps.
fn ask(cache: &mut PageCache<'_, Trace>, trace: &Trace, rows: &[Row]) -> bool
    requires { cache.old.trace ≡ trace.now }
    ensures { cache.new.trace ≡ trace.now }
{
    let mut right = true;
    for &(page, version, expected) in rows {
        let answer = digit_of(page_at(cache, trace, page, version));
        let [first, second, third, fourth] = kept_in(cache).map(digit_of);
        let found = [answer, b' ', first, second, third, fourth];
        right &= found.as_slice() == expected.as_bytes();
    }
    right
}

/// Returns whether a new cache of `capacity` pages takes these steps.
fn takes<R: Abort + Threads + Sync>(rt: &R, alloc: Global, capacity: usize, rows: &[Row]) -> bool {
    let trace = guest(rt, alloc, 0);
    let index = PageIndex::build(rt, alloc, &trace).expect(rt, "an index");
    let mut cache = new_cache(rt, alloc, &trace, &index, capacity);
    ask(&mut cache, &trace, rows)
}

#[test]
fn neighbours_of_a_page_stay(rt: HostRuntime) {
    const ROWS: [Row; 7] = [
        (0, 0, "0 0---"),
        (1, 3, "3 03--"),
        (2, 0, "0 030-"),
        (3, 3, "0 0300"),
        (0, 5, "1 1300"),
        (2, 5, "0 1300"),
        (1, 0, "0 1000"),
    ];
    assert!(rt; takes(&rt, rt.alloc(), 4, &ROWS));
}

#[test]
fn one_page_is_kept(rt: HostRuntime) {
    const ROWS: [Row; 5] = [
        (1, 2, "2 -2--"),
        (1, 3, "3 -3--"),
        (1, 2, "2 -2--"),
        (3, 4, "4 ---4"),
        (1, 5, "2 -2--"),
    ];
    assert!(rt; takes(&rt, rt.alloc(), 1, &ROWS));
}

#[test]
fn two_pages_are_kept(rt: HostRuntime) {
    const ROWS: [Row; 7] = [
        (1, 0, "0 -0--"),
        (0, 5, "1 10--"),
        (1, 4, "3 13--"),
        (1, 4, "3 13--"),
        (2, 5, "0 -30-"),
        (1, 5, "2 -20-"),
        (0, 0, "0 02--"),
    ];
    assert!(rt; takes(&rt, rt.alloc(), 2, &ROWS));
}

#[test]
fn full_cache_makes_pages_again_that_went(rt: HostRuntime) {
    const ROWS: [Row; 6] = [
        (1, 3, "3 -3--"),
        (3, 5, "4 -3-4"),
        (0, 5, "1 1--4"),
        (1, 2, "2 12--"),
        (3, 4, "4 -2-4"),
        (2, 5, "0 --04"),
    ];
    assert!(rt; takes(&rt, rt.alloc(), 2, &ROWS));
}

#[test]
fn page_brought_on_was_used_last(rt: HostRuntime) {
    const ROWS: [Row; 4] = [
        (1, 2, "2 -2--"),
        (0, 2, "1 12--"),
        (1, 3, "3 13--"),
        (3, 4, "4 -3-4"),
    ];
    assert!(rt; takes(&rt, rt.alloc(), 2, &ROWS));
}

/// Returns what a cache keeps at first, after it was asked for the second page, and in a second cache that gets its
/// pages.
fn kept_and_handed_on<'a>(
    rt: &impl Abort,
    alloc: Global,
    trace: &'a Trace,
    index: &'a PageIndex,
) -> [[Option<Page>; 4]; 3] {
    let mut first = new_cache(rt, alloc, trace, index, 1);
    let none = kept_in(&first);
    let _ = page_at(&mut first, trace, 1, 3);
    let asked = kept_in(&first);
    let pages = first.into_pages();
    if !index.is_of(trace) {
        panic!(rt; "the index of the trace");
    }
    let second = PageCache::with_pages(PageSource::new(trace, index, None), pages);
    [none, asked, kept_in(&second)]
}

#[test]
fn kept_pages_go_to_another_cache(rt: HostRuntime) {
    let alloc = rt.alloc();
    let trace = guest(&rt, alloc, 0);
    let index = PageIndex::build(&rt, alloc, &trace).expect(&rt, "an index");
    let kept = kept_and_handed_on(&rt, alloc, &trace, &index);
    let third = [None, Some(THIRD), None, None];
    assert!(rt; kept == [[None; 4], third, third]);
}
