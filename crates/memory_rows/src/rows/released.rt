//! Worked examples of a trace of version 2 whose last write releases page 1.

use super::cache::{new_cache, page_at as cached_at};
use super::copy::resumed;
use super::fixtures::{AT_END, FIRST, FOURTH, Page, SECOND, THIRD, ZEROS, releasing_guest};
use super::version::{Later, are_later, are_pages, page_at};
use image_build::replay_before;
use page_message::{encode_frame, frame_of};
use page_versions::{PageIndex, put_writes};
use std::alloc::Global;
use std::process::Abort;
use std::thread::Threads;
use trace_codec::Trace;

#[test]
fn bytes_of_released_pages(rt: HostRuntime) {
    const ROWS: [(u32, u32, Page); 7] = [
        (0, 5, FIRST),
        (1, 1, ZEROS),
        (1, 2, SECOND),
        (1, 3, THIRD),
        (1, 4, THIRD),
        (1, 5, ZEROS),
        (3, 5, FOURTH),
    ];
    let trace = releasing_guest(&rt, rt.alloc());
    assert!(rt; are_pages(&rt, rt.alloc(), &trace, &ROWS));
}

#[test]
fn released_pages_at_later_versions(rt: HostRuntime) {
    const ROWS: [Later; 4] = [
        (1, 2, 3, 2, THIRD),
        (1, 3, 5, 3, ZEROS),
        (1, 0, 5, 3, ZEROS),
        (1, 5, 5, 3, ZEROS),
    ];
    let trace = releasing_guest(&rt, rt.alloc());
    assert!(rt; are_later(&rt, rt.alloc(), &trace, &ROWS, 1));
}

#[test]
fn writes_at_places(rt: HostRuntime) {
    let trace = releasing_guest(&rt, rt.alloc());
    let shape = trace.shape();
    let mut page = ZEROS;
    if page.len() != shape.page_size() || shape.writes < 5 {
        panic!(rt; "a guest of five writes");
    }
    put_writes(&mut page, &trace, &[2, 3]);
    assert!(rt; page == THIRD);
    put_writes(&mut page, &trace, &[2, 5]);
    assert!(rt; page == ZEROS);
}

/// Returns the pages that a cache of one page returns of page 1, asked for these versions in order.
fn cached(
    rt: &impl Abort,
    alloc: Global,
    trace: &Trace,
    index: &PageIndex,
    versions: [u32; 4],
) -> [Option<Page>; 4] {
    let mut cache = new_cache(rt, alloc, trace, index, 1);
    let [first, second, third, fourth] = versions;
    [
        cached_at(&mut cache, trace, 1, first),
        cached_at(&mut cache, trace, 1, second),
        cached_at(&mut cache, trace, 1, third),
        cached_at(&mut cache, trace, 1, fourth),
    ]
}

#[test]
fn a_cached_page_is_released(rt: HostRuntime) {
    let alloc = rt.alloc();
    let trace = releasing_guest(&rt, alloc);
    let index = PageIndex::build(&rt, alloc, &trace).expect(&rt, "an index");
    let found = cached(&rt, alloc, &trace, &index, [3, 5, 2, 5]);
    let expected = [THIRD, ZEROS, SECOND, ZEROS];
    assert!(rt; found == expected.map(Some));
}

/// Returns the frame of page 1 after its release.
fn short_frame<R: Abort + Threads + Sync>(rt: &R, alloc: Global) -> Vec<u8> {
    let trace = releasing_guest(rt, alloc);
    let shape = trace.shape();
    let index = PageIndex::build(rt, alloc, &trace).expect(rt, "an index");
    let page = page_at(alloc, &index, &trace, 1, 5).expect(rt, "page 1 after its release");
    let bytes = Vec::from_slice(alloc, &page).expect(rt, "memory");
    if shape.pages <= 1 || shape.writes < 5 || bytes.len() != shape.page_size() {
        panic!(rt; "a page of the guest");
    }
    encode_frame(alloc, &shape, &frame_of(&shape, 1, 5, bytes)).expect(rt, "a frame")
}

#[test]
fn a_released_page_is_a_short_frame(rt: HostRuntime) {
    let frame = short_frame(&rt, rt.alloc());
    assert!(rt; frame.as_slice() == [1, 0, 0, 0, 5, 0, 0, 0, 0].as_slice());
}

#[test]
fn a_resumed_page_is_released(rt: HostRuntime) {
    let alloc = rt.alloc();
    let trace = releasing_guest(&rt, alloc);
    let index = PageIndex::build(&rt, alloc, &trace).expect(&rt, "an index");
    let at_stop = replay_before(alloc, &trace, 2000).expect(&rt, "an image");
    let at_end = resumed(at_stop, &trace, &index, &[1, 3, 0, 0]).expect(&rt, "an image");
    let mut expected = AT_END;
    expected[31] = 0;
    assert!(rt; at_end.bytes() == expected.as_slice());
}
