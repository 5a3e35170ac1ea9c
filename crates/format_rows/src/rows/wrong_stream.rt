//! What is wrong in streams, worked out by hand.

use super::fixtures::{FIRST, Page, RIGHT, SECOND, Sent, THIRD, ZEROS, checked, stream_of};
use page_message::FrameError;
use std::alloc::Global;
use std::process::Abort;
use stream_check::{FrameCause, FrameFault, StreamsError, WrongFrame, WrongPage};

/// Returns what is wrong in the stream of these frames.
fn found_in(rt: &impl Abort, alloc: Global, sent: &[Sent<'_>]) -> Result<(), StreamsError> {
    let stream = stream_of(rt, alloc, sent);
    checked(rt, alloc, &stream, &[])
}

/// Returns what is found if one frame follows the right stream, which has five frames and 93 bytes.
fn found_after(
    rt: &impl Abort,
    alloc: Global,
    page: u32,
    stamp: u32,
    bytes: &Page,
) -> Result<(), StreamsError> {
    let [a, b, c, d, e] = RIGHT;
    found_in(rt, alloc, &[a, b, c, d, e, (page, stamp, bytes)])
}

fn wrong(cause: FrameCause, page: u32, stamp: u32, wanted: u32) -> Result<(), StreamsError> {
    Err(StreamsError::Frame(
        0,
        WrongFrame {
            number: 5,
            offset: 93,
            fault: FrameFault {
                cause,
                page,
                stamp,
                wanted,
            },
        },
    ))
}

fn behind(
    page: u32,
    stamp: Option<u32>,
    wanted: u32,
    missing: u32,
    tick: u64,
) -> Result<(), StreamsError> {
    Err(StreamsError::Page(WrongPage {
        page,
        stamp,
        wanted,
        missing,
        tick,
    }))
}

#[test]
fn nothing_is_wrong(rt: HostRuntime) {
    let alloc = rt.alloc();
    let found = [
        found_in(&rt, alloc, &RIGHT),
        found_after(&rt, alloc, 1, 3, &THIRD),
    ];
    assert!(rt; found == [Ok(()); 2]);
}

#[test]
fn frames_that_are_wrong(rt: HostRuntime) {
    // A page, its stamp and its bytes, what is wrong with its frame, and the page, stamp and version that are told.
    const ROWS: [(u32, u32, &Page, FrameCause, (u32, u32, u32)); 9] = [
        (1, 2, &SECOND, FrameCause::Older, (1, 2, 3)),
        (1, 3, &SECOND, FrameCause::Bytes, (1, 3, 3)),
        (2, 0, &FIRST, FrameCause::Bytes, (2, 0, 0)),
        (0, 1, &ZEROS, FrameCause::Bytes, (0, 1, 1)),
        (1, 1, &ZEROS, FrameCause::NoVersion, (1, 1, 0)),
        (1, 4, &THIRD, FrameCause::NoVersion, (1, 4, 3)),
        (1, 5, &SECOND, FrameCause::AfterStop, (1, 5, 3)),
        (
            4,
            0,
            &ZEROS,
            FrameCause::Refused(FrameError::Page),
            (0, 0, 0),
        ),
        (
            1,
            6,
            &ZEROS,
            FrameCause::Refused(FrameError::Stamp),
            (0, 0, 0),
        ),
    ];
    for &(page, stamp, bytes, cause, (told, at, wanted)) in &ROWS {
        let found = found_after(&rt, rt.alloc(), page, stamp, bytes);
        assert!(rt;
            found == wrong(cause, told, at, wanted),
            "page {page} at {stamp}"
        );
    }
}

#[test]
fn stream_that_is_cut_off(rt: HostRuntime) {
    let alloc = rt.alloc();
    let mut stream = stream_of(&rt, alloc, &RIGHT);
    stream.push(0).expect(&rt, "memory");
    let short = FrameCause::Refused(FrameError::Short);
    assert!(rt; checked(&rt, alloc, &stream, &[]) == wrong(short, 0, 0, 0));
}

/// Returns what is wrong in the stream of these frames of the right one, in order.
fn found_in_those(rt: &impl Abort, alloc: Global, places: &[usize]) -> Result<(), StreamsError> {
    let mut sent = Vec::new(alloc);
    for place in places {
        sent.push(*RIGHT.get(*place).expect(rt, "a frame of the right stream"))
            .expect(rt, "memory");
    }
    found_in(rt, alloc, &sent)
}

#[test]
fn pages_that_are_behind(rt: HostRuntime) {
    // The frames that are sent, and then the page that is told, its stamp, its version, and the first write that its
    // stamp lacks, with its tick.
    const ROWS: [(&[usize], u32, Option<u32>, u32, u32, u64); 5] = [
        (&[0, 1, 3, 4], 2, None, 0, 0, 0),
        (&[1, 2, 3, 4], 0, None, 1, 1, 0),
        (&[0, 2, 3], 1, None, 3, 2, 5),
        (&[0, 1, 2, 3], 1, Some(2), 3, 3, 1200),
        (&[], 0, None, 1, 1, 0),
    ];
    for &(places, page, stamp, wanted, missing, tick) in &ROWS {
        let found = found_in_those(&rt, rt.alloc(), places);
        assert!(rt;
            found == behind(page, stamp, wanted, missing, tick),
            "{places:?}"
        );
    }
}

/// Returns what is wrong in two streams of these frames.
fn found_in_two(
    rt: &impl Abort,
    alloc: Global,
    first: &[Sent<'_>],
    second: &[Sent<'_>],
) -> Result<(), StreamsError> {
    let (first, second) = (stream_of(rt, alloc, first), stream_of(rt, alloc, second));
    checked(rt, alloc, &first, &second)
}

#[test]
fn order_counts_within_a_stream(rt: HostRuntime) {
    const STALE: WrongFrame = WrongFrame {
        number: 1,
        offset: 9,
        fault: FrameFault {
            cause: FrameCause::Bytes,
            page: 1,
            stamp: 2,
            wanted: 2,
        },
    };
    const LATE: [Sent<'_>; 1] = [(1, 2, &SECOND)];
    let alloc = rt.alloc();
    let found = [
        found_in_two(&rt, alloc, &RIGHT, &LATE),
        found_in_two(&rt, alloc, &LATE, &RIGHT),
        found_in_two(&rt, alloc, &RIGHT, &[(3, 0, &ZEROS), (1, 2, &THIRD)]),
    ];
    assert!(rt; found == [Ok(()), Ok(()), Err(StreamsError::Frame(1, STALE))]);
}
