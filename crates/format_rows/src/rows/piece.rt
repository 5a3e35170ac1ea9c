//! A stream that comes in pieces.

use super::fixtures::{RIGHT, SECOND, STOP, Sent, THIRD, stream_of};
use page_versions::PageIndex;
use std::alloc::Global;
use std::process::Abort;
use stream_check::{FrameCause, StreamChecker, Taken, WrongFrame, WrongPage};
use trace_codec::{WriteLog, decode};
use worked_guest::TRACE;

/// Takes the first bytes of a stream, then all behind what was taken, and returns both answers. If the first is an
/// error, it stands for both.
fn in_two(
    rt: &impl Abort,
    alloc: Global,
    stream: &[u8],
    first: usize,
) -> (Result<Taken, WrongFrame>, Result<Taken, WrongFrame>) {
    let trace = decode(alloc, &TRACE).expect(rt, "a trace");
    let index = PageIndex::build_alone(alloc, &trace).expect(rt, "an index");
    let mut checker = StreamChecker::new(alloc, trace.shape(), STOP).expect(rt, "a checker");
    match checker.take(&trace, &index, &stream[..first.min(stream.len())]) {
        Ok(front) => {
            let behind = &stream[front.bytes.min(stream.len())..];
            (Ok(front), checker.take(&trace, &index, behind))
        }
        Err(error) => (Err(error), Err(error)),
    }
}

#[test]
fn frame_in_two_pieces(rt: HostRuntime) {
    let alloc = rt.alloc();
    let stream = stream_of(&rt, alloc, &RIGHT);
    let (front, back) = in_two(&rt, alloc, &stream, 58);
    let two = Taken {
        frames: 2,
        bytes: 50,
    };
    let three = Taken {
        frames: 3,
        bytes: 43,
    };
    assert!(rt; (front, back) == (Ok(two), Ok(three)));
}

#[test]
fn older_frame_in_a_later_piece(rt: HostRuntime) {
    let alloc = rt.alloc();
    let [a, b, c, d, e] = RIGHT;
    let stream = stream_of(&rt, alloc, &[a, b, c, d, e, (1, 2, &SECOND)]);
    let (_, back) = in_two(&rt, alloc, &stream, 93);
    let place = back
        .err()
        .map(|found| (found.number, found.offset, found.fault.cause));
    assert!(rt; place == Some((0, 0, FrameCause::Older)));
}

/// What a checker answers for a whole stream, and what at its end.
type Answers = (Result<(), WrongFrame>, Result<(), WrongPage>);

/// Returns what a new checker answers at its end, and then for these streams in order, each with the end after it.
fn in_turn(
    rt: &impl Abort,
    alloc: Global,
    streams: [&[Sent<'_>]; 2],
) -> (Result<(), WrongPage>, [Answers; 2]) {
    let trace = decode(alloc, &TRACE).expect(rt, "a trace");
    let index = PageIndex::build_alone(alloc, &trace).expect(rt, "an index");
    let mut checker = StreamChecker::new(alloc, trace.shape(), STOP).expect(rt, "a checker");
    let [first, second] = streams;
    let (first, second) = (stream_of(rt, alloc, first), stream_of(rt, alloc, second));
    let before = checker.finish(&trace, &index);
    let answers = [
        (
            checker.take_last(&trace, &index, &first),
            checker.finish(&trace, &index),
        ),
        (
            checker.take_last(&trace, &index, &second),
            checker.finish(&trace, &index),
        ),
    ];
    (before, answers)
}

#[test]
fn pages_of_ended_streams_are_current(rt: HostRuntime) {
    let (before, [(right, end), _]) = in_turn(&rt, rt.alloc(), [&RIGHT, &[]]);
    assert!(rt; before.map_err(|found| found.page) == Err(0));
    assert!(rt; right == Ok(()) && end == Ok(()));
}

#[test]
fn frames_before_a_wrong_one_are_taken(rt: HostRuntime) {
    let [a, b, c, d, e] = RIGHT;
    let late = [a, b, c, d, e, (1, 2, &SECOND)];
    let (_, [(wrong, end), again]) = in_turn(&rt, rt.alloc(), [&late, &[(1, 2, &SECOND)]]);
    assert!(rt; wrong.map_err(|found| found.number) == Err(5) && end == Ok(()));
    assert!(rt; again.0.is_err());
    let (_, [_, mended]) = in_turn(&rt, rt.alloc(), [&late, &[(1, 3, &THIRD)]]);
    assert!(rt; mended == (Ok(()), Ok(())));
}
