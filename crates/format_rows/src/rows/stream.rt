//! Worked examples: streams of frames of a guest of 4 pages of 16 bytes, with 5 writes.

ghost use Rattle.std.specs.List.{All};
ghost use Rattle.migration_model.specs.Frames.{IsFrame};
ghost use Rattle.page_message.specs.Shapes.{shape_of};

use super::fixtures::shape;
use page_message::{Frame, frame_of};
use std::alloc::Global;
use std::process::Abort;
use stream_split::{Dealer, split};
use trace_codec::Shape;

const TWO_FRAMES: [u8; 18] = [2, 0, 0, 0, 0, 0, 0, 0, 0, 2, 0, 0, 0, 0, 0, 0, 0, 0];

fn add_frame(rt: &impl Abort, shape: &Shape, frames: &mut Vec<Frame>, frame: Frame)
    requires so_far { All (IsFrame (shape_of shape.now)) frames.old.items }
    requires frame { IsFrame (shape_of shape.now) frame }
    ensures { All (IsFrame (shape_of shape.now)) frames.new.items }
{
    frames.push(frame).expect(rt, "memory");
}

/// Returns the streams of three frames: of page 2, which is zeros, of page 3, and of page 2 again.
fn two_streams(rt: &impl Abort, alloc: Global) -> Vec<Vec<u8>> {
    let shape = shape();
    let zeros = vec![in alloc; 0u8; shape.page_size()].expect(rt, "memory");
    let more = vec![in alloc; 0u8; shape.page_size()].expect(rt, "memory");
    let mut bytes = vec![in alloc; 0u8; shape.page_size()].expect(rt, "memory");
    bytes[2] = 4;
    bytes[3] = 5;
    let mut frames = Vec::new(alloc);
    add_frame(rt, &shape, &mut frames, frame_of(&shape, 2, 0, zeros));
    add_frame(rt, &shape, &mut frames, frame_of(&shape, 3, 4, bytes));
    add_frame(rt, &shape, &mut frames, frame_of(&shape, 2, 0, more));
    split(alloc, &shape, frames, 2).expect(rt, "streams")
}

#[test]
fn frames_go_to_streams_in_turn(rt: HostRuntime) {
    let streams = two_streams(&rt, rt.alloc());
    assert!(rt; streams.len() == 2);
    let first = streams.get(0).map(Vec::as_slice);
    let second = streams.get(1).map(Vec::len);
    assert!(rt; (first, second) == (Some(TWO_FRAMES.as_slice()), Some(25)));
}

#[test]
fn streams_are_dealt_in_turn(rt: HostRuntime) {
    let mut dealer = Dealer::new(3);
    let turns = [dealer.deal(), dealer.deal(), dealer.deal(), dealer.deal()];
    assert!(rt; turns == [0, 1, 2, 0]);
}
