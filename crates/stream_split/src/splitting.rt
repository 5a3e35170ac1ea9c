//! Frames to streams. No program runs it: it is for users of the library, and tests.

ghost use Rattle.std.specs.Prelude.{◌≡◌, ◌≤◌, ◌++◌, IfOk, OnOk, replicate, map, []};
ghost use Rattle.std.specs.List.{All};
ghost use Rattle.migration_model.specs.Frames.{IsFrame, frame_text};
ghost use Rattle.page_message.specs.Shapes.{shape_of};
ghost use Rattle.stream_split.specs.Deals.{streams_of};

use crate::dealer::Dealer;
use crate::error::SplitError;
use guest_log::Shape;
use page_message::{Frame, encode_frame};
use std::alloc::Global;

/// Returns this many empty streams, each with `room` bytes reserved.
pub fn empty_streams(alloc: Global, streams: usize, room: usize) -> Result<Vec<Vec<u8>>, SplitError>
    ensures { IfOk result (λ v. map (λ s. s.items) v.items ≡ replicate streams []) }
{
    let mut outs = Vec::with_capacity(alloc, streams)?;
    for _ in 0..streams {
        outs.push(Vec::with_capacity(alloc, room)?)?;
    }
    Ok(outs)
}

/// Appends the encoding of a frame to a stream.
fn add_frame(
    alloc: Global,
    shape: &Shape,
    stream: &mut Vec<u8>,
    frame: &Frame,
) -> Result<(), SplitError>
    requires { IsFrame (shape_of shape.now) frame.now }
    ensures { OnOk result (stream.new.items ≡ stream.old.items ++ frame_text frame.now) }
{
    let Ok(buffer) = encode_frame(alloc, shape, frame) else {
        return Err(SplitError::Memory);
    };
    stream.extend_from_slice(&buffer)?;
    Ok(())
}

/// Returns the streams of these frames: frame n, counted from 0, goes to stream n modulo their number. Each stream is
/// the concatenated encodings of its frames. The only error is that memory runs out.
pub fn split(
    alloc: Global,
    shape: &Shape,
    frames: Vec<Frame>,
    streams: usize,
) -> Result<Vec<Vec<u8>>, SplitError>
    requires some { 1 ≤ streams }
    requires few { streams ≤ 16 }
    requires frames { All (IsFrame (shape_of shape.now)) frames.items }
    ensures { IfOk result (λ v. map (λ s. s.items) v.items ≡ streams_of streams frames.items) }
{
    let mut outs = empty_streams(alloc, streams, 0)?;
    let mut dealer = Dealer::new(streams);
    for frame in &frames {
        let stream = dealer.deal();
        add_frame(alloc, shape, &mut outs[stream], frame)?;
    }
    Ok(outs)
}
