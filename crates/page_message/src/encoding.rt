//! Frames to bytes.

ghost use Rattle.std.specs.Prelude.{◌≡◌, ◌<◌, ◌≤◌, ◌^◌, ◌++◌, ◌∷◌, [], IfErr, IfOk, OnOk, length};
ghost use Rattle.std.specs.Int.{w32};
ghost use Rattle.migration_model.specs.Frames.{IsFrame, PageFrame, frame_text};
ghost use Rattle.migration_model.specs.Numbers.{text_of};
ghost use Rattle.migration_model.specs.Frames.{IsFrameOf};
ghost use Rattle.page_message.specs.Shapes.{shape_of};

use crate::error::FrameError;
use crate::frame::{Body, Frame};
use byteorder::{ByteOrder, LittleEndian};
use guest_log::Shape;
use std::alloc::Global;
use zero_pages::is_zero;

/// How many bytes a frame has before the page.
pub(crate) const HEAD: usize = 9;

/// Returns the bytes before a page: page, stamp and kind.
#[tactic(auto, unfolding(migration_model::specs::Numbers::text_of))]
fn head_of(page: u32, stamp: u32, kind: u8) -> [u8; 9]
    ensures { result ≡ text_of w32 page ++ (text_of w32 stamp ++ kind ∷ []) }
{
    let mut head = [0u8; 9];
    LittleEndian::write_u32(&mut head, page);
    LittleEndian::write_u32(&mut head[4..], stamp);
    head[8] = kind;
    head
}

/// Returns the encoding of a frame. It copies the page's bytes once. The only error is `F6`.
#[tactic(auto, unfolding(migration_model::specs::Frames::frame_text))]
pub fn encode_frame(alloc: Global, shape: &Shape, frame: &Frame) -> Result<Vec<u8>, FrameError>
    requires { IsFrame (shape_of shape.now) frame.now }
    ensures spelled { IfOk result (λ buffer. buffer.items ≡ frame_text frame.now) }
    ensures refused { IfErr result (λ e. e ≡ FrameError.Memory) }
{
    match &frame.body {
        Body::Zero => {
            let head = head_of(frame.page, frame.stamp, 0);
            Ok(Vec::from_slice(alloc, &head)?)
        }
        Body::Data(bytes) => {
            let head = head_of(frame.page, frame.stamp, 1);
            let mut buffer = Vec::with_capacity(alloc, HEAD + shape.page_size())?;
            buffer.extend_from_slice(&head)?;
            buffer.extend_from_slice(bytes)?;
            Ok(buffer)
        }
    }
}

/// Appends the encoding of the frame with these page bytes to a stream. It copies them once, or, if each of them is 0,
/// copies none and reserves no memory for them. The only error is `F6`, after which the stream is of no use.
pub fn append_frame(
    stream: &mut Vec<u8>,
    shape: &Shape,
    page: u32,
    stamp: u32,
    bytes: &[u8],
) -> Result<(), FrameError>
    requires page { page < shape.now.pages }
    requires stamp { stamp ≤ shape.now.writes }
    requires whole { length bytes.now ≡ 2 ^ shape.now.shift }
    ensures appended { OnOk result ((frame : PageFrame) × IsFrameOf (shape_of shape.now) page stamp bytes.now frame
        × (stream.new.items ≡ stream.old.items ++ frame_text frame)) }
    ensures refused { IfErr result (λ e. e ≡ FrameError.Memory) }
{
    if is_zero(bytes) {
        stream.extend_from_slice(&head_of(page, stamp, 0))?;
        return Ok(());
    }
    stream.reserve(HEAD + bytes.len())?;
    stream.extend_from_slice(&head_of(page, stamp, 1))?;
    stream.extend_from_slice(bytes)?;
    Ok(())
}
