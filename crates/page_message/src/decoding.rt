//! Frames from bytes.

// `SpellsFrame` holds, at the front of some bytes, of one frame and one size alone: `one_front_frame`.

ghost use Rattle.std.specs.Prelude.{◌≡◌, ◌≤◌, ◌+◌, ◌^◌, ◌++◌, ◌==◌, ℕ, List, IfErr, IfOk, MatchResult, None, Ok, OnOk};
ghost use Rattle.std.specs.Prelude.{Some, drop, length, option_map, take};
ghost use Rattle.std.specs.List.{list_all};
ghost use Rattle.std.specs.Int.{w32};
ghost use Rattle.migration_model.specs.Frames.{IsFrame, PageFrame, SpellsFrame, frame_text};
ghost use Rattle.migration_model.specs.Numbers.{number_in};
ghost use Rattle.page_message.specs.Reading.{body_in, bytes_in, size_in};
ghost use Rattle.page_message.specs.Refusals.{RefusesFrame, frame_refusal};
ghost use Rattle.page_message.specs.Shapes.{shape_of};

use crate::encoding::HEAD;
use crate::error::FrameError;
use crate::frame::{Frame, FrameView};
use byteorder::{ByteOrder, LittleEndian};
use guest_log::Shape;
use std::alloc::Global;
use zero_pages::is_zero;

#[tactic(auto, unfolding(migration_model::specs::Numbers::number_in))]
fn u32_in(bytes: &[u8]) -> u32
    requires { 4 ≤ length bytes.now }
    ensures { result ≡ number_in w32 bytes.now }
{
    LittleEndian::read_u32(bytes)
}

/// Returns the page after the head.
fn page_bytes<'a>(shape: &Shape, bytes: &'a [u8]) -> &'a [u8]
    requires { 9 + 2 ^ shape.now.shift ≤ length bytes.now }
    ensures { result.now ≡ take (2 ^ shape.now.shift) (drop 9 bytes.now) }
{
    let (_, behind) = bytes.split_at(HEAD);
    let (page, _) = behind.split_at(shape.page_size());
    page
}

/// Returns whether the page after the head is all zeros.
fn has_zeros(shape: &Shape, bytes: &[u8]) -> bool
    requires { 9 + 2 ^ shape.now.shift ≤ length bytes.now }
    ensures { result ≡ list_all (λ byte. byte == 0) (bytes_in (shape_of shape.now) bytes.now) }
{
    is_zero(page_bytes(shape, bytes))
}

/// Returns how many bytes the frame at the front has, or why the bytes are refused.
fn checked_size(shape: &Shape, bytes: &[u8]) -> Result<usize, FrameError>
    ensures refused { IfErr result (λ e. frame_refusal (shape_of shape.now) bytes.now ≡ Some e) }
    ensures accepted { OnOk result (frame_refusal (shape_of shape.now) bytes.now ≡ None) }
    ensures size { IfOk result (λ size. size ≡ size_in (shape_of shape.now) bytes.now) }
{
    if bytes.len() < HEAD {
        return Err(FrameError::Short);
    }
    if u32_in(bytes) >= shape.pages {
        return Err(FrameError::Page);
    }
    if u32_in(&bytes[4..]) > shape.writes {
        return Err(FrameError::Stamp);
    }
    if bytes[8] > 1 {
        return Err(FrameError::Kind);
    }
    if bytes[8] == 0 {
        return Ok(HEAD);
    }
    let end = HEAD + shape.page_size();
    if bytes.len() < end {
        return Err(FrameError::Short);
    }
    if has_zeros(shape, bytes) {
        return Err(FrameError::ZeroData);
    }
    Ok(end)
}

/// Returns the body of the frame at the front, None if it is all zeros. The bytes must begin with a frame.
fn body_at<'a>(shape: &Shape, bytes: &'a [u8]) -> Option<&'a [u8]>
    requires { frame_refusal (shape_of shape.now) bytes.now ≡ None }
    ensures { option_map (λ body. body.now) result ≡ body_in (shape_of shape.now) bytes.now }
{
    if bytes[8] == 0 {
        return None;
    }
    Some(page_bytes(shape, bytes))
}

fn read_view<'a>(shape: &Shape, bytes: &'a [u8]) -> Result<(FrameView<'a>, usize), FrameError>
    ensures found { IfOk result (λ read. SpellsFrame (shape_of shape.now) (take read.1 bytes.now) read.0) }
    ensures within { IfOk result (λ read. read.1 ≤ length bytes.now) }
    ensures refused { IfErr result (λ e. frame_refusal (shape_of shape.now) bytes.now ≡ Some e) }
    ensures accepted { OnOk result (frame_refusal (shape_of shape.now) bytes.now ≡ None) }
{
    let size = checked_size(shape, bytes)?;
    let page = u32_in(bytes);
    let stamp = u32_in(&bytes[4..]);
    let body = body_at(shape, bytes);
    Ok((FrameView { page, stamp, body }, size))
}

/// Returns the frame at the front of some bytes, borrowed from them, and how many bytes it has. It allocates nothing,
/// so it never returns `F6`.
pub fn view_frame<'a>(shape: &Shape, bytes: &'a [u8]) -> Result<(FrameView<'a>, usize), FrameError>
    ensures found { IfOk result (λ read. SpellsFrame (shape_of shape.now) (take read.1 bytes.now) read.0) }
    ensures within { IfOk result (λ read. read.1 ≤ length bytes.now) }
    ensures refused { IfErr result (λ e. frame_refusal (shape_of shape.now) bytes.now ≡ Some e) }
    ensures accepted { OnOk result (frame_refusal (shape_of shape.now) bytes.now ≡ None) }
    ensures only { (frame : PageFrame) (rest : List ℕ) → IsFrame (shape_of shape.now) frame
        → bytes.now ≡ frame_text frame ++ rest
        → result ≡ Ok (frame, length (frame_text frame)) }
{
    read_view(shape, bytes)
}

/// Returns the frame at the front of some bytes, and how many bytes it has. It copies the page's bytes once.
pub fn decode_frame(
    alloc: Global,
    shape: &Shape,
    bytes: &[u8],
) -> Result<(Frame, usize), FrameError>
    ensures found { IfOk result (λ read. SpellsFrame (shape_of shape.now) (take read.1 bytes.now) read.0) }
    ensures within { IfOk result (λ read. read.1 ≤ length bytes.now) }
    ensures refused { IfErr result (RefusesFrame (shape_of shape.now) bytes.now) }
    ensures only { (frame : PageFrame) (rest : List ℕ) → IsFrame (shape_of shape.now) frame
        → bytes.now ≡ frame_text frame ++ rest
        → MatchResult result (λ read. (read.0 ≡ frame) × (read.1 ≡ length (frame_text frame)))
        (λ e. e ≡ FrameError.Memory) }
{
    let (view, size) = view_frame(shape, bytes)?;
    let frame = view.to_frame(alloc)?;
    Ok((frame, size))
}
