//! Frames: one encoded, and one decoded.

// `RefusesDecoding` holds of one value alone: `one_refused_decoding`.
// `RefusesEncoding` holds of one value alone: `one_refused_encoding`.

ghost use Rattle.std.specs.Prelude.{◌≡◌, ◌^◌, ◌<◌, ◌≤◌, ◌++◌, ℕ, List, IfErr, IfOk, IsOk};
ghost use Rattle.std.specs.Prelude.{OnErr, OnOk, length, take};
ghost use Rattle.migration_model.specs.Frames.{IsFrame, IsGuestShape, PageFrame, SpellsFrame, content_of, frame_text};
ghost use Rattle.migration_model.specs.Frames.{IsFrameOf};
ghost use Rattle.page_message.specs.Shapes.{shape_of};
ghost use Rattle.c_answers.specs.Answers.{number_of};
ghost use Rattle.c_answers.specs.Buffers.{over};
ghost use Rattle.c_answers.specs.Frames.{HasFrame, RefusesDecoding, RefusesEncoding};
ghost use Rattle.c_answers.specs.Settings.{shape_in};

use crate::answers::Refusal;
use crate::buffers::put_front;
use crate::sizes::GuestSizes;
use guest_log::Shape;
use page_message::{FrameError, FrameView, append_frame, view_frame};
use std::alloc::Global;

/// What comes before the bytes of a page in a frame, and how many bytes the frame has: C's `struct precopy_frame`.
#[derive(Clone, Copy)]
#[repr(C)]
pub struct FrameHead {
    /// The number of the page, from 0.
    pub page: u32,
    /// The place of the last write in the bytes, or 0 before any.
    pub stamp: u32,
    /// How many bytes the frame has.
    pub size: usize,
}

/// Returns the encoding of the frame of a page.
pub fn encoded(
    alloc: Global,
    sizes: &GuestSizes,
    page: u32,
    stamp: u32,
    bytes: &[u8],
) -> Result<Vec<u8>, Refusal>
    ensures made { IfOk result (λ text. (frame : PageFrame) × IsFrameOf (shape_in sizes.now) page stamp bytes.now frame
        × (text.items ≡ frame_text frame)) }
    ensures given { OnOk result (HasFrame sizes.now page stamp bytes.now) }
    ensures refused { IfErr result (RefusesEncoding sizes.now page stamp bytes.now) }
    ensures only { HasFrame sizes.now page stamp bytes.now → IfErr result (λ e. number_of e ≡ 16) }
{
    let shape = sizes.shape()?;
    if page >= shape.pages {
        return Err(Refusal::Frame(FrameError::Page));
    }
    if stamp > shape.writes {
        return Err(Refusal::Frame(FrameError::Stamp));
    }
    if bytes.len() != shape.page_size() {
        return Err(Refusal::PageLength);
    }
    let mut text = Vec::new(alloc);
    append_frame(&mut text, &shape, page, stamp, bytes).or(Err(Refusal::Memory))?;
    Ok(text)
}

/// Copies the bytes of a frame's page over the front of a buffer.
pub(crate) fn put_page(room: &mut [u8], shape: &Shape, view: &FrameView<'_>)
    requires fits { IsFrame (shape_of shape.now) view.now }
    requires room { 2 ^ shape.now.shift ≤ length room.old }
    ensures { room.new ≡ over (content_of (shape_of shape.now) view.now) room.old }
{
    match view.body {
        Some(bytes) => put_front(room, bytes),
        None => room[..shape.page_size()].fill(0),
    }
}

/// Decodes the frame at the front of some bytes: writes the bytes of its page over the front of a buffer, and returns
/// the rest.
pub fn decoded(sizes: &GuestSizes, bytes: &[u8], content: &mut [u8]) -> Result<FrameHead, Refusal>
    ensures found { IfOk result (λ head. (f : PageFrame) × SpellsFrame (shape_in sizes.now) (take head.size bytes.now) f
        × (head.page ≡ f.page) × (head.stamp ≡ f.stamp) × (head.size ≤ length bytes.now)
        × (content.new ≡ over (content_of (shape_in sizes.now) f) content.old)) }
    ensures given { OnOk result (IsGuestShape (shape_in sizes.now) × (2 ^ sizes.now.shift ≤ length content.old)) }
    ensures refused { IfErr result (RefusesDecoding sizes.now bytes.now (length content.old)) }
    ensures only { (f : PageFrame) (rest : List ℕ) → IsGuestShape (shape_in sizes.now) → IsFrame (shape_in sizes.now) f
        → bytes.now ≡ frame_text f ++ rest → 2 ^ sizes.now.shift ≤ length content.old → IsOk result }
    ensures unchanged { OnErr result (content.new ≡ content.old) }
{
    let shape = sizes.shape()?;
    let (view, size) = view_frame(&shape, bytes)?;
    if content.len() < shape.page_size() {
        return Err(Refusal::ShortBuffer);
    }
    put_page(content, &shape, &view);
    Ok(FrameHead {
        page: view.page,
        stamp: view.stamp,
        size,
    })
}
