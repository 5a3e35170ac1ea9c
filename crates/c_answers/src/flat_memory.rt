//! Frames accepted into the caller's flat memory.

// `IsFirstMissing` holds of one value alone: `one_first_missing`. `RefusesFlat` does: `one_refused_memory`.
// `StopsFlat` holds of one value alone: `one_flat_memory`. `TakesFlat` does, to the end: `one_flat_memory`.

ghost use Rattle.std.specs.Prelude.{◌≡◌, ◌≢◌, ◌↔◌, ◌*◌, ◌^◌, ◌<◌, ℕ, [], IfErr, IfOk, IfSome, IsOk, None, OnOk};
ghost use Rattle.std.specs.Prelude.{length, slice_index_or};
ghost use Rattle.migration_model.specs.Frames.{IsFrame, IsGuestShape, content_of};
ghost use Rattle.migration_model.specs.Memory.{put};
ghost use Rattle.migration_model.specs.Parts.{with_frame};
ghost use Rattle.page_message.specs.Shapes.{shape_of};
ghost use Rattle.page_message.specs.declared.error.FrameError.{FrameError};
ghost use Rattle.c_answers.specs.FlatMemory.{AreLater, IsFirstMissing, IsFlat, KeepsOthers, RefusesFlat, StopsFlat};
ghost use Rattle.c_answers.specs.FlatMemory.{TakesFlat, flat_part, not_come};
ghost use Rattle.c_answers.specs.Settings.{shape_in};

use crate::answers::Refusal;
use crate::frames::put_page;
use crate::sizes::GuestSizes;
use guest_log::Shape;
use page_message::{FrameError, FrameView, view_frame};

/// What is known about a page of flat memory: C's `struct precopy_page`.
#[derive(Clone, Copy)]
#[repr(C)]
pub struct PageState {
    /// Whether the page came: 0 for no.
    pub came: u32,
    /// The stamp of its frame, if it came.
    pub stamp: u32,
}

/// How much of a stream was taken: C's `struct precopy_taken`.
#[derive(Clone, Copy)]
#[repr(C)]
pub struct StreamTaken {
    /// How many frames.
    pub frames: usize,
    /// How many bytes they have in total.
    pub bytes: usize,
}

/// Copies a frame's page over flat memory, at the page's place.
fn put_at_page(memory: &mut [u8], shape: &Shape, view: &FrameView<'_>)
    requires fits { IsFrame (shape_of shape.now) view.now }
    requires whole { length memory.old ≡ shape.now.pages * 2 ^ shape.now.shift }
    ensures { memory.new ≡ put memory.old (view.now.page * 2 ^ shape.now.shift)
        (content_of (shape_of shape.now) view.now) }
{
    let start = view.page as usize * shape.page_size();
    let (_, rest) = memory.split_at_mut(start);
    put_page(rest, shape, view);
}

/// Takes a frame into flat memory if its page did not come, or came with a lower stamp.
fn accept_view(shape: &Shape, view: &FrameView<'_>, memory: &mut [u8], states: &mut [PageState])
    requires fits { IsFrame (shape_of shape.now) view.now }
    requires flat { IsFlat (shape_of shape.now) memory.old states.old }
    ensures kept { flat_part (shape_of shape.now) memory.new states.new
        ≡ with_frame (flat_part (shape_of shape.now) memory.old states.old) view.now }
    ensures others { KeepsOthers (shape_of shape.now) memory.old memory.new states.new }
    ensures later { AreLater states.old states.new }
    ensures came { (page : ℕ) → (slice_index_or states.new page not_come).came ≡ 0
        → (slice_index_or states.old page not_come).came ≡ 0 }
{
    let page = view.page as usize;
    let state = states[page];
    if state.came != 0 && view.stamp <= state.stamp {
        return;
    }
    put_at_page(memory, shape, view);
    states[page] = PageState {
        came: 1,
        stamp: view.stamp,
    };
}

/// Takes frame after frame to the end of the bytes, and counts them. An error is that of the first frame that is
/// refused; the frames before it are taken.
pub fn take_frames(
    shape: &Shape,
    bytes: &[u8],
    memory: &mut [u8],
    states: &mut [PageState],
    taken: &mut StreamTaken,
) -> Result<(), FrameError>
    requires { IsFlat (shape_of shape.now) memory.old states.old }
    ensures taken { OnOk result (TakesFlat (shape_of shape.now) memory.old memory.new states.old states.new bytes.now
        taken.new []) }
    ensures refused { IfErr result (StopsFlat (shape_of shape.now) memory.old memory.new states.old states.new bytes.now
        taken.new) }
{
    let mut rest = bytes;
    *taken = StreamTaken {
        frames: 0,
        bytes: 0,
    };
    while !rest.is_empty() {
        let (view, size) = view_frame(shape, rest)?;
        accept_view(shape, &view, memory, states);
        let (_, behind) = rest.split_at(size);
        rest = behind;
        *taken = StreamTaken {
            frames: taken.frames + 1,
            bytes: taken.bytes + size,
        };
    }
    Ok(())
}

/// Returns the shape, if there are as many bytes and states as it says.
pub fn flat_shape(sizes: &GuestSizes, memory: &[u8], states: &[PageState]) -> Result<Shape, Refusal>
    ensures accepted { IfOk result (λ shape. (shape_of shape ≡ shape_in sizes.now)
        × IsGuestShape (shape_in sizes.now) × IsFlat (shape_in sizes.now) memory.now states.now) }
    ensures refused { IfErr result (RefusesFlat sizes.now (length memory.now) (length states.now)) }
    ensures only { IsGuestShape (shape_in sizes.now) → IsFlat (shape_in sizes.now) memory.now states.now → IsOk result }
{
    let shape = sizes.shape()?;
    if memory.len() != shape.pages as usize * shape.page_size() {
        return Err(Refusal::MemoryLength);
    }
    if states.len() != shape.pages as usize {
        return Err(Refusal::PageCount);
    }
    Ok(shape)
}

/// Returns the first page that did not come, if there is one.
pub fn first_missing(pages: &[PageState]) -> Option<usize>
    ensures missing { IfSome result (IsFirstMissing pages.now) }
    ensures all { (result ≡ None) ↔ ((page : ℕ) → page < length pages.now
        → (slice_index_or pages.now page not_come).came ≢ 0) }
{
    for (number, state) in pages.iter().enumerate() {
        if state.came == 0 {
            return Some(number);
        }
    }
    None
}
