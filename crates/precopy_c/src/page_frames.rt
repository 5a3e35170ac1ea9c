//! Frames: one encoded, one decoded, and streams of them accepted into flat memory.

// `RefusesDecoding` holds of one value alone: `one_refused_decoding`.
// `RefusesEncoding` holds of one value alone: `one_refused_encoding`.
// `IsFirstMissing` holds of one value alone: `one_first_missing`. `RefusesFlat` does: `one_refused_memory`.
// `StopsFlat` holds of one value alone: `one_flat_memory`. `TakesFlat` does, to the end: `one_flat_memory`.

ghost use Rattle.std.specs.List.{All};
ghost use Rattle.std.specs.Prelude.{◌≡◌, ◌≢◌, ◌↔◌, ◌⊎◌, ◌^◌, ◌<◌, ◌≤◌, ◌++◌, ◌*◌, ℕ, List, [], IsTrue, length, take};
ghost use Rattle.std.specs.Prelude.{slice_index_or};
ghost use Rattle.migration_model.specs.Frames.{IsFrame, IsGuestShape, PageFrame, SpellsFrame, content_of, frame_text};
ghost use Rattle.migration_model.specs.Frames.{IsFrameOf, SpellsStream};
ghost use Rattle.migration_model.specs.Parts.{with_frames};
ghost use Rattle.page_message.specs.declared.error.FrameError.{FrameError};
ghost use Rattle.c_answers.specs.Answers.{IsNumberOf, number_of_frame};
ghost use Rattle.c_answers.specs.Buffers.{over};
ghost use Rattle.c_answers.specs.FlatMemory.{IsFirstMissing, IsFlat, RefusesFlat, StopsFlat, TakesFlat, flat_part};
ghost use Rattle.c_answers.specs.FlatMemory.{not_come};
ghost use Rattle.c_answers.specs.Frames.{HasFrame, RefusesDecoding, RefusesEncoding};
ghost use Rattle.c_answers.specs.Settings.{shape_in};

use c_answers::answers::Refusal;
use c_answers::buffers::answer_bytes;
use c_answers::flat_memory::{PageState, StreamTaken, first_missing, flat_shape, take_frames};
use c_answers::frames::{FrameHead, decoded, encoded};
use c_answers::sizes::GuestSizes;
use std::alloc::Global;

/// Writes the encoding of the frame of a page at a stamp, with these bytes of the page, over the front of a buffer, and
/// sets `needed` to its length. If the buffer is too short, it sets only that.
#[unsafe(no_mangle)]
pub extern "C" fn precopy_encode_frame(
    alloc: Global,
    sizes: &GuestSizes,
    page: u32,
    stamp: u32,
    bytes: &[u8],
    frame: &mut [u8],
    needed: &mut usize,
) -> u32
    ensures made { result ≡ 0 → (f : PageFrame) × IsFrameOf (shape_in sizes.now) page stamp bytes.now f
        × (needed.new ≡ length (frame_text f)) × (frame.new ≡ over (frame_text f) frame.old) }
    ensures short { result ≡ 61 → (f : PageFrame) × IsFrameOf (shape_in sizes.now) page stamp bytes.now f
        × (needed.new ≡ length (frame_text f)) × (length frame.old < needed.new) }
    ensures refused { result ≢ 0 → result ≢ 61
        → IsNumberOf result (RefusesEncoding sizes.now page stamp bytes.now) × (needed.new ≡ needed.old) }
    ensures given { (result ≡ 0) ⊎ (result ≡ 61) → HasFrame sizes.now page stamp bytes.now }
    ensures only { HasFrame sizes.now page stamp bytes.now → (result ≡ 0) ⊎ (result ≡ 16) ⊎ (result ≡ 61) }
    ensures unchanged { result ≢ 0 → frame.new ≡ frame.old }
{
    match encoded(alloc, sizes, page, stamp, bytes) {
        Ok(text) => match answer_bytes(frame, needed, &text) {
            Ok(()) => 0,
            Err(refusal) => refusal.number(),
        },
        Err(refusal) => refusal.number(),
    }
}

/// Decodes the frame at the front of some bytes: writes the bytes of its page over the front of a buffer, and sets
/// `head` to the rest. It allocates nothing.
#[unsafe(no_mangle)]
pub extern "C" fn precopy_decode_frame(
    sizes: &GuestSizes,
    bytes: &[u8],
    head: &mut FrameHead,
    content: &mut [u8],
) -> u32
    ensures found { result ≡ 0 → (f : PageFrame) × SpellsFrame (shape_in sizes.now) (take head.new.size bytes.now) f
        × (head.new.page ≡ f.page) × (head.new.stamp ≡ f.stamp) × (head.new.size ≤ length bytes.now)
        × (content.new ≡ over (content_of (shape_in sizes.now) f) content.old) }
    ensures given { result ≡ 0 → IsGuestShape (shape_in sizes.now) × (2 ^ sizes.now.shift ≤ length content.old) }
    ensures refused { result ≢ 0
        → IsNumberOf result (RefusesDecoding sizes.now bytes.now (length content.old)) }
    ensures only { (f : PageFrame) (rest : List ℕ) → IsGuestShape (shape_in sizes.now) → IsFrame (shape_in sizes.now) f
        → bytes.now ≡ frame_text f ++ rest → 2 ^ sizes.now.shift ≤ length content.old → result ≡ 0 }
    ensures unchanged { result ≢ 0 → (content.new ≡ content.old) × (head.new ≡ head.old) }
{
    match decoded(sizes, bytes, content) {
        Ok(found) => {
            *head = found;
            0
        }
        Err(refusal) => refusal.number(),
    }
}

/// Returns whether each byte is 0; with no bytes it is true.
#[unsafe(no_mangle)]
pub extern "C" fn precopy_is_zero(bytes: &[u8]) -> bool
    ensures { IsTrue result ↔ All (λ byte. byte ≡ 0) bytes.now }
{
    zero_pages::is_zero(bytes)
}

/// Takes a stream of frames into flat memory, in which each page gets the bytes of the frame with the greatest stamp
/// that came, whatever the order. `taken` says how many frames were taken, and how many bytes they have. The first
/// refused frame ends it; the frames before it are taken, and `taken.bytes` is where it begins. It allocates nothing.
#[unsafe(no_mangle)]
pub extern "C" fn precopy_accept(
    sizes: &GuestSizes,
    stream: &[u8],
    memory: &mut [u8],
    pages: &mut [PageState],
    taken: &mut StreamTaken,
) -> u32
    ensures taken { result ≡ 0 → TakesFlat (shape_in sizes.now) memory.old memory.new pages.old pages.new stream.now
        taken.new [] }
    ensures stopped { 41 ≤ result → result ≤ 45 → (e : FrameError) × (result ≡ number_of_frame e)
        × StopsFlat (shape_in sizes.now) memory.old memory.new pages.old pages.new stream.now taken.new e }
    ensures refused { result ≢ 0 → (result < 41) ⊎ (45 < result)
        → IsNumberOf result (RefusesFlat sizes.now (length memory.old) (length pages.old)) }
    ensures unchanged { result ≢ 0 → (result < 41) ⊎ (45 < result)
        → (memory.new ≡ memory.old) × (pages.new ≡ pages.old) × (taken.new ≡ taken.old) }
    ensures given { (result ≡ 0) ↔ (IsGuestShape (shape_in sizes.now) × IsFlat (shape_in sizes.now) memory.old pages.old
        × (frames : List PageFrame) × SpellsStream (shape_in sizes.now) stream.now frames) }
    ensures all { (frames : List PageFrame) → IsGuestShape (shape_in sizes.now)
        → IsFlat (shape_in sizes.now) memory.old pages.old → SpellsStream (shape_in sizes.now) stream.now frames
        → (taken.new.frames ≡ length frames)
        × (flat_part (shape_in sizes.now) memory.new pages.new
        ≡ with_frames (flat_part (shape_in sizes.now) memory.old pages.old) frames) }
{
    match flat_shape(sizes, memory, pages) {
        Ok(shape) => match take_frames(&shape, stream, memory, pages, taken) {
            Ok(()) => 0,
            Err(error) => Refusal::Frame(error).number(),
        },
        Err(refusal) => refusal.number(),
    }
}

/// Returns 0 if each page came. If not, it sets `page` to the first that did not.
#[unsafe(no_mangle)]
pub extern "C" fn precopy_missing(pages: &[PageState], page: &mut usize) -> u32
    ensures all { (result ≡ 0) ↔ ((page : ℕ) → page < length pages.now
        → (slice_index_or pages.now page not_come).came ≢ 0) }
    ensures missing { result ≢ 0 → (result ≡ 65) × IsFirstMissing pages.now page.new }
    ensures unchanged { result ≡ 0 → page.new ≡ page.old }
{
    match first_missing(pages) {
        None => 0,
        Some(number) => {
            *page = number;
            Refusal::PageMissing.number()
        }
    }
}
