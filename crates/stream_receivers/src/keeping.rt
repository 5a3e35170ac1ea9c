//! Frames whose bytes stay in the buffers in which they came.

ghost use Rattle.std.specs.Prelude.{◌≡◌, ◌≤◌, Some, drop, length};
ghost use Rattle.migration_model.specs.Frames.{frame_with};

use page_message::{Body, Frame};

/// How many bytes a frame has before those of its page.
const HEAD: usize = 9;

/// Returns the frame whose bytes are those behind the head of a buffer. They stay there.
#[tactic(auto, using(crate::proofs::Viewed::shifted))]
pub(crate) fn frame_behind_head(page: u32, stamp: u32, mut buffer: Vec<u8>) -> Frame
    requires { 9 ≤ length buffer.items }
    ensures { result ≡ frame_with page stamp (Some (drop 9 buffer.items)) }
{
    let size = buffer.len() - HEAD;
    buffer.copy_within(HEAD.., 0);
    buffer.truncate(size);
    Frame {
        page,
        stamp,
        body: Body::Data(buffer),
    }
}
