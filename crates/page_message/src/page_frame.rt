//! A frame from the bytes of a page.

// `IsFrameOf` holds of one frame alone: `one_frame_of_page`.

ghost use Rattle.std.specs.Prelude.{◌≡◌, ◌↔◌, ◌<◌, ◌≤◌, ◌^◌, None, vec_len};
ghost use Rattle.migration_model.specs.Frames.{IsFrame, IsFrameOf, IsZeros, content_of};
ghost use Rattle.page_message.specs.Shapes.{shape_of};

use crate::frame::{Body, Frame};
use guest_log::Shape;
use zero_pages::is_zero;

/// Returns the frame with these page bytes, which it takes over, or drops if each is 0. It allocates nothing.
pub fn frame_of(shape: &Shape, page: u32, stamp: u32, bytes: Vec<u8>) -> Frame
    requires page { page < shape.now.pages }
    requires stamp { stamp ≤ shape.now.writes }
    requires whole { vec_len bytes ≡ 2 ^ shape.now.shift }
    ensures is { IsFrameOf (shape_of shape.now) page stamp bytes.items result }
    ensures fits { IsFrame (shape_of shape.now) result }
    ensures page { result.page ≡ page }
    ensures stamp { result.stamp ≡ stamp }
    ensures content { content_of (shape_of shape.now) result ≡ bytes.items }
    ensures zero { (result.body ≡ None) ↔ IsZeros bytes.items }
{
    let body = if is_zero(&bytes) {
        Body::Zero
    } else {
        Body::Data(bytes)
    };
    Frame { page, stamp, body }
}
