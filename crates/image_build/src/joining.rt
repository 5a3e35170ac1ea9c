//! The frame that several parts together have for a page.

ghost use Rattle.std.specs.Prelude.{◌≡◌, IfSome, option_map};
ghost use Rattle.std.specs.List.{All};
ghost use Rattle.migration_model.specs.Frames.{GuestShape, IsFrame};
ghost use Rattle.migration_model.specs.Parts.{copy_at, copy_in, join_all, later};
ghost use Rattle.page_message.specs.Shapes.{shape_of};

use collector::Part;
use page_message::Frame;
use trace_codec::Shape;

/// Returns the one of two frames of a page with the greater stamp, or the first if the stamps are equal.
fn later_frame<'a>(first: Option<&'a Frame>, second: Option<&'a Frame>) -> Option<&'a Frame>
    ensures copy { (shape : GuestShape) → option_map (λ f. copy_in shape f.now) result
        ≡ later (option_map (λ f. copy_in shape f.now) first.entry)
        (option_map (λ f. copy_in shape f.now) second.entry) }
    ensures fits { (shape : GuestShape) → IfSome first.entry (λ f. IsFrame shape f.now)
        → IfSome second.entry (λ f. IsFrame shape f.now)
        → IfSome result (λ f. IsFrame shape f.now) }
{
    match (first, second) {
        (None, second) => second,
        (Some(first), Some(second)) if first.stamp < second.stamp => Some(second),
        (Some(first), _) => Some(first),
    }
}

/// Returns the frame of a page with the greatest stamp, or the first of them if several have it.
pub(crate) fn latest<'a>(shape: &Shape, parts: &'a [Part], page: u32) -> Option<&'a Frame>
    requires { All (λ part. part.shape ≡ shape_of shape.now) parts.now }
    ensures copy { option_map (λ f. copy_in (shape_of shape.now) f.now) result
        ≡ copy_at (join_all (shape_of shape.now) parts.now) page }
    ensures fits { IfSome result (λ f. IsFrame (shape_of shape.now) f.now) }
{
    let mut kept = None;
    for part in parts {
        kept = later_frame(kept, part.frame(page));
    }
    kept
}
