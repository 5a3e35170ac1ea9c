//! A part that starts with all of a guest's memory.

ghost use Rattle.std.specs.Prelude.{◌≡◌, ◌<◌, ◌≤◌, ◌*◌, ◌^◌, IfOk, length};
ghost use Rattle.std.specs.List.{All};
ghost use Rattle.migration_model.specs.Memory.{memory_with};
ghost use Rattle.migration_model.specs.Warm.{part_of_memory};
ghost use Rattle.collector.specs.Tables.{IsTableOf};
ghost use Rattle.migration_model.specs.Frames.{IsFrameOf};
ghost use Rattle.page_message.specs.Shapes.{shape_of};

use crate::error::PartError;
use crate::part::Part;
use guest_log::Shape;
use page_message::{Body, Frame};
use std::alloc::{AllocError, Global};
use zero_pages::is_zero;

/// Returns the frame with these page bytes. It copies them once, or not at all if each is 0.
fn frame_at(
    alloc: Global,
    shape: &Shape,
    page: u32,
    stamp: u32,
    bytes: &[u8],
) -> Result<Frame, AllocError>
    requires page { page < shape.now.pages }
    requires stamp { stamp ≤ shape.now.writes }
    requires whole { length bytes.now ≡ 2 ^ shape.now.shift }
    ensures { IfOk result (IsFrameOf (shape_of shape.now) page stamp bytes.now) }
{
    let body = if is_zero(bytes) {
        Body::Zero
    } else {
        Body::Data(Vec::from_slice(alloc, bytes)?)
    };
    Ok(Frame { page, stamp, body })
}

/// Returns the table that has each page of this memory, with its stamp.
fn table_of(
    alloc: Global,
    shape: &Shape,
    bytes: &[u8],
    stamps: &[u32],
) -> Result<Vec<Option<Frame>>, AllocError>
    requires size { length bytes.now ≡ shape.now.pages * 2 ^ shape.now.shift }
    requires count { length stamps.now ≡ shape.now.pages }
    requires within { All (λ stamp. stamp ≤ shape.now.writes) stamps.now }
    ensures { IfOk result (λ table. IsTableOf (shape_of shape.now) bytes.now stamps.now shape.now.pages table.items) }
{
    let mut table = Vec::with_capacity(alloc, stamps.len())?;
    let mut rest = bytes;
    for page in 0..shape.pages {
        let (front, behind) = rest.split_at(shape.page_size());
        table.push(Some(frame_at(alloc, shape, page, stamps[page as usize], front)?))?;
        rest = behind;
    }
    Ok(table)
}

impl Part {
    /// Returns the part that has each page of some memory, with its stamp. The bytes are those of the pages, in order.
    /// It copies each page once, and takes no memory for the bytes of a page of zeros. The only error is that memory
    /// runs out.
    pub fn of_image(
        alloc: Global,
        shape: Shape,
        bytes: &[u8],
        stamps: &[u32],
    ) -> Result<Part, PartError>
        requires size { length bytes.now ≡ shape.pages * 2 ^ shape.shift }
        requires count { length stamps.now ≡ shape.pages }
        requires within { All (λ stamp. stamp ≤ shape.writes) stamps.now }
        ensures { IfOk result (λ part. part
            ≡ part_of_memory (shape_of shape) (memory_with shape.shift shape.pages bytes.now) stamps.now) }
    {
        let frames = table_of(alloc, &shape, bytes, stamps)?;
        Ok(Part::with_table(alloc, shape, frames))
    }
}
