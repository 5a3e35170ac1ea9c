//! All of a guest's memory, left in its parts.

// `LacksFirst` holds of one value alone: `one_page_lacking`.

ghost use Rattle.std.specs.Prelude.{◌≡◌, ◌<◌, ◌^◌, ◌++◌, IfErr, IfOk, MatchResult, OnOk, Some, length};
ghost use Rattle.std.specs.List.{All};
ghost use Rattle.migration_model.specs.Frames.{IsFrame};
ghost use Rattle.migration_model.specs.Images.{IsJoined};
ghost use Rattle.migration_model.specs.Memory.{page_of};
ghost use Rattle.migration_model.specs.Parts.{copy_at, copy_in, join_all};
ghost use Rattle.page_message.specs.Shapes.{shape_of};
ghost use Rattle.image_build.specs.Joins.{IsMissing, IsWhole, RefusesParts, WholeParts, memory_by, whole_with};

use crate::error::ImageError;
use crate::image::Image;
use crate::joining::latest;
use collector::Part;
use page_message::{Body, Frame};
use std::alloc::{AllocError, Global};
use std::marker::Model;
use trace_codec::Shape;

/// All of a guest's memory that several parts have together: for each page, the bytes with the greatest stamp, or the
/// first part's if several have that stamp. No page is copied.
#[derive(Debug, Drop)]
pub struct JoinedParts {
    shape: Shape,
    parts: Vec<Part>,
}

impl Model for JoinedParts {
    ghost Value = { WholeParts };

    ghost view = { λ m. whole_with (shape_of m.shape) m.parts.items };

    ghost invariant = { λ m. IsWhole (whole_with (shape_of m.shape) m.parts.items) };
}

/// Appends the bytes of a page.
fn push_body(memory: &mut Vec<u8>, shape: &Shape, frame: &Frame) -> Result<(), AllocError>
    ensures { OnOk result (memory.new.items ≡ memory.old.items ++ (copy_in (shape_of shape.now) frame.now).content) }
{
    match &frame.body {
        Body::Zero => memory.resize(memory.len() + shape.page_size(), 0)?,
        Body::Data(bytes) => memory.extend_from_slice(bytes)?,
    }
    Ok(())
}

/// Copies the bytes of a page over those of a buffer.
fn put_body(room: &mut Vec<u8>, shape: &Shape, frame: &Frame)
    requires room { length room.old.items ≡ 2 ^ shape.now.shift }
    requires fits { IsFrame (shape_of shape.now) frame.now }
    ensures { room.new.items ≡ (copy_in (shape_of shape.now) frame.now).content }
{
    match &frame.body {
        Body::Zero => room.fill(0),
        Body::Data(bytes) => room.copy_from_slice(bytes),
    }
}

impl JoinedParts {
    /// Returns the memory that the parts make together. It allocates nothing. The only error is `Missing`, which names
    /// the first page that no part has; the parts are then dropped.
    pub fn new(shape: Shape, parts: Vec<Part>) -> Result<JoinedParts, ImageError>
        requires { All (λ part. part.shape ≡ shape_of shape) parts.items }
        ensures made { IfOk result (λ m. m ≡ whole_with (shape_of shape) parts.items) }
        ensures joined { IfOk result (λ m. IsJoined (shape_of shape) parts.items (memory_by m)) }
        ensures refused { IfErr result (IsMissing (shape_of shape) parts.items) }
    {
        for page in 0..shape.pages {
            let Some(_) = latest(&shape, &parts, page) else {
                return Err(ImageError::Missing(page));
            };
        }
        Ok(JoinedParts { shape, parts })
    }

    /// Returns the shape of the parts' trace.
    pub fn shape(&self) -> Shape
        ensures shape { shape_of result ≡ self.now.shape }
        ensures shift { result.shift ≡ (memory_by self.now).shift }
        ensures pages { result.pages ≡ (memory_by self.now).pages }
    {
        self.shape
    }

    /// Returns the frame of a page.
    fn frame(&self, page: u32) -> &Frame
        requires { page < self.now.shape.pages }
        ensures copy { copy_at (join_all self.now.shape self.now.parts) page
            ≡ Some (copy_in self.now.shape result.now) }
        ensures fits { IsFrame self.now.shape result.now }
    {
        let Some(frame) = latest(&self.shape, &self.parts, page) else {
            unreachable!()
        };
        frame
    }

    /// Copies the bytes of a page into a buffer of the same length.
    pub fn page_into(&self, page: u32, room: &mut Vec<u8>)
        requires page { page < (memory_by self.now).pages }
        requires room { length room.old.items ≡ 2 ^ (memory_by self.now).shift }
        ensures { room.new.items ≡ page_of (memory_by self.now) page }
    {
        put_body(room, &self.shape, self.frame(page));
    }

    /// Returns this memory, page after page in one flat run of bytes. The only error is that memory runs out.
    pub fn image(&self, alloc: Global) -> Result<Image, ImageError>
        ensures { MatchResult result (λ image. image ≡ memory_by self.now) (λ e. e ≡ ImageError.Memory) }
    {
        let shape = self.shape;
        let mut memory = Vec::with_capacity(alloc, (shape.pages as usize) << shape.shift)?;
        for page in 0..shape.pages {
            push_body(&mut memory, &shape, self.frame(page))?;
        }
        Ok(Image::of(shape.shift, shape.pages, memory))
    }
}

/// Returns the memory that the parts make together: for each page, the bytes with the greatest stamp, or the first
/// part's if several have it. `Missing` names the first page in no part. After an error the parts are dropped.
pub fn of_parts(alloc: Global, shape: &Shape, parts: Vec<Part>) -> Result<Image, ImageError>
    requires { All (λ part. part.shape ≡ shape_of shape.now) parts.items }
    ensures made { IfOk result (IsJoined (shape_of shape.now) parts.items) }
    ensures refused { IfErr result (RefusesParts (shape_of shape.now) parts.items) }
{
    JoinedParts::new(*shape, parts)?.image(alloc)
}
