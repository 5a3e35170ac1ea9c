//! A page at one of its versions.

ghost use Rattle.std.specs.Prelude.{◌≡◌, ◌≢◌, ◌↔◌, IfOk, IsSomeAnd, IsTrue, OnErr, OnOk, Some, length, option_map};
ghost use Rattle.migration_model.specs.Frames.{IsFrame};
ghost use Rattle.page_message.specs.Shapes.{shape_of};

use guest_log::Shape;
use std::alloc::{AllocError, Global};
use std::marker::Model;
use zero_pages::is_zero;

/// The bytes of a page.
#[derive(Debug, Drop)]
pub enum Body {
    /// All of them are 0.
    Zero,
    /// These, not all of them 0.
    Data(Vec<u8>),
}

/// A page at one of its versions. The stamp is the place of the last write in it, 1 for the first write of the trace,
/// or 0 before any.
#[derive(Debug, Drop)]
pub struct Frame {
    /// The number of the page, from 0.
    pub page: u32,
    /// The place of the last write in the bytes, or 0 before any.
    pub stamp: u32,
    /// The bytes of the page.
    pub body: Body,
}

impl Model for Frame {
    ghost use Rattle.migration_model.specs.Frames.{PageFrame, frame_with};
    ghost use Rattle.page_message.specs.Bodies.{body_of};

    ghost Value = { PageFrame };

    ghost view = { λ f. frame_with f.page f.stamp (body_of f.body) };
}

/// A frame whose page is borrowed from a stream.
#[derive(Debug, Drop)]
pub struct FrameView<'a> {
    /// The number of the page, from 0.
    pub page: u32,
    /// The place of the last write in the bytes, or 0 before any.
    pub stamp: u32,
    /// The bytes of the page, not all of them 0, or None if all are.
    pub body: Option<&'a [u8]>,
}

impl<'a> Model for FrameView<'a> {
    ghost use Rattle.std.specs.Prelude.{option_map};
    ghost use Rattle.migration_model.specs.Frames.{PageFrame, frame_with};

    ghost Value = { PageFrame };

    ghost view = { λ f. frame_with f.page f.stamp (option_map (λ bytes. bytes.now) f.body) };
}

impl<'a> FrameView<'a> {
    /// Returns this frame with a copy of its bytes. The only error is that memory runs out.
    pub fn to_frame(&self, alloc: Global) -> Result<Frame, AllocError>
        ensures { IfOk result (λ frame. frame ≡ self.now) }
    {
        let body = match self.body {
            None => Body::Zero,
            Some(bytes) => Body::Data(Vec::from_slice(alloc, bytes)?),
        };
        Ok(Frame {
            page: self.page,
            stamp: self.stamp,
            body,
        })
    }
}

impl Body {
    ghost use Rattle.std.specs.Prelude.{◌≡◌, ◌≢◌, ◌↔◌, ◌^◌, IfSome, IsSomeAnd, IsTrue, OnErr, OnOk, Some, length};
    ghost use Rattle.std.specs.Prelude.{option_map};
    ghost use Rattle.migration_model.specs.Frames.{IsZeros};
    ghost use Rattle.page_message.specs.Bodies.{body_of};

    /// Returns whether this is the body of a page of this shape.
    fn fits(&self, shape: &Shape) -> bool
        ensures { IsTrue result
            ↔ IfSome (body_of self.now) (λ bytes. (length bytes ≡ 2 ^ shape.now.shift) × ¬ IsZeros bytes) }
    {
        match self {
            Body::Zero => true,
            Body::Data(bytes) => bytes.len() == shape.page_size() && !is_zero(bytes),
        }
    }

    /// Copies these bytes over the old ones if there are equally many, or else into a new vector.
    fn copy_from(&mut self, alloc: Global, bytes: Option<&[u8]>) -> Result<(), AllocError>
        ensures copied { OnOk result (body_of self.new ≡ option_map (λ b. b.now) bytes.entry) }
        ensures unchanged { OnErr result (body_of self.new ≡ body_of self.old) }
        ensures refused { OnErr result (IsSomeAnd bytes.entry
            (λ b. option_map length (body_of self.old) ≢ Some (length b.now))) }
    {
        let Some(bytes) = bytes else {
            *self = Body::Zero;
            return Ok(());
        };
        if let Body::Data(own) = self {
            if own.len() == bytes.len() {
                own.copy_from_slice(bytes);
                return Ok(());
            }
        }
        *self = Body::Data(Vec::from_slice(alloc, bytes)?);
        Ok(())
    }
}

impl Frame {
    /// Returns whether a trace of this shape may have the frame. It allocates nothing.
    pub fn fits(&self, shape: &Shape) -> bool
        ensures { IsTrue result ↔ IsFrame (shape_of shape.now) self.now }
    {
        self.page < shape.pages && self.stamp <= shape.writes && self.body.fits(shape)
    }

    /// Makes this frame equal to the viewed one. It copies the bytes over the old ones if there are equally many. Then,
    /// and if all of them are 0, it allocates nothing. The only error is that memory runs out.
    pub fn copy_from(&mut self, alloc: Global, view: &FrameView<'_>) -> Result<(), AllocError>
        ensures copied { OnOk result (self.new ≡ view.now) }
        ensures unchanged { OnErr result (self.new ≡ self.old) }
        ensures refused { OnErr result (IsSomeAnd view.now.body
            (λ bytes. option_map length self.old.body ≢ Some (length bytes))) }
    {
        self.body.copy_from(alloc, view.body)?;
        self.page = view.page;
        self.stamp = view.stamp;
        Ok(())
    }
}
