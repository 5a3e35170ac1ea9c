//! An image of a guest's memory.

ghost use Rattle.std.specs.Prelude.{◌≡◌, ◌<◌, ◌↔◌, IsTrue, MatchResult};
ghost use Rattle.migration_model.specs.Memory.{GuestMemory, IsMemory, memory_with, page_of};

use crate::error::ImageError;
use std::alloc::Global;
use std::marker::Model;
use trace_codec::Shape;

/// All of a guest's memory: page after page, in one flat run of bytes.
#[derive(Debug, Drop)]
pub struct Image {
    shift: u8,
    pages: u32,
    bytes: Vec<u8>,
}

impl Model for Image {
    ghost Value = { GuestMemory };

    ghost view = { λ m. memory_with m.shift m.pages m.bytes.items };

    ghost invariant = { λ m. IsMemory m.shift m.pages m.bytes.items };
}

impl Image {
    /// Returns the memory with these bytes of a guest of this size.
    pub(crate) fn of(shift: u8, pages: u32, bytes: Vec<u8>) -> Image
        requires { IsMemory shift pages bytes.items }
        ensures { result ≡ memory_with shift pages bytes.items }
    {
        Image {
            shift,
            pages,
            bytes,
        }
    }

    /// Returns an equal image. The only error is that memory runs out.
    pub fn copy(&self, alloc: Global) -> Result<Image, ImageError>
        ensures { MatchResult result (λ image. image ≡ self.now) (λ e. e ≡ ImageError.Memory) }
    {
        Ok(Image {
            shift: self.shift,
            pages: self.pages,
            bytes: Vec::from_slice(alloc, &self.bytes)?,
        })
    }

    /// Returns the bytes of all pages, page after page.
    pub fn bytes(&self) -> &[u8]
        ensures { result.now ≡ self.now.bytes }
    {
        &self.bytes
    }

    /// Returns the bytes of all pages, page after page, and consumes the image.
    pub fn into_bytes(self) -> Vec<u8>
        ensures bytes { result.items ≡ self.bytes }
        ensures is_memory { IsMemory self.shift self.pages self.bytes }
    {
        let Image {
            shift: _,
            pages: _,
            bytes,
        } = self;
        bytes
    }

    /// Returns whether the image has the number and size of pages that the shape says.
    pub fn fits(&self, shape: &Shape) -> bool
        ensures { IsTrue result ↔ ((self.now.shift ≡ shape.now.shift) × (self.now.pages ≡ shape.now.pages)) }
    {
        self.shift == shape.shift && self.pages == shape.pages
    }

    /// Returns the bytes of one page.
    pub fn page(&self, page: u32) -> &[u8]
        requires { page < self.now.pages }
        ensures { result.now ≡ page_of self.now page }
    {
        let start = (page as usize) << self.shift;
        let end = start + (1usize << self.shift);
        &self.bytes[start..end]
    }
}
