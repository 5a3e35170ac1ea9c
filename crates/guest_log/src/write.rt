//! One guest write.

ghost use Rattle.std.specs.Prelude.{◌≡◌, ◌==◌, ◌+◌, ◌≤◌, IfOk, length};
ghost use Rattle.migration_model.specs.Memory.{bytes_put, put};
ghost use Rattle.migration_model.specs.Trace.{GuestWrite, write_with};

use crate::shape::Shape;
use std::alloc::{AllocError, Global};
use std::marker::Model;

/// A guest write: at tick `tick`, `bytes` from `offset` of `page` on. One with no bytes, from offset 0 on, releases its
/// page: the whole page becomes zeros.
#[derive(Debug, Drop)]
pub struct Write {
    /// The tick of the write.
    pub tick: u64,
    /// The page that it writes to.
    pub page: u32,
    /// The offset in the page, in bytes.
    pub offset: u16,
    /// The bytes that are written; none if the page is released.
    pub bytes: Vec<u8>,
}

impl Model for Write {
    ghost Value = { GuestWrite };

    ghost view = { λ w. write_with w.tick w.page w.offset w.bytes.items };
}

impl Write {
    ghost use Rattle.guest_log.specs.Writes.{shown};

    /// Returns this write with its bytes borrowed.
    pub fn view(&self) -> WriteView<'_>
        ensures { shown result ≡ self.now }
    {
        let Write {
            tick,
            page,
            offset,
            bytes,
        } = self;
        WriteView {
            tick: *tick,
            page: *page,
            offset: *offset,
            bytes,
        }
    }
}

/// A guest write whose bytes are borrowed from a trace; one with no bytes releases its page.
#[derive(Clone, Copy, Debug)]
pub struct WriteView<'a> {
    /// The tick of the write.
    pub tick: u64,
    /// The page that it writes to.
    pub page: u32,
    /// The offset in the page, in bytes.
    pub offset: u16,
    /// The bytes that are written; none if the page is released.
    pub bytes: &'a [u8],
}

impl<'a> WriteView<'a> {
    ghost use Rattle.guest_log.specs.Writes.{shown};

    /// Returns whether the write releases its page.
    pub fn is_release(&self) -> bool
        ensures { result ≡ (length (shown self.now).bytes == 0) }
    {
        self.bytes.is_empty()
    }

    /// Puts the write over the bytes from an offset on, of a guest of this shape: the bytes that are written, or zeros
    /// for a whole page if the write releases it.
    pub fn put_at(&self, shape: Shape, bytes: &mut [u8], start: usize)
        requires { start + length (bytes_put shape.shift (shown self.now)) ≤ length bytes.old }
        ensures { bytes.new ≡ put bytes.old start (bytes_put shape.shift (shown self.now)) }
    {
        if self.is_release() {
            bytes[start..start + shape.page_size()].fill(0);
            return;
        }
        bytes[start..start + self.bytes.len()].copy_from_slice(self.bytes);
    }

    /// Returns this write with a copy of its bytes. The only error is that memory runs out.
    pub fn to_write(&self, alloc: Global) -> Result<Write, AllocError>
        ensures { IfOk result (λ write. write ≡ shown self.now) }
    {
        let bytes = Vec::from_slice(alloc, self.bytes)?;
        Ok(Write {
            tick: self.tick,
            page: self.page,
            offset: self.offset,
            bytes,
        })
    }
}
