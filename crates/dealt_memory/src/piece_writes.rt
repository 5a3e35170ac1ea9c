//! The writes to one piece of memory, side by side.

ghost use Rattle.std.specs.Prelude.{◌≡◌, ◌+◌, ◌*◌, ◌^◌, ◌<◌, ◌≤◌, OnErr, OnOk, fold, length, vec_capacity};
ghost use Rattle.dealt_memory.specs.Spots.{HoldsWrites, spotted};
ghost use Rattle.guest_log.specs.Writes.{shown};
ghost use Rattle.migration_model.specs.Memory.{GuestMemory, apply, memory_with, replay, zeros};
ghost use Rattle.migration_model.specs.Trace.{IsGuestWrite, write_with};

use guest_log::{Shape, WriteView};
use std::alloc::{AllocError, Global};
use std::marker::Model;

/// A write: its page in the piece, its offset there, and how many bytes are its own.
#[derive(Clone, Copy, Debug)]
struct Spot {
    page: u16,
    offset: u16,
    length: u16,
}

/// Some pages of memory, as copies of the writes to them: the bytes that are written follow one another.
#[derive(Debug, Drop)]
pub(crate) struct PieceWrites {
    shape: Shape,
    spots: Vec<Spot>,
    bytes: Vec<u8>,
}

impl Model for PieceWrites {
    ghost Value = { GuestMemory };

    ghost view = { λ w. memory_with w.shape.shift w.shape.pages
        (replay w.shape.shift w.shape.pages (spotted w.spots.items w.bytes.items)).bytes };

    ghost invariant = { λ w. HoldsWrites w.shape.shift w.shape.pages w.spots.items w.bytes.items };
}

/// Applies the writes of these spots, whose bytes follow one another, to memory.
fn put_spots(shape: Shape, spots: &[Spot], written: &[u8], memory: &mut [u8])
    requires holds { HoldsWrites shape.shift shape.pages spots.now written.now }
    requires len { length memory.old ≡ shape.pages * 2 ^ shape.shift }
    ensures { memory.new ≡ (fold apply (memory_with shape.shift shape.pages memory.old)
        (spotted spots.now written.now)).bytes }
{
    let mut rest = written;
    for spot in spots {
        let (bytes, behind) = rest.split_at(spot.length as usize);
        let write = WriteView {
            tick: 0,
            page: spot.page as u32,
            offset: spot.offset,
            bytes,
        };
        let start = spot.page as usize * shape.page_size() + spot.offset as usize;
        write.put_at(shape, memory, start);
        rest = behind;
    }
}

impl PieceWrites {
    /// Returns no writes to pages of this shape.
    pub(crate) fn none(alloc: Global, shape: Shape) -> PieceWrites
        ensures { result ≡ zeros shape.shift shape.pages }
    {
        PieceWrites {
            shape,
            spots: Vec::new(alloc),
            bytes: Vec::new(alloc),
        }
    }

    /// Appends a copy of a write, to this page of the piece. The only error is that memory runs out; then the write is
    /// not taken.
    pub(crate) fn push(&mut self, page: u32, write: &WriteView<'_>) -> Result<(), AllocError>
        requires fits { IsGuestWrite 2 self.old.shift self.old.pages
            (write_with 0 page (shown write.now).offset (shown write.now).bytes) }
        ensures pushed { OnOk result (self.new ≡ apply self.old
            (write_with 0 page (shown write.now).offset (shown write.now).bytes)) }
        ensures kept { OnErr result (self.new ≡ self.old) }
    {
        self.spots.reserve(1)?;
        self.bytes.extend_from_slice(write.bytes)?;
        self.spots.push_reserved(Spot {
            page: page as u16,
            offset: write.offset,
            length: write.bytes.len() as u16,
        });
        Ok(())
    }

    /// Makes the pages in a buffer that has the capacity for them. What it held is lost.
    pub(crate) fn make(&self, buffer: &mut Vec<u8>)
        requires { length self.now.bytes ≤ vec_capacity buffer.old }
        ensures made { buffer.new.items ≡ self.now.bytes }
        ensures capacity { vec_capacity buffer.old ≤ vec_capacity buffer.new }
    {
        let size = self.shape.pages as usize * self.shape.page_size();
        buffer.clear();
        let Ok(()) = buffer.resize(size, 0) else {
            unreachable!()
        };
        put_spots(self.shape, &self.spots, &self.bytes, buffer);
    }
}
