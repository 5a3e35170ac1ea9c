//! The writes of one page, side by side.

ghost use Rattle.std.specs.Prelude.{◌≡◌, ◌<◌, ◌≤◌, ◌*◌, ◌^◌, ◌++◌, ◌∷◌, [], List, IfOk, OnOk, length, map};
ghost use Rattle.std.specs.List.{All, between};
ghost use Rattle.guest_log.specs.Writes.{shown};
ghost use Rattle.migration_model.specs.Trace.{GuestWrite};
ghost use Rattle.page_versions.specs.Pages.{PutsWithin};
ghost use Rattle.page_versions.specs.Copies.{IsWithin, bare, put_copies, write_in};

use guest_log::{Shape, WriteView};
use std::alloc::{AllocError, Global};
use std::marker::Model;

/// A write: its offset in the page, and which of the page's bytes are its own.
#[derive(Clone, Copy, Debug)]
struct Spot {
    start: u32,
    offset: u16,
    length: u16,
}

/// The writes of one page, in the order in which they came.
#[derive(Debug, Drop)]
pub(crate) struct PageWrites {
    spots: Vec<Spot>,
    bytes: Vec<u8>,
}

impl Model for PageWrites {
    ghost Value = { List GuestWrite };

    ghost view = { λ w. map (write_in w.bytes.items) w.spots.items };

    ghost invariant = { λ w. (All (IsWithin w.bytes.items) w.spots.items)
        × (length w.bytes.items ≤ 4_096 * length w.spots.items) };
}

/// Returns the write of a spot.
fn write_of<'a>(written: &'a [u8], spot: &Spot) -> WriteView<'a>
    requires { IsWithin written.now spot.now }
    ensures { shown result ≡ write_in written.now spot.now }
{
    let start = spot.start as usize;
    WriteView {
        tick: 0,
        page: 0,
        offset: spot.offset,
        bytes: &written[start..start + spot.length as usize],
    }
}

/// Applies the writes of these spots to the bytes of their page.
fn put_spots(shape: Shape, written: &[u8], spots: &[Spot], bytes: &mut [u8])
    requires spots { All (IsWithin written.now) spots.now }
    requires within { All (λ spot. PutsWithin shape.shift (write_in written.now spot)) spots.now }
    requires room { length bytes.old ≡ 2 ^ shape.shift }
    ensures { bytes.new ≡ put_copies shape.shift bytes.old (map (write_in written.now) spots.now) }
{
    for spot in spots {
        let write = write_of(written, spot);
        write.put_at(shape, bytes, write.offset as usize);
    }
}

impl PageWrites {
    /// Returns no writes yet, with room for `count` of them, which have `len` bytes.
    pub(crate) fn with_capacity(
        alloc: Global,
        count: usize,
        len: usize,
    ) -> Result<PageWrites, AllocError>
        ensures { IfOk result (λ writes. writes ≡ []) }
    {
        let spots = Vec::with_capacity(alloc, count)?;
        let bytes = Vec::with_capacity(alloc, len)?;
        Ok(PageWrites { spots, bytes })
    }

    /// Appends a copy of a write.
    pub(crate) fn push(&mut self, write: &WriteView<'_>) -> Result<(), AllocError>
        requires few { length self.old < 2 ^ 20 }
        requires short { length (shown write.now).bytes ≤ 4_096 }
        ensures { OnOk result (self.new ≡ self.old ++ bare (shown write.now).offset (shown write.now).bytes ∷ []) }
    {
        let spot = Spot {
            start: self.bytes.len() as u32,
            offset: write.offset,
            length: write.bytes.len() as u16,
        };
        self.spots.reserve(1)?;
        self.bytes.extend_from_slice(write.bytes)?;
        self.spots.push_reserved(spot);
        Ok(())
    }

    /// Applies the writes with these numbers to the bytes of the page. The first has number 0.
    pub(crate) fn put_run(&self, shape: Shape, start: usize, end: usize, bytes: &mut [u8])
        requires order { start ≤ end }
        requires bound { end ≤ length self.now }
        requires within { All (PutsWithin shape.shift) self.now }
        requires room { length bytes.old ≡ 2 ^ shape.shift }
        ensures { bytes.new ≡ put_copies shape.shift bytes.old (between start end self.now) }
    {
        put_spots(shape, &self.bytes, &self.spots[start..end], bytes);
    }
}
