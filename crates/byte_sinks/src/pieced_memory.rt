//! Memory that is made piece by piece.

ghost use Rattle.std.specs.Prelude.{◌≡◌, ◌-◌, ◌*◌, ◌^◌, ◌≤◌, length, vec_capacity};
ghost use Rattle.migration_model.specs.Memory.{GuestMemory, IsMemory};
ghost use Rattle.byte_sinks.specs.Pieces.{piece_of};

use crate::paged_memory::{PagedMemory, fill_piece};
use guest_log::Shape;

/// How many bytes a piece of memory has, `2^18`, unless memory ends before: so many stay in the processor's cache
/// between making and writing.
pub(crate) const PIECE: usize = 262_144;

/// The memory of a guest, each piece of which is made when it is asked for. Making one takes no memory and cannot fail.
pub trait PiecedMemory {
    // The memory that the pieces make together.
    ghost memory: { Self → GuestMemory };

    /// Returns how many pages there are, and their size.
    fn shape(&self) -> Shape
        ensures shift { result.shift ≡ (memory self.now).shift }
        ensures pages { result.pages ≡ (memory self.now).pages }
        ensures is_memory { IsMemory (memory self.now).shift (memory self.now).pages (memory self.now).bytes };

    /// Makes the piece of this number, in `piece`. What both buffers held is lost. `page` has the size of a page, for
    /// those who make one page after another.
    fn piece_into(&self, number: usize, page: &mut Vec<u8>, piece: &mut Vec<u8>)
        requires few { number ≤ 2 ^ 20 }
        requires long { length page.old.items ≡ 2 ^ (memory self.now).shift }
        requires capacity { 2 ^ 18 ≤ vec_capacity piece.old }
        ensures made { piece.new.items ≡ piece_of (memory self.now) number }
        ensures long { length page.new.items ≡ 2 ^ (memory self.now).shift }
        ensures capacity { 2 ^ 18 ≤ vec_capacity piece.new };
}

/// Returns how many pages a piece has.
pub fn piece_pages(shape: Shape) -> u32
    ensures { result ≡ 2 ^ (18 - shape.shift) }
{
    1u32 << (18 - shape.shift)
}

/// Returns how many bytes memory of this shape has.
pub(crate) fn memory_size(shape: Shape) -> usize
    ensures size { result ≡ shape.pages * 2 ^ shape.shift }
    ensures bound { result ≤ 2 ^ 28 }
{
    (shape.pages as usize) << shape.shift
}

/// Makes the piece of this number from its pages, as `piece_into` does.
pub fn piece_by_pages<M: PagedMemory>(
    memory: &M,
    number: usize,
    page: &mut Vec<u8>,
    piece: &mut Vec<u8>,
)
    requires few { number ≤ 2 ^ 20 }
    requires long { length page.old.items ≡ 2 ^ (M.memory memory.now).shift }
    requires capacity { 2 ^ 18 ≤ vec_capacity piece.old }
    ensures made { piece.new.items ≡ piece_of (M.memory memory.now) number }
    ensures long { length page.new.items ≡ 2 ^ (M.memory memory.now).shift }
    ensures capacity { 2 ^ 18 ≤ vec_capacity piece.new }
{
    let shape = memory.shape();
    let pages = piece_pages(shape) as usize;
    let all = shape.pages as usize;
    let first = (number * pages).min(all);
    let end = (number * pages + pages).min(all);
    fill_piece(memory, first as u32, end as u32, page, piece);
}
