//! Memory that is made page by page.

ghost use Rattle.std.specs.Prelude.{◌≡◌, ◌-◌, ◌*◌, ◌^◌, ◌<◌, ◌≤◌, length, vec_capacity};
ghost use Rattle.std.specs.List.{between};
ghost use Rattle.migration_model.specs.Memory.{GuestMemory, IsMemory, page_of};

use guest_log::Shape;

/// The memory of a guest, each page of which is made when it is asked for. Making one takes no memory and cannot fail.
pub trait PagedMemory {
    // The memory that the pages make together.
    ghost memory: { Self → GuestMemory };

    /// Returns how many pages there are, and their size.
    fn shape(&self) -> Shape
        ensures shift { result.shift ≡ (memory self.now).shift }
        ensures pages { result.pages ≡ (memory self.now).pages }
        ensures is_memory { IsMemory (memory self.now).shift (memory self.now).pages (memory self.now).bytes };

    /// Overwrites a buffer of the same size with the bytes of a page.
    fn page_into(&self, page: u32, buffer: &mut Vec<u8>)
        requires page { page < (memory self.now).pages }
        requires long { length buffer.old.items ≡ 2 ^ (memory self.now).shift }
        ensures { buffer.new.items ≡ page_of (memory self.now) page };
}

/// Makes some pages, one after the other, in a piece that has the capacity for them. What the piece held is lost.
pub(crate) fn fill_piece<M: PagedMemory>(
    memory: &M,
    first: u32,
    end: u32,
    buffer: &mut Vec<u8>,
    piece: &mut Vec<u8>,
)
    requires order { first ≤ end }
    requires within { end ≤ (M.memory memory.now).pages }
    requires long { length buffer.old.items ≡ 2 ^ (M.memory memory.now).shift }
    requires capacity { (end - first) * 2 ^ (M.memory memory.now).shift ≤ vec_capacity piece.old }
    ensures filled { piece.new.items ≡ between (first * 2 ^ (M.memory memory.now).shift)
        (end * 2 ^ (M.memory memory.now).shift) (M.memory memory.now).bytes }
    ensures long { length buffer.new.items ≡ 2 ^ (M.memory memory.now).shift }
    ensures capacity { vec_capacity piece.old ≤ vec_capacity piece.new }
{
    // For the proof: `shape` promises the size of the memory.
    let _ = memory.shape();
    piece.clear();
    for page in first..end {
        memory.page_into(page, buffer);
        let Ok(()) = piece.extend_from_slice(buffer) else {
            unreachable!()
        };
    }
}
