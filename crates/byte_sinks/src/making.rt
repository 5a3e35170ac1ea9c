//! Memory that is made in pieces, by several threads.

ghost use Rattle.std.specs.Prelude.{◌≡◌, ◌+◌, ◌*◌, ◌^◌, ◌<◌, ◌≤◌, IfOk, length, vec_len};
ghost use Rattle.std.specs.List.{All, between};
ghost use Rattle.byte_sinks.specs.Pieces.{AreCuts, HasRoom, piece_of, start_from};

use crate::pieced_memory::{PIECE, PiecedMemory};
use guest_log::Shape;
use std::alloc::{AllocError, Global};
use std::thread;
use std::thread::Threads;

/// The bytes of a piece of memory, and a buffer of the size of a page.
#[derive(Drop)]
pub(crate) struct Piece {
    pub(crate) page: Vec<u8>,
    pub(crate) bytes: Vec<u8>,
}

impl Piece {
    /// Returns an empty piece with room for its bytes.
    fn new(alloc: Global, shape: Shape) -> Result<Piece, AllocError>
        ensures { IfOk result (HasRoom shape.shift) }
    {
        let page = Vec::from_elem(alloc, 0, shape.page_size())?;
        let bytes = Vec::with_capacity(alloc, PIECE)?;
        Ok(Piece { page, bytes })
    }

    /// Makes the piece of this number. What the piece held is lost.
    fn fill<M: PiecedMemory>(&mut self, memory: &M, number: usize)
        requires few { number ≤ 2 ^ 20 }
        requires room { HasRoom (M.memory memory.now).shift self.old }
        ensures room { HasRoom (M.memory memory.now).shift self.new }
        ensures filled { self.new.bytes.items ≡ piece_of (M.memory memory.now) number }
    {
        memory.piece_into(number, &mut self.page, &mut self.bytes);
    }
}

/// Returns so many empty pieces, each with room for its bytes.
pub(crate) fn new_pieces(
    alloc: Global,
    shape: Shape,
    count: usize,
) -> Result<Vec<Piece>, AllocError>
    ensures count { IfOk result (λ pieces. vec_len pieces ≡ count) }
    ensures room { IfOk result (λ pieces. All (HasRoom shape.shift) pieces.items) }
{
    let mut pieces = Vec::with_capacity(alloc, count)?;
    for _ in 0..count {
        pieces.push(Piece::new(alloc, shape)?)?;
    }
    Ok(pieces)
}

/// Makes the pieces from the one numbered `first` on, in at most so many threads; if one is not started, the caller
/// does its work. What they held is lost. It allocates nothing through the allocator.
pub(crate) fn fill_pieces<R: Threads + Sync, M: PiecedMemory + Sync>(
    rt: &R,
    memory: &M,
    first: usize,
    threads: usize,
    pieces: &mut [Piece],
)
    requires threads { 1 ≤ threads }
    requires first { first ≤ 65536 }
    requires few { length pieces.old ≤ 65536 }
    requires room { All (HasRoom (M.memory memory.now).shift) pieces.old }
    ensures room { All (HasRoom (M.memory memory.now).shift) pieces.new }
    ensures filled { AreCuts (start_from first) (M.memory memory.now).bytes pieces.new }
{
    let fill = |number: usize, piece: &mut Piece|
        requires few { number < 65536 }
        requires first { first ≤ 65536 }
        requires room { HasRoom (M.memory memory.now).shift piece.now }
        ensures room { HasRoom (M.memory memory.entry.now).shift piece.exit.now }
        ensures filled { piece.exit.now.bytes.items ≡ piece_of (M.memory memory.entry.now) (first + number) }
    { piece.fill(memory, first + number) };
    thread::for_each_mut(rt, pieces, threads, &fill);
}
