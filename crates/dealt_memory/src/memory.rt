//! Whole memory, as copies of the writes to its pieces.

ghost use Rattle.std.specs.Prelude.{◌≡◌, ◌+◌, ◌-◌, ◌*◌, ◌^◌, ◌<◌, ◌≤◌, ℕ, IfOk, OnOk, fold};
ghost use Rattle.std.specs.List.{flat_map};
ghost use Rattle.dealt_memory.specs.Pieces.{ArePieces, joined};
ghost use Rattle.migration_model.specs.Memory.{GuestMemory, apply, zeros};
ghost use Rattle.migration_model.specs.Trace.{IsGuestWrite};

use crate::piece_writes::PieceWrites;
use byte_sinks::{PiecedMemory, piece_pages};
use guest_log::{Shape, WriteView};
use std::alloc::{AllocError, Global};
use std::marker::Model;
use trace_readers::WriteVisitor;

/// The memory after the writes that came so far, as copies of them, dealt to pieces of memory. No byte of memory is
/// made before its piece is asked for.
#[derive(Debug, Drop)]
pub struct DealtMemory {
    shape: Shape,
    pieces: Vec<PieceWrites>,
}

impl Model for DealtMemory {
    ghost Value = { GuestMemory };

    ghost view = { λ m. joined m.shape.shift m.shape.pages m.pieces.items };

    ghost invariant = { λ m. ArePieces m.shape.shift m.shape.pages m.pieces.items };
}

/// Returns the number of the piece in which a page is, and the page's number there.
fn place_of(shape: Shape, page: u32) -> (usize, u32)
    ensures place { result.0 * 2 ^ (18 - shape.shift) + result.1 ≡ page }
    ensures low { result.1 < 2 ^ (18 - shape.shift) }
{
    let pages = piece_pages(shape);
    ((page / pages) as usize, page % pages)
}

impl DealtMemory {
    /// Returns memory before any write: zeros.
    pub fn blank(alloc: Global, shape: Shape) -> Result<DealtMemory, AllocError>
        ensures { IfOk result (λ memory. memory ≡ zeros shape.shift shape.pages) }
    {
        let most = piece_pages(shape);
        let mut pieces = Vec::new(alloc);
        let mut left = shape.pages;
        while left > 0 {
            let part = Shape {
                shift: shape.shift,
                pages: left.min(most),
                writes: shape.writes,
            };
            pieces.push(PieceWrites::none(alloc, part))?;
            left -= part.pages;
        }
        Ok(DealtMemory { shape, pieces })
    }
}

impl WriteVisitor for DealtMemory {
    ghost takes = { λ memory write. (version : ℕ) × IsGuestWrite version memory.shift memory.pages write };

    ghost makes = { λ start memory writes. fold apply start writes ≡ memory };

    fn visit(&mut self, write: &WriteView<'_>) -> Result<(), AllocError> {
        let (piece, page) = place_of(self.shape, write.page);
        self.pieces[piece].push(page, write)
    }
}

impl PiecedMemory for DealtMemory {
    ghost memory = { λ m. m };

    fn shape(&self) -> Shape {
        self.shape
    }

    fn piece_into(&self, number: usize, _page: &mut Vec<u8>, piece: &mut Vec<u8>) {
        piece.clear();
        if number < self.pieces.len() {
            self.pieces[number].make(piece);
        }
    }
}
