//! Memory into which the writes of a trace are put as they come.

ghost use Rattle.std.specs.Prelude.{◌≡◌, IfOk, fold, ℕ};
ghost use Rattle.migration_model.specs.Memory.{GuestMemory, IsMemory, apply, memory_with, zeros};
ghost use Rattle.migration_model.specs.Trace.{IsGuestWrite};

use std::alloc::{AllocError, Global};
use std::marker::Model;
use trace_codec::{Shape, WriteView};
use trace_readers::WriteVisitor;

/// The whole memory after the writes that came so far.
#[derive(Drop)]
pub(crate) struct WrittenMemory {
    shape: Shape,
    bytes: Vec<u8>,
}

impl Model for WrittenMemory {
    ghost Value = { GuestMemory };

    ghost view = { λ m. memory_with m.shape.shift m.shape.pages m.bytes.items };

    ghost invariant = { λ m. IsMemory m.shape.shift m.shape.pages m.bytes.items };
}

impl WrittenMemory {
    /// Returns memory before any write: zeros.
    pub(crate) fn blank(alloc: Global, shape: Shape) -> Result<WrittenMemory, AllocError>
        ensures { IfOk result (λ memory. memory ≡ zeros shape.shift shape.pages) }
    {
        let bytes = Vec::from_elem(alloc, 0, (shape.pages as usize) << shape.shift)?;
        Ok(WrittenMemory { shape, bytes })
    }

    /// Returns the bytes of all pages, page after page.
    pub(crate) fn into_bytes(self) -> Vec<u8>
        ensures { result.items ≡ self.bytes }
    {
        self.bytes
    }
}

impl WriteVisitor for WrittenMemory {
    ghost takes = { λ memory write. (version : ℕ) × IsGuestWrite version memory.shift memory.pages write };

    ghost makes = { λ start memory writes. fold apply start writes ≡ memory };

    fn visit(&mut self, write: &WriteView<'_>) -> Result<(), AllocError> {
        let start = write.page as usize * self.shape.page_size() + write.offset as usize;
        write.put_at(self.shape, &mut self.bytes, start);
        Ok(())
    }
}
