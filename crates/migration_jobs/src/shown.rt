//! The memory that is written of a live run.

ghost use Rattle.std.specs.Prelude.{◌≡◌};
ghost use Rattle.image_build.specs.Joins.{memory_by};
ghost use Rattle.live_engine.specs.Runs.{IsStoppedAt};
ghost use Rattle.migration_model.specs.Memory.{GuestMemory};
ghost use Rattle.migration_jobs.specs.Shown.{memory_shown};

use byte_sinks::{PagedMemory, PiecedMemory, piece_by_pages};
use job_kinds::Show;
use live_engine::StoppedGuest;
use std::marker::Model;
use trace_codec::{Shape, WriteLog};
use trace_readers::HeldTrace;

/// The memory of a guest that stopped, as it is or after the guest has resumed. A page is copied only when it is asked
/// for, and no copy fails.
#[derive(Drop)]
pub(crate) struct ShownMemory {
    stopped: StoppedGuest,
    trace: HeldTrace,
    show: Show,
}

impl Model for ShownMemory {
    ghost Value = { GuestMemory };

    ghost view = { λ m. memory_shown m.show m.trace (memory_by m.stopped.memory) };

    ghost invariant = { λ m. IsStoppedAt m.trace m.stopped.versions.items m.stopped.index
        (memory_by m.stopped.memory) };
}

impl ShownMemory {
    /// Returns the memory of a guest that stopped, and which part of it to show.
    pub(crate) fn new(stopped: StoppedGuest, trace: HeldTrace, show: Show) -> ShownMemory
        requires { IsStoppedAt trace stopped.versions.items stopped.index (memory_by stopped.memory) }
        ensures { result ≡ memory_shown show trace (memory_by stopped.memory) }
    {
        ShownMemory {
            stopped,
            trace,
            show,
        }
    }
}

impl PagedMemory for ShownMemory {
    ghost memory = { λ m. m };

    fn shape(&self) -> Shape {
        self.trace.shape()
    }

    fn page_into(&self, page: u32, buffer: &mut Vec<u8>) {
        match self.show {
            Show::Stop => self.stopped.memory.page_into(page, buffer),
            Show::End => self.stopped.resumed_page(&self.trace, page, buffer),
        }
    }
}

impl PiecedMemory for ShownMemory {
    ghost memory = { λ m. m };

    fn shape(&self) -> Shape {
        self.trace.shape()
    }

    fn piece_into(&self, number: usize, page: &mut Vec<u8>, piece: &mut Vec<u8>) {
        piece_by_pages(self, number, page, piece);
    }
}
