//! Why a live run produces no image.

ghost use Rattle.std.specs.Prelude.{◌≡◌, ◌⊎◌};
ghost use Rattle.live_engine.specs.declared.error.LiveError.TheVariants.{Memory, Thread};
ghost use Rattle.stop_copy.specs.declared.error.CopyError.TheVariants.{Memory as CopyMemory, Thread as CopyThread};

use collector::PartError;
use dirty_words::TableError;
use image_build::ImageError;
use live_tasks::SeatError;
use page_versions::IndexError;
use round_planner::PlanError;
use std::alloc::{AllocError, AllocFailed};
use std::thread::SpawnError;
use stop_copy::CopyError;
use stream_lanes::LaneError;
use stream_receivers::ReceiverError;
use thiserror::Error;

/// A refusal. Its text is its name.
#[derive(Clone, Copy, Debug, PartialEq, Eq, Error)]
pub enum LiveError {
    /// Memory ran out.
    #[error("L1")]
    Memory,
    /// A thread was not started.
    #[error("L2")]
    Thread,
}

impl From<AllocError> for LiveError {
    ghost from_gives = { λ _ e. e ≡ Memory };

    fn from(_error: AllocError) -> LiveError {
        LiveError::Memory
    }
}

impl<T: Drop> From<AllocFailed<T>> for LiveError {
    ghost from_gives = { λ _ e. e ≡ Memory };

    fn from(_error: AllocFailed<T>) -> LiveError {
        LiveError::Memory
    }
}

impl From<PartError> for LiveError {
    ghost from_gives = { λ _ e. e ≡ Memory };

    fn from(_error: PartError) -> LiveError {
        LiveError::Memory
    }
}

impl From<SeatError> for LiveError {
    ghost from_gives = { λ _ e. e ≡ Memory };

    fn from(_error: SeatError) -> LiveError {
        LiveError::Memory
    }
}

impl From<TableError> for LiveError {
    ghost from_gives = { λ _ e. e ≡ Memory };

    fn from(_error: TableError) -> LiveError {
        LiveError::Memory
    }
}

/// After the final copy no page is missing from the parts, so the error is lack of memory.
impl From<ImageError> for LiveError {
    ghost from_gives = { λ _ e. e ≡ Memory };

    fn from(_error: ImageError) -> LiveError {
        LiveError::Memory
    }
}

impl From<LaneError> for LiveError {
    ghost from_gives = { λ _ e. e ≡ Memory };

    fn from(_error: LaneError) -> LiveError {
        LiveError::Memory
    }
}

/// Only frames are sent, so the error is lack of memory.
impl From<ReceiverError> for LiveError {
    ghost from_gives = { λ _ e. e ≡ Memory };

    fn from(_error: ReceiverError) -> LiveError {
        LiveError::Memory
    }
}

impl From<IndexError> for LiveError {
    ghost from_gives = { λ _ e. e ≡ Memory };

    fn from(_error: IndexError) -> LiveError {
        LiveError::Memory
    }
}

impl From<PlanError> for LiveError {
    ghost from_gives = { λ _ e. e ≡ Memory };

    fn from(_error: PlanError) -> LiveError {
        LiveError::Memory
    }
}

/// The one cause of `L2` besides a final copy's own: a thread was requested and not made.
impl<F: Drop> From<SpawnError<F>> for LiveError {
    ghost from_gives = { λ _ e. e ≡ Thread };

    fn from(_refused: SpawnError<F>) -> LiveError {
        LiveError::Thread
    }
}

impl From<CopyError> for LiveError {
    ghost from_gives = { λ error e. ((error ≡ CopyMemory) × (e ≡ Memory))
        ⊎ ((error ≡ CopyThread) × (e ≡ Thread)) };

    fn from(error: CopyError) -> LiveError {
        match error {
            CopyError::Memory => LiveError::Memory,
            CopyError::Thread => LiveError::Thread,
        }
    }
}
