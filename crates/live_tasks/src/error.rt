//! Why a copier could not go on.

ghost use Rattle.std.specs.Prelude.{◌≡◌};
ghost use Rattle.live_tasks.specs.declared.error.SeatError.TheVariants.{Memory};

use page_cache::CacheError;
use page_message::FrameError;
use page_versions::IndexError;
use std::alloc::{AllocError, AllocFailed};
use thiserror::Error;

/// Why a copier could not go on.
#[derive(Clone, Copy, Debug, PartialEq, Eq, Error)]
pub enum SeatError {
    /// Memory ran out.
    #[error("memory")]
    Memory,
}

impl From<AllocError> for SeatError {
    ghost from_gives = { λ _ e. e ≡ Memory };

    fn from(_error: AllocError) -> SeatError {
        SeatError::Memory
    }
}

impl<T: Drop> From<AllocFailed<T>> for SeatError {
    ghost from_gives = { λ _ e. e ≡ Memory };

    fn from(_error: AllocFailed<T>) -> SeatError {
        SeatError::Memory
    }
}

impl From<CacheError> for SeatError {
    ghost from_gives = { λ _ e. e ≡ Memory };

    fn from(_error: CacheError) -> SeatError {
        SeatError::Memory
    }
}

impl From<IndexError> for SeatError {
    ghost from_gives = { λ _ e. e ≡ Memory };

    fn from(_error: IndexError) -> SeatError {
        SeatError::Memory
    }
}

/// Appending a frame can fail only for lack of memory.
impl From<FrameError> for SeatError {
    ghost from_gives = { λ _ e. e ≡ Memory };

    fn from(_error: FrameError) -> SeatError {
        SeatError::Memory
    }
}
