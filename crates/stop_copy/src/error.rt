//! Why a final copy could not be made.

ghost use Rattle.std.specs.Prelude.{◌≡◌};
ghost use Rattle.stop_copy.specs.declared.error.CopyError.TheVariants.{Memory as OutOfMemory, Thread as NoThread};

use collector::PartError;
use page_versions::IndexError;
use std::alloc::{AllocError, AllocFailed};
use std::thread::SpawnError;
use thiserror::Error;

/// Why a final copy could not be made.
#[derive(Clone, Copy, Debug, PartialEq, Eq, Error)]
pub enum CopyError {
    /// Memory ran out.
    #[error("memory")]
    Memory,
    /// A thread could not be started.
    #[error("thread")]
    Thread,
}

impl From<AllocError> for CopyError {
    ghost from_gives = { λ _ e. e ≡ OutOfMemory };

    fn from(_error: AllocError) -> CopyError {
        CopyError::Memory
    }
}

impl<T: Drop> From<AllocFailed<T>> for CopyError {
    ghost from_gives = { λ _ e. e ≡ OutOfMemory };

    fn from(_error: AllocFailed<T>) -> CopyError {
        CopyError::Memory
    }
}

impl From<IndexError> for CopyError {
    ghost from_gives = { λ _ e. e ≡ OutOfMemory };

    fn from(_error: IndexError) -> CopyError {
        CopyError::Memory
    }
}

impl From<PartError> for CopyError {
    ghost from_gives = { λ _ e. e ≡ OutOfMemory };

    fn from(_error: PartError) -> CopyError {
        CopyError::Memory
    }
}

impl<F: Drop> From<SpawnError<F>> for CopyError {
    ghost from_gives = { λ _ e. e ≡ NoThread };

    fn from(_refused: SpawnError<F>) -> CopyError {
        CopyError::Thread
    }
}
