//! Why a part could not take a frame.

ghost use Rattle.std.specs.Prelude.{◌≡◌};
ghost use Rattle.collector.specs.declared.error.PartError.TheVariants.{Memory};

use std::alloc::{AllocError, AllocFailed};
use thiserror::Error;

/// Why a part could not take a frame.
#[derive(Clone, Copy, Debug, PartialEq, Eq, Error)]
pub enum PartError {
    /// Memory ran out.
    #[error("memory")]
    Memory,
}

impl From<AllocError> for PartError {
    ghost from_gives = { λ _ e. e ≡ Memory };

    fn from(_error: AllocError) -> PartError {
        PartError::Memory
    }
}

impl<T: Drop> From<AllocFailed<T>> for PartError {
    ghost from_gives = { λ _ e. e ≡ Memory };

    fn from(_error: AllocFailed<T>) -> PartError {
        PartError::Memory
    }
}
