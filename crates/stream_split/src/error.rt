//! Why frames could not be split.

ghost use Rattle.std.specs.Prelude.{◌≡◌};
ghost use Rattle.stream_split.specs.declared.error.SplitError.TheVariants.{Memory};

use std::alloc::{AllocError, AllocFailed};
use thiserror::Error;

/// Why frames could not be split.
#[derive(Clone, Copy, Debug, PartialEq, Eq, Error)]
pub enum SplitError {
    /// Memory ran out.
    #[error("memory")]
    Memory,
}

impl From<AllocError> for SplitError {
    ghost from_gives = { λ _ e. e ≡ Memory };

    fn from(_error: AllocError) -> SplitError {
        SplitError::Memory
    }
}

impl<T: Drop> From<AllocFailed<T>> for SplitError {
    ghost from_gives = { λ _ e. e ≡ Memory };

    fn from(_error: AllocFailed<T>) -> SplitError {
        SplitError::Memory
    }
}
