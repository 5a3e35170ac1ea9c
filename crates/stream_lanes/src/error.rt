//! Why lanes could not be made.

ghost use Rattle.std.specs.Prelude.{◌≡◌};
ghost use Rattle.stream_lanes.specs.declared.error.LaneError.TheVariants.{Memory};

use std::alloc::{AllocError, AllocFailed};
use thiserror::Error;

/// Why lanes could not be made.
#[derive(Clone, Copy, Debug, PartialEq, Eq, Error)]
pub enum LaneError {
    /// Memory ran out, for a list or a ring.
    #[error("memory")]
    Memory,
}

impl From<AllocError> for LaneError {
    ghost from_gives = { λ _ e. e ≡ Memory };

    fn from(_error: AllocError) -> LaneError {
        LaneError::Memory
    }
}

impl<T: Drop> From<AllocFailed<T>> for LaneError {
    ghost from_gives = { λ _ e. e ≡ Memory };

    fn from(_error: AllocFailed<T>) -> LaneError {
        LaneError::Memory
    }
}
