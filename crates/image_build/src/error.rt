//! Why an image could not be made.

ghost use Rattle.std.specs.Prelude.{◌≡◌};
ghost use Rattle.image_build.specs.declared.error.ImageError.TheVariants.{Memory};
ghost use Rattle.image_build.specs.declared.error.ReplayError.TheVariants.{Memory as OutOfMemory, Trace as OfTrace};

use std::alloc::{AllocError, AllocFailed};
use thiserror::Error;
use trace_codec::TraceError;

/// Why an image could not be made.
#[derive(Clone, Copy, Debug, PartialEq, Eq, Error)]
pub enum ImageError {
    /// The page is in no part.
    #[error("missing {0}")]
    Missing(u32),
    /// Memory ran out.
    #[error("memory")]
    Memory,
}

impl From<AllocError> for ImageError {
    ghost from_gives = { λ _ e. e ≡ Memory };

    fn from(_error: AllocError) -> ImageError {
        ImageError::Memory
    }
}

impl<T: Drop> From<AllocFailed<T>> for ImageError {
    ghost from_gives = { λ _ e. e ≡ Memory };

    fn from(_error: AllocFailed<T>) -> ImageError {
        ImageError::Memory
    }
}

/// Why memory could not be made from bytes that may encode a trace.
#[derive(Clone, Copy, Debug, PartialEq, Eq, Error)]
pub enum ReplayError {
    /// The bytes are not a trace.
    #[error("trace {0}")]
    Trace(TraceError),
    /// Memory ran out.
    #[error("memory")]
    Memory,
}

impl From<TraceError> for ReplayError {
    ghost from_gives = { λ e f. f ≡ OfTrace e };

    fn from(error: TraceError) -> ReplayError {
        ReplayError::Trace(error)
    }
}

impl From<AllocError> for ReplayError {
    ghost from_gives = { λ _ f. f ≡ OutOfMemory };

    fn from(_error: AllocError) -> ReplayError {
        ReplayError::Memory
    }
}
