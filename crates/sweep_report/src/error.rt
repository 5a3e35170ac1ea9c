//! Why a text could not be made.

ghost use Rattle.std.specs.Prelude.{◌≡◌};
ghost use Rattle.sweep_report.specs.declared.error.SweepError.TheVariants.{Memory};

use std::alloc::{AllocError, AllocFailed};
use thiserror::Error;

/// Why the lines or a text could not be made.
#[derive(Clone, Copy, Debug, PartialEq, Eq, Error)]
pub enum SweepError {
    /// Memory ran out.
    #[error("memory")]
    Memory,
    /// A thread could not be started. No call returns it: in that case the caller's thread does the work.
    #[error("thread")]
    Thread,
}

impl From<AllocError> for SweepError {
    ghost from_gives = { λ _ e. e ≡ Memory };

    fn from(_error: AllocError) -> SweepError {
        SweepError::Memory
    }
}

impl<T: Drop> From<AllocFailed<T>> for SweepError {
    ghost from_gives = { λ _ e. e ≡ Memory };

    fn from(_error: AllocFailed<T>) -> SweepError {
        SweepError::Memory
    }
}
