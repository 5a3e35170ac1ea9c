//! Why a plan could not be made.

ghost use Rattle.std.specs.Prelude.{◌≡◌};
ghost use Rattle.round_planner.specs.declared.error.PlanError.TheVariants.{Memory};

use std::alloc::{AllocError, AllocFailed};
use thiserror::Error;

/// Why a plan could not be made.
#[derive(Clone, Copy, Debug, PartialEq, Eq, Error)]
pub enum PlanError {
    /// Memory ran out.
    #[error("memory")]
    Memory,
    /// A thread could not be started. No call returns it: in that case the caller's thread does the work.
    #[error("thread")]
    Thread,
}

impl From<AllocError> for PlanError {
    ghost from_gives = { λ _ e. e ≡ Memory };

    fn from(_error: AllocError) -> PlanError {
        PlanError::Memory
    }
}

impl<T: Drop> From<AllocFailed<T>> for PlanError {
    ghost from_gives = { λ _ e. e ≡ Memory };

    fn from(_error: AllocFailed<T>) -> PlanError {
        PlanError::Memory
    }
}
