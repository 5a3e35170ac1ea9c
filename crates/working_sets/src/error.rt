//! Why tables could not be made.

ghost use Rattle.std.specs.Prelude.{◌≡◌};
ghost use Rattle.working_sets.specs.declared.error.TablesError.TheVariants.{Memory};

use std::alloc::{AllocError, AllocFailed};
use thiserror::Error;

/// Why tables could not be made.
#[derive(Clone, Copy, Debug, PartialEq, Eq, Error)]
pub enum TablesError {
    /// Memory ran out.
    #[error("memory")]
    Memory,
    /// A thread could not be started. No call returns it: in that case the caller's thread does the work.
    #[error("thread")]
    Thread,
}

impl From<AllocError> for TablesError {
    ghost from_gives = { λ _ e. e ≡ Memory };

    fn from(_error: AllocError) -> TablesError {
        TablesError::Memory
    }
}

impl<T: Drop> From<AllocFailed<T>> for TablesError {
    ghost from_gives = { λ _ e. e ≡ Memory };

    fn from(_error: AllocFailed<T>) -> TablesError {
        TablesError::Memory
    }
}
