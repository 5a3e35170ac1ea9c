//! Why a view could not be made.

ghost use Rattle.std.specs.Prelude.{◌≡◌};
ghost use Rattle.trace_views.specs.Refusals.{error_for_starts};
ghost use Rattle.trace_views.specs.declared.error.ViewError.TheVariants.{Memory};

use predictions::starts::StartsError;
use rate_limit::SettingsError;
use std::alloc::{AllocError, AllocFailed};
use thiserror::Error;

/// Why a view could not be made.
#[derive(Clone, Copy, Debug, PartialEq, Eq, Error)]
pub enum ViewError {
    /// Memory ran out.
    #[error("memory")]
    Memory,
    /// There are more than 4,096 starts.
    #[error("--every: more than 4,096 starts; take a greater one")]
    TooManyStarts,
    /// The settings of a start are out of their range.
    #[error("settings {0}")]
    Settings(SettingsError),
}

impl From<AllocError> for ViewError {
    ghost from_gives = { λ _ e. e ≡ Memory };

    fn from(_error: AllocError) -> ViewError {
        ViewError::Memory
    }
}

impl<T: Drop> From<AllocFailed<T>> for ViewError {
    ghost from_gives = { λ _ e. e ≡ Memory };

    fn from(_error: AllocFailed<T>) -> ViewError {
        ViewError::Memory
    }
}

impl From<StartsError> for ViewError {
    ghost from_gives = { λ error e. e ≡ error_for_starts error };

    fn from(error: StartsError) -> ViewError {
        match error {
            StartsError::Memory => ViewError::Memory,
            StartsError::TooMany => ViewError::TooManyStarts,
            StartsError::Settings(error) => ViewError::Settings(error),
        }
    }
}
