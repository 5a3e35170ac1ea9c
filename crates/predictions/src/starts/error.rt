//! Why starts make no cases.

ghost use Rattle.std.specs.Prelude.{◌≡◌};
ghost use Rattle.predictions.specs.declared.starts.error.StartsError.TheVariants.{Memory};

use rate_limit::SettingsError;
use std::alloc::{AllocError, AllocFailed};
use thiserror::Error;

/// Why starts make no cases.
#[derive(Clone, Copy, Debug, PartialEq, Eq, Error)]
pub enum StartsError {
    /// Memory ran out.
    #[error("memory")]
    Memory,
    /// There are more than 4,096 starts.
    #[error("--every: more than 4,096 starts; take a greater one")]
    TooMany,
    /// The settings of a start are out of their range.
    #[error("settings {0}")]
    Settings(SettingsError),
}

impl From<AllocError> for StartsError {
    ghost from_gives = { λ _ e. e ≡ Memory };

    fn from(_error: AllocError) -> StartsError {
        StartsError::Memory
    }
}

impl<T: Drop> From<AllocFailed<T>> for StartsError {
    ghost from_gives = { λ _ e. e ≡ Memory };

    fn from(_error: AllocFailed<T>) -> StartsError {
        StartsError::Memory
    }
}
