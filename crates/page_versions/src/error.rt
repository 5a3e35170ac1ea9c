//! Why an index or a page could not be made.

ghost use Rattle.std.specs.Prelude.{◌≡◌};
ghost use Rattle.page_versions.specs.declared.error.IndexError.TheVariants.{Memory};

use std::alloc::{AllocError, AllocFailed};
use thiserror::Error;

/// Why an index or a page could not be made.
#[derive(Clone, Copy, Debug, PartialEq, Eq, Error)]
pub enum IndexError {
    /// Memory ran out.
    #[error("memory")]
    Memory,
}

impl From<AllocError> for IndexError {
    ghost from_gives = { λ _ e. e ≡ Memory };

    fn from(_error: AllocError) -> IndexError {
        IndexError::Memory
    }
}

impl<T: Drop> From<AllocFailed<T>> for IndexError {
    ghost from_gives = { λ _ e. e ≡ Memory };

    fn from(_error: AllocFailed<T>) -> IndexError {
        IndexError::Memory
    }
}
