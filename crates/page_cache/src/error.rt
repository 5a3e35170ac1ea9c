//! Why a page could not be made or kept.

ghost use Rattle.std.specs.Prelude.{◌≡◌};
ghost use Rattle.page_cache.specs.declared.error.CacheError.TheVariants.{Memory};

use page_versions::IndexError;
use std::alloc::{AllocError, AllocFailed};
use thiserror::Error;

/// Why a page could not be made or kept.
#[derive(Clone, Copy, Debug, PartialEq, Eq, Error)]
pub enum CacheError {
    /// Memory ran out.
    #[error("memory")]
    Memory,
}

impl From<AllocError> for CacheError {
    ghost from_gives = { λ _ e. e ≡ Memory };

    fn from(_error: AllocError) -> CacheError {
        CacheError::Memory
    }
}

impl<T: Drop> From<AllocFailed<T>> for CacheError {
    ghost from_gives = { λ _ e. e ≡ Memory };

    fn from(_error: AllocFailed<T>) -> CacheError {
        CacheError::Memory
    }
}

impl From<IndexError> for CacheError {
    ghost from_gives = { λ _ e. e ≡ Memory };

    fn from(_error: IndexError) -> CacheError {
        CacheError::Memory
    }
}
