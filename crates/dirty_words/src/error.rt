//! Why a table is refused.

ghost use Rattle.std.specs.Prelude.{◌≡◌};
ghost use Rattle.dirty_words.specs.declared.error.TableError.TheVariants.{Memory};

use std::alloc::{AllocError, AllocFailed};
use thiserror::Error;

/// Why a table could not be opened.
#[derive(Clone, Copy, Debug, PartialEq, Eq, Error)]
pub enum TableError {
    /// Memory ran out.
    #[error("memory")]
    Memory,
}

impl From<AllocError> for TableError {
    ghost from_gives = { λ _ e. e ≡ Memory };

    fn from(_error: AllocError) -> TableError {
        TableError::Memory
    }
}

impl<T: Drop> From<AllocFailed<T>> for TableError {
    ghost from_gives = { λ _ e. e ≡ Memory };

    fn from(_error: AllocFailed<T>) -> TableError {
        TableError::Memory
    }
}
