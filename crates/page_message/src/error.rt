//! Why bytes begin with no frame.

ghost use Rattle.std.specs.Prelude.{◌≡◌};
ghost use Rattle.page_message.specs.declared.error.FrameError.TheVariants.{Memory};

use std::alloc::AllocError;
use thiserror::Error;

/// Why bytes begin with no frame, written as its name. If there are several causes, the error is the first by the
/// number in its name; a kind 1 with less than a page after it is `F1` after `F4`.
#[derive(Clone, Copy, Debug, PartialEq, Eq, Error)]
pub enum FrameError {
    /// Fewer than 9 bytes, or less than a page after a kind 1.
    #[error("F1")]
    Short,
    /// A page is not below the number of pages.
    #[error("F2")]
    Page,
    /// A stamp is greater than the number of writes.
    #[error("F3")]
    Stamp,
    /// A kind is not 0 or 1.
    #[error("F4")]
    Kind,
    /// A kind 1 has a page of zeros after it.
    #[error("F5")]
    ZeroData,
    /// Memory ran out.
    #[error("F6")]
    Memory,
}

impl From<AllocError> for FrameError {
    ghost from_gives = { λ _ e. e ≡ Memory };

    fn from(_error: AllocError) -> FrameError {
        FrameError::Memory
    }
}
