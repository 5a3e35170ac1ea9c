//! The first thing that is wrong in streams.

ghost use Rattle.std.specs.Prelude.{◌≡◌};
ghost use Rattle.stream_check.specs.declared.error.StreamsError.TheVariants.{Memory, Page};

use crate::faults::{WrongFrame, WrongPage};
use std::alloc::AllocError;
use thiserror::Error;

/// The first thing that is wrong in some streams.
#[derive(Clone, Copy, Debug, PartialEq, Eq, Error)]
pub enum StreamsError {
    /// Memory ran out.
    #[error("memory")]
    Memory,
    /// A frame is wrong, of the stream with this number, from 0.
    #[error("frame")]
    Frame(usize, WrongFrame),
    /// A page is not at its version at the stop when all streams have ended.
    #[error("page")]
    Page(WrongPage),
}

impl From<AllocError> for StreamsError {
    ghost from_gives = { λ _ e. e ≡ Memory };

    fn from(_error: AllocError) -> StreamsError {
        StreamsError::Memory
    }
}

impl From<WrongPage> for StreamsError {
    ghost from_gives = { λ found e. e ≡ Page found };

    fn from(found: WrongPage) -> StreamsError {
        StreamsError::Page(found)
    }
}
