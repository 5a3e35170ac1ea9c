//! Why a receiver could not take all that was sent.

use thiserror::Error;

/// Why a receiver did not take a frame.
#[derive(Clone, Copy, Debug, PartialEq, Eq, Error)]
pub enum ReceiverError {
    /// Memory ran out.
    #[error("memory")]
    Memory,
    /// The bytes that came on a lane are not the encoding of one frame.
    #[error("frame")]
    Frame,
}
