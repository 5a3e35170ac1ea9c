//! Why bytes were not written.

use thiserror::Error;

/// Why bytes were not written, or not all of them.
#[derive(Clone, Copy, Debug, PartialEq, Eq, Error)]
pub enum SinkError {
    /// Memory ran out. Nothing is written then.
    #[error("memory")]
    Memory,
    /// The writer failed, took none of some bytes, or failed to flush.
    #[error("write")]
    Write,
}
