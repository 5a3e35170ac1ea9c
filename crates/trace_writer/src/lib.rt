//! A writer of traces into bytes that the caller lends: after each call the first bytes are a whole trace of version 2.
//! Nothing is allocated.
//!
//! A guest of 4 pages of `2^4` bytes writes page 1 at tick 5 and releases it at tick 9:
//!
//! ```
//! let mut trace = [0u8; 64];
//! let mut recording = Recording::begin(&mut trace, 4, 4)?;
//! recording.write(&mut trace, 5, 1, 15, &[2])?;
//! recording.release(&mut trace, 9, 1)?;
//! let again = TraceView::parse(&trace[..recording.length])?;
//! ```
#![tactic(auto)]

mod error;
mod laws;
mod parts;
mod recording;
mod refusals;

pub use error::RecordingError;
pub use laws::{one_recording, one_refusal};
pub use recording::Recording;
