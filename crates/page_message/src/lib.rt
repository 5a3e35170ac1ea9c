//! Frames: pages as they are sent, each at one of its versions.
#![tactic(auto)]

mod decoding;
mod encoding;
mod error;
mod frame;
mod page_frame;

pub use decoding::{decode_frame, view_frame};
pub use encoding::{append_frame, encode_frame};
pub use error::FrameError;
pub use frame::{Body, Frame, FrameView};
pub use page_frame::frame_of;
