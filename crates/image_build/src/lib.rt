//! A guest's memory, made from a trace or from parts.
#![tactic(auto)]

mod error;
mod image;
mod joined_parts;
mod joining;
mod laws;
mod replaying;
mod resuming;

pub use error::{ImageError, ReplayError};
pub use image::Image;
pub use joined_parts::{JoinedParts, of_parts};
pub use laws::joined_parts_lack_no_page;
pub use replaying::{replay, replay_before, replay_bytes, replay_view};
pub use resuming::resume;
