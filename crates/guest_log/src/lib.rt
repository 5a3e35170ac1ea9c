//! What a log of guest writes says: the sizes of the guest, when its pages are written, and what is written.
//!
//! Working sets and rounds need only a [`Timeline`]. What needs the bytes of writes takes a [`WriteLog`]. A trace is
//! both; so is any other source of writes that keeps to these contracts.
#![tactic(auto)]

mod shape;
mod timeline;
mod write;
mod write_log;

pub use shape::{Header, LAST_VERSION, Shape};
pub use timeline::{Timeline, Touch, last_tick};
pub use write::{Write, WriteView};
pub use write_log::WriteLog;
