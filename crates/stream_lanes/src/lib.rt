//! Lanes of frames, from each sender to each receiver: neither end ever waits.
#![tactic(auto)]

mod ends;
mod error;
mod grid;
mod new_lanes;
mod rest;
mod turning;

pub use ends::{LaneIn, LaneOut};
pub use error::LaneError;
pub use grid::Lanes;
pub use new_lanes::lanes;
pub use rest::{Rest, drain};
pub use turning::by_stream;
