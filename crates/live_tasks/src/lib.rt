//! What one replayer and one copier do in a round of a live migration: the replayer changes its pages, and the copier
//! sends the changed ones, each frame on a lane as soon as it is made. The caller starts the threads.
#![tactic(auto)]

mod copier;
mod copier_state;
mod error;
mod gate;
mod replayer;
mod round_log;

pub use copier::{Copier, SharedRound};
pub use copier_state::CopierState;
pub use error::SeatError;
pub use gate::{Gate, OpenGate, Point};
pub use replayer::{Ticks, replay};
pub use round_log::RoundLog;
