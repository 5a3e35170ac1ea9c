//! What the calls for C answer, and why they refuse, as values: plans, reports, sweeps, predictions, what is enough for
//! a limit, memory, versions of pages, and frames. The laws say that calls determine what they tell.
//!
//! `precopy_c` tells it to C. Nothing is kept between two calls but in what the caller lends.
#![tactic(auto)]

pub mod agreements;
pub mod answers;
pub mod buffers;
pub mod checking;
pub mod enough;
pub mod flat_memory;
pub mod forecasts;
pub mod frames;
mod inquiries;
mod laws;
pub mod link_shares;
pub mod memories;
pub mod memory_steps;
pub mod open_answers;
pub mod open_pieces;
pub mod opened;
pub mod page_writes;
mod piece_laws;
pub mod pieces;
pub mod place_answers;
pub mod plans;
pub mod predicting;
pub mod questions;
pub mod recordings;
pub mod reports;
pub mod settings;
pub mod sizes;
pub mod starts;
pub mod sweeps;
pub mod unstamped;
