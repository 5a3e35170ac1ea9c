//! A check of a migration's streams over a trace that stays open, in memory that the caller lends: pieces of several
//! streams may come in any order. Nothing is copied from the trace, and nothing is allocated.
#![tactic(auto)]

mod arrival_laws;
mod base;
mod differences;
mod ending;
mod frames;
mod laws;
mod pieces;
mod stamps;
mod unstamped;

pub use arrival_laws::pieces_come_in_any_order;
pub use base::put_words;
pub use differences::{WrongByte, test_memory};
pub use ending::test_pages;
pub use laws::{
    current_pages_are_the_memory, first_version_serves, fitting_pages_are_right_frames,
    memory_after_is_kept, one_fitting_version, one_wrong_byte, zeros_hold_nothing,
};
pub use pieces::take_piece;
pub use unstamped::take_bytes;
