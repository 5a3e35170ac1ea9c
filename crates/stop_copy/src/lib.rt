//! The final copy of a stopped guest: each page that is still marked is sent once more. And the memory that it leaves.
#![tactic(auto)]

mod copying;
mod dealing;
mod error;
mod frames;
mod images;
mod threads;
mod workers;

pub use copying::final_copy;
pub use error::CopyError;
pub use images::GuestImages;
pub use threads::join_all;
